ghost use Rattle.std.specs.Prelude.{◌≡◌, ◌<◌, ◌≤◌, ℕ, List, [], ◌∷◌, ◌++◌, length, OnOk, OnErr};
ghost use Rattle.volfile.specs.TextLines.{is_text as is_text_of};
ghost use Rattle.script_lang.specs.WordForms.{place_of};

use fop_types::Seq;
use std::alloc::{AllocError, Global};
use std::marker::Model;

// What a script defines by a name.
pub trait Named {
    ghost name_of: { Self → List ℕ };

    fn name(&self) -> &[u8]
        ensures { result.now ≡ name_of self.now };
}

// A list of at most 64 items, so that a byte numbers them.
#[derive(Drop)]
pub struct Few<T> {
    items: Seq<T>,
}

impl<T> Model for Few<T> {
    ghost use Rattle.std.specs.Prelude.{List, ◌≤◌, length};

    ghost Value = { List T };

    ghost view = { λ f. f.items };

    ghost invariant = { λ f. length f.items ≤ 64 };
}

impl<T> Few<T> {
    pub fn new(alloc: Global) -> Few<T>
        ensures { result ≡ [] }
    {
        Few {
            items: Seq::new(alloc),
        }
    }

    pub fn len(&self) -> usize
        ensures len { result ≡ length self.now }
        ensures few { result ≤ 64 }
    {
        self.items.len()
    }

    pub fn as_slice(&self) -> &[T]
        ensures { result.now ≡ self.now }
    {
        self.items.as_slice()
    }

    pub fn into_seq(self) -> Seq<T>
        ensures { result ≡ self }
    {
        self.items
    }
}

impl<T: Drop> Few<T> {
    pub fn push(&mut self, item: T) -> Result<(), AllocError>
        requires { length self.old < 64 }
        ensures ok { OnOk result (self.new ≡ self.old ++ item ∷ []) }
        ensures err { OnErr result (self.new ≡ self.old) }
    {
        self.items.push(item)?;
        Ok(())
    }
}

impl<T: Named> Few<T> {
    // The number, from 0, of the first item with the name. It looks at each name once.
    pub fn place(&self, name: &[u8]) -> Option<u8>
        ensures { result ≡ place_of (λ x. is_text_of (T.name_of x) name.now) self.now }
    {
        let mut place: u8 = 0;
        for item in self.items.as_slice() {
            if item.name() == name {
                return Some(place);
            }
            place += 1;
        }
        None
    }
}
