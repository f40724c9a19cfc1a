ghost use Rattle.std.specs.Prelude.{◌≡◌, ◌≤◌, ◌<◌, [], length, slice_index_or, IfOk, IfSome};
ghost use Rattle.dht_linkto.specs.Search.{set_named};

use fop_types::Seq;
use std::alloc::{AllocError, Global};
use std::marker::Model;

/// The names of the sets of a volume, in order, of which there are at most 255. Contracts see their list.
#[derive(Drop)]
pub struct SetNames {
    names: Seq<Seq<u8>>,
}

impl Model for SetNames {
    ghost use Rattle.std.specs.Prelude.{List, ℕ, ◌≤◌, length};

    ghost Value = { List (List ℕ) };

    ghost view = { λ s. s.names };

    ghost invariant = { λ s. length s.names ≤ 255 };
}

impl SetNames {
    /// A copy of the names.
    ///
    /// # Errors
    /// Out of memory.
    pub fn copied(alloc: Global, names: &[Seq<u8>]) -> Result<SetNames, AllocError>
        requires { length names.now ≤ 255 }
        ensures { IfOk result (λ copy. copy ≡ names.now) }
    {
        let names = copy_names(alloc, names)?;
        Ok(SetNames { names })
    }

    /// The number of sets.
    pub fn count(&self) -> u8
        ensures { result ≡ length self.now }
    {
        self.names.len() as u8
    }

    /// The name of a set; empty where there is no such set.
    pub fn name_of(&self, set: u8) -> &[u8]
        ensures { result.now ≡ slice_index_or self.now set [] }
    {
        match self.names.as_slice().get(set as usize) {
            Some(name) => name.as_slice(),
            None => &[],
        }
    }

    /// The set that has a name, in time of the number of sets.
    pub fn set_named(&self, target: &[u8]) -> Option<u8>
        ensures set { result ≡ set_named self.now target.now }
        ensures within { IfSome result (λ set. set < length self.now) }
    {
        set_named(self.names.as_slice(), target)
    }
}

fn set_named(names: &[Seq<u8>], target: &[u8]) -> Option<u8>
    requires { length names.now ≤ 255 }
    ensures set { result ≡ set_named names.now target.now }
    ensures within { IfSome result (λ set. set < length names.now) }
{
    for (set, name) in names.iter().enumerate() {
        if name.as_slice() == target {
            return Some(set as u8);
        }
    }
    None
}

fn copy_names(alloc: Global, names: &[Seq<u8>]) -> Result<Seq<Seq<u8>>, AllocError>
    ensures { IfOk result (λ copies. copies ≡ names.now) }
{
    let mut copies = Vec::with_capacity(alloc, names.len())?;
    for name in names {
        copies.push(name.copy(alloc)?)?;
    }
    Ok(Seq::from_vec(copies))
}
