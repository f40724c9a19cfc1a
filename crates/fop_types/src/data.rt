ghost use Rattle.std.specs.Prelude.{◌≡◌, ◌==◌, [], length, IfOk, OnOk, OnErr};
ghost use Rattle.fop_types.specs.DataBytes.{bytes_of};

use bytes::Bytes;
use std::alloc::{AllocError, Global};
use std::marker::Model;
use std::mem;

// Where the bytes are: in a vector of their own, or in a block that has several owners.
#[derive(Drop)]
pub enum Held {
    Own(Vec<u8>),
    Shared(Bytes),
}

impl Held {
    fn as_slice(&self) -> &[u8]
        ensures { result.now ≡ bytes_of self.now }
    {
        match self {
            Held::Own(bytes) => bytes.as_slice(),
            Held::Shared(bytes) => bytes.as_slice(),
        }
    }

    // The same bytes once more, of which none is copied where they are shared.
    fn copy(&self, alloc: Global) -> Result<Held, AllocError>
        ensures { IfOk result (λ held. bytes_of held ≡ bytes_of self.now) }
    {
        match self {
            Held::Own(bytes) => {
                let bytes = Vec::from_slice(alloc, bytes.as_slice())?;
                Ok(Held::Own(bytes))
            }
            Held::Shared(bytes) => {
                let bytes = bytes.clone()?;
                Ok(Held::Shared(bytes))
            }
        }
    }
}

/// Bytes of a file or of a write, which several owners may share. Contracts see them as the plain list, and nothing of
/// who shares them.
#[derive(Drop)]
pub struct Data {
    held: Held,
}

impl Model for Data {
    ghost use Rattle.std.specs.Prelude.{ℕ, List};
    ghost use Rattle.fop_types.specs.DataBytes.{bytes_of};

    ghost Value = { List ℕ };

    ghost view = { λ d. bytes_of d.held };
}

impl Data {
    /// No bytes, which take no memory.
    pub fn new(alloc: Global) -> Data
        ensures { result ≡ [] }
    {
        Data::from_vec(Vec::new(alloc))
    }

    /// The bytes of a vector, which has no other owner.
    pub fn from_vec(bytes: Vec<u8>) -> Data
        ensures { result ≡ bytes.items }
    {
        Data {
            held: Held::Own(bytes),
        }
    }

    /// Bytes that others may own too.
    pub fn from_shared(bytes: Bytes) -> Data
        ensures { result ≡ bytes }
    {
        Data {
            held: Held::Shared(bytes),
        }
    }

    /// The bytes of a vector, which copies will share.
    ///
    /// # Errors
    /// Out of memory.
    pub fn shared(bytes: Vec<u8>) -> Result<Data, AllocError>
        ensures { IfOk result (λ d. d ≡ bytes.items) }
    {
        let bytes = Bytes::from_vec(bytes)?;
        Ok(Data::from_shared(bytes))
    }

    /// The bytes as a slice.
    pub fn as_slice(&self) -> &[u8]
        ensures { result.now ≡ self.now }
    {
        self.held.as_slice()
    }

    /// The number of bytes.
    pub fn len(&self) -> usize
        ensures { result ≡ length self.now }
    {
        self.as_slice().len()
    }

    /// True exactly where there is no byte.
    pub fn is_empty(&self) -> bool
        ensures { result ≡ (length self.now == 0) }
    {
        self.as_slice().is_empty()
    }

    /// The same bytes once more. None is copied where they are shared.
    ///
    /// # Errors
    /// Out of memory.
    pub fn copy(&self, alloc: Global) -> Result<Data, AllocError>
        ensures { IfOk result (λ d. d ≡ self.now) }
    {
        let held = self.held.copy(alloc)?;
        Ok(Data { held })
    }

    /// Takes the bytes out as a vector. They are copied where they are shared.
    ///
    /// # Errors
    /// Out of memory, with the bytes where they were.
    pub fn take(&mut self, alloc: Global) -> Result<Vec<u8>, AllocError>
        ensures ok { IfOk result (λ v. v.items ≡ self.old) }
        ensures none { OnOk result (self.new ≡ []) }
        ensures err { OnErr result (self.new ≡ self.old) }
    {
        match mem::replace(&mut self.held, Held::Own(Vec::new(alloc))) {
            Held::Own(bytes) => Ok(bytes),
            Held::Shared(bytes) => self.take_copy(alloc, bytes),
        }
    }

    // A copy of bytes, which are put back where it can't be made.
    fn take_copy(&mut self, alloc: Global, bytes: Bytes) -> Result<Vec<u8>, AllocError>
        requires { self.old ≡ [] }
        ensures ok { IfOk result (λ v. v.items ≡ bytes) }
        ensures none { OnOk result (self.new ≡ []) }
        ensures err { OnErr result (self.new ≡ bytes) }
    {
        match Vec::from_slice(alloc, bytes.as_slice()) {
            Ok(copied) => {
                drop(bytes);
                Ok(copied)
            }
            Err(error) => {
                self.held = Held::Shared(bytes);
                Err(error)
            }
        }
    }
}

impl PartialEq for Data {
    ghost use Rattle.std.specs.Prelude.{nat_eq};
    ghost use Rattle.std.specs.Cmp.Lexicographic.{pointwise, nat_list_eq_equiv};
    ghost use Rattle.std.specs.Cmp.{partial_equiv_from_equiv};

    ghost eq = { pointwise nat_eq };

    ghost laws = { partial_equiv_from_equiv nat_list_eq_equiv };

    fn eq(&self, other: &Data) -> bool {
        self.as_slice() == other.as_slice()
    }
}

impl Eq for Data {
    ghost use Rattle.std.specs.Cmp.Lexicographic.{nat_list_eq_equiv};

    ghost laws = { nat_list_eq_equiv };
}
