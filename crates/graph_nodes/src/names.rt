//! The names of a volume's sets.
ghost use Rattle.std.specs.Prelude.{◌≡◌, ◌++◌, [], ◌∷◌, OnOk, OnErr};
ghost use Rattle.fop_types.specs.Bounds.{Each, IsVolumeName};

use fop_types::Seq;
use std::alloc::{AllocError, Global};
use std::marker::Model;

/// The names of the sets of a volume, in their order, each of them a name of a volume.
#[derive(Drop)]
pub struct SetNames {
    names: Seq<Seq<u8>>,
}

impl Model for SetNames {
    ghost use Rattle.std.specs.Prelude.{ℕ, List};
    ghost use Rattle.fop_types.specs.Bounds.{Each, IsVolumeName};

    ghost Value = { List (List ℕ) };

    ghost view = { λ n. n.names };

    ghost invariant = { λ n. Each IsVolumeName n.names };
}

impl SetNames {
    /// No names, which takes no memory.
    pub fn new(alloc: Global) -> SetNames
        ensures { result ≡ [] }
    {
        SetNames {
            names: Seq::new(alloc),
        }
    }

    /// One name more, at the end.
    ///
    /// # Errors
    /// Out of memory, and nothing changed.
    #[tactic(auto, using(crate::proofs::Appends::each_more))]
    pub fn push(&mut self, name: Seq<u8>) -> Result<(), AllocError>
        requires { IsVolumeName name }
        ensures ok { OnOk result (self.new ≡ self.old ++ name ∷ []) }
        ensures err { OnErr result (self.new ≡ self.old) }
    {
        self.names.push(name)?;
        Ok(())
    }

    /// The names.
    pub fn as_slice(&self) -> &[Seq<u8>]
        ensures is { result.now ≡ self.now }
        ensures named { Each IsVolumeName result.now }
    {
        self.names.as_slice()
    }
}
