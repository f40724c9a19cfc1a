use std::alloc::AllocError;

/// Why a reader stops.
#[derive(Clone, Copy)]
pub enum Fault {
    /// A unit continues no encoding: `left` bytes are left from its first byte on.
    Wrong { left: usize },
    /// The bytes end before the value does.
    Short,
    /// Out of memory.
    Memory(AllocError),
}

impl From<AllocError> for Fault {
    ghost use Rattle.std.specs.Prelude.{◌≡◌};
    ghost use Rattle.wire_xdr.specs.declared.decode.faults.Fault.TheVariants.{Memory};

    ghost from_gives = { λ error fault. fault ≡ Memory error };

    fn from(error: AllocError) -> Fault {
        Fault::Memory(error)
    }
}
