use std::alloc::AllocError;

/// A read or a write that failed. The source or sink counted it as a fault.
#[derive(Clone, Copy)]
pub struct Failed;

/// Why a text could not be read whole.
#[derive(Clone, Copy)]
pub enum ReadError {
    /// A read failed, so the source's count of faults rose.
    ReadFault,
    /// More bytes came than the limit allows.
    TooLong,
    /// Out of memory.
    Mem,
}

impl From<AllocError> for ReadError {
    ghost use Rattle.std.specs.Prelude.{◌≡◌};
    ghost use Rattle.xl_base.specs.declared.failures.ReadError.TheVariants.{Mem};

    ghost from_gives = { λ _ r. r ≡ Mem };

    fn from(_: AllocError) -> ReadError {
        ReadError::Mem
    }
}
