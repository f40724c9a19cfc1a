use std::alloc::AllocError;

/// Why a volume is refused in a plan. Of the kinds that hold of one volume the first in this order is
/// reported, and `Unused` after all others of all volumes.
#[derive(Clone, Copy, PartialEq, Eq)]
pub enum PlanKind {
    /// No plan has the type.
    UnknownKind,
    /// The type takes another number of subvolumes.
    SubvolumeCount,
    /// A replicate volume has not three subvolumes, or an arbiter, or a thin arbiter.
    BadReplica,
    /// A replicate volume's `quorum-type` is there and is not `auto`.
    NotAuto,
    /// A client lacks `remote-host` or `remote-subvolume`, or no brick has both.
    NoBrick,
    /// An earlier client has the brick.
    BrickTwice,
    /// A `cache-size` is no number of bytes below 2^64.
    BadOption,
    /// A subvolume is used by an earlier volume, or twice by this one.
    UsedTwice,
    /// What is below may not be there.
    NestedCluster,
    /// A path down has more than 24 volumes.
    TooDeep,
    /// No volume uses it, and it is not the last.
    Unused,
}

/// Why a volfile has no plan. `volume` is the place of the volume that is refused, from 0.
#[derive(Clone, Copy, PartialEq, Eq)]
pub enum PlanError {
    At { volume: u16, kind: PlanKind },
    /// Out of memory.
    Mem,
}

impl From<AllocError> for PlanError {
    ghost use Rattle.std.specs.Prelude.{◌≡◌};
    ghost use Rattle.graph_build.specs.declared.errors.PlanError.TheVariants.{Mem};

    ghost from_gives = { λ _ r. r ≡ Mem };

    fn from(_: AllocError) -> PlanError {
        PlanError::Mem
    }
}
