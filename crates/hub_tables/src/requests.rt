//! Which request a control names.
ghost use Rattle.std.specs.Prelude.{◌≡◌, Some};
ghost use Rattle.mount_log.specs.Procedures.{proc_by};
ghost use Rattle.hub_tables.specs.PhaseControls.{nth};

use crate::actions::proc_rank;
use fop_types::Proc;

/// A request by its brick, its procedure and its number among those of the procedure that are sent to the brick in a
/// phase, from 1. `proc` is the procedure's rank.
#[derive(Clone, Copy, PartialEq, Eq, PartialOrd, Ord)]
pub struct Nth {
    pub brick: u8,
    pub proc: u8,
    pub count: u32,
}

impl Nth {
    /// The request of this brick, procedure and number.
    pub fn new(brick: u8, proc: Proc, count: u32) -> Nth
        ensures request { result ≡ nth brick proc count }
        ensures proc { proc_by (Some result.proc) ≡ Some proc }
    {
        Nth {
            brick,
            proc: proc_rank(proc),
            count,
        }
    }
}
