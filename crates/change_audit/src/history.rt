//! The entries of a history and their operations, by place.
ghost use Rattle.std.specs.Prelude.{◌≡◌, option_copied, slice_get};

use fop_types::{Entry, FlatOp};
use mount_log::Log;

/// The entry at a place of the history.
pub fn entry_at(log: &Log, k: usize) -> Option<Entry>
    ensures { result ≡ slice_get log.now.history k }
{
    log.history.as_slice().get(k).copied()
}

/// The operation at a place.
pub fn op_at(ops: &[FlatOp], k: usize) -> Option<&FlatOp>
    ensures { option_copied result ≡ slice_get ops.now k }
{
    ops.get(k)
}
