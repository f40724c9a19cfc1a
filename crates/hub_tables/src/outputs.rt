//! What an output of a brick says to the hub.
ghost use Rattle.std.specs.Prelude.{◌≡◌};
ghost use Rattle.mount_log.specs.Phases.{is_due as is_owed};
ghost use Rattle.hub_tables.specs.Closing.{ClosesBy};

use crate::small_set::SmallSet;
use fop_types::OutKind;

/// Whether an output is one that was owed: for a request, a Down or an Up.
pub fn is_due(kind: &OutKind) -> bool
    ensures { result ≡ is_owed kind.now }
{
    match kind {
        OutKind::Reply { .. } => true,
        OutKind::Closed => true,
        OutKind::Opened => true,
        OutKind::Connected { .. } => false,
        OutKind::Malformed { .. } => false,
    }
}

/// The bricks that are closed, after an output of a brick.
pub fn closed_after(closed: SmallSet, brick: u8, kind: &OutKind) -> SmallSet
    ensures { ClosesBy closed brick kind.now result }
{
    match kind {
        OutKind::Closed => closed.with(brick),
        OutKind::Opened => closed.without(brick),
        OutKind::Reply { .. } => closed,
        OutKind::Connected { .. } => closed,
        OutKind::Malformed { .. } => closed,
    }
}
