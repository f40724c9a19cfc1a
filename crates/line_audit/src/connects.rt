//! Whether what was sent to connect and disconnect graphs, and for controls, has a cause, and what is due was sent.
ghost use Rattle.std.specs.Prelude.{◌≡◌, true, IfOk};
ghost use Rattle.mount_log.specs.Connects.{ConnectsAreCaused};
ghost use Rattle.mount_log.specs.Heads.{heads_of};
ghost use Rattle.line_audit.specs.Caused.{AreCausedAt, AreSentFirst};
ghost use Rattle.line_audit.specs.Linked.{CanBeLinked};

use crate::causes::lines_are_caused;
use crate::downs::downs_are_carried;
use crate::linked::are_linked;
use graph_build::Plan;
use mount_log::Log;
use mount_log::heads::Head;
use script_lang::Script;
use std::alloc::{AllocError, Global};
use wire_messages::messages_read_back;

/// Whether each Connect, Disconnect, Down and Up was sent for a cause, each Connect and each input of an action that has a
/// cause was sent, each cut disconnects, and requests went to connected bricks. It may be false, too, where the first line of
/// the event of an action that has an input is not that input; a Down is armed for its request only by another line with the
/// same content; a line is of no event, a wind of no graph, or a reply of no call that there is; wind lines are not in the
/// order of their events, or their slots not below 2^31; or there are more than 4,294,967,295 graphs. `heads` are those of the
/// log's events.
///
/// # Errors
/// Out of memory.
pub fn connects_are_caused(
    alloc: Global,
    script: &Script,
    plans: &[Plan],
    log: &Log,
    heads: &[Head],
) -> Result<bool, AllocError>
    requires heads { heads.now ≡ heads_of log.now.events }
    ensures sound { IfOk result (λ yes. yes ≡ true → ConnectsAreCaused script.now plans.now log.now) }
    ensures complete { IfOk result (λ yes. CanBeLinked script.now log.now → AreSentFirst log.now → AreCausedAt log.now → ConnectsAreCaused script.now plans.now log.now → yes ≡ true) }
{
    messages_read_back();
    if !lines_are_caused(alloc, log)? {
        return Ok(false);
    }
    if !downs_are_carried(alloc, log)? {
        return Ok(false);
    }
    let linked = are_linked(alloc, script, plans, log, heads)?;
    Ok(linked)
}
