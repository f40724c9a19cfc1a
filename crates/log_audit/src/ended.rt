//! Whether each call of a script was submitted and has one reply.
ghost use Rattle.std.specs.Prelude.{◌≡◌, ◌≤◌, true, length, IfOk};
ghost use Rattle.script_lang.specs.Accepted.{IsAccepted, calls_of};
ghost use Rattle.mount_log.specs.Follows.{AreInOrder, IsFinished};
ghost use Rattle.mount_log.specs.Logs.{submits_in};

use crate::finished::have_one_reply;
use mount_log::{HubEvent, Log};
use script_lang::{Phase, Script};
use std::alloc::{AllocError, Global};

fn count_submits(events: &[HubEvent]) -> usize
    ensures { result ≡ submits_in events.now }
{
    let mut count = 0usize;
    for event in events {
        let HubEvent::Submit { .. } = event else {
            continue;
        };
        count += 1;
    }
    count
}

fn count_calls(phases: &[Phase]) -> usize
    requires { length (calls_of phases.now) ≤ 4096 }
    ensures { result ≡ length (calls_of phases.now) }
{
    let mut count = 0usize;
    for phase in phases {
        count += phase.calls.len();
    }
    count
}

/// Whether each call of the script was submitted and has one reply, and nothing else has one, where sessions submit their
/// lines in order (`submits_are_in_order`).
///
/// # Errors
/// Out of memory.
pub fn is_finished(alloc: Global, script: &Script, log: &Log) -> Result<bool, AllocError>
    requires { IsAccepted script.now }
    ensures sound { IfOk result (λ yes. yes ≡ true → AreInOrder script.now log.now → IsFinished script.now log.now) }
    ensures complete { IfOk result (λ yes. AreInOrder script.now log.now → IsFinished script.now log.now → yes ≡ true) }
{
    let calls = count_calls(script.phases.as_slice());
    if count_submits(log.events.as_slice()) != calls {
        return Ok(false);
    }
    let one = have_one_reply(alloc, calls, log.replies.as_slice())?;
    Ok(one)
}
