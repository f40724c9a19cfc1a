//! Whether each session's calls are submitted in their order in the script.
ghost use Rattle.std.specs.Prelude.{◌≡◌, ◌↔◌, IsTrue, option_copied, slice_get, IfOk};
ghost use Rattle.script_lang.specs.Accepted.{IsAccepted};
ghost use Rattle.mount_log.specs.Follows.{AreInOrder};
ghost use Rattle.mount_log.specs.Lines.{line_of};
ghost use Rattle.log_audit.specs.Submitted.{HasNumber};

use mount_log::{HubEvent, LineAt, Log, lines_of_sessions, take_line};
use script_lang::{CallLine, Phase, Script};
use std::alloc::{AllocError, Global};

fn phase_at(script: &Script, phase: u32) -> Option<&Phase>
    ensures { option_copied result ≡ slice_get script.now.phases phase }
{
    script.phases.as_slice().get(phase as usize)
}

fn call_in(phase: &Phase, index: u32) -> Option<&CallLine>
    ensures { option_copied result ≡ slice_get phase.now.calls index }
{
    phase.calls.as_slice().get(index as usize)
}

// The line at a place of the script.
fn line_at(script: &Script, at: LineAt) -> Option<&CallLine>
    ensures { option_copied result ≡ line_of script.now at }
{
    match phase_at(script, at.phase) {
        Some(phase) => call_in(phase, at.index),
        None => None,
    }
}

// Whether a place of the script is that of a line with this number.
fn is_line(script: &Script, at: LineAt, number: u32) -> bool
    ensures { IsTrue result ↔ HasNumber (line_of script.now at) number }
{
    match line_at(script, at) {
        Some(line) => line.line == number,
        None => false,
    }
}

/// Whether each session submits its lines in their order in the script.
///
/// # Errors
/// Out of memory.
pub fn submits_are_in_order(alloc: Global, script: &Script, log: &Log) -> Result<bool, AllocError>
    requires { IsAccepted script.now }
    ensures { IfOk result (λ yes. IsTrue yes ↔ AreInOrder script.now log.now) }
{
    let mut queues = lines_of_sessions(alloc, script)?;
    for event in log.events.as_slice() {
        let HubEvent::Submit { session, line } = event else {
            continue;
        };
        let Some(at) = take_line(&mut queues, *session) else {
            return Ok(false);
        };
        if !is_line(script, at, *line) {
            return Ok(false);
        }
    }
    Ok(true)
}
