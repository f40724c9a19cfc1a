//! The calls that were submitted, by their numbers.
ghost use Rattle.std.specs.Prelude.{◌≡◌, IfOk, IfSome, IfNone, option_copied, slice_get};
ghost use Rattle.script_lang.specs.Accepted.{IsAccepted};
ghost use Rattle.log_audit.specs.Called.{AreCalls, SubmitsTooMany, call_by};

use mount_log::by_place::event_at;
use mount_log::switches::{Switched, passed_to};
use mount_log::{HubEvent, Log, lines_of_sessions, take_line};
use script_lang::Script;
use std::alloc::{AllocError, Global};

/// A call: the event that submitted it, its session and line, the phase of the line, and how many switches were carried out
/// before.
#[derive(Clone, Copy)]
pub struct CallMade {
    pub event: u64,
    pub session: u8,
    pub line: u32,
    pub phase: u32,
    pub switches: usize,
}

fn call_made(event: u64, session: u8, line: u32, phase: u32, switches: usize) -> CallMade
    ensures { result ≡ record { event = event; session = session; line = line; phase = phase; switches = switches } }
{
    CallMade {
        event,
        session,
        line,
        phase,
        switches,
    }
}

/// The calls of a log by their numbers, the first one at 0; `None` where a session submits more lines than it has.
///
/// # Errors
/// Out of memory.
pub fn calls_made(
    alloc: Global,
    script: &Script,
    log: &Log,
) -> Result<Option<Vec<CallMade>>, AllocError>
    requires { IsAccepted script.now }
    ensures calls { IfOk result (λ found. IfSome found (λ calls. AreCalls script.now log.now calls.items)) }
    ensures none { IfOk result (λ found. IfNone found (SubmitsTooMany script.now log.now)) }
{
    let mut queues = lines_of_sessions(alloc, script)?;
    let mut calls = Vec::new(alloc);
    let mut passed = Switched { next: 0, count: 0 };
    for k in 0..log.events.len() {
        let Some(event) = event_at(log, k) else {
            return Ok(None);
        };
        let HubEvent::Submit { session, line } = event else {
            continue;
        };
        let Some(at) = take_line(&mut queues, *session) else {
            return Ok(None);
        };
        passed = passed_to(log, k as u64, passed);
        if passed.next != k {
            return Ok(None);
        }
        calls.push(call_made(k as u64 + 1, *session, *line, at.phase, passed.count))?;
    }
    Ok(Some(calls))
}

/// The call of this number, from 1; `None` for 0, and where fewer calls were submitted.
pub fn call_of(calls: &[CallMade], number: u32) -> Option<&CallMade>
    ensures { option_copied result ≡ call_by calls.now number }
{
    if number == 0 {
        return None;
    }
    calls.get(number as usize - 1)
}
