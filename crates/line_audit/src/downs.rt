//! Whether each action that has an input sends its brick that input.
ghost use Rattle.std.specs.Prelude.{◌≡◌, ◌↔◌, ◌≤◌, ◌<◌, ℕ, IsTrue, Some, true, slice_get, IfOk};
ghost use Rattle.fop_types.specs.declared.messages.Input.TheVariants as input;
ghost use Rattle.mount_log.specs.declared.logs.SentLine.{SentLine as Line};
ghost use Rattle.wire_messages.specs.Messages.{input_in};
ghost use Rattle.line_audit.specs.Caused.{IsFor, SaysFor, IsTextFor, IsLineFor, IsLineAt, IsSentFor, WasSentFor, IsActionCarried, IsActionAt, IsEventCarried, IsEventAt, AreCarried, AreBefore, AreSentFirst};

use fop_types::{Input, Proc};
use mount_log::by_place::{event_at, line_at};
use mount_log::{HubEvent, Log, SentLine};
use script_lang::Action;
use std::alloc::{AllocError, Global};
use wire_messages::{Message, input_of};

// The place of the first line behind `at` that was sent in this event or later, the number of lines where there is none.
fn skip_to(sent: &[SentLine], at: usize, number: u64) -> usize
    ensures before { AreBefore sent.now at number → AreBefore sent.now result number }
    ensures stops { (line : Line) → slice_get sent.now result ≡ Some line → number ≤ line.event }
{
    let mut now = at;
    while now < sent.len() {
        if sent[now].event >= number {
            return now;
        }
        now += 1;
    }
    now
}

fn is_down(sent: &Input, serve: u32) -> bool
    ensures { IsTrue result ↔ (sent.now ≡ input.Down serve) }
{
    match sent {
        Input::Down { serve: number } => *number == serve,
        _ => false,
    }
}

fn is_up(sent: &Input) -> bool
    ensures { IsTrue result ↔ (sent.now ≡ input.Up) }
{
    match sent {
        Input::Up => true,
        _ => false,
    }
}

fn is_fault(sent: &Input, proc: Proc, number: u32) -> bool
    ensures { IsTrue result ↔ (sent.now ≡ input.FaultAt proc number) }
{
    match sent {
        Input::FaultAt { proc: p, number: n } => *p == proc && *n == number,
        _ => false,
    }
}

// Whether an input is the one that an action sends.
fn is_for(sent: &Input, a: &Action) -> bool
    ensures { IsTrue result ↔ IsFor a.now sent.now }
{
    match a {
        Action::Down(_, serve) => is_down(sent, *serve),
        Action::Up(_) => is_up(sent),
        Action::Fault(_, proc, number) => is_fault(sent, *proc, *number),
        _ => false,
    }
}

fn is_text_for(alloc: Global, bytes: &[u8], a: &Action) -> Result<bool, AllocError>
    ensures sound { IfOk result (λ yes. yes ≡ true → IsTextFor a.now bytes.now) }
    ensures says { IfOk result (λ yes. IsTrue yes ↔ SaysFor a.now (input_in bytes.now)) }
{
    match input_of(alloc, bytes)? {
        Message::Whole(input) => {
            let yes = is_for(&input, a);
            drop(input);
            Ok(yes)
        }
        Message::Wrong { place: _ } => Ok(false),
    }
}

fn sends_for(
    alloc: Global,
    line: &SentLine,
    number: u64,
    brick: u8,
    a: &Action,
) -> Result<bool, AllocError>
    ensures sound { IfOk result (λ yes. yes ≡ true → IsSentFor number brick a.now line.now) }
    ensures says { IfOk result (λ yes. IsTrue yes ↔ IsLineFor number brick a.now line.now) }
{
    if line.event != number || line.brick != brick {
        return Ok(false);
    }
    let yes = is_text_for(alloc, line.bytes.as_slice(), a)?;
    Ok(yes)
}

fn is_sent(
    alloc: Global,
    log: &Log,
    at: usize,
    number: u64,
    brick: u8,
    a: &Action,
) -> Result<bool, AllocError>
    ensures sound { IfOk result (λ yes. yes ≡ true → WasSentFor log.now number brick a.now) }
    ensures says { IfOk result (λ yes. IsTrue yes ↔ IsLineAt log.now.sent at number brick a.now) }
{
    let Some(line) = line_at(log, at) else {
        return Ok(false);
    };
    let yes = sends_for(alloc, line, number, brick, a)?;
    Ok(yes)
}

fn is_action_carried(
    alloc: Global,
    log: &Log,
    at: usize,
    number: u64,
    a: &Action,
) -> Result<bool, AllocError>
    ensures sound { IfOk result (λ yes. yes ≡ true → IsActionCarried log.now number a.now) }
    ensures says { IfOk result (λ yes. IsTrue yes ↔ IsActionAt log.now.sent at number a.now) }
{
    match a {
        Action::Down(brick, _) => is_sent(alloc, log, at, number, *brick, a),
        Action::Up(brick) => is_sent(alloc, log, at, number, *brick, a),
        Action::Fault(brick, ..) => is_sent(alloc, log, at, number, *brick, a),
        _ => Ok(true),
    }
}

fn is_carried(
    alloc: Global,
    log: &Log,
    at: usize,
    number: u64,
    event: &HubEvent,
) -> Result<bool, AllocError>
    ensures sound { IfOk result (λ yes. yes ≡ true → IsEventCarried log.now number event.now) }
    ensures says { IfOk result (λ yes. IsTrue yes ↔ IsEventAt log.now.sent at number event.now) }
{
    match event {
        HubEvent::Act(a) => is_action_carried(alloc, log, at, number, a),
        _ => Ok(true),
    }
}

/// Whether each action that has an input sends its brick that input, before all else of its event.
///
/// # Errors
/// Out of memory.
pub fn downs_are_carried(alloc: Global, log: &Log) -> Result<bool, AllocError>
    ensures sound { IfOk result (λ yes. yes ≡ true → AreCarried log.now) }
    ensures exact { IfOk result (λ yes. IsTrue yes ↔ AreSentFirst log.now) }
{
    let mut at = 0usize;
    for k in 0..log.events.len() {
        let Some(event) = event_at(log, k) else {
            return Ok(false);
        };
        at = skip_to(log.sent.as_slice(), at, k as u64 + 1);
        if !is_carried(alloc, log, at, k as u64 + 1, event)? {
            return Ok(false);
        }
    }
    Ok(true)
}
