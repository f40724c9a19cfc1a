//! Lines that can be armed, one behind the other: where they stop at a request, they were armed for it.
ghost use Rattle.std.specs.Prelude.{◌≡◌, ◌<◌, ◌↔◌, IsTrue, ℕ, List, Some, true, IfOk, slice_get};
ghost use Rattle.mount_log.specs.declared.logs.SentLine.{SentLine as Line};
ghost use Rattle.mount_log.specs.Arms.{AreArmable, CanBeArmed, IsArmedLine};
ghost use Rattle.wire_messages.specs.Messages.{input_in};
ghost use Rattle.log_audit.specs.Armed.{IsArmable, IsArmedFor, IsAmong, AreArmedFrom, AreAllArmed, AreAllAmong};

use fop_types::Input;
use mount_log::SentLine;
use mount_log::requests::is_request;
use std::alloc::{AllocError, Global};
use wire_messages::{Message, input_of, messages_read_back};

/// The place at which lines that can be armed stop, with the event and the brick of them all.
#[derive(Clone, Copy)]
pub struct ArmedLines {
    pub stop: usize,
    pub event: u64,
    pub brick: u8,
}

/// No lines.
pub fn none_armed() -> ArmedLines
    ensures { (sent : List Line) (from : ℕ) → AreArmedFrom sent from result }
{
    ArmedLines {
        stop: 0,
        event: 0,
        brick: 0,
    }
}

fn can_be_armed(input: &Input) -> bool
    ensures { IsTrue result ↔ CanBeArmed input.now }
{
    match input {
        Input::Down { .. } => true,
        Input::FaultAt { .. } => true,
        _ => false,
    }
}

fn says_armable(message: &Message<Input>) -> bool
    ensures { IsTrue result ↔ IsArmable message.now }
{
    match message {
        Message::Whole(input) => can_be_armed(input),
        Message::Wrong { place: _ } => false,
    }
}

// Whether bytes are an input that can be armed. Those of a request are not read.
fn are_armable(alloc: Global, bytes: &[u8]) -> Result<bool, AllocError>
    ensures sound { IfOk result (λ yes. yes ≡ true → AreArmable bytes.now) }
    ensures complete { IfOk result (λ yes. IsArmable (input_in bytes.now) → yes ≡ true) }
{
    messages_read_back();
    if is_request(bytes) {
        return Ok(false);
    }
    let message = input_of(alloc, bytes)?;
    let yes = says_armable(&message);
    drop(message);
    Ok(yes)
}

// Whether a line can be armed, and is of this event and brick.
fn is_armed_line(alloc: Global, line: &SentLine, event: u64, brick: u8) -> Result<bool, AllocError>
    ensures sound { IfOk result (λ yes. yes ≡ true → IsArmedLine event brick line.now) }
    ensures complete { IfOk result (λ yes. IsArmedFor event brick line.now → yes ≡ true) }
{
    if line.event != event || line.brick != brick {
        return Ok(false);
    }
    let yes = are_armable(alloc, line.bytes.as_slice())?;
    Ok(yes)
}

// The armed lines of an event and a brick that begin at a place, none where that line is no such one.
fn armed_from(
    alloc: Global,
    sent: &[SentLine],
    from: usize,
    event: u64,
    brick: u8,
) -> Result<ArmedLines, AllocError>
    ensures sound { IfOk result (λ armed. AreArmedFrom sent.now from armed) }
    ensures complete { IfOk result (λ armed. (line : Line) → slice_get sent.now from ≡ Some line → IsArmedFor event brick line → from < armed.stop) }
{
    let mut stop = from;
    while stop < sent.len() {
        let line = &sent[stop];
        if !is_armed_line(alloc, line, event, brick)? {
            break;
        }
        stop += 1;
    }
    Ok(ArmedLines { stop, event, brick })
}

/// The armed lines that the line at a place is among: those before, where they go so far, or those that begin at the line.
///
/// # Errors
/// Out of memory.
pub fn armed_at(
    alloc: Global,
    sent: &[SentLine],
    at: usize,
    before: ArmedLines,
) -> Result<ArmedLines, AllocError>
    requires { AreArmedFrom sent.now at before }
    ensures sound { IfOk result (λ armed. AreArmedFrom sent.now at armed) }
    ensures complete { IfOk result (λ armed. IsAmong sent.now at armed) }
{
    if at < before.stop {
        return Ok(before);
    }
    match sent.get(at) {
        Some(line) => armed_from(alloc, sent, at, line.event, line.brick),
        None => Ok(before),
    }
}

/// The armed lines that the line at each place is among.
///
/// # Errors
/// Out of memory.
pub fn all_armed(alloc: Global, sent: &[SentLine]) -> Result<Vec<ArmedLines>, AllocError>
    ensures sound { IfOk result (λ all. AreAllArmed sent.now all.items) }
    ensures complete { IfOk result (λ all. AreAllAmong sent.now all.items) }
{
    let mut all = Vec::new(alloc);
    let mut armed = none_armed();
    for at in 0..sent.len() {
        armed = armed_at(alloc, sent, at, armed)?;
        all.push(armed)?;
    }
    Ok(all)
}
