//! Whether the wind of a request ends by what arrives, or with its connection.
ghost use Rattle.std.specs.Prelude.{◌≡◌, ◌<◌, ◌↔◌, ℕ, IsTrue, Some, true, IfOk, option_copied, slice_get};
ghost use Rattle.fop_types.specs.declared.messages.Input.TheVariants as input;
ghost use Rattle.wire_messages.specs.Messages.{input_in};
ghost use Rattle.mount_log.specs.Ties.{IsNumberOf, IsEndedBy, HasEnd};
ghost use Rattle.mount_log.specs.Heads.{head_of, heads_of};
ghost use Rattle.line_audit.specs.Slots.{AreSlotsLow, slot_limit};
ghost use Rattle.line_audit.specs.Ended.{head_by, SaysEnd, IsEndEvent, IsEndedByOutput, SaysDisconnect, IsDisconnect, IsDisconnectAt, IsPlaceOfDisconnect, IsEndingOf, IsPlaceOfEnding, IsInputEnded, IsPlaceOfInputEnd, IsEnded, IsPlaceOfMessageEnd};

use crate::tied_replies::wind_at;
use crate::tied_requests::is_number_of_open;
use fop_types::Input;
use mount_log::by_number::event_at;
use mount_log::by_place::line_at;
use mount_log::heads::{Head, Said, head_at};
use mount_log::{HubEvent, Log, SentLine, WindLine};
use std::alloc::{AllocError, Global};
use wire_messages::{Message, input_of};
use xlator_law::WindNo;

/// Where the end of a request's wind is, and the Disconnect of its graph in the same event.
#[derive(Clone, Copy)]
pub struct EndedAt {
    pub end: usize,
    pub disconnect: usize,
}

/// Whether a number on the wire is that of a wind, or of the open before its request.
pub fn is_number_of(wind: WindNo, number: u64) -> bool
    ensures sound { result ≡ true → IsNumberOf wind number }
    ensures complete { wind.slot < slot_limit → IsNumberOf wind number → result ≡ true }
{
    if wind.number() == number {
        return true;
    }
    is_number_of_open(wind, number)
}

// ---- by an output

fn says_end(said: Said, wind: WindNo) -> bool
    ensures sound { result ≡ true → SaysEnd wind said }
    ensures complete { wind.slot < slot_limit → SaysEnd wind said → result ≡ true }
{
    match said {
        Said::Reply(number) => is_number_of(wind, number),
        Said::Gone(number) => is_number_of(wind, number),
        Said::Closed => true,
        _ => false,
    }
}

fn is_end_event(event: &HubEvent, head: Head, brick: u8, wind: WindNo) -> bool
    requires { head ≡ head_of event.now }
    ensures sound { result ≡ true → IsEndEvent brick wind event.now }
    ensures complete { wind.slot < slot_limit → IsEndEvent brick wind event.now → result ≡ true }
{
    match event {
        HubEvent::Arrive { brick: from, .. } => *from == brick && says_end(head.said, wind),
        _ => false,
    }
}

// The head of the event of this number, from 1.
fn head_by(heads: &[Head], number: u64) -> Option<Head>
    ensures { result ≡ head_by heads.now number }
{
    if number == 0 {
        return None;
    }
    head_at(heads, (number - 1) as usize)
}

fn is_ended_by_output(log: &Log, heads: &[Head], brick: u8, line: &WindLine) -> bool
    requires { heads.now ≡ heads_of log.now.events }
    ensures sound { result ≡ true → IsEndedBy log.now brick line.now }
    ensures complete { line.now.wind.slot < slot_limit → IsEndedByOutput log.now brick line.now → result ≡ true }
{
    let Some(head) = head_by(heads, line.event) else {
        return false;
    };
    match event_at(log, line.event) {
        Some(event) => is_end_event(event, head, brick, line.wind),
        None => false,
    }
}

// ---- by a Disconnect

fn disconnects(found: &Input, graph: u32) -> bool
    ensures { IsTrue result ↔ (found.now ≡ input.Disconnect graph) }
{
    match found {
        Input::Disconnect { graph: of } => *of == graph,
        _ => false,
    }
}

fn says_disconnect(alloc: Global, bytes: &[u8], graph: u32) -> Result<bool, AllocError>
    ensures { IfOk result (λ yes. IsTrue yes ↔ SaysDisconnect graph (input_in bytes.now)) }
{
    match input_of(alloc, bytes)? {
        Message::Whole(found) => {
            let yes = disconnects(&found, graph);
            drop(found);
            Ok(yes)
        }
        Message::Wrong { place: _ } => Ok(false),
    }
}

fn sends_disconnect(
    alloc: Global,
    line: &SentLine,
    number: u64,
    brick: u8,
    graph: u32,
) -> Result<bool, AllocError>
    ensures { IfOk result (λ yes. IsTrue yes ↔ IsDisconnect number brick graph line.now) }
{
    if line.event != number || line.brick != brick {
        return Ok(false);
    }
    let yes = says_disconnect(alloc, line.bytes.as_slice(), graph)?;
    Ok(yes)
}

fn is_disconnect_at(
    alloc: Global,
    log: &Log,
    at: usize,
    number: u64,
    brick: u8,
    graph: u32,
) -> Result<bool, AllocError>
    ensures { IfOk result (λ yes. IsTrue yes ↔ IsDisconnectAt log.now.sent at number brick graph) }
{
    let Some(line) = line_at(log, at) else {
        return Ok(false);
    };
    let yes = sends_disconnect(alloc, line, number, brick, graph)?;
    Ok(yes)
}

// ---- of a request

fn is_ended_by(
    alloc: Global,
    log: &Log,
    heads: &[Head],
    disconnect: usize,
    brick: u8,
    line: &WindLine,
) -> Result<bool, AllocError>
    requires { heads.now ≡ heads_of log.now.events }
    ensures sound { IfOk result (λ yes. yes ≡ true → IsEndedBy log.now brick line.now) }
    ensures complete { IfOk result (λ yes. line.now.wind.slot < slot_limit → IsPlaceOfDisconnect log.now brick line.now disconnect → IsEndedBy log.now brick line.now → yes ≡ true) }
{
    if is_ended_by_output(log, heads, brick, line) {
        return Ok(true);
    }
    let yes = is_disconnect_at(alloc, log, disconnect, line.event, brick, line.graph)?;
    Ok(yes)
}

fn is_ending_of(line: &WindLine, number: u64, graph: u32) -> bool
    ensures sound { result ≡ true → IsEndingOf number graph line.now }
    ensures complete { line.now.wind.slot < slot_limit → IsEndingOf number graph line.now → result ≡ true }
{
    !line.opened && line.graph == graph && is_number_of(line.wind, number)
}

// Whether the wind of a request ends at a place.
fn has_end(
    alloc: Global,
    log: &Log,
    heads: &[Head],
    ended: EndedAt,
    brick: u8,
    number: u64,
    graph: u32,
) -> Result<bool, AllocError>
    requires { heads.now ≡ heads_of log.now.events }
    ensures sound { IfOk result (λ yes. yes ≡ true → HasEnd log.now brick number graph) }
    ensures complete { IfOk result (λ yes. AreSlotsLow log.now.winds → IsPlaceOfEnding log.now brick number graph ended → HasEnd log.now brick number graph → yes ≡ true) }
{
    let Some(line) = wind_at(log, ended.end) else {
        return Ok(false);
    };
    if !is_ending_of(line, number, graph) {
        return Ok(false);
    }
    let yes = is_ended_by(alloc, log, heads, ended.disconnect, brick, line)?;
    Ok(yes)
}

fn is_input_ended(
    alloc: Global,
    log: &Log,
    heads: &[Head],
    ended: EndedAt,
    brick: u8,
    found: &Input,
) -> Result<bool, AllocError>
    requires { heads.now ≡ heads_of log.now.events }
    ensures sound { IfOk result (λ yes. yes ≡ true → IsInputEnded log.now brick found.now) }
    ensures complete { IfOk result (λ yes. AreSlotsLow log.now.winds → IsPlaceOfInputEnd log.now brick ended found.now → IsInputEnded log.now brick found.now → yes ≡ true) }
{
    match found {
        Input::Request { wind, graph, .. } => has_end(
            alloc, log, heads, ended, brick, *wind, *graph,
        ),
        _ => Ok(true),
    }
}

/// Whether the wind of what a line is, if it is a request, ends, in its graph, as the reply to it or to the open before it
/// arrives, or Closed of the brick, or as a Disconnect of the graph is sent to the brick. `ended` says where that is.
///
/// # Errors
/// Out of memory.
pub fn is_message_ended(
    alloc: Global,
    log: &Log,
    heads: &[Head],
    ended: EndedAt,
    brick: u8,
    message: &Message<Input>,
) -> Result<bool, AllocError>
    requires { heads.now ≡ heads_of log.now.events }
    ensures sound { IfOk result (λ yes. yes ≡ true → IsEnded log.now brick message.now) }
    ensures complete { IfOk result (λ yes. AreSlotsLow log.now.winds → IsPlaceOfMessageEnd log.now brick ended message.now → IsEnded log.now brick message.now → yes ≡ true) }
{
    match message {
        Message::Whole(found) => is_input_ended(alloc, log, heads, ended, brick, found),
        Message::Wrong { place: _ } => Ok(true),
    }
}
