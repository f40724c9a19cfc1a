//! What arrived from a brick, and whether it answered a request of a call by a fault.
ghost use Rattle.std.specs.Prelude.{◌≡◌, ◌≢◌, ◌⊎◌, ◌↔◌, ℕ, List, IsTrue, true, Some, option_copied, slice_get, IfOk, IfSome, IfNone};
ghost use Rattle.fop_types.specs.declared.messages.BrickRep.TheVariants as rep;
ghost use Rattle.fop_types.specs.declared.messages.Output.{Output as Arrival};
ghost use Rattle.xlator_law.specs.Numbers.{wind_number, open_before};
ghost use Rattle.mount_log.specs.Causes.{IsWindOf, IsFaulted};
ghost use Rattle.mount_log.specs.declared.logs.HubEvent.TheVariants as logged;
ghost use Rattle.error_audit.specs.Evidence.{IsArrived, IsFaultOf};
ghost use Rattle.error_audit.specs.AtPlaces.{IsNumberOfOpen, IsLineOf, IsWindAt, IsArrivedAt, IsFaultAt, IsFaultedAt};

use crate::losses::has_brick;
use fop_types::{BrickRep, OutKind, Output, SetPlan};
use mount_log::by_place::event_at;
use mount_log::{HubEvent, Log, ReplyLine, WindLine};
use std::alloc::{AllocError, Global};
use wire_messages::{Message, output_of};
use xlator_law::WindNo;

/// Where the reply of a brick is in a log: its place among the events, and that of its wind's opening among the wind lines.
#[derive(Clone, Copy)]
pub struct ReplyAt {
    pub event: usize,
    pub wind: usize,
}

// ---- what arrived

fn bytes_from(event: &HubEvent, brick: u8) -> Option<&[u8]>
    ensures some { IfSome result (λ bytes. event.now ≡ logged.Arrive brick bytes.now) }
    ensures none { IfNone result ((bytes : List ℕ) → event.now ≢ logged.Arrive brick bytes) }
{
    match event {
        HubEvent::Arrive { brick: from, bytes } => {
            if *from == brick {
                Some(bytes.as_slice())
            } else {
                None
            }
        }
        _ => None,
    }
}

/// The output that arrived from a brick in the event at this place, before the event of a number ended.
///
/// # Errors
/// Out of memory.
pub fn arrived(
    alloc: Global,
    log: &Log,
    place: usize,
    brick: u8,
    until: u64,
) -> Result<Option<Output>, AllocError>
    ensures sound { IfOk result (λ found. IfSome found (λ output. IsArrived log.now until brick output)) }
    ensures at { IfOk result (λ found. IfSome found (λ output. IsArrivedAt log.now place until brick output)) }
    ensures complete { IfOk result (λ found. (output : Arrival) → IsArrivedAt log.now place until brick output → found ≡ Some output) }
{
    if place as u64 >= until {
        return Ok(None);
    }
    let Some(event) = event_at(log, place) else {
        return Ok(None);
    };
    let Some(bytes) = bytes_from(event, brick) else {
        return Ok(None);
    };
    match output_of(alloc, bytes)? {
        Message::Whole(output) => Ok(Some(output)),
        Message::Wrong { place: _ } => Ok(None),
    }
}

// ---- its wind

fn is_number(wind: WindNo, number: u64) -> bool
    ensures sound { result ≡ true → (wind_number wind ≡ number) ⊎ (wind_number (open_before wind) ≡ number) }
    ensures exact { IsTrue result ↔ ((wind_number wind ≡ number) ⊎ IsNumberOfOpen wind number) }
{
    if wind.number() == number {
        return true;
    }
    if wind.slot >= 2147483648 {
        return false;
    }
    wind.open_before().number() == number
}

fn wind_at(log: &Log, place: usize) -> Option<&WindLine>
    ensures { option_copied result ≡ slice_get log.now.winds place }
{
    log.winds.as_slice().get(place)
}

fn is_line_of(line: &WindLine, call: u32, number: u64) -> bool
    ensures call { result ≡ true → line.now.call ≡ call }
    ensures wind { result ≡ true → (wind_number line.now.wind ≡ number) ⊎ (wind_number (open_before line.now.wind) ≡ number) }
    ensures exact { IsTrue result ↔ IsLineOf call number line.now }
{
    if line.call != call {
        return false;
    }
    is_number(line.wind, number)
}

/// Whether the wind line at a place is of the call, and of the wind with this number or of the request behind it.
pub fn is_wind_of(log: &Log, place: usize, call: u32, number: u64) -> bool
    ensures sound { result ≡ true → IsWindOf log.now call number }
    ensures exact { IsTrue result ↔ IsWindAt log.now place call number }
{
    match wind_at(log, place) {
        Some(line) => is_line_of(line, call, number),
        None => false,
    }
}

// ---- a fault

fn is_fault(answer: &BrickRep) -> bool
    ensures { IsTrue result ↔ (answer.now ≡ rep.Fault) }
{
    match answer {
        BrickRep::Fault => true,
        _ => false,
    }
}

fn is_faulty(log: &Log, answer: &BrickRep, call: u32, place: usize, wind: u64) -> bool
    ensures fault { result ≡ true → answer.now ≡ rep.Fault }
    ensures wind { result ≡ true → IsWindOf log.now call wind }
    ensures exact { IsTrue result ↔ ((answer.now ≡ rep.Fault) × IsWindAt log.now place call wind) }
{
    if !is_fault(answer) {
        return false;
    }
    is_wind_of(log, place, call, wind)
}

fn is_fault_of(log: &Log, kind: &OutKind, call: u32, place: usize) -> bool
    ensures sound { result ≡ true → IsFaultOf log.now call kind.now }
    ensures exact { IsTrue result ↔ IsFaultAt log.now place call kind.now }
{
    match kind {
        OutKind::Reply { wind, rep } => is_faulty(log, rep, call, place, *wind),
        _ => false,
    }
}

// Whether an output is a fault at this place of the brick's journal, which answers a request of the call.
fn is_fault_at(log: &Log, output: &Output, place: u64, call: u32, wind: usize) -> bool
    ensures taken { result ≡ true → output.now.taken ≡ place }
    ensures fault { result ≡ true → IsFaultOf log.now call output.now.kind }
    ensures exact { IsTrue result ↔ ((output.now.taken ≡ place) × IsFaultAt log.now wind call output.now.kind) }
{
    output.taken == place && is_fault_of(log, &output.kind, call, wind)
}

/// Whether a brick of a set answered a request of a call by a fault, at this place of its journal.
///
/// # Errors
/// Out of memory.
pub fn is_faulted(
    alloc: Global,
    log: &Log,
    plan: &SetPlan,
    reply: &ReplyLine,
    pair: &(u8, u64),
    at: ReplyAt,
) -> Result<bool, AllocError>
    ensures sound { IfOk result (λ yes. yes ≡ true → IsFaulted log.now plan.now reply.now.call reply.now.event pair.now) }
    ensures exact { IfOk result (λ yes. IsTrue yes ↔ IsFaultedAt log.now plan.now reply.now.call reply.now.event pair.now at) }
{
    if !has_brick(plan, pair.0) {
        return Ok(false);
    }
    let found = arrived(alloc, log, at.event, pair.0, reply.event)?;
    let Some(output) = found else {
        return Ok(false);
    };
    let yes = is_fault_at(log, &output, pair.1, reply.call, at.wind);
    drop(output);
    Ok(yes)
}
