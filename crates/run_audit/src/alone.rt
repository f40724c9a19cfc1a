//! Whether each session submits one call at a time.
ghost use Rattle.std.specs.Prelude.{◌≡◌, ◌≤◌, ◌+◌, ◌-◌, true, length, option_copied, slice_get, slice_index_or, IfOk};
ghost use Rattle.mount_log.specs.Turns.{IsRepliedBy};
ghost use Rattle.mount_log.specs.declared.logs.ReplyLine.{ReplyLine as Reply};
ghost use Rattle.run_audit.specs.CallPhases.{AreSingle, ArePlaces, AreReplied, AreOneByOne};

use log_audit::calls_made::CallMade;
use mount_log::{Log, ReplyLine};
use std::alloc::{AllocError, Global};

/// Of each call of so many, the place of the last reply to it among the replies, 0 where there is none.
///
/// # Errors
/// Out of memory.
pub fn reply_places(
    alloc: Global,
    calls: usize,
    replies: &[ReplyLine],
) -> Result<Vec<usize>, AllocError>
    ensures many { IfOk result (λ places. length places.items ≡ calls) }
    ensures places { IfOk result (λ places. AreSingle replies.now → ArePlaces replies.now places.items) }
{
    let mut places = Vec::with_capacity(alloc, calls)?;
    for _ in 0..calls {
        places.push(0usize)?;
    }
    for k in 0..replies.len() {
        let call = replies[k].call as usize;
        if let Some(place) = places.get_mut(call.saturating_sub(1)) {
            *place = k;
        }
    }
    Ok(places)
}

fn place_of(places: &[usize], at: usize) -> usize
    ensures { result ≡ slice_index_or places.now at 0 }
{
    match places.get(at) {
        Some(place) => *place,
        None => 0,
    }
}

fn reply_at(log: &Log, place: usize) -> Option<&ReplyLine>
    ensures { option_copied result ≡ slice_get log.now.replies place }
{
    log.replies.as_slice().get(place)
}

// Whether the reply at a place is to the call behind so many others, by an event.
fn is_replied_by(log: &Log, place: usize, before: usize, number: u64) -> bool
    ensures sound { result ≡ true → IsRepliedBy log.now (before + 1) number }
    ensures complete { (reply : Reply) → slice_get log.now.replies place ≡ Some reply → reply.call ≡ before + 1 → reply.event ≤ number → result ≡ true }
{
    match reply_at(log, place) {
        Some(reply) => {
            reply.event <= number && reply.call > 0 && reply.call as usize - 1 == before
        }
        None => false,
    }
}

// Whether each of the first n calls that is of a session has a reply by an event.
fn are_replied(
    log: &Log,
    calls: &[CallMade],
    places: &[usize],
    session: u8,
    n: usize,
    number: u64,
) -> bool
    ensures sound { result ≡ true → AreReplied log.now calls.now session n number }
    ensures complete { length calls.now ≤ length places.now → ArePlaces log.now.replies places.now → AreReplied log.now calls.now session n number → result ≡ true }
{
    for m in 0..n {
        let Some(call) = calls.get(m) else {
            return true;
        };
        if call.session != session {
            continue;
        }
        if !is_replied_by(log, place_of(places, m), m, number) {
            return false;
        }
    }
    true
}

/// Whether each call, when it is submitted, finds the earlier calls of its session replied to. `places` has, of a call, the place
/// of the reply to it.
pub fn are_one_by_one(log: &Log, calls: &[CallMade], places: &[usize]) -> bool
    ensures sound { result ≡ true → AreOneByOne log.now calls.now }
    ensures complete { length calls.now ≤ length places.now → ArePlaces log.now.replies places.now → AreOneByOne log.now calls.now → result ≡ true }
{
    for n in 0..calls.len() {
        let Some(call) = calls.get(n) else {
            return false;
        };
        if !are_replied(
            log,
            calls,
            places,
            call.session,
            n,
            call.event.saturating_sub(1),
        ) {
            return false;
        }
    }
    true
}
