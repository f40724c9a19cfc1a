//! Whether replies are tied to their calls and their events.
ghost use Rattle.std.specs.Prelude.{◌≡◌, ◌≢◌, ◌↔◌, IsTrue, false, true, [], option_copied, slice_get, slice_index_or};
ghost use Rattle.fop_types.specs.declared.answers.Answer.TheVariants as answer;
ghost use Rattle.fop_types.specs.declared.answers.IoError.{IoError};
ghost use Rattle.mount_log.specs.Follows.{IsEvent};
ghost use Rattle.mount_log.specs.Ties.{IsAnsweredBy};
ghost use Rattle.mount_log.specs.declared.logs.HubEvent.TheVariants as logged;
ghost use Rattle.line_audit.specs.Tied.{IsEndAt, IsAtOnce, IsPlaceOfEnd, ArePlacesOfEnds, IsReplyOf, AreRepliesTied};

use fop_types::Answer;
use log_audit::calls_made::{CallMade, call_of};
use mount_log::by_number::event_at;
use mount_log::{HubEvent, Log, ReplyLine, WindLine};

/// The wind line at this place.
pub fn wind_at(log: &Log, at: usize) -> Option<&WindLine>
    ensures { option_copied result ≡ slice_get log.now.winds at }
{
    log.winds.as_slice().get(at)
}

fn is_end(line: &WindLine, call: u32, number: u64) -> bool
    ensures opened { result ≡ true → line.now.opened ≡ false }
    ensures call { result ≡ true → line.now.call ≡ call }
    ensures event { result ≡ true → line.now.event ≡ number }
    ensures complete { line.now.opened ≡ false → line.now.call ≡ call → line.now.event ≡ number → result ≡ true }
{
    !line.opened && line.call == call && line.event == number
}

// Whether the wind line at a place is the end of a wind of the call in the event.
fn ends_in(log: &Log, at: usize, call: u32, number: u64) -> bool
    ensures { IsTrue result ↔ IsEndAt log.now.winds at call number }
{
    match wind_at(log, at) {
        Some(line) => is_end(line, call, number),
        None => false,
    }
}

fn submits(event: &HubEvent, by: u8, at: u32) -> bool
    ensures { IsTrue result ↔ (event.now ≡ logged.Submit by at) }
{
    match event {
        HubEvent::Submit { session, line } => *session == by && *line == at,
        _ => false,
    }
}

fn is_submitted_in(log: &Log, reply: &ReplyLine) -> bool
    ensures { IsTrue result ↔ IsEvent log.now reply.now.event (logged.Submit reply.now.session reply.now.line) }
{
    match event_at(log, reply.event) {
        Some(event) => submits(event, reply.session, reply.line),
        None => false,
    }
}

fn is_no_io_error(found: &Answer) -> bool
    ensures { IsTrue result ↔ ((error : IoError) → found.now ≢ answer.Io error) }
{
    match found {
        Answer::Io(_) => false,
        _ => true,
    }
}

fn has_no_place(reply: &ReplyLine) -> bool
    ensures { IsTrue result ↔ (reply.now.places ≡ []) }
{
    reply.places.is_empty()
}

fn is_at_once(log: &Log, reply: &ReplyLine) -> bool
    ensures { IsTrue result ↔ IsAtOnce log.now reply.now }
{
    has_no_place(reply) && is_no_io_error(&reply.answer) && is_submitted_in(log, reply)
}

// Whether a reply has its cause in its event; the place may be that of a wind's end.
fn is_answered(log: &Log, reply: &ReplyLine, at: usize) -> bool
    ensures sound { result ≡ true → IsAnsweredBy log.now reply.now }
    ensures complete { IsPlaceOfEnd log.now.winds at reply.now → IsAnsweredBy log.now reply.now → result ≡ true }
{
    ends_in(log, at, reply.call, reply.event) || is_at_once(log, reply)
}

fn is_reply_of(calls: &[CallMade], reply: &ReplyLine) -> bool
    ensures { IsTrue result ↔ IsReplyOf calls.now reply.now }
{
    match call_of(calls, reply.call) {
        Some(call) => {
            call.session == reply.session && call.line == reply.line && call.event <= reply.event
        }
        None => false,
    }
}

/// The place that is noted at this place; 0 where none is.
pub fn place_for(ends: &[usize], k: usize) -> usize
    ensures { result ≡ slice_index_or ends.now k 0 }
{
    match ends.get(k) {
        Some(at) => *at,
        None => 0,
    }
}

/// The reply at this place.
pub fn reply_at(log: &Log, k: usize) -> Option<&ReplyLine>
    ensures { option_copied result ≡ slice_get log.now.replies k }
{
    log.replies.as_slice().get(k)
}

/// Whether each reply is to the call of its session and line, not before its submission, and has its cause in its event.
/// `ends` has, for a reply, the place of the end of a wind of its call.
pub fn replies_are_tied(log: &Log, calls: &[CallMade], ends: &[usize]) -> bool
    ensures sound { result ≡ true → AreRepliesTied log.now calls.now }
    ensures complete { ArePlacesOfEnds log.now ends.now → AreRepliesTied log.now calls.now → result ≡ true }
{
    for k in 0..log.replies.len() {
        let Some(reply) = reply_at(log, k) else {
            return false;
        };
        if !is_reply_of(calls, reply) || !is_answered(log, reply, place_for(ends, k)) {
            return false;
        }
    }
    true
}
