//! Whether a request is tied to its wind.
ghost use Rattle.std.specs.Prelude.{◌≡◌, ◌<◌, ◌↔◌, IsTrue, true};
ghost use Rattle.fop_types.specs.declared.messages.Input.TheVariants as input;
ghost use Rattle.xlator_law.specs.Numbers.{wind_number, open_before};
ghost use Rattle.mount_log.specs.Ties.{IsOfCall, IsOpen, HasNumberOf, HasWind};
ghost use Rattle.line_audit.specs.Slots.{AreSlotsLow, slot_limit};
ghost use Rattle.line_audit.specs.Tied.{request_at, open_at, IsInputTied, IsPlaceOfOpening, IsOpeningOf, IsTied};

use crate::tied_replies::wind_at;
use fop_types::{BrickReq, Input};
use mount_log::{Log, WindLine};
use wire_messages::Message;
use xlator_law::WindNo;

/// By the place of a wind's opening: where the request is that was sent for it, and the open before that.
#[derive(Clone, Copy)]
pub struct SentFor {
    pub request: usize,
    pub open: usize,
}

fn is_of_call(req: &BrickReq, call: u32) -> bool
    ensures { IsTrue result ↔ IsOfCall call req.now }
{
    match req {
        BrickReq::Lock { call: named, .. } => *named == call,
        BrickReq::Unlock { call: named } => *named == call,
        _ => true,
    }
}

fn is_open(req: &BrickReq) -> bool
    ensures { IsTrue result ↔ IsOpen req.now }
{
    match req {
        BrickReq::Open { .. } => true,
        _ => false,
    }
}

/// Whether a number is that of the open before a wind's request.
pub fn is_number_of_open(wind: WindNo, number: u64) -> bool
    ensures sound { result ≡ true → wind_number (open_before wind) ≡ number }
    ensures complete { wind.slot < slot_limit → wind_number (open_before wind) ≡ number → result ≡ true }
{
    if wind.slot >= 2147483648 {
        return false;
    }
    wind.open_before().number() == number
}

// Whether the line at a place has the number of an opened wind, as the notes say.
fn has_number_of(line: &WindLine, sent_for: SentFor, k: usize, number: u64, req: &BrickReq) -> bool
    ensures sound { result ≡ true → HasNumberOf line.now sent_for.request sent_for.open k number req.now }
    ensures complete { line.now.wind.slot < slot_limit → HasNumberOf line.now sent_for.request sent_for.open k number req.now → result ≡ true }
{
    if line.wind.number() == number {
        return sent_for.request == k;
    }
    sent_for.open == k && is_open(req) && is_number_of_open(line.wind, number)
}

fn is_opening(line: &WindLine, graph: u32, event: u64) -> bool
    ensures opened { result ≡ true → line.now.opened ≡ true }
    ensures graph { result ≡ true → line.now.graph ≡ graph }
    ensures event { result ≡ true → line.now.event ≡ event }
    ensures complete { line.now.opened ≡ true → line.now.graph ≡ graph → line.now.event ≡ event → result ≡ true }
{
    line.opened && line.graph == graph && line.event == event
}

// The notes of the wind that is opened at a place.
fn sent_for_at(all: &[SentFor], place: usize) -> SentFor
    ensures request { result.request ≡ request_at all.now place }
    ensures open { result.open ≡ open_at all.now place }
{
    match all.get(place) {
        Some(sent_for) => *sent_for,
        None => SentFor {
            request: 0,
            open: 0,
        },
    }
}

// Whether the request was sent for the wind that is opened at a place.
fn has_wind(
    log: &Log,
    all: &[SentFor],
    place: usize,
    k: usize,
    number: u64,
    graph: u32,
    event: u64,
    req: &BrickReq,
) -> bool
    ensures sound { result ≡ true → HasWind log.now (request_at all.now) (open_at all.now) k number graph event req.now }
    ensures complete { AreSlotsLow log.now.winds → (w : HasWind log.now (request_at all.now) (open_at all.now) k number graph event req.now) → w.place ≡ place → result ≡ true }
{
    match wind_at(log, place) {
        Some(line) => {
            is_opening(line, graph, event)
                && is_of_call(req, line.call)
                && has_number_of(line, sent_for_at(all, place), k, number, req)
        }
        None => false,
    }
}

fn is_input_tied(
    log: &Log,
    all: &[SentFor],
    place: usize,
    k: usize,
    event: u64,
    found: &Input,
) -> bool
    ensures sound { result ≡ true → IsInputTied log.now all.now k event found.now }
    ensures complete { AreSlotsLow log.now.winds → IsPlaceOfOpening log.now all.now place k event found.now → IsInputTied log.now all.now k event found.now → result ≡ true }
{
    match found {
        Input::Request { wind, graph, req } => {
            has_wind(log, all, place, k, *wind, *graph, event, req)
        }
        _ => true,
    }
}

/// Whether what a line is, if it is a request, was sent for the wind that was opened at a place, in its event and graph.
/// `all` has, by the place of an opening, where the request and the open before it are.
pub fn is_message_tied(
    log: &Log,
    all: &[SentFor],
    place: usize,
    k: usize,
    event: u64,
    message: &Message<Input>,
) -> bool
    ensures sound { result ≡ true → IsTied log.now all.now k event message.now }
    ensures complete { AreSlotsLow log.now.winds → IsOpeningOf log.now all.now place k event message.now → IsTied log.now all.now k event message.now → result ≡ true }
{
    match message {
        Message::Whole(found) => is_input_tied(log, all, place, k, event, found),
        Message::Wrong { place: _ } => true,
    }
}
