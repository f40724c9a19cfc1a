//! Whether what was sent is tied to winds, and these end.
ghost use Rattle.std.specs.Prelude.{◌≡◌, true, slice_index_or, IfOk};
ghost use Rattle.wire_messages.specs.Messages.{input_in};
ghost use Rattle.mount_log.specs.Heads.{heads_of};
ghost use Rattle.line_audit.specs.Ended.{IsEnded, IsPlaceOfMessageEnd, AreEnded};
ghost use Rattle.line_audit.specs.Slots.{AreSlotsLow};
ghost use Rattle.line_audit.specs.Tied.{IsOpeningOf, IsTied, AreRequestsTied, end_of, ArePlacesOfRequests};

use crate::tied_ends::{EndedAt, is_message_ended};
use crate::tied_requests::{SentFor, is_message_tied};
use fop_types::Input;
use mount_log::by_place::line_at;
use mount_log::heads::Head;
use mount_log::{Log, SentLine};
use std::alloc::{AllocError, Global};
use wire_messages::{Message, input_of};

fn place_of(openings: &[usize], k: usize) -> usize
    ensures { result ≡ slice_index_or openings.now k 0 }
{
    match openings.get(k) {
        Some(place) => *place,
        None => 0,
    }
}

fn ended_at(ended: &[EndedAt], k: usize) -> EndedAt
    ensures { result ≡ end_of ended.now k }
{
    match ended.get(k) {
        Some(at) => *at,
        None => EndedAt {
            end: 0,
            disconnect: 0,
        },
    }
}

// Whether what a line was read as is tied to its wind, and that ends.
fn is_read_tied(
    alloc: Global,
    log: &Log,
    heads: &[Head],
    all: &[SentFor],
    place: usize,
    ended: EndedAt,
    k: usize,
    line: &SentLine,
    message: &Message<Input>,
) -> Result<bool, AllocError>
    requires { heads.now ≡ heads_of log.now.events }
    ensures tied { IfOk result (λ yes. yes ≡ true → IsTied log.now all.now k line.now.event message.now) }
    ensures ended { IfOk result (λ yes. yes ≡ true → IsEnded log.now line.now.brick message.now) }
    ensures complete { IfOk result (λ yes. AreSlotsLow log.now.winds → IsOpeningOf log.now all.now place k line.now.event message.now → IsPlaceOfMessageEnd log.now line.now.brick ended message.now → IsTied log.now all.now k line.now.event message.now → IsEnded log.now line.now.brick message.now → yes ≡ true) }
{
    if !is_message_tied(log, all, place, k, line.event, message) {
        return Ok(false);
    }
    let yes = is_message_ended(alloc, log, heads, ended, line.brick, message)?;
    Ok(yes)
}

fn is_line_tied(
    alloc: Global,
    log: &Log,
    heads: &[Head],
    all: &[SentFor],
    place: usize,
    ended: EndedAt,
    k: usize,
    line: &SentLine,
) -> Result<bool, AllocError>
    requires { heads.now ≡ heads_of log.now.events }
    ensures tied { IfOk result (λ yes. yes ≡ true → IsTied log.now all.now k line.now.event (input_in line.now.bytes)) }
    ensures ended { IfOk result (λ yes. yes ≡ true → IsEnded log.now line.now.brick (input_in line.now.bytes)) }
    ensures complete { IfOk result (λ yes. AreSlotsLow log.now.winds → IsOpeningOf log.now all.now place k line.now.event (input_in line.now.bytes) → IsPlaceOfMessageEnd log.now line.now.brick ended (input_in line.now.bytes) → IsTied log.now all.now k line.now.event (input_in line.now.bytes) → IsEnded log.now line.now.brick (input_in line.now.bytes) → yes ≡ true) }
{
    let message = input_of(alloc, line.bytes.as_slice())?;
    let found = is_read_tied(alloc, log, heads, all, place, ended, k, line, &message);
    drop(message);
    let yes = found?;
    Ok(yes)
}

/// Whether each request was sent for a wind that was opened in its event and graph, and the wind ends. `openings` and `ended`
/// have, for each line that was sent, the place of the opening, and where the end is; and `all`, by the place of the opening,
/// where the request and the open before it are.
///
/// # Errors
/// Out of memory.
pub fn requests_are_tied(
    alloc: Global,
    log: &Log,
    heads: &[Head],
    openings: &[usize],
    ended: &[EndedAt],
    all: &[SentFor],
) -> Result<bool, AllocError>
    requires { heads.now ≡ heads_of log.now.events }
    ensures tied { IfOk result (λ yes. yes ≡ true → AreRequestsTied log.now all.now) }
    ensures ended { IfOk result (λ yes. yes ≡ true → AreEnded log.now) }
    ensures complete { IfOk result (λ yes. AreSlotsLow log.now.winds → ArePlacesOfRequests log.now openings.now ended.now all.now → AreRequestsTied log.now all.now → AreEnded log.now → yes ≡ true) }
{
    for k in 0..log.sent.len() {
        let Some(line) = line_at(log, k) else {
            return Ok(false);
        };
        let place = place_of(openings, k);
        if !is_line_tied(alloc, log, heads, all, place, ended_at(ended, k), k, line)? {
            return Ok(false);
        }
    }
    Ok(true)
}
