//! What lists have at an index.
ghost use Rattle.std.specs.Prelude.{◌≡◌, [], None, get_or};
ghost use Rattle.history_replay.specs.code.Runs.{reply_at, answer_by, places_by};

use crate::cases::AnswerAt;
use crate::findings::Findings;
use crate::trace::Trace;
use fop_types::{Gfid, Seq};

/// A count or an index as a number, 4,294,967,295 where it is above.
pub(crate) fn number(at: usize) -> u32 {
    match u32::try_from(at) {
        Ok(number) => number,
        Err(_) => u32::MAX,
    }
}

/// The number of a list at an index, 0 where there is none.
pub(crate) fn number_at(numbers: &[u32], at: usize) -> u32
    ensures { result ≡ get_or numbers.now at 0 }
{
    match numbers.get(at) {
        Some(number) => *number,
        None => 0,
    }
}

/// The index of a list at an index.
pub(crate) fn index_at(indices: &[Option<u32>], at: usize) -> Option<u32>
    ensures { result ≡ get_or indices.now at None }
{
    match indices.get(at) {
        Some(index) => *index,
        None => None,
    }
}

/// What the lookups of a call found, by its index.
pub(crate) fn found_at(found: &[Seq<Gfid>], at: usize) -> &[Gfid]
    ensures { result.now ≡ get_or found.now at [] }
{
    match found.get(at) {
        Some(found) => found.as_slice(),
        None => &[],
    }
}

/// The index of the reply to the call at an index.
pub(crate) fn reply_index(f: &Findings, at: usize) -> Option<usize>
    ensures { result ≡ reply_at f.now at }
{
    match f.replied.as_slice().get(at) {
        Some(reply) => *reply,
        None => None,
    }
}

/// The reply of an index, with its answer.
pub(crate) fn answer_at<'a>(trace: &Trace<'a>, reply: Option<usize>) -> Option<AnswerAt<'a>>
    ensures { result ≡ answer_by trace.now.replies reply }
{
    match reply {
        None => None,
        Some(reply) => match trace.replies.get(reply) {
            None => None,
            Some(found) => Some(AnswerAt {
                reply,
                answer: found.answer,
            }),
        },
    }
}

/// The places of the reply of an index.
pub(crate) fn places_at<'a>(trace: &Trace<'a>, reply: Option<usize>) -> &'a [u32]
    ensures { result.now ≡ places_by trace.now.replies reply }
{
    match reply {
        None => &[],
        Some(reply) => match trace.replies.get(reply) {
            None => &[],
            Some(found) => found.places,
        },
    }
}
