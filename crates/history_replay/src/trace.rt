//! What is judged: calls, replies and a history.
ghost use Rattle.std.specs.Prelude.{◌≡◌};

use fop_types::{Answer, Entry};
use std::marker::Model;
use submitted_calls::Submitted;

/// A reply: the number of its call, from 1; a place for each of the call's file operations that was answered by something
/// else than an I/O error; and the answer.
#[derive(Drop)]
pub struct Replied<'a> {
    pub call: u32,
    pub places: &'a [u32],
    pub answer: &'a Answer,
}

impl<'a> Model for Replied<'a> {
    ghost use Rattle.fop_types.specs.History.{Reply};

    ghost Value = { Reply };

    ghost view = { λ r. record { call = r.call; places = r.places.now; answer = r.answer.now } };
}

/// The calls by their numbers, from 1 on; the replies, each session's in the order of its calls; the history of changes; and
/// three numbers for each call: `submitted` is a lower bound of the entries before its first one, `since` a lower bound of its
/// places, `until` an upper bound of its places.
#[derive(Drop)]
pub struct Trace<'a> {
    pub calls: &'a [Submitted<'a>],
    pub replies: &'a [Replied<'a>],
    pub history: &'a [Entry],
    pub submitted: &'a [u32],
    pub since: &'a [u32],
    pub until: &'a [u32],
}

impl<'a> Model for Trace<'a> {
    ghost use Rattle.history_replay.specs.Traces.{Trace as Traced};

    ghost Value = { Traced };

    ghost view = { λ t. record { calls = t.calls.now; replies = t.replies.now; history = t.history.now; submitted = t.submitted.now; since = t.since.now; until = t.until.now } };
}
