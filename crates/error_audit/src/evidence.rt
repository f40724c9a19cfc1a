//! Finds where the evidence of I/O errors is in a log, by clues to it. What it finds is tested elsewhere.
ghost use Rattle.std.specs.Prelude.{◌≡◌, None, map};
ghost use Rattle.error_audit.specs.code.Searches.{replies_to, ends_at, marks_at, is_of, is_later, is_last_so_far, last_end, is_to, last_with, closed_until, moment_behind, loss_of, out_of};

use crate::brick_replies::ReplyAt;
use crate::connections::Opening;
use crate::losses::{End, Loss, Span};
use fop_types::Cell;
use std::alloc::Global;
use std::collections::BTreeMap;

/// A reply of a brick to a call: the brick, the place in its journal, and where the reply is.
#[derive(Clone, Copy)]
pub struct Found {
    pub brick: u8,
    pub taken: u64,
    pub at: ReplyAt,
}

/// The ends of each brick's connections, by the brick's number; the replies of bricks to each call by a fault or with rows, by
/// the call's number; and where changes were marked, by the first cell of each.
#[derive(Drop)]
pub struct Clues {
    pub ends: Vec<Vec<End>>,
    pub replies: Vec<Vec<Found>>,
    pub marks: BTreeMap<Cell, Vec<usize>>,
}

impl Clues {
    /// No clues. It allocates nothing.
    pub fn new(alloc: Global) -> Clues {
        Clues {
            ends: Vec::new(alloc),
            replies: Vec::new(alloc),
            marks: BTreeMap::new(alloc),
        }
    }

    /// The replies to a call that were found.
    pub fn of(&self, call: u32) -> &[Found]
        ensures { result.now ≡ replies_to (map (λ l. l.items) self.now.replies.items) call }
    {
        match self.replies.get(call as usize) {
            Some(found) => found.as_slice(),
            None => &[],
        }
    }

    /// The places at which a change of these cells may have been marked, by the first of them.
    pub fn marks_of(&self, cells: &[Cell]) -> &[usize]
        ensures { result.now ≡ marks_at (λ l. l.items) self.now.marks.entries cells.now }
    {
        let Some(cell) = cells.first() else {
            return &[];
        };
        match self.marks.get(cell) {
            Some(places) => places.as_slice(),
            None => &[],
        }
    }

    // The ends of a brick's connections.
    fn ends_of(&self, brick: u8) -> &[End]
        ensures { result.now ≡ ends_at (map (λ l. l.items) self.now.ends.items) brick }
    {
        match self.ends.get(brick as usize) {
            Some(ends) => ends.as_slice(),
            None => &[],
        }
    }
}

// ---- the ends of connections

fn is_of(end: End, graph: u32) -> bool
    ensures { result ≡ is_of end.by graph }
{
    match end.by {
        Some(sent) => sent.graph == graph,
        None => true,
    }
}

fn is_later(end: End, last: Option<End>) -> bool
    ensures { result ≡ is_later end last }
{
    match last {
        Some(last) => end.event >= last.event,
        None => true,
    }
}

// Whether an end is one of a graph up to an event, and no earlier than the last one so far.
fn is_last_so_far(end: End, last: Option<End>, graph: u32, until: u64) -> bool
    ensures { result ≡ is_last_so_far end last graph until }
{
    is_later(end, last) && (end.event <= until && is_of(end, graph))
}

// The last of some ends that is one of a graph, up to an event.
fn last_end(ends: &[End], graph: u32, until: u64) -> Option<End>
    ensures { result ≡ last_end ends.now graph until None }
{
    let mut last = None;
    for end in ends {
        if is_last_so_far(*end, last, graph, until) {
            last = Some(*end);
        }
    }
    last
}

// ---- moments

fn is_to(opening: &Opening, graph: u32, brick: u8) -> bool
    ensures { result ≡ is_to opening.now graph brick }
{
    opening.brick == brick && opening.graph == graph
}

// The last event up to which a connection with this number is the last one of a graph to a brick.
fn last_with(openings: &[Opening], graph: u32, brick: u8, number: u32, until: u64) -> u64
    ensures { result ≡ last_with openings.now graph brick number until 0 }
{
    let mut count = 0u32;
    for opening in openings {
        if !is_to(opening, graph, brick) {
            continue;
        }
        if count == number {
            return until.min(opening.event.saturating_sub(1));
        }
        count = count.saturating_add(1);
    }
    until
}

// The last event before a further connection was opened behind an end.
fn closed_until(openings: &[Opening], graph: u32, brick: u8, end: u64, until: u64) -> u64
    ensures { result ≡ closed_until openings.now graph brick end until }
{
    for opening in openings {
        if is_to(opening, graph, brick) && opening.event > end {
            return until.min(opening.event - 1);
        }
    }
    until
}

// The last moment, up to the one at which a brick was found to be out, before a further connection was opened behind an end.
fn moment_behind(openings: &[Opening], graph: u32, brick: u8, found: u64, end: Option<End>) -> u64
    ensures { result ≡ moment_behind openings.now graph brick found end }
{
    match end {
        Some(end) => closed_until(openings, graph, brick, end.event, found),
        None => found,
    }
}

/// How a brick was lost to a graph up to an event, with this number of its last connection.
pub fn find_loss(
    openings: &[Opening],
    clues: &Clues,
    span: Span,
    until: u64,
    pair: &(u8, u32),
) -> Loss
    ensures { result ≡ loss_of openings.now (ends_at (map (λ l. l.items) clues.now.ends.items) pair.now.0) span.graph pair.now.0 pair.now.1 until }
{
    let found = last_with(openings, span.graph, pair.0, pair.1, until);
    let end = last_end(clues.ends_of(pair.0), span.graph, found);
    let moment = moment_behind(openings, span.graph, pair.0, found, end);
    Loss { moment, found, end }
}

/// How a brick was lost to a graph up to an event, by the last moment at which it was without a connection.
pub fn find_out(openings: &[Opening], clues: &Clues, span: Span, until: u64, brick: u8) -> Loss
    ensures { result ≡ out_of openings.now (ends_at (map (λ l. l.items) clues.now.ends.items) brick) span.graph brick until }
{
    match last_end(clues.ends_of(brick), span.graph, until) {
        Some(end) => {
            let moment = closed_until(openings, span.graph, brick, end.event, until);
            Loss {
                moment,
                found: moment,
                end: Some(end),
            }
        }
        None => {
            let moment = last_with(openings, span.graph, brick, 0, until);
            Loss {
                moment,
                found: moment,
                end: None,
            }
        }
    }
}
