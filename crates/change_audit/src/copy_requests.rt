//! The fetch and the replacement of a copy, in journals, and what arrived as their answers.
ghost use Rattle.std.specs.Prelude.{◌≡◌, ◌↔◌, IsTrue, true, IfOk, IfSome};
ghost use Rattle.fop_types.specs.declared.messages.BrickRep.TheVariants.{Done};
ghost use Rattle.fop_types.specs.declared.messages.BrickReq.TheVariants.{Fetch};
ghost use Rattle.fop_types.specs.declared.messages.DoneArm.TheVariants.{Content as Shown};
ghost use Rattle.fop_types.specs.declared.messages.Input.TheVariants.{Request};
ghost use Rattle.fop_types.specs.declared.messages.OutKind.TheVariants.{Reply};
ghost use Rattle.wire_xdr.specs.WireText.{input_text, output_text};
ghost use Rattle.change_audit.specs.Copying.{IsSentAs, replace_of, IsConfirmed, IsFetchedFor};

use crate::answers::{Answering, done_in};
use crate::arrivals::{arrived, hyper_at};
use crate::journals::{input_at, whole_input};
use brick_machine::Brick;
use fop_types::{BrickReq, Cell, Content, Input};
use mount_log::Log;
use std::alloc::{AllocError, Global};
use wire_xdr::copy_bytes;

/// The request of a replacement.
#[derive(Drop)]
pub struct Replacement {
    pub wind: u64,
    pub graph: u32,
    pub cell: Cell,
    pub last: u64,
    pub content: Content,
}

// ---- what was asked

fn replacement_on(wind: u64, graph: u32, req: BrickReq) -> Option<Replacement>
    ensures { IfSome result (λ r. Request wind graph req ≡ Request r.wind r.graph (replace_of r)) }
{
    match req {
        BrickReq::Replace {
            cell,
            last,
            content,
        } => Some(Replacement {
            wind,
            graph,
            cell,
            last,
            content,
        }),
        other => {
            drop(other);
            None
        }
    }
}

fn replacement_of(input: Input) -> Option<Replacement>
    ensures { IfSome result (λ r. input ≡ Request r.wind r.graph (replace_of r)) }
{
    match input {
        Input::Request { wind, graph, req } => replacement_on(wind, graph, req),
        _ => None,
    }
}

// The replacement that the bytes are, if they are one.
fn replacement_in(alloc: Global, bytes: &[u8]) -> Result<Option<Replacement>, AllocError>
    ensures { IfOk result (λ found. IfSome found (λ r. bytes.now ≡ input_text (Request r.wind r.graph (replace_of r)))) }
{
    match whole_input(alloc, bytes)? {
        Some(input) => Ok(replacement_of(input)),
        None => Ok(None),
    }
}

// The replacement that a brick was sent as its input of this count.
fn asked_replacement(
    alloc: Global,
    bricks: &[Brick],
    brick: u8,
    taken: u64,
) -> Result<Option<Replacement>, AllocError>
    ensures { IfOk result (λ found. IfSome found (λ r. IsSentAs bricks.now brick taken r.wind r.graph (replace_of r))) }
{
    let Some(bytes) = input_at(bricks, brick, taken) else {
        return Ok(None);
    };
    let Some(found) = replacement_in(alloc, bytes)? else {
        return Ok(None);
    };
    Ok(Some(found))
}

/// Whether two cells are the same.
pub fn is_cell(cell: &Cell, other: &Cell) -> bool
    ensures { IsTrue result ↔ (cell.now ≡ other.now) }
{
    *cell == *other
}

fn is_fetch_of(req: &BrickReq, of: &Cell) -> bool
    ensures { IsTrue result ↔ (req.now ≡ Fetch 0 of.now) }
{
    match req {
        BrickReq::Fetch { fd, cell } => *fd == 0 && is_cell(cell, of),
        _ => false,
    }
}

fn is_fetch_on(input: &Input, on: u64, at: u32, of: &Cell) -> bool
    ensures { IsTrue result ↔ (input.now ≡ Request on at (Fetch 0 of.now)) }
{
    match input {
        Input::Request { wind, graph, req } => {
            *wind == on && *graph == at && is_fetch_of(req, of)
        }
        _ => false,
    }
}

// Whether the bytes are the fetch of a cell on a wind, in a graph.
fn is_fetch(
    alloc: Global,
    bytes: &[u8],
    wind: u64,
    graph: u32,
    cell: &Cell,
) -> Result<bool, AllocError>
    ensures { IfOk result (λ yes. yes ≡ true → bytes.now ≡ input_text (Request wind graph (Fetch 0 cell.now))) }
{
    match whole_input(alloc, bytes)? {
        Some(input) => {
            let yes = is_fetch_on(&input, wind, graph, cell);
            drop(input);
            Ok(yes)
        }
        None => Ok(false),
    }
}

// Whether a brick was sent, as its input of this count, the fetch of a cell on a wind, in a graph.
fn is_asked_fetch(
    alloc: Global,
    bricks: &[Brick],
    brick: u8,
    taken: u64,
    wind: u64,
    graph: u32,
    cell: &Cell,
) -> Result<bool, AllocError>
    ensures { IfOk result (λ yes. yes ≡ true → IsSentAs bricks.now brick taken wind graph (Fetch 0 cell.now)) }
{
    let Some(bytes) = input_at(bricks, brick, taken) else {
        return Ok(false);
    };
    let yes = is_fetch(alloc, bytes, wind, graph, cell)?;
    Ok(yes)
}

// ---- requests with their answers

/// The replacement that a brick has confirmed by what arrived in the event at a place.
///
/// # Errors
/// Out of memory.
pub(crate) fn confirmed(
    alloc: Global,
    log: &Log,
    bricks: &[Brick],
    brick: u8,
    event: usize,
) -> Result<Option<Replacement>, AllocError>
    ensures { IfOk result (λ found. IfSome found (λ r. IsConfirmed log.now bricks.now brick event r)) }
{
    let Some(bytes) = arrived(log, event, brick) else {
        return Ok(None);
    };
    let Some(done) = done_in(alloc, bytes)? else {
        return Ok(None);
    };
    let Some(found) = asked_replacement(alloc, bricks, brick, done.taken)? else {
        return Ok(None);
    };
    if found.wind != done.wind {
        drop(found);
        return Ok(None);
    }
    Ok(Some(found))
}

// Where the count of inputs and the wind are in the encoding of a reply: two hypers, with a unit for the kind of output between.
const TAKEN: usize = 0;

const WIND: usize = 12;

// What a reply answers, read without the rest.
fn answering(bytes: &[u8]) -> Option<Answering> {
    let taken = hyper_at(bytes, TAKEN)?;
    let wind = hyper_at(bytes, WIND)?;
    Some(Answering { taken, wind })
}

// Whether the bytes are the reply to a fetch by what a replacement carries.
fn is_reply(
    alloc: Global,
    bytes: &[u8],
    taken: u64,
    wind: u64,
    by: &Replacement,
) -> Result<bool, AllocError>
    ensures { IfOk result (λ yes. IsTrue yes ↔ (bytes.now ≡ output_text (record { taken = taken; kind = Reply wind (Done (Shown by.now.content by.now.last)) }))) }
{
    let expected = copy_bytes(alloc, taken, wind, &by.content, by.last)?;
    let yes = bytes == expected.as_slice();
    drop(expected);
    Ok(yes)
}

/// The wind of the fetch that a brick has answered by what a replacement carries, as that arrived in the event at a place.
///
/// # Errors
/// Out of memory.
pub(crate) fn fetched(
    alloc: Global,
    log: &Log,
    bricks: &[Brick],
    brick: u8,
    event: usize,
    by: &Replacement,
) -> Result<Option<u64>, AllocError>
    ensures { IfOk result (λ found. IfSome found (λ wind. IsFetchedFor log.now bricks.now brick event by.now wind)) }
{
    let Some(bytes) = arrived(log, event, brick) else {
        return Ok(None);
    };
    let Some(reply) = answering(bytes) else {
        return Ok(None);
    };
    let Answering { taken, wind } = reply;
    if !is_reply(alloc, bytes, taken, wind, by)? {
        return Ok(None);
    }
    if !is_asked_fetch(alloc, bricks, brick, taken, wind, by.graph, &by.cell)? {
        return Ok(None);
    }
    Ok(Some(wind))
}
