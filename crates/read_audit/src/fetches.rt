//! The content that a brick has answered to a fetch of a call, where it arrived.
ghost use Rattle.std.specs.Prelude.{◌≡◌, true, IfOk, IfSome};
ghost use Rattle.fop_types.specs.declared.messages.BrickRep.TheVariants.{Done};
ghost use Rattle.fop_types.specs.declared.messages.BrickReq.TheVariants.{Fetch};
ghost use Rattle.fop_types.specs.declared.messages.DoneArm.TheVariants.{Content as Held};
ghost use Rattle.fop_types.specs.declared.messages.Input.TheVariants.{Request};
ghost use Rattle.fop_types.specs.declared.messages.OutKind.TheVariants.{Reply};
ghost use Rattle.wire_xdr.specs.WireText.{input_text};
ghost use Rattle.read_audit.specs.Fetching.{WasFetched, IsShown};

use crate::found::FetchAt;
use brick_machine::Brick;
use change_audit::arrivals::{arrived, written_output};
use change_audit::copy_requests::is_cell;
use change_audit::journals::{input_at, whole_input};
use change_audit::openings::is_wind_for;
use fop_types::{BrickRep, BrickReq, Cell, Content, DoneArm, Input, OutKind, Output};
use mount_log::Log;
use std::alloc::{AllocError, Global};

/// An answer with a content: its wind, the content, and the number of the last change in it.
#[derive(Drop)]
pub struct Shown {
    pub wind: u64,
    pub content: Content,
    pub last: u64,
}

// ---- what arrived

fn content_in(wind: u64, arm: DoneArm) -> Option<Shown>
    ensures { IfSome result (λ s. Reply wind (Done arm) ≡ Reply s.wind (Done (Held s.content s.last))) }
{
    match arm {
        DoneArm::Content(content, last) => Some(Shown {
            wind,
            content,
            last,
        }),
        _ => None,
    }
}

fn content_of(wind: u64, rep: BrickRep) -> Option<Shown>
    ensures { IfSome result (λ s. Reply wind rep ≡ Reply s.wind (Done (Held s.content s.last))) }
{
    match rep {
        BrickRep::Done(arm) => content_in(wind, arm),
        _ => None,
    }
}

fn content_answered(kind: OutKind) -> Option<Shown>
    ensures { IfSome result (λ s. kind ≡ Reply s.wind (Done (Held s.content s.last))) }
{
    match kind {
        OutKind::Reply { wind, rep } => content_of(wind, rep),
        _ => None,
    }
}

// ---- what was asked

// The descriptor of a request that is the fetch of a cell.
fn fetch_of(req: &BrickReq, of: &Cell) -> Option<u32>
    ensures { IfSome result (λ fd. req.now ≡ Fetch fd of.now) }
{
    match req {
        BrickReq::Fetch { fd, cell } => { if is_cell(cell, of) { Some(*fd) } else { None } }
        _ => None,
    }
}

fn fetch_on(input: &Input, on: u64, at: usize, of: &Cell) -> Option<u32>
    ensures { IfSome result (λ fd. input.now ≡ Request on at (Fetch fd of.now)) }
{
    match input {
        Input::Request { wind, graph, req } => {
            if *wind == on && *graph as usize == at {
                fetch_of(req, of)
            } else {
                None
            }
        }
        _ => None,
    }
}

fn fetch_in(
    alloc: Global,
    bytes: &[u8],
    wind: u64,
    graph: usize,
    cell: &Cell,
) -> Result<Option<u32>, AllocError>
    ensures { IfOk result (λ found. IfSome found (λ fd. bytes.now ≡ input_text (Request wind graph (Fetch fd cell.now)))) }
{
    match whole_input(alloc, bytes)? {
        Some(input) => Ok(fetch_on(&input, wind, graph, cell)),
        None => Ok(None),
    }
}

// Whether a brick was sent, as its input of this count, the fetch of a cell on a wind, in a graph.
fn was_fetched(
    alloc: Global,
    bricks: &[Brick],
    brick: u8,
    taken: u64,
    wind: u64,
    graph: usize,
    cell: &Cell,
) -> Result<bool, AllocError>
    ensures { IfOk result (λ yes. yes ≡ true → WasFetched bricks.now brick taken wind graph cell.now) }
{
    let Some(bytes) = input_at(bricks, brick, taken) else {
        return Ok(false);
    };
    let found = fetch_in(alloc, bytes, wind, graph, cell)?;
    Ok(found.is_some())
}

// ---- requests with their answers

/// The content that the source of a fetch has answered to the fetch of a cell, on a wind of the call, in the call's graph.
///
/// # Errors
/// Out of memory.
pub(crate) fn content_at(
    alloc: Global,
    log: &Log,
    bricks: &[Brick],
    call: u32,
    graph: usize,
    cell: &Cell,
    at: FetchAt,
) -> Result<Option<Content>, AllocError>
    ensures { IfOk result (λ found. IfSome found (λ content. IsShown log.now bricks.now call graph at.source at.event cell.now content)) }
{
    let Some(bytes) = arrived(log, at.event, at.source) else {
        return Ok(None);
    };
    let Some(output) = written_output(alloc, bytes)? else {
        return Ok(None);
    };
    let Output { taken, kind } = output;
    let Some(found) = content_answered(kind) else {
        return Ok(None);
    };
    let Shown {
        wind,
        content,
        last: _,
    } = found;
    if !was_fetched(alloc, bricks, at.source, taken, wind, graph, cell)? {
        return Ok(None);
    }
    if !is_wind_for(log.winds.as_slice(), at.opening, call, wind) {
        return Ok(None);
    }
    Ok(Some(content))
}
