//! The requests of the index, in journals.
ghost use Rattle.std.specs.Prelude.{◌≡◌, ◌≢◌, ◌↔◌, ℕ, IsTrue, true, IfOk, IfSome, IfNone};
ghost use Rattle.fop_types.specs.declared.messages.BrickReq.TheVariants.{Index};
ghost use Rattle.fop_types.specs.declared.messages.Input.TheVariants.{Request};
ghost use Rattle.wire_xdr.specs.WireText.{input_text};
ghost use Rattle.change_audit.specs.Answered.{IsWindFor};
ghost use Rattle.change_audit.specs.Listings.{WasAsked};

use crate::finding::Opening;
use crate::journals::{input_at, whole_input};
use crate::openings::is_wind_for;
use brick_machine::Brick;
use fop_types::{BrickReq, Input};
use mount_log::Log;
use std::alloc::{AllocError, Global};
use std::collections::BTreeMap;

fn is_index(req: &BrickReq) -> bool
    ensures { IsTrue result ↔ (req.now ≡ Index) }
{
    match req {
        BrickReq::Index => true,
        _ => false,
    }
}

// The graph of an input that is an index on this wind.
fn graph_of(input: &Input, on: u64) -> Option<u32>
    ensures found { IfSome result (λ graph. input.now ≡ Request on graph Index) }
    ensures none { IfNone result ((graph : ℕ) → input.now ≢ Request on graph Index) }
{
    match input {
        Input::Request { wind, graph, req } => {
            if *wind == on && is_index(req) {
                Some(*graph)
            } else {
                None
            }
        }
        _ => None,
    }
}

fn index_graph(alloc: Global, bytes: &[u8], wind: u64) -> Result<Option<u32>, AllocError>
    ensures { IfOk result (λ found. IfSome found (λ graph. bytes.now ≡ input_text (Request wind graph Index))) }
{
    match whole_input(alloc, bytes)? {
        Some(input) => {
            let graph = graph_of(&input, wind);
            drop(input);
            Ok(graph)
        }
        None => Ok(None),
    }
}

// Whether a brick was sent an index, on this wind, as its input of this count.
fn was_asked(
    alloc: Global,
    bricks: &[Brick],
    brick: u8,
    taken: u64,
    wind: u64,
) -> Result<bool, AllocError>
    ensures { IfOk result (λ yes. yes ≡ true → WasAsked bricks.now brick taken wind) }
{
    let Some(bytes) = input_at(bricks, brick, taken) else {
        return Ok(false);
    };
    let found = index_graph(alloc, bytes, wind)?;
    Ok(found.is_some())
}

fn opening_of(openings: &BTreeMap<u64, Opening>, wind: u64) -> usize {
    match openings.get(&wind) {
        Some(opening) => opening.place,
        None => usize::MAX,
    }
}

/// Whether a wind was opened for an internal call, and a brick was sent an index on it, as its input of this count.
///
/// # Errors
/// Out of memory.
pub(crate) fn is_asked(
    alloc: Global,
    log: &Log,
    bricks: &[Brick],
    openings: &BTreeMap<u64, Opening>,
    brick: u8,
    taken: u64,
    wind: u64,
) -> Result<bool, AllocError>
    ensures asked { IfOk result (λ yes. yes ≡ true → WasAsked bricks.now brick taken wind) }
    ensures internal { IfOk result (λ yes. yes ≡ true → IsWindFor log.now.winds 0 wind) }
{
    if !is_wind_for(log.winds.as_slice(), opening_of(openings, wind), 0, wind) {
        return Ok(false);
    }
    let yes = was_asked(alloc, bricks, brick, taken, wind)?;
    Ok(yes)
}
