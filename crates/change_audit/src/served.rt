//! Ops and posts that a brick has answered Done.
ghost use Rattle.std.specs.Prelude.{◌≡◌, ◌↔◌, ◌<◌, ◌≤◌, ℕ, IsTrue, true, Some, length, drop, IfOk, IfSome, IfNone};
ghost use Rattle.fop_types.specs.declared.messages.BrickReq.{BrickReq as Asked};
ghost use Rattle.fop_types.specs.declared.messages.BrickReq.TheVariants.{Post};
ghost use Rattle.fop_types.specs.declared.messages.Input.TheVariants.{Request};
ghost use Rattle.wire_xdr.specs.WireText.{input_text, IsInput};
ghost use Rattle.fop_types.specs.declared.store_ops.StoreOp.{StoreOp as Op};
ghost use Rattle.change_audit.specs.Answered.{IsWindFor, IsOpenedSince};
ghost use Rattle.change_audit.specs.Served.{IsRequestOn, IsOnWind, IsOpeningAt, IsOpeningSince, IsOpOf, IsOpIn, IsPostOf, IsPostIn, IsPostOn, HasText, IsServed, IsPosted};
ghost use Rattle.change_audit.specs.Served.{text_of, IsServedThere, IsPostedThere};

use crate::answers::{Bearer, Served, is_answered};
use crate::journals::{input_at, whole_input};
use crate::openings::{is_opened_since, is_wind_for};
use brick_machine::Brick;
use fop_types::{BrickReq, Input, StoreOp};
use mount_log::Log;
use std::alloc::{AllocError, Global};

// The kind of an input, a unit, and the number of a request's wind, a hyper.
const BEFORE_TEXT: usize = 12;

/// What bytes are behind the number of a wind.
pub(crate) fn text_in(bytes: &[u8]) -> Option<&[u8]>
    ensures found { IfSome result (λ text. text.now ≡ drop 12 bytes.now) }
    ensures none { IfNone result (length bytes.now < 12) }
{
    if bytes.len() < BEFORE_TEXT {
        return None;
    }
    let (_, text) = bytes.split_at(BEFORE_TEXT);
    Some(text)
}

// The wind of an input that is a request.
fn wind_of(input: &Input) -> Option<u64>
    ensures found { IfSome result (λ wind. IsRequestOn wind input.now) }
    ensures none { IfNone result ((wind : ℕ) → IsRequestOn wind input.now → ⊥) }
{
    match input {
        Input::Request { wind, .. } => Some(*wind),
        _ => None,
    }
}

// The wind of bytes that are a request.
fn wind_in(alloc: Global, bytes: &[u8]) -> Result<Option<u64>, AllocError>
    ensures found { IfOk result (λ found. IfSome found (λ wind. IsOnWind wind bytes.now)) }
    ensures complete { IfOk result (λ found. (wind graph : ℕ) (req : Asked) → IsInput (Request wind graph req) → bytes.now ≡ input_text (Request wind graph req) → found ≡ Some wind) }
{
    match whole_input(alloc, bytes)? {
        Some(input) => {
            let found = wind_of(&input);
            drop(input);
            Ok(found)
        }
        None => Ok(None),
    }
}

fn has_text(bytes: &[u8], text: &[u8]) -> bool
    ensures sound { result ≡ true → drop 12 bytes.now ≡ text.now }
    ensures complete { 12 ≤ length bytes.now → drop 12 bytes.now ≡ text.now → result ≡ true }
{
    match text_in(bytes) {
        Some(found) => found == text,
        None => false,
    }
}

// The wind of bytes that are a request of this text.
fn wind_before(alloc: Global, bytes: &[u8], text: &[u8]) -> Result<Option<u64>, AllocError>
    ensures found { IfOk result (λ found. IfSome found (λ wind. HasText wind text.now bytes.now)) }
    ensures complete { IfOk result (λ found. (wind graph : ℕ) (req : Asked) → IsInput (Request wind graph req) → text.now ≡ text_of graph req → bytes.now ≡ input_text (Request wind graph req) → found ≡ Some wind) }
{
    if !has_text(bytes, text) {
        return Ok(None);
    }
    let found = wind_in(alloc, bytes)?;
    Ok(found)
}

// Whether a request was sent for a wind of the call, where this says.
fn is_of_call(log: &Log, at: Served, call: u32, wind: u64) -> bool
    ensures sound { result ≡ true → IsWindFor log.now.winds call wind }
    ensures exact { IsTrue result ↔ IsOpeningAt log.now.winds at.opening call wind }
{
    is_wind_for(log.winds.as_slice(), at.opening, call, wind)
}

/// Whether the brick of a bearer has answered Done to its op, this is the op's text, and it was sent for a wind of the call.
///
/// # Errors
/// Out of memory.
pub(crate) fn is_served(
    alloc: Global,
    log: &Log,
    bricks: &[Brick],
    bearer: Bearer,
    call: u32,
    text: &[u8],
) -> Result<bool, AllocError>
    ensures sound { IfOk result (λ yes. yes ≡ true → IsServed log.now bricks.now bearer.brick bearer.op call text.now) }
    ensures complete { IfOk result (λ yes. (graph : ℕ) (req : Asked) → text.now ≡ text_of graph req → IsServedThere log.now bricks.now bearer.brick bearer.op call graph req → yes ≡ true) }
{
    let Some(bytes) = input_at(bricks, bearer.brick, bearer.op.taken) else {
        return Ok(false);
    };
    let Some(wind) = wind_before(alloc, bytes, text)? else {
        return Ok(false);
    };
    if !is_of_call(log, bearer.op, call, wind) {
        return Ok(false);
    }
    let yes = is_answered(alloc, log, bearer.brick, bearer.op, wind)?;
    Ok(yes)
}

// ---- ops

fn op_of(req: &BrickReq, change: u64) -> Option<&StoreOp>
    ensures found { IfSome result (λ o. IsOpOf change o.now req.now) }
    ensures none { IfNone result ((o : Op) → IsOpOf change o req.now → ⊥) }
{
    match req {
        BrickReq::Op { change: of, op, .. } => { if *of == change { Some(op) } else { None } }
        _ => None,
    }
}

/// The store op of an input that is the op of a change in a graph.
pub(crate) fn op_asked(input: &Input, graph: usize, change: u64) -> Option<&StoreOp>
    ensures found { IfSome result (λ o. IsOpIn graph change o.now input.now) }
    ensures none { IfNone result ((o : Op) → IsOpIn graph change o input.now → ⊥) }
{
    match input {
        Input::Request { graph: of, req, .. } => {
            if *of as usize == graph {
                op_of(req, change)
            } else {
                None
            }
        }
        _ => None,
    }
}

// ---- posts

fn is_post(req: &BrickReq, change: u64) -> bool
    ensures { IsTrue result ↔ IsPostOf change req.now }
{
    match req {
        BrickReq::Post { change: of, .. } => *of == change,
        _ => false,
    }
}

// The wind of an input that is the post of a change in a graph.
fn post_asked(input: &Input, graph: usize, change: u64) -> Option<u64>
    ensures found { IfSome result (λ wind. IsPostIn wind graph change input.now) }
    ensures none { IfNone result ((wind : ℕ) → IsPostIn wind graph change input.now → ⊥) }
{
    match input {
        Input::Request {
            wind,
            graph: of,
            req,
        } => {
            if *of as usize == graph && is_post(req, change) {
                Some(*wind)
            } else {
                None
            }
        }
        _ => None,
    }
}

fn post_in(
    alloc: Global,
    bytes: &[u8],
    graph: usize,
    change: u64,
) -> Result<Option<u64>, AllocError>
    ensures found { IfOk result (λ found. IfSome found (λ wind. IsPostOn wind graph change bytes.now)) }
    ensures complete { IfOk result (λ found. (wind : ℕ) (post : IsPostOn wind graph change bytes.now) → IsInput (Request wind graph (Post change post.cells post.mask)) → found ≡ Some wind) }
{
    match whole_input(alloc, bytes)? {
        Some(input) => {
            let found = post_asked(&input, graph, change);
            drop(input);
            Ok(found)
        }
        None => Ok(None),
    }
}

// Whether a post was sent for a wind of the call, where this says, and since the event at a place.
fn is_sent_since(log: &Log, at: Served, call: u32, wind: u64, event: usize) -> bool
    ensures sound { result ≡ true → IsOpenedSince log.now.winds call wind event }
    ensures exact { IsTrue result ↔ IsOpeningSince log.now.winds at.opening call wind event }
{
    is_opened_since(log.winds.as_slice(), at.opening, call, wind, event)
}

/// Whether the brick of a bearer has answered Done to its post, this is the post of a change in a graph, and it was sent for a wind of
/// the call when the answer to the op had arrived.
///
/// # Errors
/// Out of memory.
pub(crate) fn is_posted(
    alloc: Global,
    log: &Log,
    bricks: &[Brick],
    bearer: Bearer,
    call: u32,
    graph: usize,
    change: u64,
) -> Result<bool, AllocError>
    ensures sound { IfOk result (λ yes. yes ≡ true → IsPosted log.now bricks.now bearer.brick bearer.post call graph change bearer.op.event) }
    ensures complete { IfOk result (λ yes. IsPostedThere log.now bricks.now bearer.brick bearer.post call graph change bearer.op.event → yes ≡ true) }
{
    let Some(bytes) = input_at(bricks, bearer.brick, bearer.post.taken) else {
        return Ok(false);
    };
    let Some(wind) = post_in(alloc, bytes, graph, change)? else {
        return Ok(false);
    };
    if !is_sent_since(log, bearer.post, call, wind, bearer.op.event) {
        return Ok(false);
    }
    let yes = is_answered(alloc, log, bearer.brick, bearer.post, wind)?;
    Ok(yes)
}
