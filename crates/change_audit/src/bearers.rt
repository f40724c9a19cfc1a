//! Whether the bricks of a set bear a change, where they are said to.
ghost use Rattle.std.specs.Prelude.{◌≡◌, ◌==◌, ◌≤◌, ◌↔◌, ℕ, List, IsTrue, true, length, map, drop, Contains, IfOk, IfSome, IfNone};
ghost use Rattle.std.specs.List.{AllByRecursion, IsDistinct};
ghost use Rattle.fop_types.specs.declared.messages.Input.{Input as Made};
ghost use Rattle.wire_xdr.specs.WireText.{input_text, IsInput};
ghost use Rattle.change_audit.specs.Bearing.{brick_of, RisesFrom, IsMaking, IsMakingIn, IsInOrder, IsSaidBorne, IsSaidBearer, HasBearers, IsBorneThere, IsBearerThere, IsFirstOp, AreBearersThere};

use crate::answers::Bearer;
use crate::journals::{input_at, whole_input};
use crate::making::makes;
use crate::served::{is_posted, is_served, op_asked, text_in};
use brick_machine::Brick;
use fop_types::{FlatOp, Input, SetPlan};
use mount_log::Log;
use std::alloc::{AllocError, Global};

/// Whether a brick is one of the set.
pub fn has_member(plan: &SetPlan, brick: u8) -> bool
    ensures { IsTrue result ↔ Contains plan.now.bricks brick }
{
    plan.bricks.as_slice().contains(&brick)
}

// Whether the op was served before the post, and answered before it, and the post by the event of this number.
fn is_in_order(bearer: &Bearer, number: u64) -> bool
    ensures { IsTrue result ↔ IsInOrder bearer.now number }
{
    bearer.op.taken < bearer.post.taken
        && bearer.op.event < bearer.post.event
        && (bearer.post.event as u64) < number
}

// Whether a brick has served the op of this text, and then the post of the change, by the event of this number.
fn is_borne_by(
    alloc: Global,
    log: &Log,
    bricks: &[Brick],
    call: u32,
    graph: usize,
    change: u64,
    number: u64,
    text: &[u8],
    bearer: &Bearer,
) -> Result<bool, AllocError>
    ensures sound { IfOk result (λ yes. yes ≡ true → IsSaidBorne log.now bricks.now call graph change number text.now bearer.now.brick) }
    ensures complete { IfOk result (λ yes. IsBorneThere log.now bricks.now call graph change number text.now bearer.now → yes ≡ true) }
{
    if !is_in_order(bearer, number) {
        return Ok(false);
    }
    if !is_served(alloc, log, bricks, *bearer, call, text)? {
        return Ok(false);
    }
    let yes = is_posted(alloc, log, bricks, *bearer, call, graph, change)?;
    Ok(yes)
}

fn is_bearer(
    alloc: Global,
    log: &Log,
    bricks: &[Brick],
    plan: &SetPlan,
    call: u32,
    graph: usize,
    change: u64,
    number: u64,
    text: &[u8],
    bearer: &Bearer,
) -> Result<bool, AllocError>
    ensures sound { IfOk result (λ yes. yes ≡ true → IsSaidBearer log.now bricks.now plan.now call graph change number text.now bearer.now) }
    ensures complete { IfOk result (λ yes. IsBearerThere log.now bricks.now plan.now call graph change number text.now bearer.now → yes ≡ true) }
{
    if !has_member(plan, bearer.brick) {
        return Ok(false);
    }
    let yes = is_borne_by(
        alloc, log, bricks, call, graph, change, number, text, bearer,
    )?;
    Ok(yes)
}

fn are_bearers(
    alloc: Global,
    log: &Log,
    bricks: &[Brick],
    plan: &SetPlan,
    call: u32,
    graph: usize,
    change: u64,
    number: u64,
    text: &[u8],
    bearers: &[Bearer],
) -> Result<bool, AllocError>
    ensures sound { IfOk result (λ yes. yes ≡ true → AllByRecursion (IsSaidBearer log.now bricks.now plan.now call graph change number text.now) bearers.now) }
    ensures complete { IfOk result (λ yes. AllByRecursion (IsBearerThere log.now bricks.now plan.now call graph change number text.now) bearers.now → yes ≡ true) }
{
    for bearer in bearers {
        if !is_bearer(
            alloc, log, bricks, plan, call, graph, change, number, text, bearer,
        )? {
            return Ok(false);
        }
    }
    Ok(true)
}

// Whether the numbers of the bricks rise.
fn are_rising(bearers: &[Bearer]) -> bool
    ensures { IsTrue result ↔ RisesFrom 0 (map brick_of bearers.now) }
{
    let mut least = 0u32;
    for bearer in bearers {
        if (bearer.brick as u32) < least {
            return false;
        }
        least = bearer.brick as u32 + 1;
    }
    true
}

fn are_apart(bearers: &[Bearer]) -> bool
    ensures sound { result ≡ true → IsDistinct ◌==◌ (map brick_of bearers.now) }
    ensures complete { RisesFrom 0 (map brick_of bearers.now) → result ≡ true }
{
    are_rising(bearers)
}

fn are_enough(plan: &SetPlan, bearers: &[Bearer]) -> bool
    ensures { IsTrue result ↔ (plan.now.q ≤ length (map brick_of bearers.now)) }
{
    plan.q as usize <= bearers.len()
}

// The bytes of the op of the first bearer.
fn first_op<'a>(bricks: &'a [Brick], bearers: &[Bearer]) -> Option<&'a [u8]>
    ensures found { IfSome result (λ bytes. IsFirstOp bricks.now bearers.now bytes.now) }
    ensures none { IfNone result ((bytes : List ℕ) → IsFirstOp bricks.now bearers.now bytes → ⊥) }
{
    let first = bearers.first()?;
    input_at(bricks, first.brick, first.op.taken)
}

// Whether an input is the op of a change in a graph that makes the operation.
fn is_made_by(input: &Input, graph: usize, change: u64, operation: &FlatOp) -> bool
    ensures sound { result ≡ true → IsMakingIn graph change operation.now input.now }
    ensures complete { IsMakingIn graph change operation.now input.now → result ≡ true }
{
    match op_asked(input, graph, change) {
        Some(op) => makes(op, operation),
        None => false,
    }
}

// Whether bytes are the op of a change in a graph that makes the operation.
fn is_making(
    alloc: Global,
    bytes: &[u8],
    graph: usize,
    change: u64,
    operation: &FlatOp,
) -> Result<bool, AllocError>
    ensures sound { IfOk result (λ yes. yes ≡ true → IsMaking graph change operation.now (drop 12 bytes.now)) }
    ensures complete { IfOk result (λ yes. (x : Made) → IsInput x → bytes.now ≡ input_text x → IsMakingIn graph change operation.now x → yes ≡ true) }
{
    match whole_input(alloc, bytes)? {
        Some(input) => {
            let yes = is_made_by(&input, graph, change, operation);
            drop(input);
            Ok(yes)
        }
        None => Ok(false),
    }
}

/// Whether a quorum of the bricks of a set bears a change of a call in a graph that makes the operation, by the event of this
/// number: those who are said to, by rising numbers.
///
/// # Errors
/// Out of memory.
pub(crate) fn has_bearers(
    alloc: Global,
    log: &Log,
    bricks: &[Brick],
    plan: &SetPlan,
    call: u32,
    graph: usize,
    change: u64,
    number: u64,
    operation: &FlatOp,
    bearers: &[Bearer],
) -> Result<bool, AllocError>
    ensures sound { IfOk result (λ yes. yes ≡ true → HasBearers log.now bricks.now plan.now call graph change number operation.now) }
    ensures complete { IfOk result (λ yes. AreBearersThere log.now bricks.now plan.now call graph change number operation.now bearers.now → yes ≡ true) }
{
    if !are_apart(bearers) {
        return Ok(false);
    }
    if !are_enough(plan, bearers) {
        return Ok(false);
    }
    let Some(bytes) = first_op(bricks, bearers) else {
        return Ok(false);
    };
    if !is_making(alloc, bytes, graph, change, operation)? {
        return Ok(false);
    }
    let Some(text) = text_in(bytes) else {
        return Ok(false);
    };
    let yes = are_bearers(
        alloc, log, bricks, plan, call, graph, change, number, text, bearers,
    )?;
    Ok(yes)
}
