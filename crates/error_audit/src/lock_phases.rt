//! The last lock phase of a call.
ghost use Rattle.std.specs.Prelude.{◌≡◌, ◌<◌, ◌↔◌, ℕ, IsTrue, true, Some, map, length, slice_get, IfOk, IfSome};
ghost use Rattle.std.specs.List.{AllByRecursion};
ghost use Rattle.fop_types.specs.declared.messages.Input.TheVariants as input;
ghost use Rattle.wire_messages.specs.Messages.{input_in};
ghost use Rattle.mount_log.specs.Locks.{IsLock, IsLastPhase};
ghost use Rattle.error_audit.specs.LockTable.{HaveLocks, AreBehind, IsBehind, IsLockOf, IsLockOn, IsFollowed, AreOfCalls};

use crate::cells::are_cells;
use crate::locks::{LockAt, locks_at};
use fop_types::{BrickReq, Cell, Input, SetPlan};
use mount_log::by_place::line_at;
use mount_log::{Log, SentLine};
use std::alloc::{AllocError, Global};
use wire_messages::{Message, input_of};

// ---- a lock

fn is_lock(req: &BrickReq, call: u32, of: &[Cell]) -> bool
    ensures { (wind graph : ℕ) → IsTrue result ↔ IsLockOf call wind of.now (input.Request wind graph req.now) }
{
    match req {
        BrickReq::Lock {
            call: named,
            shared: _,
            cells,
        } => *named == call && are_cells(cells.as_slice(), of),
        _ => false,
    }
}

fn lock_of(sent: &Input, call: u32, of: &[Cell]) -> Option<u64>
    ensures sound { IfSome result (λ wind. IsLockOf call wind of.now sent.now) }
    ensures complete { (wind : ℕ) → IsLockOf call wind of.now sent.now → result ≡ Some wind }
{
    match sent {
        Input::Request {
            wind,
            graph: _,
            req,
        } => {
            if is_lock(req, call, of) {
                Some(*wind)
            } else {
                None
            }
        }
        _ => None,
    }
}

fn lock_on(
    alloc: Global,
    line: &SentLine,
    call: u32,
    brick: u8,
    of: &[Cell],
) -> Result<Option<u64>, AllocError>
    ensures brick { IfOk result (λ found. IfSome found (λ wind. line.now.brick ≡ brick)) }
    ensures lock { IfOk result (λ found. IfSome found (λ wind. IsLockOn call wind of.now (input_in line.now.bytes))) }
    ensures complete { IfOk result (λ found. (wind : ℕ) → line.now.brick ≡ brick → IsLockOn call wind of.now (input_in line.now.bytes) → found ≡ Some wind) }
{
    if line.brick != brick {
        return Ok(None);
    }
    match input_of(alloc, line.bytes.as_slice())? {
        Message::Whole(sent) => {
            let found = lock_of(&sent, call, of);
            drop(sent);
            Ok(found)
        }
        Message::Wrong { place: _ } => Ok(None),
    }
}

/// The wind of the call's lock request of these cells to a brick, if that is at this place among what was sent.
///
/// # Errors
/// Out of memory.
pub fn lock_at(
    alloc: Global,
    log: &Log,
    at: usize,
    call: u32,
    brick: u8,
    of: &[Cell],
) -> Result<Option<u64>, AllocError>
    ensures sound { IfOk result (λ found. IfSome found (λ wind. IsLock log.now call at brick wind of.now)) }
    ensures complete { IfOk result (λ found. (wind : ℕ) → IsLock log.now call at brick wind of.now → found ≡ Some wind) }
{
    match line_at(log, at) {
        Some(line) => {
            let found = lock_on(alloc, line, call, brick, of)?;
            Ok(found)
        }
        None => Ok(None),
    }
}

// ---- the order of locks

fn is_behind_all(bricks: &[u8], low: usize, other: u8) -> bool
    ensures { IsTrue result ↔ ((high : ℕ) → slice_get bricks.now high ≡ Some other → low < high) }
{
    for high in 0..bricks.len() {
        if bricks[high] == other && high <= low {
            return false;
        }
    }
    true
}

fn are_behind(bricks: &[u8], one: u8, other: u8) -> bool
    ensures { IsTrue result ↔ AreBehind bricks.now one other }
{
    for low in 0..bricks.len() {
        if bricks[low] == one && !is_behind_all(bricks, low, other) {
            return false;
        }
    }
    true
}

fn is_behind(plan: &SetPlan, one: LockAt, other: LockAt) -> bool
    ensures { IsTrue result ↔ IsBehind plan.now one other }
{
    if other.at <= one.at {
        return true;
    }
    are_behind(plan.bricks.as_slice(), one.brick, other.brick)
}

fn all_behind(plan: &SetPlan, one: LockAt, locks: &[LockAt]) -> bool
    ensures { IsTrue result ↔ AllByRecursion (IsBehind plan.now one) locks.now }
{
    for other in locks {
        if !is_behind(plan, one, *other) {
            return false;
        }
    }
    true
}

fn is_followed(plan: &SetPlan, one: LockAt, locks: &[LockAt], from: usize) -> bool
    ensures { IsTrue result ↔ IsFollowed plan.now from locks.now one }
{
    if one.at < from {
        return true;
    }
    all_behind(plan, one, locks)
}

fn are_in_order(plan: &SetPlan, locks: &[LockAt], from: usize) -> bool
    ensures { IsTrue result ↔ AllByRecursion (IsFollowed plan.now from locks.now) locks.now }
{
    for one in locks {
        if !is_followed(plan, *one, locks, from) {
            return false;
        }
    }
    true
}

/// Whether from a place on the call asks replicas of the set in their order, each at most once.
pub fn is_last_phase(
    log: &Log,
    plan: &SetPlan,
    locks: &[Vec<LockAt>],
    call: u32,
    from: usize,
) -> bool
    requires { HaveLocks log.now (map (λ l. l.items) locks.now) }
    ensures sound { result ≡ true → IsLastPhase log.now plan.now call from }
    ensures complete { AreOfCalls log.now (map (λ l. l.items) locks.now) → call < length locks.now → IsLastPhase log.now plan.now call from → result ≡ true }
{
    let _ = log;
    match locks_at(locks, call) {
        Some(own) => are_in_order(plan, own, from),
        None => false,
    }
}
