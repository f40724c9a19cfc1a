//! Bricks that differ from one another, as many as an I/O error needs, and by rising number.
ghost use Rattle.std.specs.Prelude.{◌≡◌, ◌++◌, ◌==◌, ◌+◌, ◌-◌, ◌≤◌, ◌↔◌, [], ◌∷◌, IsTrue, true, false, Contains, map, length, IfOk};
ghost use Rattle.std.specs.List.{IsDistinct};
ghost use Rattle.std.specs.List.Sorted.{IsStrictlyIncreasing};
ghost use Rattle.mount_log.specs.Causes.{brick_of, AreEnough};

use fop_types::SetPlan;
use std::alloc::{AllocError, Global};

// One brick more, which is none of the others. It is false where it is one of them.
fn push_new(bricks: &mut Vec<u8>, brick: u8) -> Result<bool, AllocError>
    ensures pushed { IfOk result (λ yes. yes ≡ true → bricks.new.items ≡ bricks.old.items ++ brick ∷ []) }
    ensures differ { IfOk result (λ yes. yes ≡ true → IsDistinct ◌==◌ bricks.old.items → IsDistinct ◌==◌ bricks.new.items) }
    ensures refused { IfOk result (λ yes. yes ≡ false → Contains bricks.old.items brick) }
{
    if bricks.as_slice().contains(&brick) {
        return Ok(false);
    }
    bricks.push(brick)?;
    Ok(true)
}

// The bricks of these losses more, each of which is none of the others. It is false where one of them is.
fn push_lost(bricks: &mut Vec<u8>, lost: &[(u8, u32)]) -> Result<bool, AllocError>
    ensures pushed { IfOk result (λ yes. yes ≡ true → bricks.new.items ≡ bricks.old.items ++ map brick_of lost.now) }
    ensures differ { IfOk result (λ yes. yes ≡ true → IsDistinct ◌==◌ bricks.old.items → IsDistinct ◌==◌ bricks.new.items) }
    ensures refused { IfOk result (λ yes. yes ≡ false → IsDistinct ◌==◌ (bricks.old.items ++ map brick_of lost.now) → ⊥) }
{
    for pair in lost {
        if !push_new(bricks, pair.0)? {
            return Ok(false);
        }
    }
    Ok(true)
}

// The bricks of these faults more, each of which is none of the others. It is false where one of them is.
fn push_failed(bricks: &mut Vec<u8>, faults: &[(u8, u64)]) -> Result<bool, AllocError>
    ensures pushed { IfOk result (λ yes. yes ≡ true → bricks.new.items ≡ bricks.old.items ++ map brick_of faults.now) }
    ensures differ { IfOk result (λ yes. yes ≡ true → IsDistinct ◌==◌ bricks.old.items → IsDistinct ◌==◌ bricks.new.items) }
    ensures refused { IfOk result (λ yes. yes ≡ false → IsDistinct ◌==◌ (bricks.old.items ++ map brick_of faults.now) → ⊥) }
{
    for pair in faults {
        if !push_new(bricks, pair.0)? {
            return Ok(false);
        }
    }
    Ok(true)
}

// Whether without so many bricks a set has no quorum.
fn are_enough(plan: &SetPlan, bricks: &[u8]) -> bool
    ensures { IsTrue result ↔ (length plan.now.bricks - plan.now.q + 1 ≤ length bricks.now) }
{
    plan.bricks.len().saturating_sub(plan.q as usize) < bricks.len()
}

/// Whether the bricks of these faults and losses differ from one another, and the others are no quorum of the set.
///
/// # Errors
/// Out of memory.
pub fn has_enough(
    alloc: Global,
    plan: &SetPlan,
    faults: &[(u8, u64)],
    lost: &[(u8, u32)],
) -> Result<bool, AllocError>
    ensures { IfOk result (λ yes. IsTrue yes ↔ AreEnough plan.now (map brick_of faults.now ++ map brick_of lost.now)) }
{
    let mut bricks = Vec::new(alloc);
    if !push_failed(&mut bricks, faults)? {
        return Ok(false);
    }
    if !push_lost(&mut bricks, lost)? {
        return Ok(false);
    }
    Ok(are_enough(plan, bricks.as_slice()))
}

/// Whether each brick of these pairs is below the next one.
pub fn are_rising<N>(pairs: &[(u8, N)]) -> bool
    ensures { IsTrue result ↔ IsStrictlyIncreasing (map (λ pair. pair.0) pairs.now) }
{
    for k in 1..pairs.len() {
        if pairs[k - 1].0 >= pairs[k].0 {
            return false;
        }
    }
    true
}
