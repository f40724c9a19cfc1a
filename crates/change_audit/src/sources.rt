//! Whether a brick of a set, such as the source of a copy, is sound by rows of a cell.
ghost use Rattle.std.specs.Prelude.{◌≡◌, ◌+◌, ◌/◌, ◌%◌, ◌<◌, ◌≤◌, ◌↔◌, ℕ, IsTrue, true, Some, length, map, slice_get, IfOk};
ghost use Rattle.afr_changelog.specs.Masks.{Names};
ghost use Rattle.afr_changelog.specs.Soundness.{IsSound};
ghost use Rattle.change_audit.specs.Copied.{row_for as row_of, IsSoundBy, HasSoundSource};
ghost use Rattle.change_audit.specs.Sources.{IsSized};

use afr_changelog::sound;
use fop_types::{CopyRecord, Mask, Row, SetPlan, SplitRow};
use std::alloc::{AllocError, Global};

// The row of a brick among some rows of a cell.
fn row_for(rows: &[SplitRow], brick: u8) -> Option<Row>
    ensures { result ≡ row_of rows.now brick }
{
    for row in rows {
        if row.brick == brick {
            return Some(row.row);
        }
    }
    None
}

// The rows of the bricks of a set, by replica.
fn rows_for(alloc: Global, rows: &[SplitRow], bricks: &[u8]) -> Result<Vec<Option<Row>>, AllocError>
    ensures { IfOk result (λ found. found.items ≡ map (row_of rows.now) bricks.now) }
{
    let mut found = Vec::new(alloc);
    for brick in bricks {
        found.push(row_for(rows, *brick))?;
    }
    Ok(found)
}

// Whether a set has an odd number of replicas, at most five, and its quorum is the majority.
fn is_sized(plan: &SetPlan) -> bool
    ensures { IsTrue result ↔ IsSized (length plan.now.bricks) plan.now.q }
{
    let n = plan.bricks.len();
    n % 2 == 1 && n <= 5 && plan.q as usize == (n + 1) / 2
}

// The sound replicas of a set by these rows.
fn sound_by(plan: &SetPlan, rows: &[Option<Row>]) -> Mask
    requires sized { IsSized (length plan.now.bricks) plan.now.q }
    requires places { length rows.now ≡ length plan.now.bricks }
    ensures { (k : ℕ) → Names result k ↔ IsSound rows.now (length plan.now.bricks) plan.now.q k }
{
    sound(rows, plan.bricks.len() as u8, plan.q)
}

fn names(mask: Mask, replica: u8) -> bool
    requires { replica < 8 }
    ensures { IsTrue result ↔ Names mask replica }
{
    mask.0 & (1 << replica) != 0
}

fn is_brick(plan: &SetPlan, replica: usize, brick: u8) -> bool
    ensures { IsTrue result ↔ (slice_get plan.now.bricks replica ≡ Some brick) }
{
    match plan.bricks.as_slice().get(replica) {
        Some(found) => *found == brick,
        None => false,
    }
}

// Whether a replica that the mask names is this brick.
fn has_brick(
    plan: &SetPlan,
    found: &[Option<Row>],
    mask: Mask,
    rows: &[SplitRow],
    brick: u8,
) -> bool
    requires sound { (k : ℕ) → Names mask k ↔ IsSound found.now (length plan.now.bricks) plan.now.q k }
    requires rows { found.now ≡ map (row_of rows.now) plan.now.bricks }
    ensures sound { result ≡ true → IsSoundBy plan.now rows.now brick }
    ensures complete { length plan.now.bricks ≤ 5 → IsSoundBy plan.now rows.now brick → result ≡ true }
{
    let _ = found;
    let _ = rows;
    for replica in 0..5u8 {
        if is_brick(plan, replica as usize, brick) && names(mask, replica) {
            return true;
        }
    }
    false
}

/// Whether a brick is one of the set, and sound by these rows of a cell. A brick without a row among them was not reached.
///
/// # Errors
/// Out of memory.
pub fn is_sound_by(
    alloc: Global,
    plan: &SetPlan,
    rows: &[SplitRow],
    brick: u8,
) -> Result<bool, AllocError>
    ensures sound { IfOk result (λ yes. yes ≡ true → IsSoundBy plan.now rows.now brick) }
    ensures complete { IfOk result (λ yes. IsSized (length plan.now.bricks) plan.now.q → IsSoundBy plan.now rows.now brick → yes ≡ true) }
{
    if !is_sized(plan) {
        return Ok(false);
    }
    let found = rows_for(alloc, rows, plan.bricks.as_slice())?;
    let mask = sound_by(plan, found.as_slice());
    Ok(has_brick(plan, found.as_slice(), mask, rows, brick))
}

/// Whether the source of a copy is a brick of the set, and sound by the rows that the copy names.
///
/// # Errors
/// Out of memory.
pub(crate) fn has_sound_source(
    alloc: Global,
    plan: &SetPlan,
    copy: &CopyRecord,
) -> Result<bool, AllocError>
    ensures sound { IfOk result (λ yes. yes ≡ true → HasSoundSource plan.now copy.now) }
    ensures complete { IfOk result (λ yes. IsSized (length plan.now.bricks) plan.now.q → HasSoundSource plan.now copy.now → yes ≡ true) }
{
    let yes = is_sound_by(alloc, plan, copy.rows.as_slice(), copy.source)?;
    Ok(yes)
}
