//! Whether a quorum of the bricks of a set had granted a call locks of a cell before its content arrived, and its source was sound.
ghost use Rattle.std.specs.Prelude.{◌≡◌, ◌==◌, ◌≤◌, true, Some, length, map, slice_get, Contains, IfOk, IfSome};
ghost use Rattle.std.specs.List.{AllByRecursion, IsDistinct};
ghost use Rattle.change_audit.specs.Bearing.{RisesFrom};
ghost use Rattle.change_audit.specs.Copied.{IsSoundBy};
ghost use Rattle.read_audit.specs.Fetching.{HasHolders};
ghost use Rattle.read_audit.specs.Read.{IsHolder, brick_in};

use crate::found::{FetchAt, Found, Grant};
use crate::holders::row_shown;
use brick_machine::Brick;
use change_audit::copy_requests::is_cell;
use change_audit::sources::is_sound_by;
use fop_types::{Cell, SetPlan, SplitRow};
use mount_log::Log;
use std::alloc::{AllocError, Global};
use std::collections::BTreeMap;

/// The bricks that have granted, by rising numbers.
///
/// # Errors
/// Out of memory.
pub(crate) fn bricks_of(
    alloc: Global,
    grants: &BTreeMap<u8, Grant>,
) -> Result<Vec<u8>, AllocError> {
    let mut bricks = Vec::new(alloc);
    for (brick, _) in grants {
        bricks.push(*brick)?;
    }
    Ok(bricks)
}

/// The grant of a brick; one that is nowhere, where there is none.
pub(crate) fn grant_of(grants: &BTreeMap<u8, Grant>, brick: u8) -> Grant {
    match grants.get(&brick) {
        Some(grant) => *grant,
        None => Grant {
            event: usize::MAX,
            place: usize::MAX,
        },
    }
}

// The rows of the cell at a place among these that bricks have shown, where they are said to.
fn rows_shown(
    alloc: Global,
    log: &Log,
    bricks: &[Brick],
    plan: &SetPlan,
    call: u32,
    graph: usize,
    cells: &[Cell],
    cell: Cell,
    place: usize,
    until: usize,
    grants: &BTreeMap<u8, Grant>,
    holders: &[u8],
) -> Result<Vec<SplitRow>, AllocError>
    ensures { IfOk result (λ rows. AllByRecursion (IsHolder log.now bricks.now plan.now call graph cells.now place until) rows.items) }
{
    let mut rows = Vec::new(alloc);
    for brick in holders {
        let grant = grant_of(grants, *brick);
        let found = row_shown(
            alloc, log, bricks, plan, call, graph, cells, cell, place, until, grant, *brick,
        )?;
        let Some(row) = found else {
            continue;
        };
        rows.push(row)?;
    }
    Ok(rows)
}

// The bricks of rows.
fn bricks_in(alloc: Global, rows: &[SplitRow]) -> Result<Vec<u8>, AllocError>
    ensures { IfOk result (λ bricks. bricks.items ≡ map brick_in rows.now) }
{
    let mut bricks = Vec::new(alloc);
    for row in rows {
        bricks.push(row.brick)?;
    }
    Ok(bricks)
}

// Whether the numbers of the bricks rise.
fn are_rising(holders: &[u8]) -> bool
    ensures { result ≡ true → RisesFrom 0 holders.now }
{
    let mut least = 0u32;
    for holder in holders {
        if (*holder as u32) < least {
            return false;
        }
        least = *holder as u32 + 1;
    }
    true
}

/// Whether no brick is named twice, where the numbers rise.
pub(crate) fn are_apart(holders: &[u8]) -> bool
    ensures { result ≡ true → IsDistinct ◌==◌ holders.now }
{
    are_rising(holders)
}

/// Whether so many bricks are a quorum of the set.
pub(crate) fn are_enough(plan: &SetPlan, holders: &[u8]) -> bool
    ensures { result ≡ true → plan.now.q ≤ length holders.now }
{
    plan.q as usize <= holders.len()
}

fn has_source(holders: &[u8], source: u8) -> bool
    ensures { result ≡ true → Contains holders.now source }
{
    holders.contains(&source)
}

fn is_at(cells: &[Cell], place: usize, cell: &Cell) -> bool
    ensures { result ≡ true → slice_get cells.now place ≡ Some cell.now }
{
    match cells.get(place) {
        Some(found) => is_cell(found, cell),
        None => false,
    }
}

// The place of a cell among these.
fn place_of(cells: &[Cell], cell: &Cell) -> Option<usize>
    ensures { IfSome result (λ place. slice_get cells.now place ≡ Some cell.now) }
{
    for place in 0..cells.len() {
        if is_at(cells, place, cell) {
            return Some(place);
        }
    }
    None
}

// Whether holders are a quorum of the set's bricks, each once, with the source of a fetch among them.
fn is_quorum(plan: &SetPlan, holders: &[u8], source: u8) -> bool
    ensures differ { result ≡ true → IsDistinct ◌==◌ holders.now }
    ensures quorum { result ≡ true → plan.now.q ≤ length holders.now }
    ensures among { result ≡ true → Contains holders.now source }
{
    are_apart(holders) && are_enough(plan, holders) && has_source(holders, source)
}

// Whether rows are those of a quorum of the set's bricks, each once, with the source of a fetch among them, which is sound by them.
fn is_group(
    alloc: Global,
    plan: &SetPlan,
    rows: &[SplitRow],
    source: u8,
) -> Result<bool, AllocError>
    ensures differ { IfOk result (λ yes. yes ≡ true → IsDistinct ◌==◌ (map brick_in rows.now)) }
    ensures quorum { IfOk result (λ yes. yes ≡ true → plan.now.q ≤ length (map brick_in rows.now)) }
    ensures among { IfOk result (λ yes. yes ≡ true → Contains (map brick_in rows.now) source) }
    ensures sound { IfOk result (λ yes. yes ≡ true → IsSoundBy plan.now rows.now source) }
{
    let list = bricks_in(alloc, rows)?;
    let holders = list.as_slice();
    if !is_quorum(plan, holders, source) {
        return Ok(false);
    }
    let yes = is_sound_by(alloc, plan, rows, source)?;
    Ok(yes)
}

// Whether a quorum had granted a lock of these cells, and the source of a fetch is sound by the rows that they showed of the cell.
fn have_locked(
    alloc: Global,
    log: &Log,
    bricks: &[Brick],
    plan: &SetPlan,
    found: &Found,
    call: u32,
    graph: usize,
    cells: &[Cell],
    cell: &Cell,
    at: FetchAt,
) -> Result<bool, AllocError>
    ensures { IfOk result (λ yes. yes ≡ true → HasHolders log.now bricks.now plan.now call graph cell.now at.event at.source) }
{
    let Some(place) = place_of(cells, cell) else {
        return Ok(false);
    };
    let until = at.event;
    let grants = found.grants_of(alloc, plan, call, until, cells)?;
    let list = bricks_of(alloc, &grants)?;
    let holders = list.as_slice();
    let rows = rows_shown(
        alloc, log, bricks, plan, call, graph, cells, *cell, place, until, &grants, holders,
    )?;
    let yes = is_group(alloc, plan, rows.as_slice(), at.source)?;
    Ok(yes)
}

/// Whether a quorum of a set's bricks, with the source of a fetch among them, had granted the call locks of the same cells before
/// the content arrived, of which the cell is one; and whether by the rows that each of them showed last the source was sound. One
/// that takes no part in the lock phase of the fetch does no harm: who is sound by the rows of that phase is sound by more rows, too.
///
/// # Errors
/// Out of memory.
pub(crate) fn has_holders(
    alloc: Global,
    log: &Log,
    bricks: &[Brick],
    plan: &SetPlan,
    found: &Found,
    call: u32,
    graph: usize,
    cell: &Cell,
    at: FetchAt,
) -> Result<bool, AllocError>
    ensures { IfOk result (λ yes. yes ≡ true → HasHolders log.now bricks.now plan.now call graph cell.now at.event at.source) }
{
    let Some(cells) = found.cells_for(call, at) else {
        return Ok(false);
    };
    let yes = have_locked(
        alloc, log, bricks, plan, found, call, graph, cells, cell, at,
    )?;
    Ok(yes)
}
