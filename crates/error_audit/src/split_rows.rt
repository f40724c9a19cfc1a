//! The rows of a split as they are answered, by what the replicas showed.
ghost use Rattle.std.specs.Prelude.{◌≡◌, ◌++◌, ◌↔◌, IsTrue, None, slice_get, slice_index_or, IfOk, OnOk};
ghost use Rattle.mount_log.specs.Causes.{row_at, rows_of, with_names, rows_from, answered_rows, all_rows};

use fop_types::{Cell, Row, Seq, SplitRow};
use std::alloc::{AllocError, Global};

fn row_at(shown: &Option<Seq<Row>>, place: usize) -> Option<Row>
    ensures { result ≡ row_at place shown.now }
{
    match shown {
        Some(rows) => rows.as_slice().get(place).copied(),
        None => None,
    }
}

/// The rows of the cell at a place, by replica.
///
/// # Errors
/// Out of memory.
pub fn rows_of(
    alloc: Global,
    shown: &[Option<Seq<Row>>],
    place: usize,
) -> Result<Vec<Option<Row>>, AllocError>
    ensures { IfOk result (λ rows. rows.items ≡ rows_of shown.now place) }
{
    let mut rows = Vec::new(alloc);
    for one in shown {
        rows.push(row_at(one, place))?;
    }
    Ok(rows)
}

fn push_row(
    all: &mut Vec<SplitRow>,
    row: Option<Row>,
    cell: Cell,
    brick: u8,
) -> Result<(), AllocError>
    ensures { OnOk result (all.new.items ≡ all.old.items ++ with_names row cell brick) }
{
    match row {
        Some(row) => {
            all.push(SplitRow { cell, brick, row })?;
            Ok(())
        }
        None => Ok(()),
    }
}

fn row_of(rows: &[Option<Row>], k: usize) -> Option<Row>
    ensures { result ≡ slice_index_or rows.now k None }
{
    match rows.get(k) {
        Some(row) => *row,
        None => None,
    }
}

fn push_cell(
    all: &mut Vec<SplitRow>,
    rows: &[Option<Row>],
    cell: Cell,
    bricks: &[u8],
) -> Result<(), AllocError>
    ensures { OnOk result (all.new.items ≡ all.old.items ++ rows_from rows.now cell 0 bricks.now) }
{
    let mut k = 0usize;
    for brick in bricks {
        push_row(all, row_of(rows, k), cell, *brick)?;
        k += 1;
    }
    Ok(())
}

fn push_rows(
    all: &mut Vec<SplitRow>,
    rows: &[Option<Row>],
    cell: Option<Cell>,
    bricks: &[u8],
) -> Result<(), AllocError>
    ensures { OnOk result (all.new.items ≡ all.old.items ++ answered_rows bricks.now rows.now cell) }
{
    match cell {
        Some(cell) => {
            push_cell(all, rows, cell, bricks)?;
            Ok(())
        }
        None => Ok(()),
    }
}

fn cell_at(cells: &[Cell], place: usize) -> Option<Cell>
    ensures { result ≡ slice_get cells.now place }
{
    cells.get(place).copied()
}

fn push_place(
    alloc: Global,
    all: &mut Vec<SplitRow>,
    bricks: &[u8],
    shown: &[Option<Seq<Row>>],
    cells: &[Cell],
    place: usize,
) -> Result<(), AllocError>
    ensures { OnOk result (all.new.items ≡ all.old.items ++ answered_rows bricks.now (rows_of shown.now place) (slice_get cells.now place)) }
{
    let rows = rows_of(alloc, shown, place)?;
    push_rows(all, rows.as_slice(), cell_at(cells, place), bricks)?;
    Ok(())
}

fn all_rows(
    alloc: Global,
    bricks: &[u8],
    shown: &[Option<Seq<Row>>],
    cells: &[Cell],
    places: &[usize],
) -> Result<Vec<SplitRow>, AllocError>
    ensures { IfOk result (λ all. all.items ≡ all_rows bricks.now shown.now cells.now places.now) }
{
    let mut all = Vec::new(alloc);
    for place in places {
        push_place(alloc, &mut all, bricks, shown, cells, *place)?;
    }
    Ok(all)
}

fn is_same(row: &SplitRow, other: &SplitRow) -> bool
    ensures { IsTrue result ↔ (row.now ≡ other.now) }
{
    *row == *other
}

fn are_same(rows: &[SplitRow], others: &[SplitRow]) -> bool
    ensures { IsTrue result ↔ (rows.now ≡ others.now) }
{
    if rows.len() != others.len() {
        return false;
    }
    for k in 0..rows.len() {
        if !is_same(&rows[k], &others[k]) {
            return false;
        }
    }
    true
}

/// Whether these are the rows of the cells at some places, by cell and then by brick.
///
/// # Errors
/// Out of memory.
pub fn are_rows(
    alloc: Global,
    rows: &[SplitRow],
    bricks: &[u8],
    shown: &[Option<Seq<Row>>],
    cells: &[Cell],
    places: &[usize],
) -> Result<bool, AllocError>
    ensures { IfOk result (λ yes. IsTrue yes ↔ (rows.now ≡ all_rows bricks.now shown.now cells.now places.now)) }
{
    let all = all_rows(alloc, bricks, shown, cells, places)?;
    Ok(are_same(rows, all.as_slice()))
}
