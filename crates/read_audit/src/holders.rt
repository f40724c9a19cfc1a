//! The rows by which a brick of a set had granted a call a lock of cells, where it is said to.
ghost use Rattle.std.specs.Prelude.{◌≡◌, true, slice_get, IfOk, IfSome};
ghost use Rattle.fop_types.specs.declared.messages.BrickRep.TheVariants.{Done};
ghost use Rattle.fop_types.specs.declared.messages.BrickReq.TheVariants.{Lock};
ghost use Rattle.fop_types.specs.declared.messages.DoneArm.TheVariants.{Rows};
ghost use Rattle.fop_types.specs.declared.messages.Input.TheVariants.{Request};
ghost use Rattle.fop_types.specs.declared.messages.OutKind.TheVariants.{Reply};
ghost use Rattle.wire_xdr.specs.WireText.{input_text};
ghost use Rattle.read_audit.specs.Fetching.{IsInputAt, WasLocked, IsGrantIn};
ghost use Rattle.read_audit.specs.Read.{IsHolder};

use crate::found::Grant;
use brick_machine::Brick;
use change_audit::arrivals::{arrived, written_output};
use change_audit::bearers::has_member;
use change_audit::copy_requests::is_cell;
use change_audit::journals::{brick_at, bytes_at, whole_input};
use fop_types::{
    BrickRep, BrickReq, Cell, DoneArm, Input, OutKind, Output, Row, Seq, SetPlan, SplitRow,
};
use mount_log::Log;
use std::alloc::{AllocError, Global};

/// An answer to a lock: its wind, and a row for each cell.
#[derive(Drop)]
pub struct Granted {
    pub wind: u64,
    pub rows: Seq<Row>,
}

// ---- what arrived

fn rows_in(wind: u64, arm: DoneArm) -> Option<Granted>
    ensures { IfSome result (λ g. Reply wind (Done arm) ≡ Reply g.wind (Done (Rows g.rows))) }
{
    match arm {
        DoneArm::Rows(rows) => Some(Granted { wind, rows }),
        _ => None,
    }
}

fn rows_of(wind: u64, rep: BrickRep) -> Option<Granted>
    ensures { IfSome result (λ g. Reply wind rep ≡ Reply g.wind (Done (Rows g.rows))) }
{
    match rep {
        BrickRep::Done(arm) => rows_in(wind, arm),
        _ => None,
    }
}

fn rows_answered(kind: OutKind) -> Option<Granted>
    ensures { IfSome result (λ g. kind ≡ Reply g.wind (Done (Rows g.rows))) }
{
    match kind {
        OutKind::Reply { wind, rep } => rows_of(wind, rep),
        _ => None,
    }
}

// ---- what was asked

fn are_cells(cells: &[Cell], others: &[Cell]) -> bool
    ensures { result ≡ true → cells.now ≡ others.now }
{
    if cells.len() != others.len() {
        return false;
    }
    for k in 0..cells.len() {
        if !is_cell(&cells[k], &others[k]) {
            return false;
        }
    }
    true
}

// Whether a request that is a lock of these cells for the call is a shared one.
fn lock_of(req: &BrickReq, of: u32, cells: &[Cell]) -> Option<bool>
    ensures { IfSome result (λ shared. req.now ≡ Lock of shared cells.now) }
{
    match req {
        BrickReq::Lock {
            call,
            shared,
            cells: own,
        } => {
            if *call == of && are_cells(own.as_slice(), cells) {
                Some(*shared)
            } else {
                None
            }
        }
        _ => None,
    }
}

fn lock_on(input: &Input, on: u64, at: usize, call: u32, cells: &[Cell]) -> Option<bool>
    ensures { IfSome result (λ shared. input.now ≡ Request on at (Lock call shared cells.now)) }
{
    match input {
        Input::Request { wind, graph, req } => {
            if *wind == on && *graph as usize == at {
                lock_of(req, call, cells)
            } else {
                None
            }
        }
        _ => None,
    }
}

fn lock_in(
    alloc: Global,
    bytes: &[u8],
    wind: u64,
    graph: usize,
    call: u32,
    cells: &[Cell],
) -> Result<Option<bool>, AllocError>
    ensures { IfOk result (λ found. IfSome found (λ shared. bytes.now ≡ input_text (Request wind graph (Lock call shared cells.now)))) }
{
    match whole_input(alloc, bytes)? {
        Some(input) => Ok(lock_on(&input, wind, graph, call, cells)),
        None => Ok(None),
    }
}

// The input at a place in a brick's journal.
fn journal_at(bricks: &[Brick], brick: u8, place: usize) -> Option<&[u8]>
    ensures { IfSome result (λ bytes. IsInputAt bricks.now brick place bytes.now) }
{
    let at = brick_at(bricks, brick)?;
    let bytes = bytes_at(at.journal(), place)?;
    Some(bytes.as_slice())
}

// Whether a lock of these cells for a call on a wind, in a graph, is at a place in a brick's journal.
fn was_locked(
    alloc: Global,
    bricks: &[Brick],
    brick: u8,
    place: usize,
    wind: u64,
    graph: usize,
    call: u32,
    cells: &[Cell],
) -> Result<bool, AllocError>
    ensures { IfOk result (λ yes. yes ≡ true → WasLocked bricks.now brick place wind graph call cells.now) }
{
    let Some(bytes) = journal_at(bricks, brick, place) else {
        return Ok(false);
    };
    let found = lock_in(alloc, bytes, wind, graph, call, cells)?;
    Ok(found.is_some())
}

// ---- one holder

/// The rows by which a brick has granted the lock of these cells at a place in its journal, by what arrived in the event at
/// another.
///
/// # Errors
/// Out of memory.
pub(crate) fn granted_rows(
    alloc: Global,
    log: &Log,
    bricks: &[Brick],
    call: u32,
    graph: usize,
    cells: &[Cell],
    grant: Grant,
    brick: u8,
) -> Result<Option<Seq<Row>>, AllocError>
    ensures { IfOk result (λ found. IfSome found (λ rows. IsGrantIn log.now bricks.now call graph cells.now grant.event brick rows)) }
{
    let Some(bytes) = arrived(log, grant.event, brick) else {
        return Ok(None);
    };
    let Some(output) = written_output(alloc, bytes)? else {
        return Ok(None);
    };
    let Output { taken, kind } = output;
    let Some(found) = rows_answered(kind) else {
        return Ok(None);
    };
    if grant.place as u64 >= taken {
        return Ok(None);
    }
    let Granted { wind, rows } = found;
    if !was_locked(alloc, bricks, brick, grant.place, wind, graph, call, cells)? {
        return Ok(None);
    }
    Ok(Some(rows))
}

fn row_at(rows: &[Row], place: usize) -> Option<Row>
    ensures { result ≡ slice_get rows.now place }
{
    rows.get(place).copied()
}

/// The row of the cell at a place among these that a brick of the set has shown by granting the lock of them which is said to be
/// where, by what arrived before the event at another place.
///
/// # Errors
/// Out of memory.
pub(crate) fn row_shown(
    alloc: Global,
    log: &Log,
    bricks: &[Brick],
    plan: &SetPlan,
    call: u32,
    graph: usize,
    cells: &[Cell],
    cell: Cell,
    place: usize,
    until: usize,
    grant: Grant,
    brick: u8,
) -> Result<Option<SplitRow>, AllocError>
    ensures { IfOk result (λ found. IfSome found (λ row. IsHolder log.now bricks.now plan.now call graph cells.now place until row)) }
{
    if grant.event >= until {
        return Ok(None);
    }
    if !has_member(plan, brick) {
        return Ok(None);
    }
    let Some(rows) = granted_rows(alloc, log, bricks, call, graph, cells, grant, brick)? else {
        return Ok(None);
    };
    let Some(row) = row_at(rows.as_slice(), place) else {
        return Ok(None);
    };
    Ok(Some(SplitRow { cell, brick, row }))
}
