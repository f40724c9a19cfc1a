//! Finds where the evidence of a split may be. What it finds is tested elsewhere.
ghost use Rattle.std.specs.Prelude.{◌≡◌, None, map, IfOk};
ghost use Rattle.wire_messages.specs.Messages.{input_in};
ghost use Rattle.error_audit.specs.LockTable.{locks_at};
ghost use Rattle.error_audit.specs.Finding.{IsPlaceOf, ArePlaces};
ghost use Rattle.error_audit.specs.code.Searches.{last_in, locked_by, locked_in, locked_on, earlier, first_lock, phase_from, phase_at};

use crate::grants::LockPhase;
use crate::locks::{LockAt, locks_at};
use fop_types::{BrickReq, Cell, Input, Seq, SplitRow};
use mount_log::by_place::line_at;
use mount_log::{Log, SentLine};
use std::alloc::{AllocError, Global};
use std::mem;
use wire_messages::{Message, input_of};

// Where the last of these locks is that asked the brick, 0 where none did.
fn last_in(locks: &[LockAt], brick: u8) -> usize
    ensures { result ≡ last_in locks.now brick 0 }
{
    let mut last = 0usize;
    for lock in locks {
        if lock.brick == brick {
            last = lock.at;
        }
    }
    last
}

/// Where the last lock of a call is that asked this brick.
pub fn last_lock(locks: &[Vec<LockAt>], call: u32, brick: u8) -> usize
    ensures { result ≡ last_in (locks_at (map (λ l. l.items) locks.now) call) brick 0 }
{
    match locks_at(locks, call) {
        Some(own) => last_in(own, brick),
        None => 0,
    }
}

/// The lock phase by whose rows a call was answered: from the first of the last locks of these bricks on.
///
/// # Errors
/// Out of memory.
pub fn find_phase(
    alloc: Global,
    log: &Log,
    locks: &[Vec<LockAt>],
    call: u32,
    rows: &[SplitRow],
) -> Result<Option<LockPhase>, AllocError>
    ensures { IfOk result (λ found. found ≡ phase_at log.now call (first_lock rows.now (locks_at (map (λ l. l.items) locks.now) call) None)) }
{
    let Some(lock) = first_lock(locks, call, rows) else {
        return Ok(None);
    };
    match line_at(log, lock.at) {
        Some(line) => {
            let phase = phase_from(alloc, lock, line, call)?;
            Ok(phase)
        }
        None => Ok(None),
    }
}

// The earliest of the last locks of the bricks of these rows.
fn first_lock(locks: &[Vec<LockAt>], call: u32, rows: &[SplitRow]) -> Option<LockAt>
    ensures { result ≡ first_lock rows.now (locks_at (map (λ l. l.items) locks.now) call) None }
{
    let mut first = None;
    for row in rows {
        let lock = LockAt {
            at: last_lock(locks, call, row.brick),
            brick: row.brick,
        };
        first = Some(earlier(first, lock));
    }
    first
}

// The lock phase that begins with this line, if that is the call's lock of the brick.
fn phase_from(
    alloc: Global,
    lock: LockAt,
    line: &SentLine,
    call: u32,
) -> Result<Option<LockPhase>, AllocError>
    ensures { IfOk result (λ found. found ≡ phase_from call lock line.now) }
{
    if line.brick != lock.brick {
        return Ok(None);
    }
    match cells_on(alloc, line, call)? {
        Some(cells) => Ok(Some(LockPhase {
            from: lock.at,
            cells,
        })),
        None => Ok(None),
    }
}

// The cells of the call's lock request that a line is.
fn cells_on(alloc: Global, line: &SentLine, call: u32) -> Result<Option<Seq<Cell>>, AllocError>
    ensures { IfOk result (λ found. found ≡ locked_on call (input_in line.now.bytes)) }
{
    match input_of(alloc, line.bytes.as_slice())? {
        Message::Whole(sent) => {
            let mut sent = sent;
            let cells = take_cells(alloc, &mut sent, call);
            drop(sent);
            Ok(cells)
        }
        Message::Wrong { place: _ } => Ok(None),
    }
}

fn take_cells(alloc: Global, sent: &mut Input, call: u32) -> Option<Seq<Cell>>
    ensures { result ≡ locked_in call sent.old }
{
    match sent {
        Input::Request { req, .. } => take_locked(alloc, req, call),
        _ => None,
    }
}

fn take_locked(alloc: Global, req: &mut BrickReq, call: u32) -> Option<Seq<Cell>>
    ensures { result ≡ locked_by call req.old }
{
    match req {
        BrickReq::Lock {
            call: named,
            cells,
            ..
        } => {
            if *named == call {
                Some(mem::replace(cells, Seq::new(alloc)))
            } else {
                None
            }
        }
        _ => None,
    }
}

fn earlier(first: Option<LockAt>, lock: LockAt) -> LockAt
    ensures { result ≡ earlier first lock }
{
    match first {
        Some(first) if first.at <= lock.at => first,
        _ => lock,
    }
}

/// The places of the cells of which there are rows, by those of the first brick.
///
/// # Errors
/// Out of memory.
pub fn places_of(alloc: Global, rows: &[SplitRow], cells: &[Cell]) -> Result<Vec<usize>, AllocError>
    ensures { IfOk result (λ places. ArePlaces cells.now rows.now places.items) }
{
    let mut places = Vec::new(alloc);
    let Some(first) = rows.first() else {
        return Ok(places);
    };
    for row in rows {
        if row.brick != first.brick {
            continue;
        }
        places.push(place_of(cells, row.cell))?;
    }
    Ok(places)
}

fn place_of(cells: &[Cell], cell: Cell) -> usize
    ensures { IsPlaceOf cells.now cell result }
{
    for place in 0..cells.len() {
        if cells[place] == cell {
            return place;
        }
    }
    cells.len()
}
