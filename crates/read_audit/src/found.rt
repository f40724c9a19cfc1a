//! The fetches and the locks of each call, by where their answers arrived. Nothing is said of them.

use change_audit::bearers::has_member;
use fop_types::{Aspect, Cell, Seq, SetPlan};
use std::alloc::{AllocError, Global};
use std::collections::BTreeMap;

/// The answer to a fetch of a cell: the place of the event in which it arrived from a brick, and that of the opening of its wind.
#[derive(Clone, Copy)]
pub struct FetchAt {
    pub event: usize,
    pub source: u8,
    pub opening: usize,
    pub cell: Cell,
}

/// Where a lock is, and its grant: the place of the lock in its brick's journal, and that of the event in which the grant arrived.
#[derive(Clone, Copy)]
pub struct Grant {
    pub event: usize,
    pub place: usize,
}

/// The grant of a lock of cells, by its brick.
#[derive(Drop)]
pub struct LockAt {
    pub grant: Grant,
    pub brick: u8,
    pub cells: Seq<Cell>,
}

// A cell in a call.
#[derive(Clone, Copy, PartialEq, Eq, PartialOrd, Ord)]
struct CellOf {
    call: u32,
    cell: Cell,
}

/// The fetches and the locks of all calls, in the order of events: the fetches by calls, and by cells, too; and by each of their
/// cells the places of the locks.
#[derive(Drop)]
pub struct Found {
    fetches: BTreeMap<u32, Vec<FetchAt>>,
    fetches_by_cell: BTreeMap<CellOf, Vec<FetchAt>>,
    locks: Vec<LockAt>,
    locks_by_cell: BTreeMap<CellOf, Vec<usize>>,
}

// Adds an item to those of a cell.
fn add<T: Copy>(
    alloc: Global,
    lists: &mut BTreeMap<CellOf, Vec<T>>,
    at: CellOf,
    item: T,
) -> Result<(), AllocError> {
    let mut list = match lists.remove(&at) {
        Some(list) => list,
        None => Vec::new(alloc),
    };
    list.push(item)?;
    lists.insert(at, list)?;
    Ok(())
}

// Of two fetches the one that was opened later.
fn later_of(last: Option<FetchAt>, fetch: FetchAt) -> Option<FetchAt> {
    match last {
        Some(before) if before.opening > fetch.opening => last,
        _ => Some(fetch),
    }
}

// The fetches by the places of their openings, from the last one on.
fn from_last(
    alloc: Global,
    fetches: &BTreeMap<usize, FetchAt>,
) -> Result<Vec<FetchAt>, AllocError> {
    let mut all = Vec::new(alloc);
    for (_, fetch) in fetches {
        all.push(*fetch)?;
    }
    all.reverse();
    Ok(all)
}

// Whether a lock of just these cells was granted by a brick of the set before the event at a place.
fn is_grant_of(lock: &LockAt, plan: &SetPlan, until: usize, cells: &[Cell]) -> bool {
    lock.grant.event < until && has_member(plan, lock.brick) && lock.cells.as_slice() == cells
}

impl Found {
    /// Nothing was found. It allocates nothing.
    pub(crate) fn new(alloc: Global) -> Found {
        Found {
            fetches: BTreeMap::new(alloc),
            fetches_by_cell: BTreeMap::new(alloc),
            locks: Vec::new(alloc),
            locks_by_cell: BTreeMap::new(alloc),
        }
    }

    /// Notes the grant of a lock of a call.
    ///
    /// # Errors
    /// Out of memory.
    pub(crate) fn add_lock(
        &mut self,
        alloc: Global,
        call: u32,
        lock: LockAt,
    ) -> Result<(), AllocError> {
        let place = self.locks.len();
        for cell in lock.cells.as_slice() {
            let at = CellOf { call, cell: *cell };
            add(alloc, &mut self.locks_by_cell, at, place)?;
        }
        self.locks.push(lock)?;
        Ok(())
    }

    /// Notes the answer to a fetch of a call.
    ///
    /// # Errors
    /// Out of memory.
    pub(crate) fn add_fetch(
        &mut self,
        alloc: Global,
        call: u32,
        fetch: FetchAt,
    ) -> Result<(), AllocError> {
        let mut list = match self.fetches.remove(&call) {
            Some(list) => list,
            None => Vec::new(alloc),
        };
        list.push(fetch)?;
        self.fetches.insert(call, list)?;
        let at = CellOf {
            call,
            cell: fetch.cell,
        };
        add(alloc, &mut self.fetches_by_cell, at, fetch)
    }

    /// The fetch of a call that was opened last, of those of a cell of this aspect whose answers arrived by the event of a number.
    /// The answer to one that was given up before may arrive behind it.
    pub(crate) fn last_of_aspect(&self, call: u32, number: u64, aspect: Aspect) -> Option<FetchAt> {
        let mut last = None;
        for fetch in self.fetches.get(&call)?.as_slice() {
            if (fetch.event as u64) < number && fetch.cell.aspect == aspect {
                last = later_of(last, *fetch);
            }
        }
        last
    }

    /// The fetch of a call that was opened last, of those of this cell whose answers arrived by the event of a number.
    pub(crate) fn last_of_cell(&self, call: u32, number: u64, cell: Cell) -> Option<FetchAt> {
        let at = CellOf { call, cell };
        let mut last = None;
        for fetch in self.fetches_by_cell.get(&at)?.as_slice() {
            if (fetch.event as u64) < number {
                last = later_of(last, *fetch);
            }
        }
        last
    }

    /// The fetches of a call of this cell whose answers arrived by the event of a number, from the one that was opened last on.
    ///
    /// # Errors
    /// Out of memory.
    pub(crate) fn fetches_of(
        &self,
        alloc: Global,
        call: u32,
        number: u64,
        cell: Cell,
    ) -> Result<Vec<FetchAt>, AllocError> {
        let at = CellOf { call, cell };
        let mut fetches = BTreeMap::new(alloc);
        let Some(list) = self.fetches_by_cell.get(&at) else {
            return Ok(Vec::new(alloc));
        };
        for fetch in list.as_slice() {
            if (fetch.event as u64) < number {
                fetches.insert(fetch.opening, *fetch)?;
            }
        }
        from_last(alloc, &fetches)
    }

    /// The cells of the last lock that the source of a fetch had granted the call before, of which the fetch's cell is one.
    pub(crate) fn cells_for(&self, call: u32, fetch: FetchAt) -> Option<&[Cell]> {
        let at = CellOf {
            call,
            cell: fetch.cell,
        };
        let places = self.locks_by_cell.get(&at)?.as_slice();
        for back in 0..places.len() {
            let lock = self.locks.get(places[places.len() - 1 - back])?;
            if lock.grant.event < fetch.event && lock.brick == fetch.source {
                return Some(lock.cells.as_slice());
            }
        }
        None
    }

    /// The bricks of a set that had granted a call a lock of these cells before the event at a place, each with its last one.
    ///
    /// # Errors
    /// Out of memory.
    pub(crate) fn grants_of(
        &self,
        alloc: Global,
        plan: &SetPlan,
        call: u32,
        until: usize,
        cells: &[Cell],
    ) -> Result<BTreeMap<u8, Grant>, AllocError> {
        let mut grants = BTreeMap::new(alloc);
        for place in self.places_of(call, cells) {
            if let Some(lock) = self.locks.get(*place) {
                if is_grant_of(lock, plan, until, cells) {
                    grants.insert(lock.brick, lock.grant)?;
                }
            }
        }
        Ok(grants)
    }

    // The places of a call's locks of the first of these cells.
    fn places_of(&self, call: u32, cells: &[Cell]) -> &[usize] {
        let Some(cell) = cells.first() else {
            return &[];
        };
        let at = CellOf { call, cell: *cell };
        match self.locks_by_cell.get(&at) {
            Some(places) => places.as_slice(),
            None => &[],
        }
    }
}
