//! The jobs of the tables, and what they are begun over: the set, and the ledger.

use afr_ledger::{Ledger, Unsettled};
use fop_types::{Aspect, Cell, Entry, Gfid, Job, Seq, SetPlan, StoreOp};
use std::alloc::{AllocError, Global};

/// A job of one cell, the data of a file; or a rename between two directories, and a read of the first one's names.
#[derive(Clone, Copy)]
pub(crate) enum Work {
    Read,
    ReadDir,
    Change,
    Birth,
    Open,
    Index,
    Heal,
    Rename,
    ReadNames,
}

/// The data of the file.
pub(crate) fn cell() -> Cell {
    Cell {
        gfid: Gfid { hi: 0, lo: 2 },
        aspect: Aspect::Data,
    }
}

// The names of a directory.
fn names(lo: u64) -> Cell {
    Cell {
        gfid: Gfid { hi: 0, lo },
        aspect: Aspect::Entry,
    }
}

// The cells that a change before the job touches: those of the rename, else the file's data.
fn touched(alloc: Global, work: Work) -> Result<Seq<Cell>, AllocError> {
    let mut cells = Seq::new(alloc);
    match work {
        Work::Rename | Work::ReadNames => {
            cells.push(names(2))?;
            cells.push(names(3))?;
        }
        _ => cells.push(cell())?,
    }
    Ok(cells)
}

fn read_names(alloc: Global) -> Result<Job, AllocError> {
    let mut cells = Seq::new(alloc);
    cells.push(names(2))?;
    Ok(Job::Read {
        cells,
        fd: 0,
        dir: true,
    })
}

fn rename(alloc: Global, cells: Seq<Cell>) -> Result<Job, AllocError> {
    let name = Seq::from_bytes(alloc, b"a")?;
    let new_name = Seq::from_bytes(alloc, b"b")?;
    let op = StoreOp::Move {
        parent: cell().gfid,
        name,
        target: Gfid { hi: 0, lo: 3 },
        new_name,
    };
    Ok(Job::Change {
        cells,
        fd: 0,
        op,
        effect: Some(Entry { call: 3, part: 1 }),
    })
}

/// The job of a kind.
pub(crate) fn job_of(alloc: Global, work: Work) -> Result<Job, AllocError> {
    let cells = touched(alloc, work)?;
    let gfid = cell().gfid;
    match work {
        Work::Read => Ok(Job::Read {
            cells,
            fd: 0,
            dir: false,
        }),
        Work::ReadDir => Ok(Job::Read {
            cells,
            fd: 0,
            dir: true,
        }),
        Work::Change => Ok(Job::Change {
            cells,
            fd: 0,
            op: StoreOp::Truncate { gfid, size: 0 },
            effect: Some(Entry { call: 3, part: 1 }),
        }),
        Work::Birth => Ok(Job::Birth {
            cells,
            op: StoreOp::MakeCopy { gfid, span: None },
        }),
        Work::Open => Ok(Job::Open { fd: 1, gfid }),
        Work::Index => Ok(Job::Index),
        Work::Heal => Ok(Job::Heal(cell())),
        Work::Rename => rename(alloc, cells),
        Work::ReadNames => read_names(alloc),
    }
}

/// The second set of a plan, with `n` bricks, from number 10 on.
pub(crate) fn set_of(alloc: Global, n: u8) -> Result<SetPlan, AllocError> {
    let mut bricks = Seq::new(alloc);
    for k in 0..n {
        bricks.push(10 + k % 5)?;
    }
    Ok(SetPlan {
        number: 1,
        name: Seq::new(alloc),
        bricks,
        clients: Seq::new(alloc),
        q: n / 2 + 1,
    })
}

/// A ledger in which change 1 touches the cells of the job, where it is unsettled.
pub(crate) fn ledger_of(
    alloc: Global,
    unsettled: bool,
    work: Work,
) -> Result<Ledger<Cell>, AllocError> {
    let cells = touched(alloc, work)?;
    let mut ledger = Ledger::new(alloc);
    if !unsettled {
        return Ok(ledger);
    }
    let change = ledger.draw();
    let u = Unsettled {
        change,
        set: 1,
        cells,
        effect: Some(Entry { call: 2, part: 1 }),
    };
    ledger.begin(alloc, u)?;
    Ok(ledger)
}
