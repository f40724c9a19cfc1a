//! The turns of a job: what a replica answers, what a copy left, and what happens meanwhile.

use crate::jobs::{Work, cell};
use crate::summary::{Want, summary};
use afr_ledger::{Ledger, Unsettled};
use afr_transaction::Txn;
use fop_types::{BrickRep, Cell, Content, CopyDone, Data, DoneArm, Mask, Out, Row, Seq};
use std::alloc::{AllocError, Global};

/// What happens next: a job of its own begins, on so many replicas, of which these are live, with change 1 unsettled or not;
/// an answer of a replica; a copy that is done, with the sinks that have it, and the replicas that are out
/// by it; connections that end; one that ends and is open again, with the next number; or another transaction that settles
/// change 1, or begins a change of the cell.
#[derive(Clone, Copy)]
pub(crate) enum Turn {
    Begin(u8, u8, bool, Work),
    Done(u8),
    /// The rows of one cell: who is accused, and the last change.
    Rows(u8, u8, u64),
    /// The rows of two cells: the same of each.
    Pair(u8, u8, u64, u8, u64),
    Absent(u8),
    Bytes(u8),
    Names(u8),
    Cells(u8),
    Gone(u8),
    Fault(u8),
    Copied(u8),
    CopyOuts(u8, u8),
    Cut(u8),
    Back(u8),
    Settled(bool),
    Begun,
}

/// The connections: which are live, and the last number of each.
#[derive(Drop)]
pub(crate) struct Links {
    pub(crate) live: u8,
    pub(crate) last: [u32; 5],
}

fn row(accused: u8, last: u64, present: bool) -> Row {
    Row {
        present,
        dirty: 0,
        pending: [
            (accused % 2) as u32,
            (accused / 2 % 2) as u32,
            (accused / 4 % 2) as u32,
            (accused / 8 % 2) as u32,
            (accused / 16 % 2) as u32,
        ],
        last,
    }
}

// An answer of a replica.
type Reply = (u8, BrickRep);

fn rows_of(alloc: Global, k: u8, row: Row) -> Result<Reply, AllocError> {
    let mut rows = Seq::new(alloc);
    rows.push(row)?;
    Ok((k, BrickRep::Done(DoneArm::Rows(rows))))
}

fn pair_of(alloc: Global, k: u8, one: Row, other: Row) -> Result<Reply, AllocError> {
    let mut rows = Seq::new(alloc);
    rows.push(one)?;
    rows.push(other)?;
    Ok((k, BrickRep::Done(DoneArm::Rows(rows))))
}

fn cells_of(alloc: Global, k: u8) -> Result<Reply, AllocError> {
    let mut cells = Seq::new(alloc);
    cells.push(cell())?;
    Ok((k, BrickRep::Done(DoneArm::Cells(cells))))
}

fn content_of(k: u8, content: Content) -> Reply {
    (k, BrickRep::Done(DoneArm::Content(content, 1)))
}

fn names_of(alloc: Global, k: u8) -> Reply {
    let content = Content::Names {
        removed: false,
        items: Seq::new(alloc),
    };
    content_of(k, content)
}

// What a replica answers at a turn; at any other, one that is not asked.
fn reply_of(alloc: Global, turn: Turn) -> Result<Reply, AllocError> {
    match turn {
        Turn::Done(k) => Ok((k, BrickRep::Done(DoneArm::Nothing))),
        Turn::Rows(k, accused, last) => rows_of(alloc, k, row(accused, last, true)),
        Turn::Pair(k, one, one_last, other, other_last) => pair_of(
            alloc,
            k,
            row(one, one_last, true),
            row(other, other_last, true),
        ),
        Turn::Absent(k) => rows_of(alloc, k, row(0, 0, false)),
        Turn::Bytes(k) => Ok(content_of(k, Content::Bytes(Data::new(alloc)))),
        Turn::Names(k) => Ok(names_of(alloc, k)),
        Turn::Cells(k) => cells_of(alloc, k),
        Turn::Fault(k) => Ok((k, BrickRep::Fault)),
        Turn::Gone(k) => Ok((k, BrickRep::Gone)),
        _ => Ok((255, BrickRep::Gone)),
    }
}

// Those that a mask names, each with connection 9.
fn outs_of(alloc: Global, mask: u8) -> Result<Seq<Out>, AllocError> {
    let mut outs = Seq::new(alloc);
    for k in 0..5u8 {
        if mask >> k & 1 == 1 {
            outs.push(Out {
                replica: k,
                fault: false,
                mark: 9,
            })?;
        }
    }
    Ok(outs)
}

// Settles change 1, where it is unsettled.
fn settled(alloc: Global, ledger: &mut Ledger<Cell>, adopted: bool) -> Result<Want, AllocError> {
    if ledger.unsettled(1).is_none() || ledger.history().len() >= 9 {
        return Ok(Want::Other(1));
    }
    ledger.decide(alloc, 1, adopted)?;
    Ok(Want::Wait)
}

// Begins a change of the cell, where none touches it.
fn begun(alloc: Global, ledger: &mut Ledger<Cell>) -> Result<Want, AllocError> {
    if ledger.drawn() >= 9 {
        return Ok(Want::Other(9));
    }
    let change = ledger.draw();
    let mut cells = Seq::new(alloc);
    cells.push(cell())?;
    if ledger.touching(1, cells.as_slice()).is_some() || ledger.unsettled(change).is_some() {
        return Ok(Want::Other(1));
    }
    let u = Unsettled {
        change,
        set: 1,
        cells,
        effect: None,
    };
    ledger.begin(alloc, u)?;
    Ok(Want::Wait)
}

impl Links {
    fn answer(
        &mut self,
        alloc: Global,
        txn: &mut Txn,
        ledger: &mut Ledger<Cell>,
        k: u8,
        rep: BrickRep,
    ) -> Result<Want, AllocError> {
        if k >= 5 || !txn.wave.is_asked(k) {
            drop(rep);
            return Ok(Want::Other(k));
        }
        let need = txn.answer(alloc, k, rep, 9, Mask(self.live), &self.last, ledger)?;
        let want = summary(&need);
        drop(need);
        Ok(want)
    }

    fn copied(
        &mut self,
        alloc: Global,
        txn: &mut Txn,
        ledger: &mut Ledger<Cell>,
        current: u8,
        outs: u8,
    ) -> Result<Want, AllocError> {
        let done = CopyDone {
            held: Mask(current),
            current: Mask(current),
            outs: outs_of(alloc, outs)?,
            records: Seq::new(alloc),
        };
        let need = txn.copied(alloc, done, Mask(self.live), &self.last, ledger)?;
        let want = summary(&need);
        drop(need);
        Ok(want)
    }

    fn back(&mut self, k: u8) -> Want {
        if k >= 5 {
            return Want::Other(k);
        }
        self.last[k as usize] = 5;
        Want::Wait
    }

    fn answered(
        &mut self,
        alloc: Global,
        txn: &mut Txn,
        ledger: &mut Ledger<Cell>,
        turn: Turn,
    ) -> Result<Want, AllocError> {
        let (k, rep) = reply_of(alloc, turn)?;
        self.answer(alloc, txn, ledger, k, rep)
    }

    fn turn(
        &mut self,
        alloc: Global,
        txn: &mut Txn,
        ledger: &mut Ledger<Cell>,
        turn: Turn,
    ) -> Result<Want, AllocError> {
        match turn {
            Turn::Copied(current) => self.copied(alloc, txn, ledger, current, 0),
            Turn::CopyOuts(current, outs) => self.copied(alloc, txn, ledger, current, outs),
            Turn::Cut(live) => {
                self.live = live;
                Ok(Want::Wait)
            }
            Turn::Back(k) => Ok(self.back(k)),
            Turn::Settled(adopted) => settled(alloc, ledger, adopted),
            Turn::Begun => begun(alloc, ledger),
            _ => self.answered(alloc, txn, ledger, turn),
        }
    }

    /// Whether the turns need these in order.
    pub(crate) fn takes(
        &mut self,
        alloc: Global,
        txn: &mut Txn,
        ledger: &mut Ledger<Cell>,
        turns: &[(Turn, Want)],
    ) -> Result<bool, AllocError> {
        for (turn, want) in turns {
            if self.turn(alloc, txn, ledger, *turn)? != *want {
                return Ok(false);
            }
        }
        Ok(true)
    }
}
