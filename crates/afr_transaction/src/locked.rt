ghost use Rattle.std.specs.Prelude.{◌≡◌, ◌<◌, ◌∷◌, [], true, IfOk, OnErr, slice_index};
ghost use Rattle.afr_phases.specs.Waves.{is_asked};
ghost use Rattle.afr_transaction.specs.Txns.{kept};
ghost use Rattle.afr_transaction.specs.Locked.{job_cells, settles_first, is_read, to_settle, cells_for, locking, first_lock, start_lock, again, going, lost_noted, releasing, unlock, fail, lock_taken, reached};

use crate::need::Need;
use crate::phase::{Phase, Then};
use crate::txn::{Txn, only};
use afr_ledger::Ledger;
use afr_phases::{LockStep, Locks, Shown, leave_lost, lowest, miss, next_lock};
use fop_types::{BrickReq, Cell, Job, Mask, Row, Seq};
use std::alloc::{AllocError, Global};

impl Txn {
    /// A replica is asked for its lock.
    ///
    /// # Errors
    /// Out of memory.
    pub(crate) fn ask_lock(&mut self, alloc: Global, k: u8) -> Result<Need, AllocError>
        ensures { IfOk result (λ need. (self.new, need) ≡ locking self.old k) }
    {
        let shared = is_read(&self.job) && self.settles.is_none();
        let cells = self.cells.copy(alloc)?;
        let req = BrickReq::Lock {
            call: self.call,
            shared,
            cells,
        };
        self.ask(alloc, only(k), req, Phase::Locking { at: k })
    }

    /// A lock phase over some cells begins.
    ///
    /// # Errors
    /// Out of memory.
    pub(crate) fn start_lock(
        &mut self,
        alloc: Global,
        cells: Seq<Cell>,
        settles: Option<u64>,
        live: Mask,
        last: &[u32],
    ) -> Result<Need, AllocError>
        ensures { IfOk result (λ need. (self.new, need) ≡ start_lock self.old cells settles live last.now) }
    {
        self.cells = cells;
        self.settles = settles;
        self.locks = Locks::new();
        self.shown = Shown::new();
        self.first_lock(alloc, live, last)
    }

    // The first replica is asked, where enough are left.
    fn first_lock(&mut self, alloc: Global, live: Mask, last: &[u32]) -> Result<Need, AllocError>
        ensures { IfOk result (λ need. (self.new, need) ≡ first_lock self.old live last.now) }
    {
        match next_lock(
            &mut self.outs,
            &self.locks,
            self.size.n,
            self.size.q,
            0,
            live,
            last,
        ) {
            LockStep::Ask(k) => self.ask_lock(alloc, k),
            LockStep::Short => self.end_short(alloc),
            LockStep::Reached => self.end_short(alloc),
        }
    }

    /// The job begins, or begins again.
    ///
    /// # Errors
    /// Out of memory.
    pub(crate) fn again(
        &mut self,
        alloc: Global,
        ledger: &Ledger<Cell>,
        live: Mask,
        last: &[u32],
    ) -> Result<Need, AllocError>
        ensures { IfOk result (λ need. (self.new, need) ≡ again self.old ledger.now live last.now) }
    {
        let settles = self.to_settle(alloc, ledger)?;
        let cells = self.cells_for(alloc, ledger, settles)?;
        self.start_lock(alloc, cells, settles, live, last)
    }

    /// The change that is to be settled first.
    ///
    /// # Errors
    /// Out of memory.
    fn to_settle(&self, alloc: Global, ledger: &Ledger<Cell>) -> Result<Option<u64>, AllocError>
        ensures { IfOk result (λ change. change ≡ to_settle self.now ledger.now) }
    {
        if !settles_first(&self.job) {
            return Ok(None);
        }
        let cells = job_cells(alloc, &self.job)?;
        Ok(ledger.touching(self.set, cells.as_slice()))
    }

    /// The cells of a lock phase.
    ///
    /// # Errors
    /// Out of memory.
    fn cells_for(
        &self,
        alloc: Global,
        ledger: &Ledger<Cell>,
        settles: Option<u64>,
    ) -> Result<Seq<Cell>, AllocError>
        ensures { IfOk result (λ cells. cells ≡ cells_for self.now ledger.now settles) }
    {
        let Some(change) = settles else {
            return job_cells(alloc, &self.job);
        };
        match ledger.unsettled(change) {
            Some(u) => u.cells.copy(alloc),
            None => Ok(Seq::new(alloc)),
        }
    }

    // Each replica that granted a lock which is not held any more is out for the job.
    fn note_lost(&mut self, live: Mask, last: &[u32])
        ensures { self.new ≡ lost_noted self.old live last.now }
    {
        leave_lost(&mut self.outs, &self.locks, self.size.n, live, last);
    }

    /// The lock phase is over: the locks that are still held are released, and those that were lost are noted.
    ///
    /// # Errors
    /// Out of memory.
    pub(crate) fn unlock(
        &mut self,
        alloc: Global,
        after: Then,
        ledger: &Ledger<Cell>,
        live: Mask,
        last: &[u32],
    ) -> Result<Need, AllocError>
        ensures { IfOk result (λ need. (self.new, need) ≡ unlock self.old after ledger.now live last.now) }
    {
        self.note_lost(live, last);
        self.release(alloc, after, ledger, live, last)
    }

    // The locks that are still held are released.
    fn release(
        &mut self,
        alloc: Global,
        after: Then,
        ledger: &Ledger<Cell>,
        live: Mask,
        last: &[u32],
    ) -> Result<Need, AllocError>
        ensures { IfOk result (λ need. (self.new, need) ≡ releasing self.old after ledger.now live last.now) }
    {
        let held = self.locks.standing(live, last);
        if lowest(&held).is_none() {
            return self.go(alloc, after, ledger, live, last);
        }
        let req = BrickReq::Unlock { call: self.call };
        self.ask(alloc, held, req, Phase::Unlocking(after))
    }

    /// The locks are released.
    ///
    /// # Errors
    /// Out of memory.
    pub(crate) fn go(
        &mut self,
        alloc: Global,
        after: Then,
        ledger: &Ledger<Cell>,
        live: Mask,
        last: &[u32],
    ) -> Result<Need, AllocError>
        ensures { IfOk result (λ need. (self.new, need) ≡ going self.old after ledger.now live last.now) }
    {
        match after {
            Then::Answer(reply) => Ok(self.finish(reply)),
            Then::Again => self.again(alloc, ledger, live, last),
        }
    }

    /// Too few replicas are left.
    ///
    /// # Errors
    /// Out of memory.
    pub(crate) fn fail(
        &mut self,
        alloc: Global,
        ledger: &Ledger<Cell>,
        live: Mask,
        last: &[u32],
    ) -> Result<Need, AllocError>
        ensures { IfOk result (λ need. (self.new, need) ≡ fail self.old ledger.now live last.now) }
    {
        let reply = self.short_reply(alloc)?;
        self.unlock(alloc, Then::Answer(reply), ledger, live, last)
    }

    /// Too few replicas are left; the ledger stays as it is.
    ///
    /// # Errors
    /// Out of memory.
    pub(crate) fn give_up(
        &mut self,
        alloc: Global,
        ledger: &mut Ledger<Cell>,
        live: Mask,
        last: &[u32],
    ) -> Result<Need, AllocError>
        ensures turn { IfOk result (λ need. (self.new, (need, ledger.new)) ≡ kept (fail self.old ledger.old live last.now) ledger.old) }
        ensures err { OnErr result (ledger.new ≡ ledger.old) }
    {
        let need = self.fail(alloc, ledger, live, last)?;
        Ok(need)
    }

    /// The lock phase is over; the ledger stays as it is.
    ///
    /// # Errors
    /// Out of memory.
    pub(crate) fn leave(
        &mut self,
        alloc: Global,
        after: Then,
        ledger: &mut Ledger<Cell>,
        live: Mask,
        last: &[u32],
    ) -> Result<Need, AllocError>
        ensures turn { IfOk result (λ need. (self.new, (need, ledger.new)) ≡ kept (unlock self.old after ledger.old live last.now) ledger.old) }
        ensures err { OnErr result (ledger.new ≡ ledger.old) }
    {
        let need = self.unlock(alloc, after, ledger, live, last)?;
        Ok(need)
    }

    /// A replica that was asked for its lock answers: with a row for each cell, or it is out.
    pub(crate) fn take_lock(
        &mut self,
        k: u8,
        rows: Option<Seq<Row>>,
        fault: bool,
        mark: u64,
        last: &[u32],
    )
        requires place { k < 5 }
        requires asked { is_asked self.old.wave k ≡ true }
        ensures { self.new ≡ lock_taken self.old k rows fault mark last.now }
    {
        let Some(rows) = rows else {
            miss(&mut self.outs, &mut self.wave, k, fault, mark);
            return;
        };
        self.locks.grant(k, number_of(last, k));
        self.shown.put(k, rows);
        self.wave.take(k, true);
    }

    /// The lock phase has ended: the replicas that are not out are the reached set.
    pub(crate) fn reach(&mut self)
        ensures { self.new ≡ reached self.old }
    {
        let alive = self.alive();
        self.shown.reach(alive);
    }
}

fn number_of(last: &[u32], k: u8) -> u32
    ensures { result ≡ slice_index last.now k }
{
    match last.get(k as usize) {
        Some(number) => *number,
        None => 0,
    }
}

/// The cells of a job that takes locks.
fn job_cells(alloc: Global, job: &Job) -> Result<Seq<Cell>, AllocError>
    ensures { IfOk result (λ cells. cells ≡ job_cells job.now) }
{
    match job {
        Job::Read { cells, .. } => cells.copy(alloc),
        Job::Change { cells, .. } => cells.copy(alloc),
        Job::Birth { cells, .. } => cells.copy(alloc),
        Job::Heal(cell) => one_cell(alloc, *cell),
        _ => Ok(Seq::new(alloc)),
    }
}

fn one_cell(alloc: Global, cell: Cell) -> Result<Seq<Cell>, AllocError>
    ensures { IfOk result (λ cells. cells ≡ cell ∷ []) }
{
    let mut cells = Seq::new(alloc);
    cells.push(cell)?;
    Ok(cells)
}

/// Whether a job settles what touches its cells before it takes its locks.
fn settles_first(job: &Job) -> bool
    ensures { result ≡ settles_first job.now }
{
    match job {
        Job::Read { .. } => true,
        Job::Change { .. } => true,
        _ => false,
    }
}

fn is_read(job: &Job) -> bool
    ensures { result ≡ is_read job.now }
{
    match job {
        Job::Read { .. } => true,
        _ => false,
    }
}
