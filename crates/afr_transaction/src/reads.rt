ghost use Rattle.std.specs.Prelude.{◌≡◌, ◌++◌, ◌-◌, ◌<◌, true, None, IfOk, OnOk, length, slice_get};
ghost use Rattle.afr_phases.specs.Waves.{is_asked};
ghost use Rattle.afr_transaction.specs.Sound.{is_absent, is_here};
ghost use Rattle.afr_transaction.specs.Reads.{is_directory_read, fd_of, lacks, sound_on, is_bare, is_split_read, split_cell, split_rows, with_absent, fetching, fetch_at, fetch_next, ready_to_read, fetch_taken};

use crate::need::Need;
use crate::phase::{Phase, Then};
use crate::txn::{Txn, only};
use afr_ledger::Ledger;
use afr_phases::{Flags, both, lowest, miss};
use fop_types::{BrickReq, Cell, Content, Job, Mask, Row, Seq, SetReply, SplitRow};
use std::alloc::{AllocError, Global};

impl Txn {
    /// The sound replicas of the `c`-th cell.
    #[tactic(auto, unfolding(crate::specs::Reads::sound_on))]
    pub(crate) fn sound_on(&self, c: usize) -> Flags
        ensures { result ≡ sound_on self.now c }
    {
        self.shown.sound(c, self.size.n, self.size.q)
    }

    /// Whether the `c`-th cell is read as absent.
    #[tactic(auto, unfolding(crate::specs::Reads::lacks))]
    fn lacks(&self, c: usize) -> bool
        ensures { result ≡ lacks self.now c }
    {
        is_directory_read(&self.job) && self.set != 0 && self.is_absent(c)
    }

    fn is_absent(&self, c: usize) -> bool
        ensures { result ≡ is_absent self.now.shown c }
    {
        !(is_here(self.shown.row(c, 0))
            || is_here(self.shown.row(c, 1))
            || is_here(self.shown.row(c, 2))
            || is_here(self.shown.row(c, 3))
            || is_here(self.shown.row(c, 4)))
    }

    /// A read whose locks are granted.
    ///
    /// # Errors
    /// Out of memory.
    pub(crate) fn ready_to_read(
        &mut self,
        alloc: Global,
        ledger: &Ledger<Cell>,
        live: Mask,
        last: &[u32],
    ) -> Result<Need, AllocError>
        ensures { IfOk result (λ need. (self.new, need) ≡ ready_to_read self.old ledger.now live last.now) }
    {
        if self.is_split_read() {
            let rows = self.split_rows(alloc)?;
            return self.answer_split(alloc, rows, ledger, live, last);
        }
        ledger.keep_apart();
        let place = ledger.history().len() as u32;
        self.fetch_next(alloc, place, Seq::new(alloc), ledger, live, last)
    }

    fn is_split_read(&self) -> bool
        ensures { result ≡ is_split_read self.now 0 self.now.cells }
    {
        let mut c = 0;
        for _cell in self.cells.as_slice() {
            if self.is_bare(c) {
                return true;
            }
            c += 1;
        }
        false
    }

    #[tactic(auto, unfolding(crate::specs::Reads::is_bare))]
    fn is_bare(&self, c: usize) -> bool
        ensures { result ≡ is_bare self.now c }
    {
        !self.lacks(c) && lowest(&self.sound_on(c)).is_none()
    }

    fn split_rows(&self, alloc: Global) -> Result<Seq<SplitRow>, AllocError>
        ensures { IfOk result (λ rows. rows ≡ split_rows self.now 0 self.now.cells) }
    {
        let mut rows = Vec::new(alloc);
        let mut c = 0;
        for cell in self.cells.as_slice() {
            self.push_split(&mut rows, *cell, c)?;
            c += 1;
        }
        Ok(Seq::from_vec(rows))
    }

    fn push_split(&self, rows: &mut Vec<SplitRow>, cell: Cell, c: usize) -> Result<(), AllocError>
        ensures { OnOk result (rows.new.items ≡ rows.old.items ++ split_cell self.now c cell) }
    {
        if self.lacks(c) {
            return Ok(());
        }
        self.shown.push_cell(rows, cell, c, self.bricks.as_slice())?;
        Ok(())
    }

    /// The next cell is fetched, or the read is done.
    ///
    /// # Errors
    /// Out of memory.
    pub(crate) fn fetch_next(
        &mut self,
        alloc: Global,
        place: u32,
        contents: Seq<Option<Content>>,
        ledger: &Ledger<Cell>,
        live: Mask,
        last: &[u32],
    ) -> Result<Need, AllocError>
        ensures { IfOk result (λ need. (self.new, need) ≡ fetch_next self.old place contents ledger.now live last.now) }
    {
        let contents = self.with_absent(contents)?;
        let next = self.cell_at(contents.len());
        let need = self.fetch_at(alloc, place, contents, next, ledger, live, last)?;
        Ok(need)
    }

    /// The `c`-th cell of the lock phase.
    pub(crate) fn cell_at(&self, c: usize) -> Option<Cell>
        ensures { result ≡ slice_get self.now.cells c }
    {
        self.cells.as_slice().get(c).copied()
    }

    // The contents, and those of the cells that follow as long as they are read as absent.
    fn with_absent(
        &self,
        contents: Seq<Option<Content>>,
    ) -> Result<Seq<Option<Content>>, AllocError>
        ensures { IfOk result (λ all. all ≡ with_absent self.now contents (length self.now.cells - length contents)) }
    {
        let known = contents.len();
        let mut all = contents;
        for c in known..self.cells.len() {
            if !self.lacks(c) {
                return Ok(all);
            }
            all.push(None)?;
        }
        Ok(all)
    }

    fn fetch_at(
        &mut self,
        alloc: Global,
        place: u32,
        contents: Seq<Option<Content>>,
        next: Option<Cell>,
        ledger: &Ledger<Cell>,
        live: Mask,
        last: &[u32],
    ) -> Result<Need, AllocError>
        ensures { IfOk result (λ need. (self.new, need) ≡ fetch_at self.old place contents next ledger.now live last.now) }
    {
        let Some(cell) = next else {
            let after = Then::Answer(SetReply::Contents(contents, place));
            return self.unlock(alloc, after, ledger, live, last);
        };
        let sources = both(self.sound_on(contents.len()), self.alive());
        let Some(k) = lowest(&sources) else {
            return self.unlock(alloc, Then::Again, ledger, live, last);
        };
        let req = BrickReq::Fetch {
            fd: fd_of(&self.job),
            cell,
        };
        let phase = Phase::Fetching {
            place,
            from: k,
            contents,
        };
        self.ask(alloc, only(k), req, phase)
    }

    /// A replica that was asked for a content answers.
    ///
    /// # Errors
    /// Out of memory.
    pub(crate) fn take_fetch(
        &mut self,
        alloc: Global,
        k: u8,
        fetched: Fetched,
        content: Option<(Content, u64)>,
        ledger: &Ledger<Cell>,
        live: Mask,
        last: &[u32],
    ) -> Result<Need, AllocError>
        requires place { k < 5 }
        requires asked { is_asked self.old.wave k ≡ true }
        ensures { IfOk result (λ need. (self.new, need) ≡ fetch_taken self.old fetched.place k fetched.contents content fetched.fault fetched.mark ledger.now live last.now) }
    {
        let Some((content, _)) = content else {
            return self.miss_fetch(alloc, k, fetched, ledger, live, last);
        };
        self.wave.take(k, true);
        let mut contents = fetched.contents;
        contents.push(Some(content))?;
        self.fetch_next(alloc, fetched.place, contents, ledger, live, last)
    }

    // The replica is out, and the next sound one is asked.
    fn miss_fetch(
        &mut self,
        alloc: Global,
        k: u8,
        fetched: Fetched,
        ledger: &Ledger<Cell>,
        live: Mask,
        last: &[u32],
    ) -> Result<Need, AllocError>
        requires place { k < 5 }
        requires asked { is_asked self.old.wave k ≡ true }
        ensures { IfOk result (λ need. (self.new, need) ≡ fetch_taken self.old fetched.place k fetched.contents None fetched.fault fetched.mark ledger.now live last.now) }
    {
        let contents = fetched.contents;
        miss(
            &mut self.outs,
            &mut self.wave,
            k,
            fetched.fault,
            fetched.mark,
        );
        if self.outs.is_short(self.size.n, self.size.q) {
            return self.fail(alloc, ledger, live, last);
        }
        self.fetch_next(alloc, fetched.place, contents, ledger, live, last)
    }
}

/// A read when the answer to a fetch comes: what was fetched before, and by what the replica is out if it is.
#[derive(Drop)]
pub(crate) struct Fetched {
    pub(crate) place: u32,
    pub(crate) contents: Seq<Option<Content>>,
    pub(crate) fault: bool,
    pub(crate) mark: u64,
}

fn is_here(row: Option<Row>) -> bool
    ensures { result ≡ is_here row }
{
    match row {
        Some(row) => row.present,
        None => false,
    }
}

fn is_directory_read(job: &Job) -> bool
    ensures { result ≡ is_directory_read job.now }
{
    match job {
        Job::Read { dir, .. } => *dir,
        _ => false,
    }
}

fn fd_of(job: &Job) -> u32
    ensures { result ≡ fd_of job.now }
{
    match job {
        Job::Read { fd, .. } => *fd,
        Job::Change { fd, .. } => *fd,
        Job::Open { fd, .. } => *fd,
        _ => 0,
    }
}
