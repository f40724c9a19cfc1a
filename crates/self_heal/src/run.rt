ghost use Rattle.std.specs.Prelude.{◌≡◌, ◌<◌, ◌||◌, IfOk};
ghost use Rattle.self_heal.specs.Runs.{new_run, held_left, sources_left, sinks_left, cleared, asking, finished, fetching, fetch_at, next_cell, replacing, clearing, fetch_taken, wave_taken, replace_taken, clear_taken, aspect_at, current_cell, answered};

use crate::stage::{CopyNeed, Origin, Stage};
use afr_phases::{
    Flags, Outs, Wave, both, content_in, flags_of, is_fault, is_plain_done, lowest, mask_of, sends,
};
use fop_types::{Aspect, BrickRep, BrickReq, Cell, Content, CopyDone, CopyJob, Seq, SplitRow};
use std::alloc::{AllocError, Global};

/// A copy under way: plain data, which contracts see whole. Only `begin` makes one that is to be used.
#[derive(Drop)]
pub struct CopyRun {
    /// What is copied from whom to whom.
    pub job: CopyJob,
    /// The rows of the lock phase, for the records.
    pub rows: Seq<SplitRow>,
    /// The replicas that went out during the copy.
    pub outs: Outs,
    /// Who was sent the latest request and has not answered.
    pub wave: Wave,
    /// For each cell that was replaced on the sinks, where its copy came from. The next cell is copied after these.
    pub origins: Seq<Origin>,
    /// What the copy waits for.
    pub stage: Stage,
}

impl CopyRun {
    /// Begins a copy of cells, with the rows of their lock phase, and says what it needs first. The job has one to
    /// four cells, no replica is source and sink, all sinks are held, and so is a source. Without a sink the copy is
    /// done at once.
    ///
    /// # Errors
    /// Out of memory.
    pub fn begin(
        alloc: Global,
        job: CopyJob,
        rows: Seq<SplitRow>,
    ) -> Result<(CopyRun, CopyNeed), AllocError>
        ensures { IfOk result (λ r. (r.0, r.1) ≡ next_cell (new_run job rows)) }
    {
        let mut run = CopyRun {
            job,
            rows,
            outs: Outs::new(),
            wave: Wave::new(),
            origins: Seq::new(alloc),
            stage: Stage::Over,
        };
        let need = run.next_cell(alloc)?;
        Ok((run, need))
    }

    /// Takes the answer of a replica that was asked, and says what the copy needs next. `mark` is the place in the
    /// replica's journal where the answer is a fault, else the number of its last connection.
    ///
    /// An answer that asks nothing takes constant time. A replacement is copied once for each sink but the last.
    ///
    /// # Errors
    /// Out of memory. After that the copy is not used any more.
    pub fn answer(
        &mut self,
        alloc: Global,
        replica: u8,
        rep: BrickRep,
        mark: u64,
    ) -> Result<CopyNeed, AllocError>
        requires { replica < 5 }
        ensures { IfOk result (λ need. (self.new, need) ≡ answered self.old replica rep mark) }
    {
        match self.stage {
            Stage::Fetching { .. } => self.take_fetch(alloc, replica, rep, mark),
            Stage::Replacing(origin) => self.take_replace(alloc, replica, rep, mark, origin),
            Stage::Clearing(current) => self.take_clear(alloc, replica, rep, mark, current),
            Stage::Over => Ok(CopyNeed::Wait),
        }
    }

    /// The replicas whose lock is still held.
    #[tactic(auto, unfolding(crate::specs::Runs::held_of))]
    fn held_left(&self) -> Flags
        ensures { result ≡ held_left self.now }
    {
        both(flags_of(self.job.held), self.outs.used(5))
    }

    #[tactic(auto, unfolding(crate::specs::Runs::sources_of))]
    fn sources_left(&self) -> Flags
        ensures { result ≡ sources_left self.now }
    {
        both(flags_of(self.job.sources), self.held_left())
    }

    #[tactic(auto, unfolding(crate::specs::Runs::sinks_of))]
    fn sinks_left(&self) -> Flags
        ensures { result ≡ sinks_left self.now }
    {
        both(flags_of(self.job.sinks), self.held_left())
    }

    // Whom nobody is to accuse any more: all sources, and the sinks that have every cell.
    #[tactic(auto, unfolding(crate::specs::Runs::cleared_of))]
    fn cleared(&self, current: Flags) -> Flags
        ensures { result ≡ cleared self.now current }
    {
        let [a, b, c, d, e] = flags_of(self.job.sources);
        let [f, g, h, i, j] = current;
        [
            one_of(a, f),
            one_of(b, g),
            one_of(c, h),
            one_of(d, i),
            one_of(e, j),
        ]
    }

    fn ask(
        &mut self,
        alloc: Global,
        to: Flags,
        req: BrickReq,
        stage: Stage,
    ) -> Result<CopyNeed, AllocError>
        ensures { IfOk result (λ need. (self.new, need) ≡ asking self.old to req stage) }
    {
        let list = sends(alloc, &to, req)?;
        self.wave = Wave::of(to);
        self.stage = stage;
        Ok(CopyNeed::Send(list))
    }

    // The copy ends, and nobody is asked any more; these sinks have every cell.
    fn finish(&mut self, alloc: Global, current: Flags) -> Result<CopyNeed, AllocError>
        ensures { IfOk result (λ need. (self.new, need) ≡ finished self.old current) }
    {
        let records = self.records(alloc, current)?;
        let outs = self.outs.list(alloc)?;
        let held = mask_of(self.held_left());
        self.wave = Wave::new();
        self.stage = Stage::Over;
        Ok(CopyNeed::Done(CopyDone {
            held,
            current: mask_of(current),
            outs,
            records,
        }))
    }

    // The cell that is copied next, or is being copied; none after the last one.
    fn current_cell(&self) -> Option<Cell>
        ensures { result ≡ current_cell self.now }
    {
        self.job.cells.as_slice().get(self.origins.len()).copied()
    }

    // The next cell is fetched, or, after the last one, the clear is sent. Without a sink the copy ends.
    fn next_cell(&mut self, alloc: Global) -> Result<CopyNeed, AllocError>
        ensures { IfOk result (λ need. (self.new, need) ≡ next_cell self.old) }
    {
        if lowest(&self.sinks_left()).is_none() {
            return self.finish(alloc, [false; 5]);
        }
        let next = self.current_cell();
        let Some(cell) = next else {
            return self.clear(alloc);
        };
        self.fetch(alloc, cell)
    }

    fn fetch(&mut self, alloc: Global, cell: Cell) -> Result<CopyNeed, AllocError>
        ensures { IfOk result (λ need. (self.new, need) ≡ fetch_at self.old cell) }
    {
        let Some(from) = lowest(&self.sources_left()) else {
            return self.finish(alloc, [false; 5]);
        };
        let to = [from == 0, from == 1, from == 2, from == 3, from == 4];
        let req = BrickReq::Fetch { fd: 0, cell };
        self.ask(alloc, to, req, Stage::Fetching { from })
    }

    fn clear(&mut self, alloc: Global) -> Result<CopyNeed, AllocError>
        ensures { IfOk result (λ need. (self.new, need) ≡ clearing self.old) }
    {
        let current = self.sinks_left();
        let cells = self.job.cells.copy(alloc)?;
        let req = BrickReq::Clear {
            cells,
            mask: mask_of(self.cleared(current)),
        };
        self.ask(alloc, self.held_left(), req, Stage::Clearing(current))
    }

    fn take_fetch(
        &mut self,
        alloc: Global,
        replica: u8,
        rep: BrickRep,
        mark: u64,
    ) -> Result<CopyNeed, AllocError>
        requires { replica < 5 }
        ensures { IfOk result (λ need. (self.new, need) ≡ fetch_taken self.old replica rep mark) }
    {
        let next = self.current_cell();
        let fault = is_fault(&rep);
        let Some((content, last)) = content_in(rep, aspect_of(next)) else {
            self.wave.take(replica, false);
            self.outs.leave(replica, fault, mark);
            return self.next_cell(alloc);
        };
        self.wave.take(replica, true);
        let origin = Origin {
            source: replica,
            last,
        };
        self.replace(alloc, next, content, origin)
    }

    // The content goes to the sinks that are still used.
    fn replace(
        &mut self,
        alloc: Global,
        cell: Option<Cell>,
        content: Content,
        origin: Origin,
    ) -> Result<CopyNeed, AllocError>
        ensures { IfOk result (λ need. (self.new, need) ≡ replacing self.old cell content origin) }
    {
        let Some(cell) = cell else {
            return self.clear(alloc);
        };
        let req = BrickReq::Replace {
            cell,
            last: origin.last,
            content,
        };
        self.ask(alloc, self.sinks_left(), req, Stage::Replacing(origin))
    }

    fn take(&mut self, replica: u8, rep: &BrickRep, mark: u64)
        requires { replica < 5 }
        ensures { self.new ≡ wave_taken self.old replica rep.now mark }
    {
        if is_plain_done(rep) {
            self.wave.take(replica, true);
            return;
        }
        self.wave.take(replica, false);
        self.outs.leave(replica, is_fault(rep), mark);
    }

    fn take_replace(
        &mut self,
        alloc: Global,
        replica: u8,
        rep: BrickRep,
        mark: u64,
        origin: Origin,
    ) -> Result<CopyNeed, AllocError>
        requires { replica < 5 }
        ensures { IfOk result (λ need. (self.new, need) ≡ replace_taken self.old replica rep mark origin) }
    {
        self.take(replica, &rep, mark);
        if !self.wave.is_over() {
            return Ok(CopyNeed::Wait);
        }
        self.origins.push(origin)?;
        self.next_cell(alloc)
    }

    fn take_clear(
        &mut self,
        alloc: Global,
        replica: u8,
        rep: BrickRep,
        mark: u64,
        current: Flags,
    ) -> Result<CopyNeed, AllocError>
        requires { replica < 5 }
        ensures { IfOk result (λ need. (self.new, need) ≡ clear_taken self.old replica rep mark current) }
    {
        self.take(replica, &rep, mark);
        if !self.wave.is_over() {
            return Ok(CopyNeed::Wait);
        }
        self.finish(alloc, current)
    }
}

fn one_of(a: bool, b: bool) -> bool
    ensures { result ≡ (a || b) }
{
    a || b
}

fn aspect_of(cell: Option<Cell>) -> Aspect
    ensures { result ≡ aspect_at cell }
{
    match cell {
        Some(cell) => cell.aspect,
        None => Aspect::Data,
    }
}
