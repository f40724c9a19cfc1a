ghost use Rattle.std.specs.Prelude.{◌≡◌, ◌<◌, true, IfOk, OnOk};
ghost use Rattle.afr_phases.specs.Answers.{cells_in};
ghost use Rattle.afr_phases.specs.Waves.{is_asked};
ghost use Rattle.afr_transaction.specs.Polls.{polled, open_ended, opening, short_of, list_ended, listing};
ghost use Rattle.afr_transaction.specs.Answers.{list_taken, list_answered};

use crate::listed::Listed;
use crate::need::Need;
use crate::phase::Phase;
use crate::txn::Txn;
use afr_phases::{cells_in, flags_of, is_fault, keep_only, lowest, mask_of, miss};
use fop_types::{BrickRep, BrickReq, Cell, Gfid, IoError, Mask, Seq, SetReply};
use std::alloc::{AllocError, Global};

impl Txn {
    /// Only the live replicas are used.
    pub(crate) fn poll(&mut self, live: Mask, last: &[u32])
        ensures { self.new ≡ polled self.old live last.now }
    {
        keep_only(&mut self.outs, flags_of(live), self.size.n, last);
    }

    /// Every replica that is used opens a descriptor.
    ///
    /// # Errors
    /// Out of memory.
    pub(crate) fn ask_open(
        &mut self,
        alloc: Global,
        fd: u32,
        gfid: Gfid,
    ) -> Result<Need, AllocError>
        ensures { IfOk result (λ need. (self.new, need) ≡ opening self.old fd gfid) }
    {
        let to = self.alive();
        if lowest(&to).is_none() {
            return self.end_open(alloc);
        }
        self.ask(alloc, to, BrickReq::Open { fd, gfid }, Phase::Opening)
    }

    /// The open has failed where fewer than a quorum answered as asked.
    ///
    /// # Errors
    /// Out of memory.
    pub(crate) fn end_open(&mut self, alloc: Global) -> Result<Need, AllocError>
        ensures { IfOk result (λ need. (self.new, need) ≡ open_ended self.old) }
    {
        if self.outs.is_short(self.size.n, self.size.q) {
            let error = self.io_error(alloc)?;
            return Ok(self.finish(SetReply::Io(error)));
        }
        Ok(self.finish(SetReply::Opened))
    }

    /// Every replica that is used lists its cells.
    ///
    /// # Errors
    /// Out of memory.
    pub(crate) fn ask_index(&mut self, alloc: Global) -> Result<Need, AllocError>
        ensures { IfOk result (λ need. (self.new, need) ≡ listing self.old) }
    {
        let to = self.alive();
        let all = Listed::new(alloc);
        if lowest(&to).is_none() {
            return self.end_list(alloc, all);
        }
        self.ask(alloc, to, BrickReq::Index, Phase::Listing(all))
    }

    // The index is answered with what was listed, and why it falls short where it does.
    fn end_list(&mut self, alloc: Global, all: Listed) -> Result<Need, AllocError>
        ensures { IfOk result (λ need. (self.new, need) ≡ list_ended self.old all) }
    {
        let cells = all.into_list(alloc)?;
        let short = self.short_of(alloc)?;
        let answered = mask_of(self.wave.confirmed);
        Ok(self.finish(SetReply::Listed {
            cells,
            answered,
            short,
        }))
    }

    fn short_of(&self, alloc: Global) -> Result<Option<IoError>, AllocError>
        ensures { IfOk result (λ short. short ≡ short_of self.now) }
    {
        if !self.outs.is_short(self.size.n, self.size.q) {
            return Ok(None);
        }
        let error = self.io_error(alloc)?;
        Ok(Some(error))
    }

    /// A replica has listed its cells, or is out.
    ///
    /// # Errors
    /// Out of memory.
    pub(crate) fn list_answered(
        &mut self,
        alloc: Global,
        k: u8,
        rep: BrickRep,
        mark: u64,
        all: Listed,
    ) -> Result<Need, AllocError>
        requires place { k < 5 }
        requires asked { is_asked self.old.wave k ≡ true }
        ensures { IfOk result (λ need. (self.new, need) ≡ list_answered self.old k rep mark all) }
    {
        let mut all = all;
        let fault = is_fault(&rep);
        let cells = cells_in(rep);
        self.take_list(k, cells, fault, mark, &mut all)?;
        if !self.wave.is_over() {
            return Ok(self.wait(Phase::Listing(all)));
        }
        self.end_list(alloc, all)
    }

    fn take_list(
        &mut self,
        k: u8,
        cells: Option<Seq<Cell>>,
        fault: bool,
        mark: u64,
        all: &mut Listed,
    ) -> Result<(), AllocError>
        requires place { k < 5 }
        requires asked { is_asked self.old.wave k ≡ true }
        ensures { OnOk result ((self.new, all.new) ≡ list_taken self.old k cells fault mark all.old) }
    {
        let Some(cells) = cells else {
            miss(&mut self.outs, &mut self.wave, k, fault, mark);
            return Ok(());
        };
        self.wave.take(k, true);
        all.add_all(cells.as_slice())?;
        Ok(())
    }
}
