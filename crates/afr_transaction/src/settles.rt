ghost use Rattle.std.specs.Prelude.{◌≡◌, ◌<◌, ◌⊎◌, IfOk, OnErr};
ghost use Rattle.afr_transaction.specs.Sound.{is_last, is_alike, agrees};
ghost use Rattle.afr_transaction.specs.Settles.{has_it, group_of, settling, settle_decided, settle_parts};
ghost use Rattle.afr_transaction.specs.Ready.{ready_to_settle};
ghost use Rattle.afr_transaction.specs.Answers.{settle_answered, settle_step, settle_ended};

use crate::need::Need;
use crate::phase::{Part, Phase, Then, Verdict};
use crate::txn::Txn;
use afr_ledger::Ledger;
use afr_phases::{Flags, but_for, lowest, mask_of, outside};
use fop_types::{BrickReq, Cell, Mask, Row, Seq};
use std::alloc::{AllocError, Global};

impl Txn {
    /// Whether a replica has the change that is to be settled.
    fn has_it(&self, change: u64, k: u8) -> bool
        requires { k < 5 }
        ensures { result ≡ has_it self.now change k }
    {
        let mut c = 0;
        for _cell in self.cells.as_slice() {
            if !is_last(self.shown.row(c, k), change) {
                return false;
            }
            c += 1;
        }
        true
    }

    /// Whether a replica has the change in its copies of the same cells as the source.
    fn agrees(&self, change: u64, source: u8, k: u8) -> bool
        requires known { source < 5 }
        requires counted { k < 5 }
        ensures { result ≡ agrees self.now.shown change source 0 self.now.cells k }
    {
        let mut c = 0;
        for _cell in self.cells.as_slice() {
            if !self.is_alike(change, source, c, k) {
                return false;
            }
            c += 1;
        }
        true
    }

    // Whether a replica's copy of a cell has the change exactly where the source's has it.
    fn is_alike(&self, change: u64, source: u8, c: usize, k: u8) -> bool
        requires known { source < 5 }
        requires counted { k < 5 }
        ensures { result ≡ is_alike self.now.shown change source c k }
    {
        let has = is_last(self.shown.row(c, k), change);
        has == is_last(self.shown.row(c, source), change)
    }

    /// Those who are sound on all cells and agree on each with the source.
    fn group_of(&self, change: u64, common: Flags, source: u8) -> Flags
        requires { source < 5 }
        ensures { result ≡ group_of self.now change common source }
    {
        let [a, b, c, d, e] = common;
        [
            a && self.agrees(change, source, 0),
            b && self.agrees(change, source, 1),
            c && self.agrees(change, source, 2),
            d && self.agrees(change, source, 3),
            e && self.agrees(change, source, 4),
        ]
    }

    /// The settle goes to the reached replicas that are still used, and accuses all outside the group.
    ///
    /// # Errors
    /// Out of memory.
    fn settle(
        &mut self,
        alloc: Global,
        change: u64,
        held: bool,
        group: Flags,
    ) -> Result<Need, AllocError>
        ensures { IfOk result (λ need. (self.new, need) ≡ settling self.old change held group) }
    {
        let cells = self.cells.copy(alloc)?;
        let to = self.alive();
        let mask = mask_of(outside(self.size.n, group));
        let req = BrickReq::Settle { cells, mask };
        let phase = Phase::Settling(Verdict {
            change,
            held,
            group,
            decided: false,
        });
        self.ask(alloc, to, req, phase)
    }

    /// A settling whose locks are granted.
    ///
    /// # Errors
    /// Out of memory.
    pub(crate) fn ready_to_settle(
        &mut self,
        alloc: Global,
        change: u64,
        ledger: &Ledger<Cell>,
        live: Mask,
        last: &[u32],
    ) -> Result<Need, AllocError>
        ensures { IfOk result (λ need. (self.new, need) ≡ ready_to_settle self.old change ledger.now live last.now) }
    {
        if ledger.unsettled(change).is_none() {
            return self.unlock(alloc, Then::Again, ledger, live, last);
        }
        let common = self.common();
        let Some(source) = lowest(&common) else {
            return self.split(alloc, ledger, live, last);
        };
        self.settle_from(alloc, change, common, source)
    }

    // The replicas that agree with the source are the group.
    fn settle_from(
        &mut self,
        alloc: Global,
        change: u64,
        common: Flags,
        source: u8,
    ) -> Result<Need, AllocError>
        requires { source < 5 }
        ensures { IfOk result (λ need. (self.new, need) ≡ settling self.old change (has_it self.old change source) (group_of self.old change common source)) }
    {
        let held = self.has_it(change, source);
        let group = self.group_of(change, common, source);
        self.settle(alloc, change, held, group)
    }

    // The verdict of a settling comes with the q-th confirmation.
    fn decide_settle(
        &self,
        alloc: Global,
        verdict: Verdict,
        ledger: &mut Ledger<Cell>,
    ) -> Result<bool, AllocError>
        ensures turn { IfOk result (λ now. (now, ledger.new) ≡ settle_decided self.now verdict ledger.old) }
        ensures err { OnErr result (ledger.new ≡ ledger.old) }
    {
        if verdict.decided {
            return Ok(true);
        }
        if !self.decides(ledger) {
            return Ok(false);
        }
        if ledger.unsettled(verdict.change).is_some() {
            ledger.decide(alloc, verdict.change, verdict.held)?;
        }
        Ok(true)
    }

    /// A replica has answered the settle.
    ///
    /// # Errors
    /// Out of memory.
    pub(crate) fn settle_answered(
        &mut self,
        alloc: Global,
        verdict: Verdict,
        ledger: &mut Ledger<Cell>,
        live: Mask,
        last: &[u32],
    ) -> Result<Need, AllocError>
        ensures turn { IfOk result (λ need. (self.new, (need, ledger.new)) ≡ settle_answered self.old verdict ledger.old live last.now) }
        ensures err { OnErr result ((ledger.new ≡ ledger.old) ⊎ (ledger.new ≡ (settle_decided self.old verdict ledger.old).1)) }
    {
        let decided = self.decide_settle(alloc, verdict, ledger)?;
        let group = verdict.group;
        let so_far = Verdict {
            change: verdict.change,
            held: verdict.held,
            group,
            decided,
        };
        let need = self.settle_step(alloc, so_far, ledger, live, last)?;
        Ok(need)
    }

    // The next step of a settling, by its verdict so far.
    fn settle_step(
        &mut self,
        alloc: Global,
        verdict: Verdict,
        ledger: &mut Ledger<Cell>,
        live: Mask,
        last: &[u32],
    ) -> Result<Need, AllocError>
        ensures turn { IfOk result (λ need. (self.new, (need, ledger.new)) ≡ settle_step self.old verdict ledger.old live last.now) }
        ensures err { OnErr result (ledger.new ≡ ledger.old) }
    {
        if !self.wave.is_over() {
            return Ok(self.wait(Phase::Settling(verdict)));
        }
        let group = verdict.group;
        self.settle_ended(alloc, group, verdict.decided, ledger, live, last)
    }

    // A settling to whose settle all have answered: those outside the group get a copy, or it fails.
    fn settle_ended(
        &mut self,
        alloc: Global,
        group: Flags,
        decided: bool,
        ledger: &mut Ledger<Cell>,
        live: Mask,
        last: &[u32],
    ) -> Result<Need, AllocError>
        ensures turn { IfOk result (λ need. (self.new, (need, ledger.new)) ≡ settle_ended self.old group decided ledger.old live last.now) }
        ensures err { OnErr result (ledger.new ≡ ledger.old) }
    {
        if !decided {
            return self.give_up(alloc, ledger, live, last);
        }
        let parts = self.settle_parts(alloc, group)?;
        self.copy_next(alloc, parts, ledger, live, last)
    }

    // Those outside the group get a copy of all cells from the group.
    fn settle_parts(&self, alloc: Global, group: Flags) -> Result<Seq<Part>, AllocError>
        ensures { IfOk result (λ parts. parts ≡ settle_parts self.now group) }
    {
        let cells = self.cells.copy(alloc)?;
        let mut parts = Seq::new(alloc);
        parts.push(Part {
            cells,
            sources: group,
            sinks: but_for(self.shown.reached, group),
        })?;
        Ok(parts)
    }
}

fn is_last(row: Option<Row>, change: u64) -> bool
    ensures { result ≡ is_last row change }
{
    match row {
        Some(row) => row.last == change,
        None => false,
    }
}
