ghost use Rattle.std.specs.Prelude.{◌≡◌, IfOk, OnErr};
ghost use Rattle.fop_types.specs.declared.answers.IoError.TheVariants as io;
ghost use Rattle.fop_types.specs.declared.jobs.SetReply.TheVariants as reply;
ghost use Rattle.afr_transaction.specs.declared.phase.Then.TheVariants as next;
ghost use Rattle.afr_transaction.specs.Jobs.{kind_of};
ghost use Rattle.afr_transaction.specs.Locked.{unlock};
ghost use Rattle.afr_transaction.specs.Ready.{split, skipping, ready_to_change, is_touched, heal_copies, ready_to_heal, bearing, ready_by, ready};

use crate::jobs::{Kind, birth_op, kind_of};
use crate::need::Need;
use crate::phase::{Phase, Then};
use crate::txn::Txn;
use afr_ledger::Ledger;
use fop_types::{BrickReq, Cell, IoError, Mask, Seq, SetReply, SkipCause, SplitRow};
use std::alloc::{AllocError, Global};

impl Txn {
    /// The answer where the copies are split, with the rows of all cells of the lock phase.
    ///
    /// # Errors
    /// Out of memory.
    pub(crate) fn split(
        &mut self,
        alloc: Global,
        ledger: &Ledger<Cell>,
        live: Mask,
        last: &[u32],
    ) -> Result<Need, AllocError>
        ensures { IfOk result (λ need. (self.new, need) ≡ split self.old ledger.now live last.now) }
    {
        let rows = self
            .shown
            .list(alloc, self.cells.as_slice(), self.bricks.as_slice())?;
        self.answer_split(alloc, rows, ledger, live, last)
    }

    /// The job is answered with the rows of a split.
    ///
    /// # Errors
    /// Out of memory.
    pub(crate) fn answer_split(
        &mut self,
        alloc: Global,
        rows: Seq<SplitRow>,
        ledger: &Ledger<Cell>,
        live: Mask,
        last: &[u32],
    ) -> Result<Need, AllocError>
        ensures { IfOk result (λ need. (self.new, need) ≡ unlock self.old (next.Answer (reply.Io (io.Split self.old.set rows))) ledger.now live last.now) }
    {
        let error = IoError::Split {
            set: self.set,
            rows,
        };
        let after = Then::Answer(SetReply::Io(error));
        self.unlock(alloc, after, ledger, live, last)
    }

    fn ready_to_change(
        &mut self,
        alloc: Global,
        ledger: &mut Ledger<Cell>,
        live: Mask,
        last: &[u32],
    ) -> Result<Need, AllocError>
        ensures turn { IfOk result (λ need. (self.new, (need, ledger.new)) ≡ ready_to_change self.old ledger.old live last.now) }
        ensures err { OnErr result (ledger.new ≡ ledger.old) }
    {
        if self.is_split() {
            let need = self.split(alloc, ledger, live, last)?;
            return Ok(need);
        }
        let parts = self.all_parts(alloc)?;
        self.copy_next(alloc, parts, ledger, live, last)
    }

    // A heal leaves its cell, unless it has copied something before.
    #[tactic(auto, unfolding(crate::specs::Ready::skipping))]
    fn skip(
        &mut self,
        alloc: Global,
        cause: SkipCause,
        ledger: &Ledger<Cell>,
        live: Mask,
        last: &[u32],
    ) -> Result<Need, AllocError>
        ensures { IfOk result (λ need. (self.new, need) ≡ skipping self.old cause ledger.now live last.now) }
    {
        let after = Then::Answer(self.heal_reply(alloc, cause));
        self.unlock(alloc, after, ledger, live, last)
    }

    // Whether an unsettled change touches the cells.
    #[tactic(auto, unfolding(crate::specs::Ready::is_touched))]
    fn is_touched(&self, ledger: &Ledger<Cell>) -> bool
        ensures { result ≡ is_touched self.now ledger.now }
    {
        ledger.touching(self.set, self.cells.as_slice()).is_some()
    }

    fn ready_to_heal(
        &mut self,
        alloc: Global,
        ledger: &mut Ledger<Cell>,
        live: Mask,
        last: &[u32],
    ) -> Result<Need, AllocError>
        ensures turn { IfOk result (λ need. (self.new, (need, ledger.new)) ≡ ready_to_heal self.old ledger.old live last.now) }
        ensures err { OnErr result (ledger.new ≡ ledger.old) }
    {
        if self.is_touched(ledger) {
            let need = self.skip(alloc, SkipCause::Unsettled, ledger, live, last)?;
            return Ok(need);
        }
        self.heal_copies(alloc, ledger, live, last)
    }

    // The unsound replicas get their copies, where a sound one is.
    fn heal_copies(
        &mut self,
        alloc: Global,
        ledger: &mut Ledger<Cell>,
        live: Mask,
        last: &[u32],
    ) -> Result<Need, AllocError>
        ensures turn { IfOk result (λ need. (self.new, (need, ledger.new)) ≡ heal_copies self.old ledger.old live last.now) }
        ensures err { OnErr result (ledger.new ≡ ledger.old) }
    {
        if self.is_split() {
            let need = self.skip(alloc, SkipCause::Split, ledger, live, last)?;
            return Ok(need);
        }
        let parts = self.all_parts(alloc)?;
        self.copy_next(alloc, parts, ledger, live, last)
    }

    // A birth makes its op on every reached replica, without a number.
    fn bear(
        &mut self,
        alloc: Global,
        ledger: &Ledger<Cell>,
        live: Mask,
        last: &[u32],
    ) -> Result<Need, AllocError>
        ensures { IfOk result (λ need. (self.new, need) ≡ bearing self.old ledger.now live last.now) }
    {
        let Some(op) = birth_op(alloc, &self.job)? else {
            return self.unlock(alloc, Then::Again, ledger, live, last);
        };
        let to = self.alive();
        let req = BrickReq::Op {
            change: 0,
            fd: 0,
            op,
        };
        self.ask(alloc, to, req, Phase::Bearing)
    }

    /// The lock phase has ended with enough locks.
    ///
    /// # Errors
    /// Out of memory.
    pub(crate) fn ready(
        &mut self,
        alloc: Global,
        ledger: &mut Ledger<Cell>,
        live: Mask,
        last: &[u32],
    ) -> Result<Need, AllocError>
        ensures turn { IfOk result (λ need. (self.new, (need, ledger.new)) ≡ ready self.old ledger.old live last.now) }
        ensures err { OnErr result (ledger.new ≡ ledger.old) }
    {
        if let Some(change) = self.settles {
            let need = self.ready_to_settle(alloc, change, ledger, live, last)?;
            return Ok(need);
        }
        self.ready_for_job(alloc, ledger, live, last)
    }

    // The lock phase of the job itself has ended.
    fn ready_for_job(
        &mut self,
        alloc: Global,
        ledger: &mut Ledger<Cell>,
        live: Mask,
        last: &[u32],
    ) -> Result<Need, AllocError>
        ensures turn { IfOk result (λ need. (self.new, (need, ledger.new)) ≡ ready_by (kind_of self.old.job) self.old ledger.old live last.now) }
        ensures err { OnErr result (ledger.new ≡ ledger.old) }
    {
        match kind_of(&self.job) {
            Kind::Read => {
                let need = self.ready_to_read(alloc, ledger, live, last)?;
                Ok(need)
            }
            Kind::Change => self.ready_to_change(alloc, ledger, live, last),
            Kind::Birth => {
                let need = self.bear(alloc, ledger, live, last)?;
                Ok(need)
            }
            Kind::Heal => self.ready_to_heal(alloc, ledger, live, last),
            Kind::Open { .. } => self.leave(alloc, Then::Again, ledger, live, last),
            Kind::Index => self.leave(alloc, Then::Again, ledger, live, last),
        }
    }
}
