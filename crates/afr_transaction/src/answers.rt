ghost use Rattle.std.specs.Prelude.{◌≡◌, ◌+◌, ◌<◌, ◌⊎◌, true, IfOk, OnErr, length};
ghost use Rattle.afr_phases.specs.Waves.{is_asked};
ghost use Rattle.afr_transaction.specs.Answers.{lock_on, lock_answered, hearing, mark_answered, write_answered, birth_answered, unlock_answered, open_answered, fetch_answered, aspect_at};
ghost use Rattle.afr_transaction.specs.Answers.{post_ended, post_answered};
ghost use Rattle.afr_transaction.specs.Changes.{post_decided};

use crate::need::Need;
use crate::phase::{Adopted, Phase, Then};
use crate::reads::Fetched;
use crate::txn::Txn;
use afr_ledger::Ledger;
use afr_phases::{LockStep, content_in, hear, is_fault, next_lock, rows_in};
use fop_types::{Aspect, BrickRep, Cell, Content, Mask, Seq, SetReply};
use std::alloc::{AllocError, Global};

impl Txn {
    // The lock phase goes on; the replicas below `from` were asked.
    fn lock_on(
        &mut self,
        alloc: Global,
        from: u8,
        ledger: &mut Ledger<Cell>,
        live: Mask,
        last: &[u32],
    ) -> Result<Need, AllocError>
        ensures turn { IfOk result (λ need. (self.new, (need, ledger.new)) ≡ lock_on self.old from ledger.old live last.now) }
        ensures err { OnErr result (ledger.new ≡ ledger.old) }
    {
        match next_lock(
            &mut self.outs,
            &self.locks,
            self.size.n,
            self.size.q,
            from,
            live,
            last,
        ) {
            LockStep::Ask(k) => {
                let need = self.ask_lock(alloc, k)?;
                Ok(need)
            }
            LockStep::Short => self.give_up(alloc, ledger, live, last),
            LockStep::Reached => {
                self.reach();
                self.ready(alloc, ledger, live, last)
            }
        }
    }

    /// A replica has answered the request for its lock.
    ///
    /// # Errors
    /// Out of memory.
    pub(crate) fn lock_answered(
        &mut self,
        alloc: Global,
        k: u8,
        rep: BrickRep,
        mark: u64,
        ledger: &mut Ledger<Cell>,
        live: Mask,
        last: &[u32],
    ) -> Result<Need, AllocError>
        requires place { k < 5 }
        requires asked { is_asked self.old.wave k ≡ true }
        ensures turn { IfOk result (λ need. (self.new, (need, ledger.new)) ≡ lock_answered self.old k rep mark ledger.old live last.now) }
        ensures err { OnErr result (ledger.new ≡ ledger.old) }
    {
        let fault = is_fault(&rep);
        let rows = rows_in(rep, self.cells.len());
        self.take_lock(k, rows, fault, mark, last);
        self.lock_on(alloc, k + 1, ledger, live, last)
    }

    /// A replica confirms, or is out.
    pub(crate) fn take_reply(&mut self, k: u8, rep: BrickRep, mark: u64)
        requires place { k < 5 }
        requires asked { is_asked self.old.wave k ≡ true }
        ensures { self.new ≡ hearing self.old k rep mark }
    {
        hear(&mut self.outs, &mut self.wave, k, &rep, mark);
        drop(rep);
    }

    /// A replica has answered the mark.
    ///
    /// # Errors
    /// Out of memory.
    pub(crate) fn mark_answered(
        &mut self,
        alloc: Global,
        change: u64,
        ledger: &mut Ledger<Cell>,
        live: Mask,
        last: &[u32],
    ) -> Result<Need, AllocError>
        ensures turn { IfOk result (λ need. (self.new, (need, ledger.new)) ≡ mark_answered self.old change ledger.old live last.now) }
        ensures err { OnErr result (ledger.new ≡ ledger.old) }
    {
        if !self.wave.is_over() {
            return Ok(self.wait(Phase::Marking { change }));
        }
        if self.outs.is_short(self.size.n, self.size.q) {
            return self.give_up(alloc, ledger, live, last);
        }
        self.write(alloc, change, ledger, live, last)
    }

    /// A replica has answered the op of a change.
    ///
    /// # Errors
    /// Out of memory.
    pub(crate) fn write_answered(
        &mut self,
        alloc: Global,
        change: u64,
        ledger: &Ledger<Cell>,
        live: Mask,
        last: &[u32],
    ) -> Result<Need, AllocError>
        ensures { IfOk result (λ need. (self.new, need) ≡ write_answered self.old change ledger.now live last.now) }
    {
        if !self.wave.is_over() {
            return Ok(self.wait(Phase::Writing { change }));
        }
        if self.outs.is_short(self.size.n, self.size.q) {
            return self.fail(alloc, ledger, live, last);
        }
        self.post(alloc, change)
    }

    // The post is answered by all.
    fn post_ended(
        &mut self,
        alloc: Global,
        adopted: Option<Adopted>,
        ledger: &Ledger<Cell>,
        live: Mask,
        last: &[u32],
    ) -> Result<Need, AllocError>
        ensures { IfOk result (λ need. (self.new, need) ≡ post_ended self.old adopted ledger.now live last.now) }
    {
        match adopted {
            Some(adopted) => {
                let after = Then::Answer(SetReply::Decided(adopted.entry));
                self.unlock(alloc, after, ledger, live, last)
            }
            None => self.fail(alloc, ledger, live, last),
        }
    }

    /// A replica has answered the post.
    ///
    /// # Errors
    /// Out of memory.
    pub(crate) fn post_answered(
        &mut self,
        alloc: Global,
        change: u64,
        adopted: Option<Adopted>,
        ledger: &mut Ledger<Cell>,
        live: Mask,
        last: &[u32],
    ) -> Result<Need, AllocError>
        ensures turn { IfOk result (λ need. (self.new, (need, ledger.new)) ≡ post_answered self.old change adopted ledger.old live last.now) }
        ensures err { OnErr result ((ledger.new ≡ ledger.old) ⊎ (ledger.new ≡ (post_decided self.old change adopted ledger.old).1)) }
    {
        let adopted = self.decide_post(alloc, change, adopted, ledger)?;
        if self.wave.is_over() {
            let need = self.post_ended(alloc, adopted, ledger, live, last)?;
            return Ok(need);
        }
        Ok(self.wait(Phase::Posting { change, adopted }))
    }

    /// A replica has answered the op of a birth.
    ///
    /// # Errors
    /// Out of memory.
    pub(crate) fn birth_answered(
        &mut self,
        alloc: Global,
        ledger: &Ledger<Cell>,
        live: Mask,
        last: &[u32],
    ) -> Result<Need, AllocError>
        ensures { IfOk result (λ need. (self.new, need) ≡ birth_answered self.old ledger.now live last.now) }
    {
        if !self.wave.is_over() {
            return Ok(self.wait(Phase::Bearing));
        }
        if self.outs.is_short(self.size.n, self.size.q) {
            return self.fail(alloc, ledger, live, last);
        }
        let after = Then::Answer(SetReply::Decided(None));
        self.unlock(alloc, after, ledger, live, last)
    }

    /// A replica has answered the unlock.
    ///
    /// # Errors
    /// Out of memory.
    pub(crate) fn unlock_answered(
        &mut self,
        alloc: Global,
        after: Then,
        ledger: &Ledger<Cell>,
        live: Mask,
        last: &[u32],
    ) -> Result<Need, AllocError>
        ensures { IfOk result (λ need. (self.new, need) ≡ unlock_answered self.old after ledger.now live last.now) }
    {
        if !self.wave.is_over() {
            return Ok(self.wait(Phase::Unlocking(after)));
        }
        self.go(alloc, after, ledger, live, last)
    }

    /// A replica has answered the open.
    ///
    /// # Errors
    /// Out of memory.
    pub(crate) fn open_answered(&mut self, alloc: Global) -> Result<Need, AllocError>
        ensures { IfOk result (λ need. (self.new, need) ≡ open_answered self.old) }
    {
        if !self.wave.is_over() {
            return Ok(self.wait(Phase::Opening));
        }
        self.end_open(alloc)
    }

    /// A replica has answered a fetch.
    ///
    /// # Errors
    /// Out of memory.
    pub(crate) fn fetch_answered(
        &mut self,
        alloc: Global,
        k: u8,
        rep: BrickRep,
        mark: u64,
        place: u32,
        contents: Seq<Option<Content>>,
        ledger: &Ledger<Cell>,
        live: Mask,
        last: &[u32],
    ) -> Result<Need, AllocError>
        requires place { k < 5 }
        requires asked { is_asked self.old.wave k ≡ true }
        ensures { IfOk result (λ need. (self.new, need) ≡ fetch_answered self.old place contents k rep mark ledger.now live last.now) }
    {
        let cell = self.cell_at(contents.len());
        let fault = is_fault(&rep);
        let content = content_in(rep, aspect_of(cell));
        let fetched = Fetched {
            place,
            contents,
            fault,
            mark,
        };
        self.take_fetch(alloc, k, fetched, content, ledger, live, last)
    }
}

fn aspect_of(cell: Option<Cell>) -> Aspect
    ensures { result ≡ aspect_at cell }
{
    match cell {
        Some(cell) => cell.aspect,
        None => Aspect::Data,
    }
}
