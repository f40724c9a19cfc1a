ghost use Rattle.std.specs.Prelude.{◌≡◌, ◌++◌, ◌≤◌, Some, IfOk, OnOk, OnErr};
ghost use Rattle.afr_transaction.specs.Copies.{sinks_left, has_sink, has_source, next_part, copying, with_out, with_outs, is_left};
ghost use Rattle.afr_transaction.specs.Locked.{unlock};
ghost use Rattle.afr_transaction.specs.Txns.{kept};
ghost use Rattle.afr_transaction.specs.declared.phase.Then.TheVariants as next;
ghost use Rattle.fop_types.specs.declared.jobs.SetReply.TheVariants as reply;
ghost use Rattle.afr_transaction.specs.Copied.{healed, is_change, copied_all, copy_by, copy_next, copy_noted, copy_taken};

use crate::need::Need;
use crate::phase::{Part, Phase, Then};
use crate::txn::{Txn, is_heal};
use afr_ledger::Ledger;
use afr_phases::{Flags, Outs, both, but_for, flags_of, lowest, mask_of};
use fop_types::{Cell, CopyDone, CopyJob, CopyRecord, Job, Mask, Out, Seq, SetReply};
use std::alloc::{AllocError, Global};

const REPLICAS: [u8; 5] = [0, 1, 2, 3, 4];

impl Txn {
    /// The sinks of a part that are still used.
    fn sinks_left(&self, part: &Part) -> Flags
        ensures { result ≡ sinks_left self.now part.now }
    {
        both(part.sinks, self.alive())
    }

    fn has_sink(&self, part: &Part) -> bool
        ensures { result ≡ has_sink self.now part.now }
    {
        lowest(&self.sinks_left(part)).is_some()
    }

    fn has_source(&self, part: &Part) -> bool
        ensures { result ≡ has_source self.now part.now }
    {
        lowest(&both(part.sources, self.alive())).is_some()
    }

    /// A copy is asked for.
    ///
    /// # Errors
    /// Out of memory.
    fn copy(&mut self, alloc: Global, part: Part, rest: Seq<Part>) -> Result<Need, AllocError>
        ensures { IfOk result (λ need. (self.new, need) ≡ copying self.old part rest) }
    {
        let sinks = self.sinks_left(&part);
        let rows = self.shown.list(alloc, self.cells.as_slice(), &REPLICAS)?;
        let job = CopyJob {
            cells: part.cells,
            sources: mask_of(part.sources),
            sinks: mask_of(sinks),
            held: mask_of(self.alive()),
        };
        self.enter(Phase::Copying { sinks, rest });
        Ok(Need::Copy(job, rows))
    }

    /// The next part that has a sink left is copied.
    ///
    /// # Errors
    /// Out of memory.
    pub(crate) fn copy_next(
        &mut self,
        alloc: Global,
        parts: Seq<Part>,
        ledger: &mut Ledger<Cell>,
        live: Mask,
        last: &[u32],
    ) -> Result<Need, AllocError>
        ensures turn { IfOk result (λ need. (self.new, (need, ledger.new)) ≡ copy_next self.old parts ledger.old live last.now) }
        ensures err { OnErr result (ledger.new ≡ ledger.old) }
    {
        let mut rest = parts;
        match self.next_part(&mut rest) {
            Some(part) => {
                let need = self.copy_part(alloc, part, rest, ledger, live, last)?;
                Ok(need)
            }
            None => self.end_copies(alloc, ledger, live, last),
        }
    }

    // Takes the next part that has a sink left; those before it are left out.
    fn next_part(&self, parts: &mut Seq<Part>) -> Option<Part>
        ensures { (result, parts.new) ≡ next_part self.now parts.old }
    {
        while !parts.is_empty() {
            let part = parts.remove(0);
            if self.has_sink(&part) {
                return Some(part);
            }
        }
        None
    }

    fn copy_part(
        &mut self,
        alloc: Global,
        part: Part,
        rest: Seq<Part>,
        ledger: &Ledger<Cell>,
        live: Mask,
        last: &[u32],
    ) -> Result<Need, AllocError>
        ensures { IfOk result (λ need. (self.new, (need, ledger.now)) ≡ copy_by self.old (Some part, rest) ledger.now live last.now) }
    {
        if !self.has_source(&part) {
            return self.unlock(alloc, Then::Again, ledger, live, last);
        }
        self.copy(alloc, part, rest)
    }

    // All copies are made.
    fn end_copies(
        &mut self,
        alloc: Global,
        ledger: &mut Ledger<Cell>,
        live: Mask,
        last: &[u32],
    ) -> Result<Need, AllocError>
        ensures turn { IfOk result (λ need. (self.new, (need, ledger.new)) ≡ copied_all self.old ledger.old live last.now) }
        ensures err { OnErr result (ledger.new ≡ ledger.old) }
    {
        if self.settles.is_some() {
            return self.leave(alloc, Then::Again, ledger, live, last);
        }
        if is_change(&self.job) {
            return self.mark(alloc, ledger, live, last);
        }
        if is_heal(&self.job) {
            return self.end_heal(alloc, ledger, live, last);
        }
        self.leave(alloc, Then::Again, ledger, live, last)
    }

    // A heal is done.
    fn end_heal(
        &mut self,
        alloc: Global,
        ledger: &mut Ledger<Cell>,
        live: Mask,
        last: &[u32],
    ) -> Result<Need, AllocError>
        ensures turn { IfOk result (λ need. (self.new, (need, ledger.new)) ≡ kept (unlock (healed self.old) (next.Answer (reply.Healed self.old.records)) ledger.old live last.now) ledger.old) }
        ensures err { OnErr result (ledger.new ≡ ledger.old) }
    {
        let records = std::mem::replace(&mut self.records, Seq::new(alloc));
        let after = Then::Answer(SetReply::Healed(records));
        self.leave(alloc, after, ledger, live, last)
    }

    /// A copy is done.
    ///
    /// # Errors
    /// Out of memory.
    pub(crate) fn take_copy(
        &mut self,
        alloc: Global,
        sinks: Flags,
        rest: Seq<Part>,
        done: CopyDone,
        ledger: &mut Ledger<Cell>,
        live: Mask,
        last: &[u32],
    ) -> Result<Need, AllocError>
        ensures turn { IfOk result (λ need. (self.new, (need, ledger.new)) ≡ copy_taken self.old sinks rest done ledger.old live last.now) }
        ensures err { OnErr result (ledger.new ≡ ledger.old) }
    {
        let current = done.current;
        self.note_copy(done)?;
        if self.outs.is_short(self.size.n, self.size.q) {
            return self.give_up(alloc, ledger, live, last);
        }
        if self.is_left(sinks, current) {
            return self.leave(alloc, Then::Again, ledger, live, last);
        }
        self.copy_next(alloc, rest, ledger, live, last)
    }

    // Who went out during a copy, and what a heal has copied.
    fn note_copy(&mut self, done: CopyDone) -> Result<(), AllocError>
        ensures { OnOk result (self.new ≡ copy_noted self.old done) }
    {
        leave_all(&mut self.outs, self.size.n, done.outs.as_slice());
        if is_heal(&self.job) {
            add_records(&mut self.records, done.records)?;
        }
        Ok(())
    }

    fn is_left(&self, sinks: Flags, current: Mask) -> bool
        ensures { result ≡ is_left self.now sinks current }
    {
        lowest(&but_for(both(sinks, self.alive()), flags_of(current))).is_some()
    }
}

// Those of a set of `n` who went out during a copy.
fn leave_all(outs: &mut Outs, n: u8, left: &[Out])
    requires { n ≤ 5 }
    ensures { outs.new ≡ with_outs n outs.old left.now }
{
    for out in left {
        leave_one(outs, n, *out);
    }
}

fn leave_one(outs: &mut Outs, n: u8, out: Out)
    requires { n ≤ 5 }
    ensures { outs.new ≡ with_out n outs.old out }
{
    if out.replica < n {
        outs.leave(out.replica, out.fault, out.mark);
    }
}

fn add_records(records: &mut Seq<CopyRecord>, made: Seq<CopyRecord>) -> Result<(), AllocError>
    ensures { OnOk result (records.new ≡ records.old ++ made) }
{
    for record in made.into_vec() {
        records.push(record)?;
    }
    Ok(())
}

fn is_change(job: &Job) -> bool
    ensures { result ≡ is_change job.now }
{
    match job {
        Job::Change { .. } => true,
        _ => false,
    }
}
