ghost use Rattle.std.specs.Prelude.{◌≡◌, ◌^◌, ◌-◌, ◌<◌, ◌≤◌, IfOk, OnErr, None, length};
ghost use Rattle.fop_types.specs.Orders.{cell_cmp};
ghost use Rattle.afr_ledger.specs.Changes.{numbered, touching};
ghost use Rattle.afr_transaction.specs.Answers.{write_by};
ghost use Rattle.afr_transaction.specs.Jobs.{change_op};
ghost use Rattle.afr_transaction.specs.Changes.{effect_of, has_number, has_room, is_drawn, marking, drawing, may_begin, unsettled_of, begun, posting, decides, same_entry, entry_from, adopting, post_decided};

use crate::jobs::change_op;
use crate::need::Need;
use crate::phase::{Adopted, Phase, Then};
use crate::txn::Txn;
use afr_ledger::{Ledger, Unsettled};
use afr_phases::{mask_of, outside, sends};
use fop_types::{BrickReq, Cell, Entry, Job, Mask, Seq, StoreOp};
use std::alloc::{AllocError, Global};

impl Txn {
    /// A change goes on once its copies are made. Where no number is left, it fails.
    ///
    /// # Errors
    /// Out of memory.
    pub(crate) fn mark(
        &mut self,
        alloc: Global,
        ledger: &mut Ledger<Cell>,
        live: Mask,
        last: &[u32],
    ) -> Result<Need, AllocError>
        ensures turn { IfOk result (λ need. (self.new, (need, ledger.new)) ≡ marking self.old ledger.old live last.now) }
        ensures err { OnErr result (ledger.new ≡ ledger.old) }
    {
        if !has_number(ledger) {
            return self.give_up(alloc, ledger, live, last);
        }
        self.draw(alloc, ledger)
    }

    // A number is drawn, and the cells are marked.
    fn draw(&mut self, alloc: Global, ledger: &mut Ledger<Cell>) -> Result<Need, AllocError>
        requires { ledger.old.drawn < 2 ^ 64 - 1 }
        ensures turn { IfOk result (λ need. (self.new, (need, ledger.new)) ≡ drawing self.old ledger.old) }
        ensures err { OnErr result (ledger.new ≡ ledger.old) }
    {
        let change = ledger.drawn() + 1;
        let cells = self.cells.copy(alloc)?;
        let to = self.alive();
        let need = self.ask(
            alloc,
            to,
            BrickReq::Mark { change, cells },
            Phase::Marking { change },
        )?;
        ledger.draw();
        Ok(need)
    }

    /// A change whose mark a quorum has confirmed. Where another touches its cells by now, it is dropped: the job begins
    /// again, and settles that one first.
    ///
    /// # Errors
    /// Out of memory.
    pub(crate) fn write(
        &mut self,
        alloc: Global,
        change: u64,
        ledger: &mut Ledger<Cell>,
        live: Mask,
        last: &[u32],
    ) -> Result<Need, AllocError>
        ensures turn { IfOk result (λ need. (self.new, (need, ledger.new)) ≡ write_by (change_op self.old.job) self.old change ledger.old live last.now) }
        ensures err { OnErr result (ledger.new ≡ ledger.old) }
    {
        if !self.may_begin(change, ledger) {
            return self.leave(alloc, Then::Again, ledger, live, last);
        }
        match change_op(alloc, &self.job)? {
            Some((fd, op)) => self.begin_write(alloc, change, fd, op, ledger),
            None => self.leave(alloc, Then::Again, ledger, live, last),
        }
    }

    // What becomes unsettled.
    fn unsettled(&self, alloc: Global, change: u64) -> Result<Unsettled<Cell>, AllocError>
        ensures { IfOk result (λ u. u ≡ unsettled_of self.now change) }
    {
        Ok(Unsettled {
            change,
            set: self.set,
            cells: self.cells.copy(alloc)?,
            effect: effect_of(&self.job),
        })
    }

    // Whether the change may become unsettled.
    fn may_begin(&self, change: u64, ledger: &Ledger<Cell>) -> bool
        ensures { result ≡ may_begin self.now change ledger.now }
    {
        ledger.touching(self.set, self.cells.as_slice()).is_none()
            && is_drawn(change, ledger)
            && ledger.unsettled(change).is_none()
    }

    // The change becomes unsettled, and its op goes to those who confirmed the mark.
    fn begin_write(
        &mut self,
        alloc: Global,
        change: u64,
        fd: u32,
        op: StoreOp,
        ledger: &mut Ledger<Cell>,
    ) -> Result<Need, AllocError>
        requires apart { touching cell_cmp self.old.set self.old.cells ledger.old.unsettled ≡ None }
        requires drawn { (1 ≤ change) × (change ≤ ledger.old.drawn) }
        requires new { numbered change ledger.old.unsettled ≡ None }
        ensures turn { IfOk result (λ need. (self.new, (need, ledger.new)) ≡ begun self.old change fd op ledger.old) }
        ensures err { OnErr result (ledger.new ≡ ledger.old) }
    {
        let to = self.alive();
        let list = sends(alloc, &to, BrickReq::Op { change, fd, op })?;
        let u = self.unsettled(alloc, change)?;
        ledger.begin(alloc, u)?;
        Ok(self.send(to, list, Phase::Writing { change }))
    }

    /// The post goes to those who confirmed the op, and accuses all others.
    ///
    /// # Errors
    /// Out of memory.
    pub(crate) fn post(&mut self, alloc: Global, change: u64) -> Result<Need, AllocError>
        ensures { IfOk result (λ need. (self.new, need) ≡ posting self.old change) }
    {
        let cells = self.cells.copy(alloc)?;
        let to = self.alive();
        let mask = mask_of(outside(self.size.n, to));
        let req = BrickReq::Post {
            change,
            cells,
            mask,
        };
        let phase = Phase::Posting {
            change,
            adopted: None,
        };
        self.ask(alloc, to, req, phase)
    }

    /// Whether a change is decided: a quorum has confirmed, and the history has room for one entry more.
    pub(crate) fn decides(&self, ledger: &Ledger<Cell>) -> bool
        ensures { result ≡ decides self.now ledger.now }
    {
        self.wave.confirmations() >= self.size.q as usize && has_room(ledger)
    }

    /// The change is adopted, unless another has settled it before: then its entry is in the history.
    ///
    /// # Errors
    /// Out of memory.
    fn adopt(
        &self,
        alloc: Global,
        change: u64,
        ledger: &mut Ledger<Cell>,
    ) -> Result<Adopted, AllocError>
        requires { length ledger.old.history < 4294967295 }
        ensures turn { IfOk result (λ adopted. (adopted, ledger.new) ≡ adopting self.now change ledger.old) }
        ensures err { OnErr result (ledger.new ≡ ledger.old) }
    {
        if ledger.unsettled(change).is_none() {
            let entry = entry_of(ledger.history(), effect_of(&self.job));
            return Ok(Adopted { entry });
        }
        let entry = ledger.decide(alloc, change, true)?;
        Ok(Adopted { entry })
    }

    /// The decision comes with the q-th confirmation.
    ///
    /// # Errors
    /// Out of memory.
    pub(crate) fn decide_post(
        &self,
        alloc: Global,
        change: u64,
        adopted: Option<Adopted>,
        ledger: &mut Ledger<Cell>,
    ) -> Result<Option<Adopted>, AllocError>
        ensures turn { IfOk result (λ now. (now, ledger.new) ≡ post_decided self.now change adopted ledger.old) }
        ensures err { OnErr result (ledger.new ≡ ledger.old) }
    {
        if adopted.is_some() || !self.decides(ledger) {
            return Ok(adopted);
        }
        let now = self.adopt(alloc, change, ledger)?;
        Ok(Some(now))
    }
}

// Whether a number is left for one change more.
fn has_number(ledger: &Ledger<Cell>) -> bool
    ensures { result ≡ has_number ledger.now }
{
    ledger.drawn() < u64::MAX
}

// Whether the history has room for one entry more.
fn has_room(ledger: &Ledger<Cell>) -> bool
    ensures { result ≡ has_room ledger.now }
{
    ledger.history().len() < 4294967295
}

// Whether a number was drawn.
fn is_drawn(change: u64, ledger: &Ledger<Cell>) -> bool
    ensures { result ≡ is_drawn change ledger.now }
{
    change >= 1 && change <= ledger.drawn()
}

fn effect_of(job: &Job) -> Option<Entry>
    ensures { result ≡ effect_of job.now }
{
    match job {
        Job::Change { effect, .. } => *effect,
        _ => None,
    }
}

// The number of an entry in the history, counted from 1.
fn entry_of(history: &[Entry], effect: Option<Entry>) -> Option<u32>
    requires { length history.now < 4294967295 }
    ensures { result ≡ entry_from 1 history.now effect }
{
    let mut number = 1;
    for entry in history {
        if is_same(*entry, effect) {
            return Some(number);
        }
        number += 1;
    }
    None
}

fn is_same(entry: Entry, effect: Option<Entry>) -> bool
    ensures { result ≡ same_entry entry effect }
{
    match effect {
        Some(effect) => entry.call == effect.call && entry.part == effect.part,
        None => false,
    }
}
