ghost use Rattle.std.specs.Prelude.{◌≡◌, ◌<◌, true, IfOk, OnErr};
ghost use Rattle.afr_phases.specs.Waves.{is_asked};
ghost use Rattle.afr_transaction.specs.Answers.{answered, copied, hearing, idle, IsLeftIn};

use crate::need::Need;
use crate::phase::Phase;
use crate::txn::Txn;
use afr_ledger::Ledger;
use fop_types::{BrickRep, Cell, CopyDone, Mask};
use std::alloc::{AllocError, Global};

impl Txn {
    /// Takes the answer of a replica that was asked, and says what the job needs next. `mark` is the place in the
    /// replica's journal where the answer is a fault, else the number of its last connection. `live` names the
    /// replicas with an open connection, and `last` has the number of each one's last.
    ///
    /// # Errors
    /// Out of memory. The ledger is as it was, or has the decision of the post or the settle that was confirmed.
    pub fn answer(
        &mut self,
        alloc: Global,
        replica: u8,
        rep: BrickRep,
        mark: u64,
        live: Mask,
        last: &[u32],
        ledger: &mut Ledger<Cell>,
    ) -> Result<Need, AllocError>
        requires place { replica < 5 }
        requires asked { is_asked self.old.wave replica ≡ true }
        ensures turn { IfOk result (λ need. (self.new, (need, ledger.new)) ≡ answered self.old replica rep mark ledger.old live last.now) }
        ensures err { OnErr result (IsLeftIn self.old.phase (hearing (idle self.old) replica rep mark) ledger.old ledger.new) }
    {
        let phase = std::mem::replace(&mut self.phase, Phase::Over);
        match phase {
            Phase::Locking { .. } => {
                self.lock_answered(alloc, replica, rep, mark, ledger, live, last)
            }
            Phase::Unlocking(after) => {
                self.take_reply(replica, rep, mark);
                self.unlock_answered(alloc, after, ledger, live, last)
            }
            Phase::Fetching {
                place,
                contents,
                ..
            } => self.fetch_answered(
                alloc, replica, rep, mark, place, contents, ledger, live, last,
            ),
            Phase::Copying { sinks, rest } => {
                drop(rep);
                Ok(self.wait(Phase::Copying { sinks, rest }))
            }
            Phase::Marking { change } => {
                self.take_reply(replica, rep, mark);
                self.mark_answered(alloc, change, ledger, live, last)
            }
            Phase::Writing { change } => {
                self.take_reply(replica, rep, mark);
                self.write_answered(alloc, change, ledger, live, last)
            }
            Phase::Posting { change, adopted } => {
                self.take_reply(replica, rep, mark);
                self.post_answered(alloc, change, adopted, ledger, live, last)
            }
            Phase::Settling(verdict) => {
                self.take_reply(replica, rep, mark);
                self.settle_answered(alloc, verdict, ledger, live, last)
            }
            Phase::Bearing => {
                self.take_reply(replica, rep, mark);
                self.birth_answered(alloc, ledger, live, last)
            }
            Phase::Opening => {
                self.take_reply(replica, rep, mark);
                self.open_answered(alloc)
            }
            Phase::Listing(all) => self.list_answered(alloc, replica, rep, mark, all),
            Phase::Over => {
                drop(rep);
                Ok(Need::Wait)
            }
        }
    }

    /// Takes a copy that is done, and says what the job needs next. Its `held` and `current` are within those of the
    /// copy that was asked for.
    ///
    /// # Errors
    /// Out of memory; the ledger is unchanged.
    pub fn copied(
        &mut self,
        alloc: Global,
        done: CopyDone,
        live: Mask,
        last: &[u32],
        ledger: &mut Ledger<Cell>,
    ) -> Result<Need, AllocError>
        ensures turn { IfOk result (λ need. (self.new, (need, ledger.new)) ≡ copied self.old done ledger.old live last.now) }
        ensures err { OnErr result (ledger.new ≡ ledger.old) }
    {
        let phase = std::mem::replace(&mut self.phase, Phase::Over);
        match phase {
            Phase::Copying { sinks, rest } => {
                self.take_copy(alloc, sinks, rest, done, ledger, live, last)
            }
            other => {
                drop(done);
                Ok(self.wait(other))
            }
        }
    }
}
