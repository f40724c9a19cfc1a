ghost use Rattle.std.specs.Prelude.{◌≡◌, ◌+◌, ◌/◌, ◌%◌, ◌≤◌, IfOk, length};
ghost use Rattle.afr_transaction.specs.Begins.{fresh, started, IsBegun};

use crate::jobs::{Kind, kind_of};
use crate::need::Need;
use crate::phase::Phase;
use crate::size::Size;
use crate::txn::Txn;
use afr_ledger::Ledger;
use afr_phases::{Locks, Outs, Shown, Wave};
use fop_types::{Cell, Job, Mask, Seq, SetPlan};
use std::alloc::{AllocError, Global};

impl Txn {
    /// Begins a job of a set for a call, and says what it needs first. The set has an odd number of replicas, at most
    /// five, and its quorum is more than half of them. `live` names the replicas with an open connection, and `last`
    /// has the number of each one's last.
    ///
    /// # Errors
    /// Out of memory.
    pub fn begin(
        alloc: Global,
        set: &SetPlan,
        call: u32,
        job: Job,
        live: Mask,
        last: &[u32],
        ledger: &Ledger<Cell>,
    ) -> Result<(Txn, Need), AllocError>
        requires odd { length set.now.bricks % 2 ≡ 1 }
        requires few { length set.now.bricks ≤ 5 }
        requires quorum { set.now.q ≡ (length set.now.bricks + 1) / 2 }
        ensures { IfOk result (λ r. IsBegun r.0 r.1 set.now call job ledger.now live last.now) }
    {
        let size = Size {
            n: set.bricks.len() as u8,
            q: set.q,
        };
        let mut txn = Txn::fresh(alloc, size, set, call, job)?;
        match txn.start(alloc, ledger, live, last) {
            Ok(need) => Ok((txn, need)),
            Err(error) => {
                txn.discard();
                Err(error)
            }
        }
    }

    // A job that knows nothing of its replicas yet.
    fn fresh(
        alloc: Global,
        size: Size,
        set: &SetPlan,
        call: u32,
        job: Job,
    ) -> Result<Txn, AllocError>
        ensures { IfOk result (λ txn. txn ≡ fresh size set.now call job) }
    {
        match set.bricks.copy(alloc) {
            Ok(bricks) => Ok(Txn {
                set: set.number,
                size,
                bricks,
                call,
                job,
                outs: Outs::new(),
                locks: Locks::new(),
                wave: Wave::new(),
                cells: Seq::new(alloc),
                settles: None,
                shown: Shown::new(),
                records: Seq::new(alloc),
                phase: Phase::Over,
            }),
            Err(error) => {
                drop(job);
                Err(error)
            }
        }
    }

    // The first turn.
    fn start(
        &mut self,
        alloc: Global,
        ledger: &Ledger<Cell>,
        live: Mask,
        last: &[u32],
    ) -> Result<Need, AllocError>
        ensures { IfOk result (λ need. (self.new, need) ≡ started self.old ledger.now live last.now) }
    {
        match kind_of(&self.job) {
            Kind::Read => self.again(alloc, ledger, live, last),
            Kind::Change => self.again(alloc, ledger, live, last),
            Kind::Birth => self.again(alloc, ledger, live, last),
            Kind::Heal => self.again(alloc, ledger, live, last),
            Kind::Open { fd, gfid } => {
                self.poll(live, last);
                self.ask_open(alloc, fd, gfid)
            }
            Kind::Index => {
                self.poll(live, last);
                self.ask_index(alloc)
            }
        }
    }
}
