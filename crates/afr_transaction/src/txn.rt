ghost use Rattle.std.specs.Prelude.{◌≡◌, IfOk};
ghost use Rattle.afr_phases.specs.Waves.{sent_to};
ghost use Rattle.afr_transaction.specs.Answers.{waiting};
ghost use Rattle.afr_transaction.specs.declared.need.Need.{Need};
ghost use Rattle.afr_transaction.specs.declared.need.Need.TheVariants as need;
ghost use Rattle.afr_transaction.specs.declared.txn.Txn.{Txn};
ghost use Rattle.afr_transaction.specs.Txns.{only, asking, over, is_heal, alive};

use crate::need::Need;
use crate::phase::Phase;
use crate::size::Size;
use afr_phases::{Flags, Locks, Outs, Shown, Wave, sends};
use fop_types::{BrickReq, Cell, CopyRecord, Job, Seq, SetReply};
use std::alloc::{AllocError, Global};
use std::mem;

/// A job of a set under way, and what it knows of its replicas.
#[derive(Drop)]
pub struct Txn {
    /// The set's number in the plan, and the numbers of its bricks by replica.
    pub set: u8,
    pub size: Size,
    pub bricks: Seq<u8>,
    /// The call for which the locks are asked.
    pub call: u32,
    pub job: Job,
    pub outs: Outs,
    pub locks: Locks,
    pub wave: Wave,
    /// The cells of the running lock phase, and the change that it is to settle, if it is.
    pub cells: Seq<Cell>,
    pub settles: Option<u64>,
    pub shown: Shown,
    /// The copies that a heal has made so far.
    pub records: Seq<CopyRecord>,
    pub phase: Phase,
}

impl Txn {
    /// The replicas that are still used.
    pub(crate) fn alive(&self) -> Flags
        ensures { result ≡ alive self.now }
    {
        self.outs.used(self.size.n)
    }

    /// One request goes to some replicas, and a phase begins.
    ///
    /// # Errors
    /// Out of memory.
    pub(crate) fn ask(
        &mut self,
        alloc: Global,
        to: Flags,
        req: BrickReq,
        phase: Phase,
    ) -> Result<Need, AllocError>
        ensures { IfOk result (λ need. (self.new, need) ≡ asking self.old to req phase) }
    {
        match sends(alloc, &to, req) {
            Ok(list) => Ok(self.send(to, list, phase)),
            Err(error) => {
                drop(phase);
                Err(error)
            }
        }
    }

    /// Requests go to some replicas, and a phase begins.
    pub(crate) fn send(&mut self, to: Flags, list: Seq<(u8, BrickReq)>, phase: Phase) -> Need
        ensures { ◌≡◌ {A = Txn × Need} (self.new, result) (record self.old { wave = sent_to to; phase = phase }, need.Send list) }
    {
        self.wave = Wave::of(to);
        self.enter(phase);
        Need::Send(list)
    }

    /// The job waits for another answer.
    pub(crate) fn wait(&mut self, phase: Phase) -> Need
        ensures { (self.new, result) ≡ waiting self.old phase }
    {
        self.enter(phase);
        Need::Wait
    }

    /// The job is answered.
    pub(crate) fn finish(&mut self, reply: SetReply) -> Need
        ensures { (self.new, result) ≡ over self.old reply }
    {
        self.enter(Phase::Over);
        Need::Reply(reply)
    }

    /// The next phase begins.
    pub(crate) fn enter(&mut self, phase: Phase)
        ensures { self.new ≡ record self.old { phase = phase } }
    {
        drop(mem::replace(&mut self.phase, phase));
    }

    /// The job ends without an answer.
    pub(crate) fn discard(self) {
        let Txn { job, phase, .. } = self;
        drop(job);
        drop(phase);
    }
}

/// One replica alone.
pub(crate) fn only(k: u8) -> Flags
    ensures { result ≡ only k }
{
    [k == 0, k == 1, k == 2, k == 3, k == 4]
}

pub(crate) fn is_heal(job: &Job) -> bool
    ensures { result ≡ is_heal job.now }
{
    match job {
        Job::Heal(_) => true,
        _ => false,
    }
}
