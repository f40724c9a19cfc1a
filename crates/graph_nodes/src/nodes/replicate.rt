//! The replicate node of a set: it runs a transaction for each job, and the copies that the transaction asks for. The
//! slot of a wind, and its child, is the number of the replica that is asked.
ghost use Rattle.std.specs.Prelude.{◌≡◌, ◌<◌, IfOk, OnOk, None, true, length};
ghost use Rattle.afr_phases.specs.Waves.{is_asked};
ghost use Rattle.afr_transaction.specs.Answers.{answered};
ghost use Rattle.fop_types.specs.Jobs.{IsJob, IsSetReply};
ghost use Rattle.graph_nodes.specs.Costs.{requests_for};
ghost use Rattle.graph_nodes.specs.Kept.{IsTxnKept};
ghost use Rattle.graph_nodes.specs.Moves.{IsMove};
ghost use Rattle.graph_nodes.specs.Moves.Move.{Back};
ghost use Rattle.graph_nodes.specs.Replicate.{IsTurn, IsBegun, IsJobBegun, is_asked_by, said_of, refused, went, turned, resume_of, noted, live, lasts};
ghost use Rattle.graph_nodes.specs.Shapes.{waits_well, is_under_way};
ghost use Rattle.graph_nodes.specs.Turns.{IsTxnTurn};

use crate::context::Context;
use crate::costs::requests_for;
use crate::kinds::Replicate;
use crate::locals::{JobState, Local, SetFrame};
use crate::nodes::lost;
use crate::nodes::replicate_sends::waiting;
use afr_transaction::{Need, Txn};
use fop_types::{Job, Mask, SetReply};
use graph_items::{BrickReply, Clients, Down, SetAnswer, Up};
use std::alloc::{AllocError, Global};
use xlator_law::{Entry, Step};

/// What a transaction is told of its replicas' connections.
#[derive(Clone, Copy)]
pub(crate) struct Standing {
    pub live: Mask,
    pub last: [u32; 5],
}

// The reply of a brick. What comes from elsewhere counts as that of a brick that is gone.
fn said_by(reply: Up) -> BrickReply
    ensures { result ≡ said_of reply }
{
    match reply {
        Up::Brick(said) => said,
        Up::Set(answer) => {
            drop(answer);
            BrickReply::gone(0)
        }
        Up::Answer(answer, _) => {
            drop(answer);
            BrickReply::gone(0)
        }
    }
}

impl Replicate {
    /// The connections of the set's replicas.
    pub(crate) fn standing(&self, clients: &Clients) -> Standing
        ensures live { result.live ≡ live self.now.plan clients.now }
        ensures last { result.last ≡ lasts self.now.plan clients.now }
    {
        let bricks = self.plan.bricks.as_slice();
        Standing {
            live: clients.live(bricks),
            last: clients.lasts(bricks),
        }
    }

    // How many requests a job may send.
    fn budget(&self) -> usize
        ensures { result ≡ requests_for (length self.now.plan.bricks) }
    {
        requests_for(self.plan.bricks.len() as u8)
    }

    /// The job ends without what it asked for: the answer of a set without a quorum.
    pub(crate) fn refused(&self, alloc: Global) -> Step<Down, Up, Local>
        ensures { IsMove (refused self.now.plan) result }
    {
        let reply = SetReply::Io(lost(alloc, self.plan.number));
        Step::Unwind(Up::Set(SetAnswer::new(reply)))
    }

    /// Takes a job.
    ///
    /// # Errors
    /// Out of memory.
    pub(crate) fn enter(
        &self,
        alloc: Global,
        cx: &mut Context,
        entry: Entry,
        down: Down,
    ) -> Result<Step<Down, Up, Local>, AllocError>
        ensures { IfOk result (λ step. IsBegun self.now.plan cx.old entry.call down step cx.new) }
    {
        match down {
            Down::Job(job) => self.begin(alloc, cx, entry.call, job.into_job()),
            Down::Fop(fop) => {
                drop(fop);
                Ok(self.refused(alloc))
            }
            Down::Request(request) => {
                drop(request);
                Ok(self.refused(alloc))
            }
        }
    }

    fn begin(
        &self,
        alloc: Global,
        cx: &mut Context,
        call: u32,
        job: Job,
    ) -> Result<Step<Down, Up, Local>, AllocError>
        requires job { IsJob job }
        ensures { IfOk result (λ step. IsJobBegun self.now.plan cx.old call job step cx.new) }
    {
        let at = self.standing(&cx.clients);
        let (txn, need) = cx
            .ledger
            .begin(alloc, &self.plan, call, job, at.live, &at.last)?;
        self.go(alloc, cx, txn, self.budget(), need)
    }

    /// Takes the reply of a replica that was asked.
    ///
    /// # Errors
    /// Out of memory.
    pub(crate) fn resume(
        &self,
        alloc: Global,
        cx: &mut Context,
        frame: SetFrame,
        slot: u8,
        reply: Up,
    ) -> Result<Step<Down, Up, Local>, AllocError>
        requires way { is_under_way (length self.now.plan.bricks) frame ≡ true }
        requires slot { slot < 5 }
        requires asked { is_asked_by frame.txn frame.copy slot ≡ true }
        ensures { IfOk result (λ step. IsTurn (resume_of self.now.plan cx.old frame slot reply) step cx.new) }
    {
        let said = said_by(reply);
        let JobState {
            txn,
            copy,
            requests,
        } = frame.into_state();
        match copy {
            Some(run) => self.copy_answered(alloc, cx, txn, requests, run, slot, said),
            None => self.answered(alloc, cx, txn, requests, slot, said),
        }
    }

    // A replica has answered the transaction.
    fn answered(
        &self,
        alloc: Global,
        cx: &mut Context,
        txn: Txn,
        requests: usize,
        replica: u8,
        said: BrickReply,
    ) -> Result<Step<Down, Up, Local>, AllocError>
        requires way { waits_well (length self.now.plan.bricks) txn None ≡ true }
        requires kept { IsTxnKept txn }
        requires place { replica < 5 }
        requires asked { is_asked txn.wave replica ≡ true }
        ensures { IfOk result (λ step. IsTurn (turned self.now.plan requests cx.old (answered txn replica said.rep said.mark cx.old.ledger (live self.now.plan cx.old.clients) (lasts self.now.plan cx.old.clients))) step cx.new) }
    {
        let mut txn = txn;
        let at = self.standing(&cx.clients);
        let mark = said.mark();
        let rep = said.into_rep();
        let need = cx
            .ledger
            .answer(alloc, &mut txn, replica, rep, mark, at.live, &at.last);
        match need {
            Ok(need) => self.go(alloc, cx, txn, requests, need),
            Err(failed) => {
                drop(txn);
                Err(failed)
            }
        }
    }

    /// What the transaction needs next.
    ///
    /// # Errors
    /// Out of memory.
    pub(crate) fn go(
        &self,
        alloc: Global,
        cx: &mut Context,
        txn: Txn,
        requests: usize,
        need: Need,
    ) -> Result<Step<Down, Up, Local>, AllocError>
        requires turn { IsTxnTurn txn need }
        ensures { IfOk result (λ step. IsTurn (went self.now.plan txn requests cx.old need) step cx.new) }
    {
        match need {
            Need::Send(list) => self.send(alloc, txn, None, requests, list),
            Need::Copy(job, rows) => self.begin_copy(alloc, txn, requests, job, rows),
            Need::Reply(reply) => answer(cx, txn, reply),
            Need::Wait => waiting(alloc, txn, None, requests),
        }
    }
}

// The job ends with the reply of its transaction.
fn answer(cx: &mut Context, txn: Txn, reply: SetReply) -> Result<Step<Down, Up, Local>, AllocError>
    requires { IsSetReply reply }
    ensures { IfOk result (λ step. IsTurn (record { move = Back (Up.Set reply); cx = noted cx.old txn.job reply }) step cx.new) }
{
    let noted = note_skip(cx, &txn.job, &reply);
    drop(txn);
    match noted {
        Ok(()) => Ok(Step::Unwind(Up::Set(SetAnswer::new(reply)))),
        Err(error) => {
            drop(reply);
            Err(error)
        }
    }
}

// A heal that leaves its cell is noted.
fn note_skip(cx: &mut Context, job: &Job, reply: &SetReply) -> Result<(), AllocError>
    ensures { OnOk result (cx.new ≡ noted cx.old job.now reply.now) }
{
    match (job, reply) {
        (Job::Heal(cell), SetReply::Skipped(cause)) => {
            cx.skips.push((*cell, *cause))?;
            Ok(())
        }
        _ => Ok(()),
    }
}
