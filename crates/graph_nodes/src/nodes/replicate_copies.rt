//! The copies that the transaction of a replicate node asks for: their requests, and what becomes of one that is done.
ghost use Rattle.std.specs.Prelude.{◌≡◌, ◌<◌, IfOk, OnOk, Some, true, length};
ghost use Rattle.afr_transaction.specs.Answers.{copied};
ghost use Rattle.afr_transaction.specs.Shapes.{is_copying};
ghost use Rattle.fop_types.specs.Bounds.{AreFew};
ghost use Rattle.graph_nodes.specs.Kept.{IsTxnKept};
ghost use Rattle.graph_nodes.specs.Moves.{IsMove};
ghost use Rattle.graph_nodes.specs.Replicate.{IsTurn, copy_begun, recorded, turned, on_copy, on_copy_done, live, lasts};
ghost use Rattle.graph_nodes.specs.Shapes.{waits_well};
ghost use Rattle.self_heal.specs.Runs.{new_run, next_cell, answered as copy_answered};
ghost use Rattle.self_heal.specs.Turning.{AreEncoded as CopyIsEncoded};

use crate::context::Context;
use crate::kinds::Replicate;
use crate::locals::Local;
use crate::nodes::copies::{answer_run, begin_run};
use crate::nodes::records::record_all;
use crate::nodes::replicate_sends::waiting;
use afr_transaction::Txn;
use fop_types::{CopyDone, CopyJob, Seq, SplitRow};
use graph_items::{BrickReply, Down, Up};
use self_heal::{CopyNeed, CopyRun};
use std::alloc::{AllocError, Global};
use xlator_law::Step;

impl Replicate {
    /// A replica has answered the copy.
    ///
    /// # Errors
    /// Out of memory.
    pub(crate) fn copy_answered(
        &self,
        alloc: Global,
        cx: &mut Context,
        txn: Txn,
        requests: usize,
        run: CopyRun,
        replica: u8,
        said: BrickReply,
    ) -> Result<Step<Down, Up, Local>, AllocError>
        requires way { waits_well (length self.now.plan.bricks) txn (Some run) ≡ true }
        requires kept { IsTxnKept txn }
        requires few { AreFew run.job.cells }
        requires place { replica < 5 }
        ensures { IfOk result (λ step. IsTurn (on_copy self.now.plan requests cx.old txn (copy_answered run replica said.rep said.mark)) step cx.new) }
    {
        let mut run = run;
        let mark = said.mark();
        let rep = said.into_rep();
        let need = answer_run(alloc, &mut run, replica, rep, mark);
        match need {
            Ok(need) => self.go_on_copying(alloc, cx, txn, requests, run, need),
            Err(failed) => {
                drop(run);
                drop(txn);
                Err(failed)
            }
        }
    }

    // What the copy needs next.
    fn go_on_copying(
        &self,
        alloc: Global,
        cx: &mut Context,
        txn: Txn,
        requests: usize,
        run: CopyRun,
        need: CopyNeed,
    ) -> Result<Step<Down, Up, Local>, AllocError>
        requires copying { is_copying txn ≡ true }
        requires kept { IsTxnKept txn }
        requires few { AreFew run.job.cells }
        requires encoded { CopyIsEncoded need }
        ensures { IfOk result (λ step. IsTurn (on_copy self.now.plan requests cx.old txn (run, need)) step cx.new) }
    {
        match need {
            CopyNeed::Send(list) => self.send(alloc, txn, Some(run), requests, list),
            CopyNeed::Wait => waiting(alloc, txn, Some(run), requests),
            CopyNeed::Done(done) => {
                drop(run);
                self.copied(alloc, cx, txn, requests, done)
            }
        }
    }

    // A copy is done: the mount gets its records, and the transaction goes on.
    fn copied(
        &self,
        alloc: Global,
        cx: &mut Context,
        txn: Txn,
        requests: usize,
        done: CopyDone,
    ) -> Result<Step<Down, Up, Local>, AllocError>
        requires copying { is_copying txn ≡ true }
        requires kept { IsTxnKept txn }
        ensures { IfOk result (λ step. IsTurn (on_copy_done self.now.plan requests cx.old txn done) step cx.new) }
    {
        match self.record(alloc, cx, &done) {
            Ok(()) => self.go_on_copied(alloc, cx, txn, requests, done),
            Err(failed) => {
                drop(done);
                drop(txn);
                Err(failed)
            }
        }
    }

    // The mount gets the records of a copy.
    fn record(&self, alloc: Global, cx: &mut Context, done: &CopyDone) -> Result<(), AllocError>
        ensures { OnOk result (cx.new ≡ recorded self.now.plan.bricks cx.old done.now.records) }
    {
        let bricks = self.plan.bricks.as_slice();
        record_all(alloc, cx, bricks, done.records.as_slice())
    }

    // The transaction takes a copy that is done.
    fn go_on_copied(
        &self,
        alloc: Global,
        cx: &mut Context,
        txn: Txn,
        requests: usize,
        done: CopyDone,
    ) -> Result<Step<Down, Up, Local>, AllocError>
        requires copying { is_copying txn ≡ true }
        requires kept { IsTxnKept txn }
        ensures { IfOk result (λ step. IsTurn (turned self.now.plan requests cx.old (copied txn done cx.old.ledger (live self.now.plan cx.old.clients) (lasts self.now.plan cx.old.clients))) step cx.new) }
    {
        let mut txn = txn;
        let at = self.standing(&cx.clients);
        let need = cx.ledger.copied(alloc, &mut txn, done, at.live, &at.last);
        match need {
            Ok(need) => self.go(alloc, cx, txn, requests, need),
            Err(failed) => {
                drop(txn);
                Err(failed)
            }
        }
    }

    /// A copy begins.
    ///
    /// # Errors
    /// Out of memory.
    pub(crate) fn begin_copy(
        &self,
        alloc: Global,
        txn: Txn,
        requests: usize,
        job: CopyJob,
        rows: Seq<SplitRow>,
    ) -> Result<Step<Down, Up, Local>, AllocError>
        requires kept { IsTxnKept txn }
        requires few { AreFew job.cells }
        ensures { IfOk result (λ step. IsMove (copy_begun self.now.plan txn requests (next_cell (new_run job rows))) step) }
    {
        match begin_run(alloc, job, rows) {
            Ok((run, need)) => self.send_first(alloc, txn, requests, run, need),
            Err(failed) => {
                drop(txn);
                Err(failed)
            }
        }
    }

    // What a copy needs first. One that a transaction asks for has a sink, a source and a cell, so that is a request.
    fn send_first(
        &self,
        alloc: Global,
        txn: Txn,
        requests: usize,
        run: CopyRun,
        need: CopyNeed,
    ) -> Result<Step<Down, Up, Local>, AllocError>
        requires kept { IsTxnKept txn }
        requires few { AreFew run.job.cells }
        requires encoded { CopyIsEncoded need }
        ensures { IfOk result (λ step. IsMove (copy_begun self.now.plan txn requests (run, need)) step) }
    {
        match need {
            CopyNeed::Send(list) => self.send(alloc, txn, Some(run), requests, list),
            CopyNeed::Wait => {
                drop(run);
                drop(txn);
                Ok(self.refused(alloc))
            }
            CopyNeed::Done(done) => {
                drop(done);
                drop(run);
                drop(txn);
                Ok(self.refused(alloc))
            }
        }
    }
}
