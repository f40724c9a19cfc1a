//! The requests of a replicate node: they go out to the replicas, and the frame waits for those who have not answered.
ghost use Rattle.std.specs.Prelude.{◌≤◌, ◌-◌, IfOk, [], length, map};
ghost use Rattle.graph_nodes.specs.Kept.{IsTxnKept, IsCopyKept, IsJobKept};
ghost use Rattle.graph_nodes.specs.Moves.{IsMove};
ghost use Rattle.graph_nodes.specs.Moves.Move.{On};
ghost use Rattle.graph_nodes.specs.Replicate.{send_of, wind_of, AreEncoded};

use crate::kinds::Replicate;
use crate::locals::{JobState, Local, SetFrame};
use crate::nodes::winds::winds_of;
use afr_transaction::Txn;
use fop_types::{BrickReq, Seq};
use graph_items::{Down, Up};
use self_heal::CopyRun;
use std::alloc::{AllocError, Global};
use xlator_law::Step;

impl Replicate {
    /// Requests go to replicas, one to each, as long as the job may send so many.
    ///
    /// # Errors
    /// Out of memory.
    pub(crate) fn send(
        &self,
        alloc: Global,
        txn: Txn,
        copy: Option<CopyRun>,
        requests: usize,
        list: Seq<(u8, BrickReq)>,
    ) -> Result<Step<Down, Up, Local>, AllocError>
        requires encoded { AreEncoded list }
        requires kept { IsTxnKept txn }
        requires copy { IsCopyKept copy }
        ensures { IfOk result (λ step. IsMove (send_of self.now.plan (record { txn = txn; copy = copy; requests = requests }) list) step) }
    {
        let job = JobState {
            txn,
            copy,
            requests,
        };
        if list.len() <= job.requests {
            winding(alloc, job, list)
        } else {
            drop(list);
            drop(job);
            Ok(self.refused(alloc))
        }
    }
}

// The requests go out, and the frame waits.
fn winding(
    alloc: Global,
    job: JobState,
    list: Seq<(u8, BrickReq)>,
) -> Result<Step<Down, Up, Local>, AllocError>
    requires encoded { AreEncoded list }
    requires kept { IsJobKept job }
    requires few { length list ≤ job.requests }
    ensures { IfOk result (λ step. IsMove (On (map (wind_of job.txn.locks) list) (Local.Set (record job { requests = job.requests - length list }))) step) }
{
    let mut job = job;
    job.requests -= list.len();
    match winds_of(alloc, list, job.txn.locks) {
        Ok(winds) => wait_for(alloc, job, winds),
        Err(error) => {
            drop(job);
            Err(error)
        }
    }
}

// The frame waits for these winds, and for those who have not answered.
fn wait_for(
    alloc: Global,
    job: JobState,
    winds: Vec<(u16, u8, Down)>,
) -> Result<Step<Down, Up, Local>, AllocError>
    requires kept { IsJobKept job }
    ensures { IfOk result (λ step. IsMove (On winds.items (Local.Set job)) step) }
{
    match SetFrame::new(alloc, job) {
        Ok(frame) => Ok(Step::Wind(winds, Local::Set(frame))),
        Err(error) => {
            drop(winds);
            Err(error)
        }
    }
}

/// The frame waits on, for those who have not answered.
///
/// # Errors
/// Out of memory.
pub(crate) fn waiting(
    alloc: Global,
    txn: Txn,
    copy: Option<CopyRun>,
    requests: usize,
) -> Result<Step<Down, Up, Local>, AllocError>
    requires kept { IsTxnKept txn }
    requires copy { IsCopyKept copy }
    ensures { IfOk result (λ step. IsMove (On [] (Local.Set (record { txn = txn; copy = copy; requests = requests }))) step) }
{
    let job = JobState {
        txn,
        copy,
        requests,
    };
    wait_for(alloc, job, Vec::new(alloc))
}
