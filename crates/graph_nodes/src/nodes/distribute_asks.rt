//! What a fop of the distribute node does next: a set is asked for a job, a hold is waited for, or the fop ends.
ghost use Rattle.std.specs.Prelude.{◌≡◌, ◌<◌, ◌-◌, IfOk};
ghost use Rattle.fop_types.specs.Jobs.{IsJob};
ghost use Rattle.graph_nodes.specs.Distribute.{Gives, AreJobs, first_asked, asked_move, waiting};
ghost use Rattle.graph_nodes.specs.Kept.{IsFopKept};
ghost use Rattle.graph_nodes.specs.Moves.{IsMove, to_child};
ghost use Rattle.graph_nodes.specs.Moves.Move.{Waits};
ghost use Rattle.graph_nodes.specs.Turns.{IsFopTurn};

use crate::context::{Context, HoldWait};
use crate::kinds::Distribute;
use crate::locals::{FopFrame, FopState, Local};
use crate::nodes::distribute::refuse;
use crate::nodes::one;
use dht_fops::DhtNext;
use fop_types::{Gfid, Job, Seq};
use frame_driver::Queue;
use graph_items::{Down, SetJob, Up};
use std::alloc::{AllocError, Global};
use xlator_law::Step;

impl Distribute {
    /// What the fop does next.
    ///
    /// # Errors
    /// Out of memory.
    pub(crate) fn go(
        &self,
        alloc: Global,
        cx: &mut Context,
        state: FopState,
        next: DhtNext,
    ) -> Result<Step<Down, Up, Local>, AllocError>
        requires turn { IsFopTurn state.fop next }
        ensures { IfOk result (λ step. Gives self.now.sets state next cx.old step cx.new) }
    {
        match next {
            DhtNext::Jobs(jobs) => self.ask(alloc, state, jobs),
            DhtNext::Hold(gfid) => hold(alloc, cx, state, gfid),
            DhtNext::Done(answer, place) => {
                drop(state);
                Ok(Step::Unwind(Up::Answer(answer, place)))
            }
        }
    }

    // The first of the jobs that a fop asks for is asked. It asks for one at a time.
    fn ask(
        &self,
        alloc: Global,
        state: FopState,
        jobs: Seq<(u8, Job)>,
    ) -> Result<Step<Down, Up, Local>, AllocError>
        requires jobs { AreJobs jobs }
        requires kept { IsFopKept state.fop }
        ensures { IfOk result (λ step. IsMove (first_asked self.now.sets state jobs) step) }
    {
        let mut jobs = Queue::from_vec(jobs.into_vec());
        let first = jobs.pop();
        drop(jobs);
        match first {
            Some((set, job)) => self.ask_set(alloc, state, set, job),
            None => Ok(refuse(alloc, state)),
        }
    }

    // A set is asked for a job, where there is such a set and the fop has a job left.
    fn ask_set(
        &self,
        alloc: Global,
        state: FopState,
        set: u8,
        job: Job,
    ) -> Result<Step<Down, Up, Local>, AllocError>
        requires job { IsJob job }
        requires kept { IsFopKept state.fop }
        ensures { IfOk result (λ step. IsMove (asked_move self.now.sets state set job) step) }
    {
        if set < self.sets && 0 < state.jobs {
            asked(alloc, state, set, job)
        } else {
            Ok(refuse(alloc, (state, job)))
        }
    }
}

// A set is asked for a job, and the fop has one job fewer left.
fn asked(
    alloc: Global,
    state: FopState,
    set: u8,
    job: Job,
) -> Result<Step<Down, Up, Local>, AllocError>
    requires some { 0 < state.jobs }
    requires job { IsJob job }
    requires kept { IsFopKept state.fop }
    ensures { IfOk result (λ step. IsMove (to_child set (Down.Job job) (Local.Distribute (record state { jobs = state.jobs - 1 }))) step) }
{
    let mut state = state;
    state.jobs -= 1;
    match FopFrame::new(alloc, state) {
        Ok(frame) => {
            let asked = Down::Job(SetJob::new(job));
            one(alloc, set as u16, asked, Local::Distribute(frame))
        }
        Err(error) => {
            drop(job);
            Err(error)
        }
    }
}

// The fop waits until its call's hold is extended.
fn hold(
    alloc: Global,
    cx: &mut Context,
    state: FopState,
    gfid: Gfid,
) -> Result<Step<Down, Up, Local>, AllocError>
    requires kept { IsFopKept state.fop }
    ensures { IfOk result (λ step. IsMove (Waits (Local.Distribute state)) step × (cx.new ≡ waiting cx.old state.entry gfid)) }
{
    let wait = HoldWait {
        call: state.entry.call,
        frame: state.entry.frame,
        gfid,
    };
    let frame = FopFrame::new(alloc, state)?;
    cx.holds.push(wait)?;
    Ok(Step::Wait(Local::Distribute(frame)))
}
