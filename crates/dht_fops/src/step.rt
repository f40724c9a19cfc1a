ghost use Rattle.std.specs.Prelude.{◌≡◌, IfOk, Some, None};
ghost use Rattle.dht_fops.specs.code.Ended.{ended};
ghost use Rattle.dht_fops.specs.code.Turns.{next_of, asked_by};
ghost use Rattle.dht_fops.specs.declared.step.Turn.TheVariants as turn;
ghost use Rattle.fop_types.specs.declared.answers.Answer.TheVariants as answer;
ghost use Rattle.fop_types.specs.declared.answers.FopAnswer.TheVariants as fop_answer;

use crate::state::{OnReply, State};
use fop_types::{Answer, AppError, FopAnswer, Gfid, IoError, Job, Seq};
use std::alloc::{AllocError, Global};

/// How a fop goes on: it asks sets for jobs; it waits until its call's hold is extended by a directory, exclusively; or
/// it is done, with its answer and its place. The place is the number of the fop's own entry in the history, or the
/// length of the history at its last lock; `None` where no lock was needed, or where the answer is an I/O error.
#[derive(Drop)]
pub enum DhtNext {
    Jobs(Seq<(u8, Job)>),
    Hold(Gfid),
    Done(FopAnswer, Option<u32>),
}

/// What a fop does next: it asks a set for a job, it waits for the extension of the hold, or it is done.
#[derive(Drop)]
pub(crate) enum Turn {
    Ask(u8, Job),
    Extend(Gfid),
    End(FopAnswer, Option<u32>),
}

impl Turn {
    /// The turn as callers see it.
    ///
    /// # Errors
    /// Out of memory.
    pub fn into_next(self, alloc: Global) -> Result<DhtNext, AllocError>
        ensures { IfOk result (λ next. next ≡ next_of self) }
    {
        match self {
            Turn::Ask(set, job) => {
                let mut jobs = Seq::new(alloc);
                jobs.push((set, job))?;
                Ok(DhtNext::Jobs(jobs))
            }
            Turn::Extend(dir) => Ok(DhtNext::Hold(dir)),
            Turn::End(answer, place) => Ok(DhtNext::Done(answer, place)),
        }
    }

    /// The set that is asked.
    pub fn asked(&self) -> Option<u8>
        ensures { result ≡ asked_by self.now }
    {
        match self {
            Turn::Ask(set, _) => Some(*set),
            Turn::Extend(_) => None,
            Turn::End(_, _) => None,
        }
    }
}

/// One step of a fop: what it waits with, and what it does.
#[derive(Drop)]
pub(crate) struct Step {
    pub state: State,
    pub turn: Turn,
}

/// The fop waits for a job of a set.
pub(crate) fn ask(set: u8, job: Job, state: State) -> Step
    ensures { result ≡ record { state = state; turn = turn.Ask set job } }
{
    Step {
        state,
        turn: Turn::Ask(set, job),
    }
}

pub(crate) fn done(answer: FopAnswer, place: Option<u32>) -> Step
    ensures { result ≡ record { state = ended; turn = turn.End answer place } }
{
    Step {
        state: State::Reply(OnReply::End),
        turn: Turn::End(answer, place),
    }
}

pub(crate) fn answer(answer: Answer, place: Option<u32>) -> Step
    ensures { result ≡ record { state = ended; turn = turn.End (fop_answer.Call answer) place } }
{
    done(FopAnswer::Call(answer), place)
}

pub(crate) fn refuse(error: AppError, place: Option<u32>) -> Step
    ensures { result ≡ record { state = ended; turn = turn.End (fop_answer.Call (answer.App error)) place } }
{
    answer(Answer::App(error), place)
}

pub(crate) fn fail(error: IoError) -> Step
    ensures { result ≡ record { state = ended; turn = turn.End (fop_answer.Call (answer.Io error)) None } }
{
    answer(Answer::Io(error), None)
}
