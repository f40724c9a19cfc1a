//! The distribute node: it runs a fop over the sets, one job at a time, and keeps the layouts that fops have read.
ghost use Rattle.std.specs.Prelude.{◌≡◌, IfOk, OnOk, Some, length, drop, true, is_none};
ghost use Rattle.dht_fops.specs.code.Fops.{course_on, goes_on_with, learnt_with, asked_of};
ghost use Rattle.fop_types.specs.Jobs.{IsSetReply};
ghost use Rattle.graph_nodes.specs.Distribute.{IsBegun, GoesOn, OnReply, OnExtended, TakesReply, IsHeld, IsKept, refused, kept_with};
ghost use Rattle.graph_nodes.specs.Kept.{IsFopKept};
ghost use Rattle.graph_nodes.specs.Moves.{IsMove};
ghost use Rattle.graph_nodes.specs.Turns.{IsFopTurn};

use crate::context::Context;
use crate::kinds::Distribute;
use crate::locals::{FopFrame, FopState, Local};
use crate::nodes::lost;
use dht_fops::{DhtNext, Layout, fops_keep_bounds};
use fop_types::{Answer, FopAnswer, SetReply};
use graph_items::{Down, Up};
use std::alloc::{AllocError, Global};
use xlator_law::{Entry, Step};

/// The answer where a fop can't be run: that of a set without a quorum. Drops what the fop had.
pub(crate) fn refuse<T: Drop>(alloc: Global, _ended: T) -> Step<Down, Up, Local>
    ensures { IsMove refused result }
{
    Step::Unwind(Up::Answer(FopAnswer::Call(Answer::Io(lost(alloc, 0))), None))
}

impl Distribute {
    /// Takes a fop.
    ///
    /// # Errors
    /// Out of memory.
    pub(crate) fn enter(
        &self,
        alloc: Global,
        cx: &mut Context,
        entry: Entry,
        down: Down,
    ) -> Result<Step<Down, Up, Local>, AllocError>
        ensures { IfOk result (λ step. IsBegun self.now cx.old entry down step cx.new) }
    {
        match down {
            Down::Fop(op) => self.begin(alloc, cx, entry, op.into_fop()),
            Down::Job(job) => Ok(refuse(alloc, job)),
            Down::Request(request) => Ok(refuse(alloc, request)),
        }
    }

    /// Takes the reply of the set that was asked.
    ///
    /// # Errors
    /// Out of memory.
    pub(crate) fn resume(
        &mut self,
        alloc: Global,
        cx: &mut Context,
        frame: FopFrame,
        reply: Up,
    ) -> Result<Step<Down, Up, Local>, AllocError>
        ensures step { IfOk result (λ step. GoesOn self.old cx.old frame reply step self.new cx.new) }
        ensures sets { self.new.sets ≡ self.old.sets }
    {
        match reply {
            Up::Set(answer) => self.resume_set(alloc, cx, frame.into_state(), answer.into_reply()),
            Up::Answer(answer, _) => Ok(refuse(alloc, (frame, answer))),
            Up::Brick(said) => Ok(refuse(alloc, (frame, said))),
        }
    }

    fn resume_set(
        &mut self,
        alloc: Global,
        cx: &mut Context,
        state: FopState,
        reply: SetReply,
    ) -> Result<Step<Down, Up, Local>, AllocError>
        requires kept { IsFopKept state.fop }
        requires bounded { IsSetReply reply }
        ensures step { IfOk result (λ step. OnReply state.fop.asked self.old cx.old state reply step self.new cx.new) }
        ensures sets { self.new.sets ≡ self.old.sets }
    {
        match state.fop.asked() {
            Some(set) => self.take_reply(alloc, cx, state, set, reply),
            None => Ok(refuse(alloc, (state, reply))),
        }
    }

    fn take_reply(
        &mut self,
        alloc: Global,
        cx: &mut Context,
        state: FopState,
        set: u8,
        reply: SetReply,
    ) -> Result<Step<Down, Up, Local>, AllocError>
        requires asked { state.fop.asked ≡ Some set }
        requires kept { IsFopKept state.fop }
        requires bounded { IsSetReply reply }
        ensures step { IfOk result (λ step. TakesReply self.old cx.old state reply step self.new cx.new) }
        ensures sets { self.new.sets ≡ self.old.sets }
    {
        let mut state = state;
        match self.answer(alloc, &mut state, set, reply) {
            Ok(next) => self.go(alloc, cx, state, next),
            Err(error) => {
                drop(state);
                Err(error)
            }
        }
    }

    // The fop takes the reply, and the node keeps the layouts that the fop has read since.
    fn answer(
        &mut self,
        alloc: Global,
        state: &mut FopState,
        set: u8,
        reply: SetReply,
    ) -> Result<DhtNext, AllocError>
        requires asked { state.old.fop.asked ≡ Some set }
        requires kept { IsFopKept state.old.fop }
        requires bounded { IsSetReply reply }
        ensures course { IfOk result (λ next. course_on state.new.fop next ≡ goes_on_with state.old.fop reply) }
        ensures learnt { OnOk result (state.new.fop.learnt ≡ learnt_with state.old.fop reply) }
        ensures asked { IfOk result (λ next. state.new.fop.asked ≡ asked_of next) }
        ensures state { OnOk result (state.new ≡ record state.old { fop = state.new.fop; learnt = length state.new.fop.learnt }) }
        ensures kept { OnOk result (IsKept (kept_with self.old.kept.entries (drop state.old.learnt state.new.fop.learnt)) self.old self.new) }
        ensures turn { IfOk result (λ next. IsFopTurn state.new.fop next) }
        ensures sets { self.new.sets ≡ self.old.sets }
    {
        fops_keep_bounds();
        let next = state.fop.answer(alloc, set, reply)?;
        let kept = self.learn(alloc, state.fop.learnt(), state.learnt);
        state.learnt = state.fop.learnt().len();
        match kept {
            Ok(()) => Ok(next),
            Err(error) => {
                drop(next);
                Err(error)
            }
        }
    }

    /// The call's hold was extended. A fop that waits for no hold is refused.
    ///
    /// # Errors
    /// Out of memory.
    pub(crate) fn go_on(
        &self,
        alloc: Global,
        cx: &mut Context,
        frame: FopFrame,
    ) -> Result<Step<Down, Up, Local>, AllocError>
        ensures { IfOk result (λ step. OnExtended frame.fop.asked self.now cx.old frame step cx.new) }
    {
        let state = frame.into_state();
        match state.fop.asked() {
            None => self.extended(alloc, cx, state),
            Some(_) => Ok(refuse(alloc, state)),
        }
    }

    fn extended(
        &self,
        alloc: Global,
        cx: &mut Context,
        state: FopState,
    ) -> Result<Step<Down, Up, Local>, AllocError>
        requires waits { is_none state.fop.asked ≡ true }
        requires kept { IsFopKept state.fop }
        ensures { IfOk result (λ step. IsHeld self.now cx.old state step cx.new) }
    {
        fops_keep_bounds();
        let mut state = state;
        match state.fop.held(alloc) {
            Ok(next) => self.go(alloc, cx, state, next),
            Err(error) => {
                drop(state);
                Err(error)
            }
        }
    }

    // Keeps the layouts from one on.
    #[tactic(auto, using(crate::proofs::Appends::kept_next, crate::proofs::Appends::kept_past))]
    fn learn(&mut self, alloc: Global, learnt: &[Layout], from: usize) -> Result<(), AllocError>
        ensures kept { OnOk result (IsKept (kept_with self.old.kept.entries (drop from learnt.now)) self.old self.new) }
        ensures sets { self.new.sets ≡ self.old.sets }
    {
        for at in from..learnt.len() {
            let layout = &learnt[at];
            let spans = layout.spans.copy(alloc)?;
            self.kept.insert(layout.dir, spans)?;
        }
        Ok(())
    }
}
