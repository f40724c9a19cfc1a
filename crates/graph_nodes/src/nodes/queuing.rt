//! The io-threads node: what enters it waits in the queue of its priority until a task of the node is run. Replies pass at
//! once.
ghost use Rattle.std.specs.Prelude.{◌≡◌, IfNone, IfOk, IfSome, OnOk};
ghost use Rattle.io_threads.specs.Lanes.{first_of, in_turn, without_first};
ghost use Rattle.graph_nodes.specs.Calls.{after_turn, rested};
ghost use Rattle.graph_nodes.specs.IoThreads.{IsQueued, go_on_of, priority_of, priority_of_fop, queued, ready_with};
ghost use Rattle.graph_nodes.specs.Moves.{IsMove};

use crate::context::Context;
use crate::kinds::IoThreads;
use crate::locals::Local;
use crate::nodes::one;
use fop_types::Fop;
use graph_items::{Down, Up};
use io_threads::Priority;
use std::alloc::{AllocError, Global};
use xlator_law::{Entry, Step};

fn priority_of_fop(fop: &Fop) -> Priority
    ensures { result ≡ priority_of_fop fop.now }
{
    match fop {
        Fop::Lookup { .. } => Priority::High,
        Fop::Open { .. } => Priority::High,
        Fop::Stat { .. } => Priority::High,
        Fop::GetAttr { .. } => Priority::High,
        Fop::List { .. } => Priority::High,
        Fop::Read { .. } => Priority::Low,
        Fop::Write { .. } => Priority::Low,
        Fop::Truncate { .. } => Priority::Low,
        Fop::Heal { .. } => Priority::Least,
        Fop::Migrate { .. } => Priority::Least,
        _ => Priority::Normal,
    }
}

// How soon something is taken. What is no fop goes as background work.
fn priority_of(down: &Down) -> Priority
    ensures { result ≡ priority_of down.now }
{
    match down {
        Down::Fop(op) => priority_of_fop(op.fop()),
        Down::Job(_) => Priority::Least,
        Down::Request(_) => Priority::Least,
    }
}

impl IoThreads {
    /// Takes what comes from above, which waits until its task is run.
    ///
    /// # Errors
    /// Out of memory.
    pub(crate) fn enter(
        &mut self,
        alloc: Global,
        cx: &mut Context,
        entry: Entry,
        down: Down,
    ) -> Result<Step<Down, Up, Local>, AllocError>
        ensures { IfOk result (λ step. IsQueued self.old cx.old entry down step self.new cx.new) }
    {
        let waits = self.wait(alloc, cx, priority_of(&down), entry.frame);
        waits.and(Ok(Step::Wait(Local::Queued(down))))
    }

    // A frame waits, and the node is ready.
    fn wait(
        &mut self,
        alloc: Global,
        cx: &mut Context,
        priority: Priority,
        frame: u32,
    ) -> Result<(), AllocError>
        ensures node { OnOk result (self.new ≡ queued priority frame self.old) }
        ensures cx { OnOk result (cx.new ≡ ready_with cx.old self.old.number) }
    {
        self.queue(alloc, priority, frame)?;
        cx.ready.insert(self.number)?;
        Ok(())
    }

    // A frame waits in the queue of its priority, and is counted.
    fn queue(&mut self, alloc: Global, priority: Priority, frame: u32) -> Result<(), AllocError>
        ensures { OnOk result (self.new ≡ queued priority frame self.old) }
    {
        let Some(waiting) = self.waiting.checked_add(1) else {
            return Err(AllocError);
        };
        match self.queues.push(alloc, priority, frame) {
            Ok(()) => {
                self.waiting = waiting;
                Ok(())
            }
            Err((_, error)) => Err(error),
        }
    }

    /// Takes the frame whose turn it is. The node is ready no more once nobody waits in it.
    pub(crate) fn take(&mut self, cx: &mut Context) -> Option<u32>
        ensures frame { result ≡ first_of (in_turn self.old.queues) }
        ensures rest { self.new.queues ≡ without_first self.old.queues }
        ensures node { IfSome result (λ _. self.new ≡ after_turn self.old) }
        ensures cx { IfSome result (λ _. cx.new ≡ rested (after_turn self.old) cx.old) }
        ensures idle { IfNone result (cx.new ≡ cx.old) }
    {
        let frame = self.queues.pop()?;
        self.waiting = self.waiting.saturating_sub(1);
        self.rest(cx);
        Some(frame)
    }

    // The node is ready no more, where nobody waits in it.
    fn rest(&self, cx: &mut Context)
        ensures { cx.new ≡ rested self.now cx.old }
    {
        if self.waiting == 0 {
            cx.ready.remove(&self.number);
        }
    }
}

/// The turn of a frame has come: what it kept is handed on.
///
/// # Errors
/// Out of memory.
pub(crate) fn go_on(alloc: Global, local: Local) -> Result<Step<Down, Up, Local>, AllocError>
    ensures { IfOk result (λ step. IsMove (go_on_of local) step) }
{
    match local {
        Local::Queued(down) => one(alloc, 0, down, Local::Relay),
        Local::Relay => Ok(Step::Wait(Local::Relay)),
        Local::Pages(read) => Ok(Step::Wait(Local::Pages(read))),
        Local::Distribute(frame) => Ok(Step::Wait(Local::Distribute(frame))),
        Local::Set(frame) => Ok(Step::Wait(Local::Set(frame))),
    }
}
