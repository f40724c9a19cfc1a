ghost use Rattle.std.specs.Prelude.{ℕ, List, ◌≡◌, ◌<◌, ◌≤◌, ◌+◌, ◌*◌, ◌==◌, ◌↔◌, None, true, cond, IsTrue, length, IsSomeAnd, OnOk, OnErr, count_by};
ghost use Rattle.xlator_law.specs.Law.{Promise};
ghost use Rattle.xlator_law.specs.declared.winds.WindNo.{WindNo};
ghost use Rattle.frame_stack.specs.Stack.{frame_at};
ghost use Rattle.frame_driver.specs.declared.items.Task.TheVariants.{Enter, Go};
ghost use Rattle.frame_driver.specs.Account.{account};
ghost use Rattle.frame_driver.specs.Breadth.{Nests};
ghost use Rattle.frame_driver.specs.Follows.{promise_at, waits_in};
ghost use Rattle.frame_driver.specs.Machine.{empty_board, with_task};
ghost use Rattle.frame_driver.specs.Parts.{IsParted};
ghost use Rattle.frame_driver.specs.Roots.{AreRooted};
ghost use Rattle.frame_driver.specs.Sound.{Sound};
ghost use Rattle.frame_driver.specs.Tasks.{one, is_going, IsWindOurs};
ghost use Rattle.frame_driver.specs.Total.{total};
ghost use Rattle.frame_driver.specs.Waits.{AreHeld};

use crate::items::{Answered, Sent, Task};
use crate::queue::Queue;
use frame_stack::FrameStack;
use std::alloc::{AllocError, Global};
use std::mem;
use xlator_law::WindNo;

/// What a graph has to do for its frames, and what came out of it: winds that were sent, calls that were
/// answered, and frames that began to wait for something that is no wind. `graph` is the graph's number,
/// `frames` counts its open frames. All graphs of a mount share one stack, which a graph's board has while
/// a call of the graph runs: [`Board::swap_stack`] lends it.
#[derive(Drop)]
pub struct Board<F, R, L> {
    pub graph: u32,
    pub frames: u32,
    pub stack: FrameStack<L>,
    pub queue: Queue<Task<F, R>>,
    pub sent: Queue<Sent<F>>,
    pub answers: Queue<Answered<R>>,
    pub waiting: Queue<u32>,
}

impl<F: Drop, R: Drop, L: Drop> Board<F, R, L> {
    /// The board of a graph without frames, with nothing to do, which takes no memory.
    pub fn new(alloc: Global, graph: u32) -> Board<F, R, L>
        ensures board { result ≡ empty_board graph }
        ensures sound { (ps : ℕ → List (Promise F L)) → Sound ps result }
        ensures nests { (ps : ℕ → List (Promise F L)) → Nests ps result }
        ensures rooted { (root : ℕ) → AreRooted root result }
    {
        Board {
            graph,
            frames: 0,
            stack: FrameStack::new(alloc),
            queue: Queue::new(alloc),
            sent: Queue::new(alloc),
            answers: Queue::new(alloc),
            waiting: Queue::new(alloc),
        }
    }

    /// Gives the board this stack, and hands its own one over, which takes no memory.
    pub fn swap_stack(&mut self, stack: &mut FrameStack<L>)
        ensures board { self.new ≡ record self.old { stack = stack.old } }
        ensures stack { stack.new ≡ self.old.stack }
    {
        mem::swap(&mut self.stack, stack);
    }

    /// Whether a wind is one of this graph. A wind that is not open is of every graph.
    pub fn owns(&self, wind: WindNo) -> bool
        ensures { IsTrue result ↔ IsWindOurs self.now.stack self.now.graph wind }
    {
        match self.stack.opener(wind) {
            Some(opener) => opener.graph == self.graph,
            None => true,
        }
    }

    /// Whether a frame of this number is open in this graph.
    pub fn has_frame(&self, frame: u32) -> bool
        ensures { IsTrue result ↔ IsSomeAnd (frame_at self.now.stack frame) (λ f. f.place.graph ≡ self.now.graph) }
    {
        match self.stack.place(frame) {
            Some(place) => place.graph == self.graph,
            None => false,
        }
    }

    /// A call's own fop is to enter a node, as a new frame, by the next run.
    ///
    /// # Errors
    /// Out of memory, and nothing changed.
    pub fn submit(&mut self, _alloc: Global, call: u32, node: u16, fop: F) -> Result<(), AllocError>
        ensures submitted { OnOk result (self.new ≡ with_task self.old (Enter node call None fop)) }
        ensures sound { OnOk result ((ps : ℕ → List (Promise F L)) → node < length (ps self.old.graph) → Sound ps self.old → Sound ps self.new) }
        ensures parted { OnOk result ((outer : WindNo → ℕ) → IsParted outer self.old → IsParted outer self.new) }
        ensures nests { OnOk result ((ps : ℕ → List (Promise F L)) → Nests ps self.old → Nests ps self.new) }
        ensures held { OnOk result ((ps : ℕ → List (Promise F L)) (outer : ℕ → ℕ) → AreHeld ps outer self.old → AreHeld ps outer self.new) }
        ensures rooted { OnOk result (AreRooted node self.old → AreRooted node self.new) }
        ensures work { OnOk result ((ps : ℕ → List (Promise F L)) → total ps self.new ≡ total ps self.old + 2 + 3 * (promise_at (ps self.old.graph) node).cost fop) }
        ensures paid { OnOk result ((ps : ℕ → List (Promise F L)) (c : ℕ) → account ps c self.new ≡ account ps c self.old + cond (call == c) ((promise_at (ps self.old.graph) node).cost fop) 0) }
        ensures err { OnErr result (self.new ≡ self.old) }
    {
        self.queue.push(Task::Enter {
            node,
            call,
            parent: None,
            fop,
        })?;
        Ok(())
    }

    /// A frame that waits for something that is no wind is to go on by the next run: it has come.
    ///
    /// # Errors
    /// Out of memory, and nothing changed.
    pub fn go_on(&mut self, _alloc: Global, frame: u32) -> Result<(), AllocError>
        ensures going { OnOk result (self.new ≡ with_task self.old (Go frame)) }
        ensures sound { OnOk result ((ps : ℕ → List (Promise F L)) → IsSomeAnd (frame_at self.old.stack frame) (λ f. f.place.graph ≡ self.old.graph) → count_by (is_going frame) self.old.queue + 1 ≤ one (waits_in ps (frame_at self.old.stack frame)) → Sound ps self.old → Sound ps self.new) }
        ensures parted { OnOk result ((outer : WindNo → ℕ) → IsParted outer self.old → IsParted outer self.new) }
        ensures nests { OnOk result ((ps : ℕ → List (Promise F L)) → Nests ps self.old → Nests ps self.new) }
        ensures held { OnOk result ((ps : ℕ → List (Promise F L)) (outer : ℕ → ℕ) → AreHeld ps (λ k. outer k + one (k == frame)) self.old → AreHeld ps outer self.new) }
        ensures rooted { OnOk result ((root : ℕ) → AreRooted root self.old → AreRooted root self.new) }
        ensures work { OnOk result ((ps : ℕ → List (Promise F L)) → total ps self.new ≡ total ps self.old + 1) }
        ensures paid { OnOk result ((ps : ℕ → List (Promise F L)) (c : ℕ) → account ps c self.new ≡ account ps c self.old) }
        ensures err { OnErr result (self.new ≡ self.old) }
    {
        self.queue.push(Task::Go { frame })?;
        Ok(())
    }
}
