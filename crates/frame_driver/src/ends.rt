//! The ends of winds: each goes to the frame and slot that opened it, as a task.
ghost use Rattle.std.specs.Prelude.{ℕ, List, ◌≡◌, ◌+◌, cond, IfOk, OnOk, count_by};
ghost use Rattle.xlator_law.specs.Law.{Promise};
ghost use Rattle.xlator_law.specs.declared.winds.WindNo.{WindNo};
ghost use Rattle.frame_stack.specs.Moves.{is_wind};
ghost use Rattle.frame_stack.specs.Stack.{opener_of, settled_as};
ghost use Rattle.frame_driver.specs.Account.{account};
ghost use Rattle.frame_driver.specs.Bailing.{age, won_by, IsBailed, AreEnded, is_bailed, AreOurs};
ghost use Rattle.frame_driver.specs.Breadth.{Nests};
ghost use Rattle.frame_driver.specs.Tasks.{IsWindOurs};
ghost use Rattle.frame_driver.specs.Leading.{Leads};
ghost use Rattle.frame_driver.specs.Machine.{IsEnded};
ghost use Rattle.frame_driver.specs.Parts.{IsParted, opened};
ghost use Rattle.frame_driver.specs.Roots.{AreRooted};
ghost use Rattle.frame_driver.specs.Sound.{Sound};
ghost use Rattle.frame_driver.specs.Total.{total};
ghost use Rattle.frame_driver.specs.Traces.{AreTraced};
ghost use Rattle.frame_driver.specs.Waits.{AreHeld};

use crate::board::Board;
use crate::items::{Bailed, Task};
use crate::queue::Queue;
use frame_stack::FrameStack;
use std::alloc::{AllocError, Global};
use xlator_law::{Settled, WindNo};

// The number of an open wind, counted over all winds as they were opened, and the greatest number where the
// wind is not open.
fn age<L>(stack: &FrameStack<L>, wind: WindNo) -> u32
    ensures { result ≡ age stack.now wind }
{
    match stack.opener(wind) {
        Some(opener) => opener.number,
        None => u32::MAX,
    }
}

// One for a wind that was pending, nothing for one that was not.
fn won_by(settled: Settled) -> u64
    ensures { result ≡ won_by settled }
{
    match settled {
        Settled::Won => 1,
        Settled::Lost(_) => 0,
    }
}

impl<F: Drop, R: Drop, L: Drop> Board<F, R, L> {
    /// Takes the reply of a wind, which ends; the frame that opened it is to be resumed by the next run.
    /// `Won` comes exactly where the wind was pending. Else the reply is late, and nothing changed. The wind,
    /// where it is open, is one of this graph.
    ///
    /// # Errors
    /// Out of memory. The board is spent.
    pub fn reply(&mut self, alloc: Global, wind: WindNo, reply: R) -> Result<Settled, AllocError>
        requires ours { IsWindOurs self.old.stack self.old.graph wind }
        ensures settled { IfOk result (λ settled. settled ≡ settled_as self.old.stack wind) }
        ensures ended { OnOk result (IsEnded wind reply self.old self.new) }
        ensures sound { OnOk result ((ps : ℕ → List (Promise F L)) → Sound ps self.old → Sound ps self.new) }
        ensures parted { OnOk result ((outer : WindNo → ℕ) → IsParted outer self.old → outer wind ≡ opened self.old.stack wind → IsParted (λ v. cond (is_wind v wind) 0 (outer v)) self.new) }
        ensures nests { OnOk result ((ps : ℕ → List (Promise F L)) → Nests ps self.old → Nests ps self.new) }
        ensures held { OnOk result ((ps : ℕ → List (Promise F L)) (outer : ℕ → ℕ) → AreHeld ps outer self.old → AreHeld ps outer self.new) }
        ensures rooted { OnOk result ((root : ℕ) → AreRooted root self.old → AreRooted root self.new) }
        ensures work { OnOk result ((ps : ℕ → List (Promise F L)) → total ps self.new ≡ total ps self.old) }
        ensures paid { OnOk result ((ps : ℕ → List (Promise F L)) (c : ℕ) → account ps c self.new ≡ account ps c self.old) }
        ensures frames { OnOk result (self.new.stack.frames ≡ self.old.stack.frames) }
        ensures leads { Leads self.old self.new }
    {
        let settled = self.end_wind(alloc, wind, reply)?;
        Ok(settled)
    }

    // Ends a wind that is pending, as a task for the frame and slot that opened it. A wind that is not
    // pending changes nothing.
    #[tactic(auto, using(crate::proofs::Ending::ended_won, crate::proofs::Ending::ended_lost, crate::proofs::Ending::ended_some, crate::proofs::Leading::leads_ended, crate::proofs::Leading::leads_settled))]
    pub(crate) fn end_wind(
        &mut self,
        alloc: Global,
        wind: WindNo,
        reply: R,
    ) -> Result<Settled, AllocError>
        requires ours { IsWindOurs self.old.stack self.old.graph wind }
        ensures settled { IfOk result (λ settled. settled ≡ settled_as self.old.stack wind) }
        ensures ended { OnOk result (IsEnded wind reply self.old self.new) }
        ensures leads { Leads self.old self.new }
    {
        match self.stack.settle(wind) {
            Settled::Won => {
                let Some(parent) = self.stack.resume(alloc, wind)? else {
                    unreachable!()
                };
                self.queue.push(Task::Resume {
                    frame: parent.frame,
                    slot: parent.slot,
                    reply,
                })?;
                Ok(Settled::Won)
            }
            Settled::Lost(word) => {
                drop(reply);
                Ok(Settled::Lost(word))
            }
        }
    }

    /// Ends these winds of this graph, as where the connection of their brick ended, the oldest first, each
    /// with its reply; their frames are to be resumed by the next run, in this order. A wind that was
    /// answered before is late, and changes nothing. Gives how many were pending.
    ///
    /// # Errors
    /// Out of memory. The board is spent.
    pub fn bail(&mut self, alloc: Global, winds: Vec<Bailed<R>>) -> Result<u64, AllocError>
        requires ours { AreOurs self.old.stack self.old.graph winds.items }
        ensures bailed { IfOk result (λ won. IsBailed winds.items self.old self.new won) }
        ensures sound { OnOk result ((ps : ℕ → List (Promise F L)) → Sound ps self.old → Sound ps self.new) }
        ensures parted { OnOk result ((outer rest : WindNo → ℕ) → IsParted outer self.old → ((w : WindNo) → outer w ≡ rest w + count_by (is_bailed w) winds.items) → IsParted rest self.new) }
        ensures nests { OnOk result ((ps : ℕ → List (Promise F L)) → Nests ps self.old → Nests ps self.new) }
        ensures held { OnOk result ((ps : ℕ → List (Promise F L)) (outer : ℕ → ℕ) → AreHeld ps outer self.old → AreHeld ps outer self.new) }
        ensures rooted { OnOk result ((root : ℕ) → AreRooted root self.old → AreRooted root self.new) }
        ensures work { OnOk result ((ps : ℕ → List (Promise F L)) → total ps self.new ≡ total ps self.old) }
        ensures paid { OnOk result ((ps : ℕ → List (Promise F L)) (c : ℕ) → account ps c self.new ≡ account ps c self.old) }
        ensures frames { OnOk result (self.new.stack.frames ≡ self.old.stack.frames) }
        ensures leads { Leads self.old self.new }
    {
        let mut order = winds;
        let stack = &self.stack;
        order.sort_by_key(|bailed: &Bailed<R>| age(stack, bailed.wind))?;
        let won = self.end_all(alloc, order)?;
        Ok(won)
    }

    // Ends these winds, in order, and gives how many were pending.
    fn end_all(&mut self, alloc: Global, winds: Vec<Bailed<R>>) -> Result<u64, AllocError>
        requires ours { AreOurs self.old.stack self.old.graph winds.items }
        ensures ended { IfOk result (λ won. AreEnded winds.items self.old self.new won) }
        ensures leads { Leads self.old self.new }
    {
        let mut rest = Queue::from_vec(winds);
        let mut won: u64 = 0;
        while let Some(bailed) = rest.pop() {
            let settled = self.end_wind(alloc, bailed.wind, bailed.reply)?;
            won += won_by(settled);
        }
        Ok(won)
    }
}
