ghost use Rattle.std.specs.Prelude.{ℕ, ◌≡◌, ◌<◌, ◌≤◌, ◌+◌, false, [], ◌∷◌, List, length, map, Some, None, OnOk, IsErrOf};
ghost use Rattle.frame_stack.specs.Stack.{frame_at, HasParent};
ghost use Rattle.frame_driver.specs.declared.items.Task.TheVariants.{Enter, Resume, Go};
ghost use Rattle.frame_driver.specs.Account.{account};
ghost use Rattle.frame_driver.specs.Breadth.{Nests};
ghost use Rattle.frame_driver.specs.Follows.{Fits};
ghost use Rattle.frame_driver.specs.Leading.{Leads};
ghost use Rattle.frame_driver.specs.Machine.{before_task, is_lost, place_for, IsCarried, IsCut, IsEntered, IsResumed, GoesOn, IsDone, IsDoneSo, IsRun, IsCutShort};
ghost use Rattle.frame_driver.specs.Parts.{IsParted};
ghost use Rattle.frame_driver.specs.Roots.{AreRooted};
ghost use Rattle.frame_driver.specs.Sound.{Sound, SoundWith};
ghost use Rattle.frame_driver.specs.Total.{total};
ghost use Rattle.frame_driver.specs.Traces.{AreTraced};
ghost use Rattle.frame_driver.specs.Waits.{AreHeld};
ghost use Rattle.xlator_law.specs.Law.{Promise};
ghost use Rattle.xlator_law.specs.declared.winds.WindNo.{WindNo};

use crate::board::Board;
use crate::items::Task;
use crate::nodes::{enter_at, go_on_at, resume_at};
use crate::wiring::Wiring;
use std::alloc::Global;
use xlator_law::{Entry, Place, Stop, WindNo, Xlator};

impl<F: Drop, R: Drop, L: Drop> Board<F, R, L> {
    // A fop enters a node, as a new frame. The wind that is to open it, if there is one, is open.
    fn enter<C, X: Xlator<F, R, C, Local = L>>(
        &mut self,
        alloc: Global,
        nodes: &mut Vec<X>,
        cx: &mut C,
        wiring: &Wiring,
        node: u16,
        call: u32,
        parent: Option<WindNo>,
        fop: F,
    ) -> Result<(), Stop>
        requires fits { Fits (map X.promise nodes.old.items) wiring.now }
        requires sound { SoundWith (map X.promise nodes.old.items) (before_task self.old (Enter node call parent fop)) }
        requires live { is_lost self.old.stack parent ≡ false }
        ensures entered { OnOk result (IsEntered X.makes (map X.promise nodes.old.items) (IsCarried wiring.now) (place_for self.old node call parent) fop (record { nodes = nodes.old.items; cx = cx.old; board = self.old }) (record { nodes = nodes.new.items; cx = cx.new; board = self.new })) }
        ensures winds { IsErrOf result Stop.Winds → IsEntered X.makes (map X.promise nodes.old.items) (IsCut wiring.now) (place_for self.old node call parent) fop (record { nodes = nodes.old.items; cx = cx.old; board = self.old }) (record { nodes = nodes.new.items; cx = cx.new; board = self.new }) }
        ensures leads { Leads self.old self.new }
        ensures same { map X.promise nodes.new.items ≡ map X.promise nodes.old.items }
    {
        let place = Place {
            graph: self.graph,
            call,
            node,
            parent,
        };
        let frame = self.begin(alloc, place)?;
        let entry = Entry { frame, call };
        let step = enter_at(alloc, nodes, cx, node, entry, fop)?;
        self.carry(alloc, wiring, frame, place, step)
    }

    // A frame takes the answer of a slot.
    fn resume<C, X: Xlator<F, R, C, Local = L>>(
        &mut self,
        alloc: Global,
        nodes: &mut Vec<X>,
        cx: &mut C,
        wiring: &Wiring,
        frame: u32,
        slot: u8,
        reply: R,
    ) -> Result<(), Stop>
        requires fits { Fits (map X.promise nodes.old.items) wiring.now }
        requires sound { SoundWith (map X.promise nodes.old.items) (before_task self.old (Resume frame slot reply)) }
        ensures resumed { OnOk result (IsResumed X.makes (map X.promise nodes.old.items) (IsCarried wiring.now) frame slot reply (record { nodes = nodes.old.items; cx = cx.old; board = self.old }) (record { nodes = nodes.new.items; cx = cx.new; board = self.new })) }
        ensures winds { IsErrOf result Stop.Winds → IsResumed X.makes (map X.promise nodes.old.items) (IsCut wiring.now) frame slot reply (record { nodes = nodes.old.items; cx = cx.old; board = self.old }) (record { nodes = nodes.new.items; cx = cx.new; board = self.new }) }
        ensures leads { Leads self.old self.new }
        ensures same { map X.promise nodes.new.items ≡ map X.promise nodes.old.items }
    {
        let (place, local) = self.take_out(frame);
        let step = resume_at(alloc, nodes, cx, place.node, local, slot, reply)?;
        self.carry(alloc, wiring, frame, place, step)
    }

    // A frame goes on that waited for something that is no wind.
    fn go<C, X: Xlator<F, R, C, Local = L>>(
        &mut self,
        alloc: Global,
        nodes: &mut Vec<X>,
        cx: &mut C,
        wiring: &Wiring,
        frame: u32,
    ) -> Result<(), Stop>
        requires fits { Fits (map X.promise nodes.old.items) wiring.now }
        requires sound { SoundWith (map X.promise nodes.old.items) (before_task self.old (Go frame)) }
        ensures went { OnOk result (GoesOn X.makes (map X.promise nodes.old.items) (IsCarried wiring.now) frame (record { nodes = nodes.old.items; cx = cx.old; board = self.old }) (record { nodes = nodes.new.items; cx = cx.new; board = self.new })) }
        ensures winds { IsErrOf result Stop.Winds → GoesOn X.makes (map X.promise nodes.old.items) (IsCut wiring.now) frame (record { nodes = nodes.old.items; cx = cx.old; board = self.old }) (record { nodes = nodes.new.items; cx = cx.new; board = self.new }) }
        ensures leads { Leads self.old self.new }
        ensures same { map X.promise nodes.new.items ≡ map X.promise nodes.old.items }
    {
        let (place, local) = self.take_out(frame);
        let step = go_on_at(alloc, nodes, cx, place.node, local)?;
        self.carry(alloc, wiring, frame, place, step)
    }

    // Whether the wind has ended that a fop was to enter by.
    fn is_lost(&self, parent: Option<WindNo>) -> bool
        ensures { result ≡ is_lost self.now.stack parent }
    {
        let Some(wind) = parent else {
            return false;
        };
        match self.stack.opener(wind) {
            Some(_) => false,
            None => true,
        }
    }

    // Does a task that was taken from the queue.
    fn run_task<C, X: Xlator<F, R, C, Local = L>>(
        &mut self,
        alloc: Global,
        nodes: &mut Vec<X>,
        cx: &mut C,
        wiring: &Wiring,
        task: Task<F, R>,
    ) -> Result<(), Stop>
        requires fits { Fits (map X.promise nodes.old.items) wiring.now }
        requires sound { SoundWith (map X.promise nodes.old.items) (before_task self.old task) }
        ensures done { OnOk result (IsDone X.makes (map X.promise nodes.old.items) wiring.now task (record { nodes = nodes.old.items; cx = cx.old; board = self.old }) (record { nodes = nodes.new.items; cx = cx.new; board = self.new })) }
        ensures winds { IsErrOf result Stop.Winds → IsDoneSo X.makes (map X.promise nodes.old.items) (IsCut wiring.now) task (record { nodes = nodes.old.items; cx = cx.old; board = self.old }) (record { nodes = nodes.new.items; cx = cx.new; board = self.new }) }
        ensures leads { Leads self.old self.new }
        ensures same { map X.promise nodes.new.items ≡ map X.promise nodes.old.items }
    {
        match task {
            Task::Enter {
                node,
                call,
                parent,
                fop,
            } => {
                if self.is_lost(parent) {
                    drop(fop);
                    return Ok(());
                }
                self.enter(alloc, nodes, cx, wiring, node, call, parent, fop)
            }
            Task::Resume { frame, slot, reply } => {
                self.resume(alloc, nodes, cx, wiring, frame, slot, reply)
            }
            Task::Go { frame } => self.go(alloc, nodes, cx, wiring, frame),
        }
    }

    /// Does all tasks, first come, first served, until none is left. The nodes are those of this board's
    /// graph.
    ///
    /// # Errors
    /// `Winds` where a further wind was needed and 4,294,967,295 were opened; else `Mem`: out of memory, or a
    /// further frame or wind was needed with 4,294,967,295 frames or 2,147,483,648 winds open. The board is
    /// spent.
    pub fn run<C, X: Xlator<F, R, C, Local = L>>(
        &mut self,
        alloc: Global,
        nodes: &mut Vec<X>,
        cx: &mut C,
        wiring: &Wiring,
    ) -> Result<(), Stop>
        requires fits { Fits (map X.promise nodes.old.items) wiring.now }
        requires sound { SoundWith (map X.promise nodes.old.items) self.old }
        ensures ran { OnOk result (IsRun X.makes (map X.promise nodes.old.items) wiring.now (record { nodes = nodes.old.items; cx = cx.old; board = self.old }) (record { nodes = nodes.new.items; cx = cx.new; board = self.new })) }
        ensures empty { OnOk result (self.new.queue ≡ []) }
        ensures sound { OnOk result ((ps : ℕ → List (Promise F L)) → ps self.old.graph ≡ map X.promise nodes.old.items → Sound ps self.old → Sound ps self.new) }
        ensures traced { OnOk result ((ps : ℕ → List (Promise F L)) → ps self.old.graph ≡ map X.promise nodes.old.items → Sound ps self.old → AreTraced X.promise X.makes ps self.old → AreTraced X.promise X.makes ps self.new) }
        ensures parted { OnOk result ((outer : WindNo → ℕ) → IsParted outer self.old → IsParted outer self.new) }
        ensures nests { OnOk result ((ps : ℕ → List (Promise F L)) → ps self.old.graph ≡ map X.promise nodes.old.items → Sound ps self.old → Nests ps self.old → Nests ps self.new) }
        ensures held { OnOk result ((ps : ℕ → List (Promise F L)) (outer : ℕ → ℕ) → ps self.old.graph ≡ map X.promise nodes.old.items → Sound ps self.old → AreHeld ps outer self.old → AreHeld ps outer self.new) }
        ensures rooted { OnOk result ((root : ℕ) → AreRooted root self.old → AreRooted root self.new) }
        ensures work { OnOk result ((ps : ℕ → List (Promise F L)) → ps self.old.graph ≡ map X.promise nodes.old.items → Sound ps self.old → total ps self.new ≤ total ps self.old) }
        ensures paid { OnOk result ((ps : ℕ → List (Promise F L)) (call : ℕ) → ps self.old.graph ≡ map X.promise nodes.old.items → Sound ps self.old → account ps call self.new ≤ account ps call self.old) }
        ensures winds { IsErrOf result Stop.Winds → IsCutShort X.makes (map X.promise nodes.old.items) wiring.now (record { nodes = nodes.old.items; cx = cx.old; board = self.old }) (record { nodes = nodes.new.items; cx = cx.new; board = self.new }) }
        ensures leads { Leads self.old self.new }
        ensures same { map X.promise nodes.new.items ≡ map X.promise nodes.old.items }
    {
        while let Some(task) = self.queue.pop() {
            self.run_task(alloc, nodes, cx, wiring, task)?;
        }
        Ok(())
    }
}
