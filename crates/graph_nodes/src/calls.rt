//! The calls of a graph. Each borrows the mount's stack and ledger, does its part, runs the tasks that are left, and gives
//! both back.
ghost use Rattle.std.specs.Prelude.{ℕ, List, ◌≡◌, ◌<◌, None, length, map, IfNone, IfOk, OnOk, IsErrOf, MatchOption};
ghost use Rattle.std.specs.BTreeMap.{get};
ghost use Rattle.std.specs.Ordering.{nat_cmp};
ghost use Rattle.fop_types.specs.Bounds.{IsFop};
ghost use Rattle.graph_nodes.specs.Calls.{running, Gives, EndsEarly, CallGives, CallEndsEarly, Enters, Wakes, turn_by, turn_at, TurnIs, TakesTurn, RunsTask};
ghost use Rattle.graph_nodes.specs.Live.{HasLive, HasWork, KeepsWork, KeepsGraph, Settles, exchanged, borrowing, lending, KeepsMount, StaysLive};
ghost use Rattle.graph_nodes.specs.Promises.{node_promise};

use crate::context::Context;
use crate::graph::Graph;
use crate::kinds::{Kind, Node};
use crate::moved::{Mount, Moved};
use crate::parked::wake;
use fop_types::Fop;
use graph_items::{Down, FileOp};
use std::alloc::{AllocError, Global};
use std::collections::BTreeSet;
use std::mem;
use xlator_law::Stop;

impl Graph {
    // The graph and the mount exchange their stacks and ledgers.
    fn exchange(&mut self, mount: &mut Mount)
        ensures graph { self.new ≡ exchanged self.old mount.old }
        ensures mount { mount.new ≡ lending self.old mount.old }
    {
        self.board.swap_stack(&mut mount.frames);
        mem::swap(&mut self.cx.ledger, &mut mount.ledger);
    }

    /// The graph borrows the mount's stack and ledger, and learns how many sets the first graph has.
    pub(crate) fn borrow_from(&mut self, mount: &mut Mount)
        ensures graph { self.new ≡ borrowing self.old mount.old }
        ensures mount { mount.new ≡ lending self.old mount.old }
    {
        self.exchange(mount);
        self.cx.root_sets = mount.root_sets;
    }

    /// The graph gives the mount's stack and ledger back.
    pub(crate) fn give_back(&mut self, mount: &mut Mount)
        ensures graph { self.new ≡ exchanged self.old mount.old }
        ensures mount { mount.new ≡ lending self.old mount.old }
    {
        self.exchange(mount);
    }

    /// A fop of a call enters the graph.
    ///
    /// # Errors
    /// As for `Board::run`. The graph is spent; the mount has its stack and ledger back.
    pub fn submit(
        &mut self,
        alloc: Global,
        call: u32,
        fop: Fop,
        mount: &mut Mount,
    ) -> Result<Moved, Stop>
        requires fop { IsFop fop }
        requires live { HasLive self.old mount.old }
        ensures kept { KeepsMount self.old mount.old self.new mount.new }
        ensures live { OnOk result (StaysLive self.old mount.old self.new mount.new) }
        ensures gives { IfOk result (λ moved. CallGives (Enters call fop) self.old mount.old moved self.new mount.new) }
        ensures winds { IsErrOf result Stop.Winds → CallEndsEarly (Enters call fop) self.old mount.old self.new mount.new }
    {
        self.borrow_from(mount);
        let moved = self.entered(alloc, call, fop, &mut mount.parked);
        self.give_back(mount);
        moved
    }

    fn entered(
        &mut self,
        alloc: Global,
        call: u32,
        fop: Fop,
        parked: &mut BTreeSet<u32>,
    ) -> Result<Moved, Stop>
        requires fop { IsFop fop }
        requires work { HasWork self.old parked.old.keys }
        requires top { self.old.top < length self.old.nodes.items }
        ensures kept { KeepsGraph self.old self.new }
        ensures well { OnOk result (Settles self.old parked.old.keys self.new parked.new.keys) }
        ensures gives { IfOk result (λ moved. Gives (Enters call fop self.old) self.old moved (running self.new)) }
        ensures winds { IsErrOf result Stop.Winds → EndsEarly (Enters call fop self.old) self.old (running self.new) }
    {
        self.put(alloc, call, fop)?;
        self.run(alloc, parked)
    }

    // A fop is to enter the root.
    fn put(&mut self, alloc: Global, call: u32, fop: Fop) -> Result<(), AllocError>
        requires fop { IsFop fop }
        requires top { self.old.top < length self.old.nodes.items }
        ensures kept { KeepsGraph self.old self.new }
        ensures works { OnOk result ((parked : List ℕ) → KeepsWork self.old parked self.new parked) }
        ensures enters { OnOk result (Enters call fop self.old (running self.new)) }
    {
        self.board
            .submit(alloc, call, self.top, Down::Fop(FileOp::new(fop)))?;
        Ok(())
    }

    /// The hold of a call that waits for it in this graph was granted. Where the call waits for none, nothing changes.
    ///
    /// # Errors
    /// As for [`Graph::submit`].
    pub fn held(&mut self, alloc: Global, call: u32, mount: &mut Mount) -> Result<Moved, Stop>
        requires live { HasLive self.old mount.old }
        ensures kept { KeepsMount self.old mount.old self.new mount.new }
        ensures live { OnOk result (StaysLive self.old mount.old self.new mount.new) }
        ensures gives { IfOk result (λ moved. CallGives (Wakes mount.old.parked.keys (get nat_cmp self.old.waits call)) self.old mount.old moved self.new mount.new) }
        ensures winds { IsErrOf result Stop.Winds → CallEndsEarly (Wakes mount.old.parked.keys (get nat_cmp self.old.waits call)) self.old mount.old self.new mount.new }
    {
        let frame = self.waits.remove(&call);
        self.resumed(alloc, frame, mount)
    }

    // A frame that is parked goes on, if there is one.
    fn resumed(
        &mut self,
        alloc: Global,
        frame: Option<u32>,
        mount: &mut Mount,
    ) -> Result<Moved, Stop>
        requires live { HasLive self.old mount.old }
        ensures kept { KeepsMount self.old mount.old self.new mount.new }
        ensures live { OnOk result (StaysLive self.old mount.old self.new mount.new) }
        ensures gives { IfOk result (λ moved. CallGives (Wakes mount.old.parked.keys frame) self.old mount.old moved self.new mount.new) }
        ensures winds { IsErrOf result Stop.Winds → CallEndsEarly (Wakes mount.old.parked.keys frame) self.old mount.old self.new mount.new }
    {
        self.borrow_from(mount);
        let moved = self.woken(alloc, frame, &mut mount.parked);
        self.give_back(mount);
        moved
    }

    fn woken(
        &mut self,
        alloc: Global,
        frame: Option<u32>,
        parked: &mut BTreeSet<u32>,
    ) -> Result<Moved, Stop>
        requires work { HasWork self.old parked.old.keys }
        ensures kept { KeepsGraph self.old self.new }
        ensures well { OnOk result (Settles self.old parked.old.keys self.new parked.new.keys) }
        ensures gives { IfOk result (λ moved. Gives (Wakes parked.old.keys frame self.old) self.old moved (running self.new)) }
        ensures winds { IsErrOf result Stop.Winds → EndsEarly (Wakes parked.old.keys frame self.old) self.old (running self.new) }
    {
        self.wake_parked(alloc, frame, parked)?;
        self.run(alloc, parked)
    }

    // A frame that is parked is to go on. Another one is left as it is.
    fn wake_parked(
        &mut self,
        alloc: Global,
        frame: Option<u32>,
        parked: &mut BTreeSet<u32>,
    ) -> Result<(), AllocError>
        ensures kept { KeepsGraph self.old self.new }
        ensures works { OnOk result (KeepsWork self.old parked.old.keys self.new parked.new.keys) }
        ensures wakes { OnOk result (Wakes parked.old.keys frame self.old (running self.new)) }
    {
        wake(alloc, &mut self.board, parked, frame)
    }

    /// Runs a task: the frame of the io-threads node with this number whose turn it is goes on. `None` comes exactly where
    /// no frame waits there, or there is no such node.
    ///
    /// # Errors
    /// As for [`Graph::submit`].
    pub fn run_task(
        &mut self,
        alloc: Global,
        task: u32,
        mount: &mut Mount,
    ) -> Result<Option<Moved>, Stop>
        requires live { HasLive self.old mount.old }
        ensures kept { KeepsMount self.old mount.old self.new mount.new }
        ensures live { OnOk result (StaysLive self.old mount.old self.new mount.new) }
        ensures gives { IfOk result (λ moved. MatchOption moved (turn_at self.old.nodes.items task ≡ None) (λ m. CallGives (RunsTask task mount.old.parked.keys) self.old mount.old m self.new mount.new)) }
        ensures idle { IfOk result (λ moved. IfNone moved (self.new.cx ≡ self.old.cx)) }
        ensures winds { IsErrOf result Stop.Winds → CallEndsEarly (RunsTask task mount.old.parked.keys) self.old mount.old self.new mount.new }
    {
        let Some(frame) = take_turn(&mut self.nodes, &mut self.cx, task) else {
            return Ok(None);
        };
        let moved = self.resumed(alloc, Some(frame), mount)?;
        Ok(Some(moved))
    }
}

// Takes the frame whose turn it is in the io-threads node with this number.
fn take_turn(nodes: &mut Vec<Node>, cx: &mut Context, task: u32) -> Option<u32>
    ensures promises { map node_promise nodes.new.items ≡ map node_promise nodes.old.items }
    ensures turn { MatchOption result (turn_at nodes.old.items task ≡ None) (λ key. TakesTurn task nodes.old.items cx.old key nodes.new.items cx.new) }
    ensures idle { IfNone result (cx.new ≡ cx.old) }
{
    if task as usize >= nodes.len() {
        return None;
    }
    take_turn_in(&mut nodes[task as usize], cx)
}

#[tactic(auto, using(crate::proofs::Living::queue_promise))]
fn take_turn_in(node: &mut Node, cx: &mut Context) -> Option<u32>
    ensures promise { node_promise node.new ≡ node_promise node.old }
    ensures turn { MatchOption result (turn_by node.old.kind ≡ None) (λ key. TurnIs node.old cx.old key node.new cx.new) }
    ensures idle { IfNone result (cx.new ≡ cx.old) }
{
    match &mut node.kind {
        Kind::IoThreads(queue) => queue.take(cx),
        Kind::Root => None,
        Kind::Pass => None,
        Kind::IoCache(_) => None,
        Kind::Distribute(_) => None,
        Kind::Replicate(_) => None,
        Kind::Client(_) => None,
    }
}
