//! What comes from bricks: outputs for winds.
ghost use Rattle.std.specs.Prelude.{ℕ, List, ◌≡◌, ◌&&◌, true, IfOk, OnOk, IfSome, IsErrOf};
ghost use Rattle.fop_types.specs.Bounds.{IsRep};
ghost use Rattle.frame_stack.specs.Stack.{parent_of, opener_of, place_at};
ghost use Rattle.frame_driver.specs.Tasks.{IsWindOurs};
ghost use Rattle.graph_nodes.specs.Calls.{running, Gives, EndsEarly, CallGives, CallEndsEarly, TakesOutput, TakesSome, IsTaken, IsTakenBy, is_done, brick_of, brick_of_place, brick_of_parent, mark_of};
ghost use Rattle.graph_nodes.specs.Live.{HasLive, HasWork, KeepsWork, KeepsGraph, Settles, KeepsMount, StaysLive};

use crate::graph::Graph;
use crate::moved::{Mount, Moved};
use crate::opening::{Asked, asked_by, note_opened};
use crate::outer::AtBrick;
use crate::owning::is_ours;
use crate::sending::brick_at;
use fop_types::BrickRep;
use graph_items::{BrickReply, Clients, Up};
use std::alloc::{AllocError, Global};
use std::collections::BTreeSet;
use xlator_law::{Settled, Stop, WindNo};

fn is_done(rep: &BrickRep) -> bool
    ensures { result ≡ is_done rep.now }
{
    match rep {
        BrickRep::Done(_) => true,
        BrickRep::Gone => false,
        BrickRep::Fault => false,
        BrickRep::Unfit => false,
        BrickRep::BadFd => false,
    }
}

// Whether an output is Done of an open that went before its request.
fn is_early(asked: Asked, rep: &BrickRep) -> bool
    ensures { result ≡ (asked.before && is_done rep.now) }
{
    asked.before && is_done(rep)
}

impl Graph {
    /// Takes a brick's output for a wind. `taken` is the output's. The first part of the result is `None` exactly where
    /// the output answers an open that went before its request, and is Done. An output for a wind that is not open, or not
    /// one of this graph's clients, is late.
    ///
    /// # Errors
    /// As for [`Graph::submit`].
    pub fn arrive(
        &mut self,
        alloc: Global,
        w: WindNo,
        rep: BrickRep,
        taken: u64,
        mount: &mut Mount,
    ) -> Result<(Option<Settled>, Moved), Stop>
        requires encoded { IsRep true rep }
        requires live { HasLive self.old mount.old }
        ensures kept { KeepsMount self.old mount.old self.new mount.new }
        ensures live { OnOk result (StaysLive self.old mount.old self.new mount.new) }
        ensures gives { IfOk result (λ r. CallGives (TakesOutput w rep taken r.0) self.old mount.old r.1 self.new mount.new) }
        ensures winds { IsErrOf result Stop.Winds → CallEndsEarly (TakesSome w rep taken) self.old mount.old self.new mount.new }
    {
        self.borrow_from(mount);
        let arrived = self.arrived(alloc, w, rep, taken, &mut mount.parked);
        self.give_back(mount);
        arrived
    }

    fn arrived(
        &mut self,
        alloc: Global,
        w: WindNo,
        rep: BrickRep,
        taken: u64,
        parked: &mut BTreeSet<u32>,
    ) -> Result<(Option<Settled>, Moved), Stop>
        requires encoded { IsRep true rep }
        requires work { HasWork self.old parked.old.keys }
        ensures kept { KeepsGraph self.old self.new }
        ensures well { OnOk result (Settles self.old parked.old.keys self.new parked.new.keys) }
        ensures gives { IfOk result (λ r. Gives (TakesOutput w rep taken r.0 self.old) self.old r.1 (running self.new)) }
        ensures winds { IsErrOf result Stop.Winds → EndsEarly (TakesSome w rep taken self.old) self.old (running self.new) }
    {
        let settled = self.take_output(alloc, w, rep, taken)?;
        let moved = self.run(alloc, parked)?;
        Ok((settled, moved))
    }

    // Notes what an output opened, and takes it as a reply, unless it is Done of an open that went before its request.
    fn take_output(
        &mut self,
        alloc: Global,
        w: WindNo,
        rep: BrickRep,
        taken: u64,
    ) -> Result<Option<Settled>, AllocError>
        requires encoded { IsRep true rep }
        ensures kept { KeepsGraph self.old self.new }
        ensures works { OnOk result ((parked : List ℕ) → KeepsWork self.old parked self.new parked) }
        ensures takes { IfOk result (λ settled. TakesOutput w rep taken settled self.old (running self.new)) }
    {
        let asked = asked_by(w);
        let brick = self.brick_of(asked.wind);
        let done = is_done(&rep);
        let noted = note_opened(
            alloc,
            &mut self.cx.clients,
            self.outer.as_slice(),
            brick,
            asked,
            done,
        );
        match noted {
            Ok(()) => self.take_noted(alloc, brick, asked, rep, taken),
            Err(error) => {
                drop(rep);
                Err(error)
            }
        }
    }

    // Takes an output as a reply, unless it is Done of an open that went before its request.
    #[tactic(auto, using(crate::proofs::Living::keeps_as, crate::proofs::Living::works_as))]
    fn take_noted(
        &mut self,
        alloc: Global,
        brick: Option<u8>,
        asked: Asked,
        rep: BrickRep,
        taken: u64,
    ) -> Result<Option<Settled>, AllocError>
        requires encoded { IsRep true rep }
        requires ours { IfSome brick (λ _. IsWindOurs self.old.board.stack self.old.board.graph asked.wind) }
        ensures kept { KeepsGraph self.old self.new }
        ensures works { OnOk result ((parked : List ℕ) → KeepsWork self.old parked self.new parked) }
        ensures nodes { self.new.nodes.items ≡ self.old.nodes.items }
        ensures cx { self.new.cx ≡ self.old.cx }
        ensures taken { IfOk result (λ settled. IsTakenBy (asked.before && is_done rep) brick asked.wind rep taken self.old.cx.clients self.old.board settled self.new.board) }
    {
        if is_early(asked, &rep) {
            drop(rep);
            return Ok(None);
        }
        let settled = self.take_reply(alloc, brick, asked.wind, rep, taken)?;
        Ok(Some(settled))
    }

    // The brick at which a wind is open: that of the client which opened it. It is one of this graph.
    fn brick_of(&self, wind: WindNo) -> Option<u8>
        ensures is { result ≡ brick_of self.now wind }
        ensures ours { IfSome result (λ _. IsWindOurs self.now.board.stack self.now.board.graph wind) }
    {
        if is_ours(&self.board, wind) {
            return self.client_of(wind);
        }
        None
    }

    // The brick of the client that opened a wind.
    fn client_of(&self, wind: WindNo) -> Option<u8>
        ensures { result ≡ brick_of_parent self.now.nodes.items self.now.board.stack (parent_of (opener_of self.now.board.stack wind)) }
    {
        match self.board.stack.wound_by(wind) {
            Some(parent) => self.client_at(parent.frame),
            None => None,
        }
    }

    // The brick of the client that a frame is of.
    fn client_at(&self, frame: u32) -> Option<u8>
        ensures { result ≡ brick_of_place self.now.nodes.items (place_at self.now.board.stack frame) }
    {
        match self.board.stack.place(frame) {
            Some(place) => brick_at(self.nodes.as_slice(), place.node),
            None => None,
        }
    }

    // The frame of a wind is to be resumed by its brick's reply. A wind that is open at no brick of this graph is late.
    #[tactic(auto, using(crate::proofs::Living::keeps_as, crate::proofs::Living::works_as, crate::proofs::Living::keeps_led))]
    fn take_reply(
        &mut self,
        alloc: Global,
        brick: Option<u8>,
        wind: WindNo,
        rep: BrickRep,
        taken: u64,
    ) -> Result<Settled, AllocError>
        requires encoded { IsRep true rep }
        requires ours { IfSome brick (λ _. IsWindOurs self.old.board.stack self.old.board.graph wind) }
        ensures kept { KeepsGraph self.old self.new }
        ensures works { OnOk result ((parked : List ℕ) → KeepsWork self.old parked self.new parked) }
        ensures nodes { self.new.nodes.items ≡ self.old.nodes.items }
        ensures cx { self.new.cx ≡ self.old.cx }
        ensures taken { IfOk result (λ settled. IsTaken brick wind rep taken self.old.cx.clients self.old.board settled self.new.board) }
    {
        let Some(at) = brick else {
            drop(rep);
            return Ok(Settled::Lost(self.board.stack.word(wind.slot)));
        };
        close_at(&mut self.outer, at, wind);
        let mark = mark_of(&self.cx.clients, at, &rep, taken);
        let settled = self
            .board
            .reply(alloc, wind, Up::Brick(BrickReply::new(rep, mark)))?;
        Ok(settled)
    }
}

// A wind is no longer open at its brick.
fn close_at(outer: &mut Vec<AtBrick>, brick: u8, wind: WindNo) {
    if let Some(at) = outer.get_mut(brick as usize) {
        at.close(wind);
    }
}

// What a reply is marked with: its place in the brick's journal where it is a fault, else the last connection.
fn mark_of(clients: &Clients, brick: u8, rep: &BrickRep, taken: u64) -> u64
    ensures { result ≡ mark_of clients.now brick rep.now taken }
{
    match rep {
        BrickRep::Done(_) => clients.last(brick) as u64,
        BrickRep::Gone => clients.last(brick) as u64,
        BrickRep::Fault => taken,
        BrickRep::Unfit => clients.last(brick) as u64,
        BrickRep::BadFd => clients.last(brick) as u64,
    }
}
