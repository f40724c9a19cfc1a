//! The ends of connections: each ends all winds that are open at its brick.
ghost use Rattle.std.specs.Prelude.{ℕ, List, ◌≡◌, ◌++◌, OnOk, IfOk, IsErrOf};
ghost use Rattle.std.specs.BTreeMap.{values};
ghost use Rattle.frame_driver.specs.Bailing.{AreOurs};
ghost use Rattle.graph_nodes.specs.Calls.{running, Gives, EndsEarly, CallGives, CallEndsEarly, Bails, BailsSome, EndsAt, is_ours, gone_in, gone_of};
ghost use Rattle.graph_nodes.specs.OpenWinds.{winds_at};
ghost use Rattle.graph_nodes.specs.Live.{HasLive, HasWork, KeepsWork, KeepsGraph, Settles, KeepsMount, StaysLive};

use crate::graph::Graph;
use crate::loads::at_most_u32;
use crate::locals::Local;
use crate::moved::{Mount, Moved};
use crate::outer::{AtBrick, Waiting, take_first};
use crate::owning::is_ours;
use frame_driver::{Bailed, Board};
use graph_items::{BrickReply, Down, Up};
use std::alloc::{AllocError, Global};
use std::collections::{BTreeMap, BTreeSet};
use xlator_law::{Stop, WindNo};

impl Graph {
    /// Ends the open connection to a brick, if there is one, and all winds that are open there. Gives how many were
    /// pending.
    ///
    /// # Errors
    /// As for [`Graph::submit`].
    pub fn bail(
        &mut self,
        alloc: Global,
        brick: u8,
        mount: &mut Mount,
    ) -> Result<(u32, Moved), Stop>
        requires live { HasLive self.old mount.old }
        ensures kept { KeepsMount self.old mount.old self.new mount.new }
        ensures live { OnOk result (StaysLive self.old mount.old self.new mount.new) }
        ensures gives { IfOk result (λ r. CallGives (Bails brick r.0) self.old mount.old r.1 self.new mount.new) }
        ensures winds { IsErrOf result Stop.Winds → CallEndsEarly (BailsSome brick) self.old mount.old self.new mount.new }
    {
        self.borrow_from(mount);
        let bailed = self.bailed(alloc, brick, &mut mount.parked);
        self.give_back(mount);
        bailed
    }

    fn bailed(
        &mut self,
        alloc: Global,
        brick: u8,
        parked: &mut BTreeSet<u32>,
    ) -> Result<(u32, Moved), Stop>
        requires work { HasWork self.old parked.old.keys }
        ensures kept { KeepsGraph self.old self.new }
        ensures well { OnOk result (Settles self.old parked.old.keys self.new parked.new.keys) }
        ensures gives { IfOk result (λ r. Gives (Bails brick r.0 self.old) self.old r.1 (running self.new)) }
        ensures winds { IsErrOf result Stop.Winds → EndsEarly (BailsSome brick self.old) self.old (running self.new) }
    {
        let won = self.end_at(alloc, brick)?;
        let moved = self.run(alloc, parked)?;
        Ok((at_most_u32(won), moved))
    }

    // The connection to a brick ends with its winds, whose frames are to be resumed.
    fn end_at(&mut self, alloc: Global, brick: u8) -> Result<u64, AllocError>
        ensures kept { KeepsGraph self.old self.new }
        ensures works { OnOk result ((parked : List ℕ) → KeepsWork self.old parked self.new parked) }
        ensures ends { IfOk result (λ won. EndsAt brick won self.old (running self.new)) }
    {
        self.cx.clients.end(brick);
        let mark = self.cx.clients.last(brick) as u64;
        let waiting = take_at(alloc, &mut self.outer, brick);
        let winds = gone_of(alloc, &self.board, waiting, mark)?;
        let won = self.board.bail(alloc, winds)?;
        Ok(won)
    }
}

// Takes all winds that are open at a brick.
fn take_at(alloc: Global, outer: &mut Vec<AtBrick>, brick: u8) -> BTreeMap<u64, Waiting>
    ensures { values result ≡ winds_at outer.old.items brick }
{
    match outer.get_mut(brick as usize) {
        Some(at) => at.take_all(alloc),
        None => BTreeMap::new(alloc),
    }
}

// A wind that is open at a brick which is gone, if it is one of the board's graph, as all of them are.
fn push_gone(
    board: &Board<Down, Up, Local>,
    winds: &mut Vec<Bailed<Up>>,
    wind: WindNo,
    mark: u64,
) -> Result<(), AllocError>
    ensures ours { OnOk result (AreOurs board.now.stack board.now.graph winds.old.items → AreOurs board.now.stack board.now.graph winds.new.items) }
    ensures gone { OnOk result (winds.new.items ≡ winds.old.items ++ gone_in (is_ours board.now wind) wind mark) }
{
    let ours = is_ours(board, wind);
    if ours {
        winds.push(Bailed {
            wind,
            reply: Up::Brick(BrickReply::gone(mark)),
        })?;
        return Ok(());
    }
    Ok(())
}

// The winds that are open at a brick, each with the answer of a brick that is gone.
#[tactic(auto, using(crate::proofs::Living::none_ours))]
fn gone_of(
    alloc: Global,
    board: &Board<Down, Up, Local>,
    waiting: BTreeMap<u64, Waiting>,
    mark: u64,
) -> Result<Vec<Bailed<Up>>, AllocError>
    ensures ours { IfOk result (λ winds. AreOurs board.now.stack board.now.graph winds.items) }
    ensures gone { IfOk result (λ winds. winds.items ≡ gone_of board.now mark (values waiting)) }
{
    let mut rest = waiting;
    let mut winds = Vec::new(alloc);
    while let Some(first) = take_first(&mut rest) {
        push_gone(board, &mut winds, first.wind, mark)?;
    }
    Ok(winds)
}
