//! Moves of a call that is under way: it is parked, asks for its next fop's hold, begins the fop, or has its hold extended
//! or released.
ghost use Rattle.std.specs.Prelude.{◌≤◌};

use crate::graphs::LiveGraphs;
use crate::inodes::all_agree;
use crate::parts::Parts;
use crate::planned::Planned;
use crate::turn::Todo;
use call_fops::{Hold, next_fop, next_hold};
use fd_table::FdTable;
use fop_types::Gfid;
use graph_nodes::HoldAsk;
use hub_tables::{Calls, Stage, changes_bytes_next};
use mount_locks::Held;
use std::alloc::Global;
use xlator_law::Stop;

// The gfids of a hold, each once.
#[derive(Clone, Copy)]
struct Gfids {
    all: [Gfid; 2],
    count: usize,
}

fn gfids_of(hold: Hold) -> Gfids
    ensures { result.count ≤ 2 }
{
    let first = hold.first.gfid;
    match hold.second {
        None => Gfids {
            all: [first, first],
            count: 1,
        },
        Some(second) => Gfids {
            all: [first, second.gfid],
            count: if second.gfid == first { 1 } else { 2 },
        },
    }
}

/// The hold of the next fop of a call.
pub(crate) fn hold_next(calls: &Calls, fds: &FdTable, on: &Planned, call: u32) -> Option<Hold> {
    let state = calls.get(call)?;
    let line = on.line(state.at)?;
    next_hold(&line.call, &state.walk, state.session, fds)
}

// Whether a call of a graph has to wait for the calls of an older graph with fewer sets. The sets of later graphs are no
// fewer, so the oldest one with calls decides.
fn must_wait(calls: &Calls, live: &LiveGraphs, graph: u32) -> bool {
    match calls.oldest_graph() {
        Some(oldest) => oldest < graph && live.sets_of(oldest) < live.sets_of(graph),
        None => false,
    }
}

// Whether a call's fop runs and has not extended its hold. A fop extends it once.
fn may_extend(calls: &Calls, call: u32) -> bool {
    match calls.get(call) {
        Some(state) => state.stage == Stage::Runs,
        None => false,
    }
}

impl Parts {
    /// A call begins its walk: it asks for its first hold, or is parked.
    ///
    /// # Errors
    /// As for `Hub::submit`.
    pub(crate) fn start(
        &mut self,
        alloc: Global,
        on: &Planned,
        call: u32,
        graph: u32,
    ) -> Result<(), Stop> {
        if must_wait(&self.calls, &self.graphs.live, graph) {
            self.calls.set_stage(call, Stage::Parked);
            self.calls.park(call)?;
            return Ok(());
        }
        self.ask(alloc, on, call)
    }

    /// The parked calls that may go on now do, by rising number.
    ///
    /// # Errors
    /// As for `Hub::submit`.
    pub(crate) fn unpark(&mut self, alloc: Global, on: &Planned) -> Result<(), Stop> {
        let mut from = 0;
        for _ in 0..self.calls.parked_len() {
            let Some(call) = self.calls.parked_from(from) else {
                return Ok(());
            };
            from = call.saturating_add(1);
            self.unpark_one(alloc, on, call)?;
        }
        Ok(())
    }

    fn unpark_one(&mut self, alloc: Global, on: &Planned, call: u32) -> Result<(), Stop> {
        let Some(state) = self.calls.get(call) else {
            return Ok(());
        };
        if state.stage != Stage::Parked || must_wait(&self.calls, &self.graphs.live, state.graph) {
            return Ok(());
        }
        self.calls.unpark(call);
        self.ask(alloc, on, call)
    }

    /// A call, which has no hold and waits for none, asks for that of its next fop. The fop begins where it is granted.
    ///
    /// # Errors
    /// As for `Hub::submit`.
    pub(crate) fn ask(&mut self, alloc: Global, on: &Planned, call: u32) -> Result<(), Stop> {
        let Some(hold) = hold_next(&self.calls, &self.fds, on, call) else {
            return Ok(());
        };
        self.calls.set_stage(call, Stage::Asks);
        let gfids = gfids_of(hold);
        match self
            .holds
            .ask(alloc, call, &gfids.all[..gfids.count], hold.shared)?
        {
            Held::Granted => self.begin(alloc, on, call),
            Held::Waiting => Ok(()),
        }
    }

    /// The hold of a call's next fop was granted: the fop begins. Where an object has another kind than its inode, the fop is
    /// refused.
    ///
    /// # Errors
    /// As for `Hub::submit`.
    pub(crate) fn begin(&mut self, alloc: Global, on: &Planned, call: u32) -> Result<(), Stop> {
        let Some(hold) = hold_next(&self.calls, &self.fds, on, call) else {
            return Ok(());
        };
        self.calls.set_stage(call, Stage::Runs);
        if !all_agree(self.graphs.nodes.inodes(), hold) {
            self.turn.todo.push(Todo::Refuse(call))?;
            return Ok(());
        }
        self.link_all(alloc, hold)?;
        self.send_fop(alloc, on, call, hold.first.gfid)
    }

    // The next fop of a call enters its graph. Where it changes the bytes of its file, the pages of that go first.
    fn send_fop(&mut self, alloc: Global, on: &Planned, call: u32, gfid: Gfid) -> Result<(), Stop> {
        let Some(state) = self.calls.get(call) else {
            return Ok(());
        };
        let Some(line) = on.line(state.at) else {
            return Ok(());
        };
        let graph = state.graph;
        if changes_bytes_next(&line.call, &state.walk) {
            self.graphs.drop_pages(gfid);
        }
        let drawn = state.drawn;
        match next_fop(
            alloc,
            &line.call,
            &state.walk,
            state.session,
            drawn,
            &self.fds,
        )? {
            Some(fop) => self.enter(alloc, graph, call, fop),
            None => Ok(()),
        }
    }

    // A call that has waited for a hold has it.
    fn go_on(&mut self, alloc: Global, on: &Planned, call: u32) -> Result<(), Stop> {
        let Some(state) = self.calls.get(call) else {
            return Ok(());
        };
        let stage = state.stage;
        let graph = state.graph;
        match stage {
            Stage::Asks => self.begin(alloc, on, call),
            Stage::Extends => self.go_on_held(alloc, graph, call),
            Stage::Parked => Ok(()),
            Stage::Runs => Ok(()),
            Stage::Extended => Ok(()),
        }
    }

    // The hold of a call that waits in its graph was extended.
    fn go_on_held(&mut self, alloc: Global, graph: u32, call: u32) -> Result<(), Stop> {
        self.calls.set_stage(call, Stage::Extended);
        let moved = self.graphs.nodes.held(alloc, graph, call);
        self.ran(alloc, graph, moved)
    }

    /// Lets a call's holds go. The calls that are let in go on, in the order of the queue.
    ///
    /// # Errors
    /// As for `Hub::submit`.
    pub(crate) fn release(&mut self, alloc: Global, on: &Planned, call: u32) -> Result<(), Stop> {
        if self.holds.release_done(call) {
            return Ok(());
        }
        let granted = self.holds.release(alloc, call)?;
        let went = self.go_on_all(alloc, on, granted.as_slice());
        drop(granted);
        went
    }

    // Calls that have waited for a hold have it.
    fn go_on_all(&mut self, alloc: Global, on: &Planned, calls: &[u32]) -> Result<(), Stop> {
        for call in calls {
            self.go_on(alloc, on, *call)?;
        }
        Ok(())
    }

    /// A call's fop asks for a hold, or lets one go.
    ///
    /// # Errors
    /// As for `Hub::submit`.
    pub(crate) fn hold_asked(
        &mut self,
        alloc: Global,
        on: &Planned,
        graph: u32,
        call: u32,
        ask: HoldAsk,
    ) -> Result<(), Stop> {
        match ask {
            HoldAsk::Extend(gfid) => self.extend(alloc, graph, call, gfid),
            HoldAsk::Alone(_) => Ok(()),
            HoldAsk::Release => self.release(alloc, on, call),
        }
    }

    // The hold of a call whose fop runs is extended. A fop that asks again is not heard.
    fn extend(&mut self, alloc: Global, graph: u32, call: u32, gfid: Gfid) -> Result<(), Stop> {
        if !may_extend(&self.calls, call) {
            return Ok(());
        }
        match self.holds.extend(alloc, call, gfid)? {
            Held::Granted => self.go_on_held(alloc, graph, call),
            Held::Waiting => {
                self.calls.set_stage(call, Stage::Extends);
                Ok(())
            }
        }
    }
}
