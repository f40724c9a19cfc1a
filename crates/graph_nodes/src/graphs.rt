//! The graphs of a mount by their numbers, with what they share.
ghost use Rattle.std.specs.Prelude.{ℕ, ◌≡◌, ◌||◌, ◌&&◌, not, true, false, [], None, is_some, IfSome, IfOk, OnOk, OnErr, if◌then◌else◌};
ghost use Rattle.std.specs.BTreeMap.{insert_entry, is_at};
ghost use Rattle.std.specs.Map.{remove_entry};
ghost use Rattle.std.specs.Ordering.{nat_cmp};
ghost use Rattle.std.specs.FinMap as map;
ghost use Rattle.fop_types.specs.Bounds.{IsFop, IsRep};
ghost use Rattle.graph_items.specs.Clients.{ended_at};
ghost use Rattle.graph_nodes.specs.Among.{SeemsToGive, submits, holds, arrives, bails, runs_task};
ghost use Rattle.graph_nodes.specs.Mounted.{has, KeepsMounted, IsSpentBy};
ghost use Rattle.graph_nodes.specs.Plans.{IsPlan};
ghost use Rattle.graph_nodes.specs.Seen.{is_drained_in, changed_at, next_in, connects, new_graph, Works, same_clients};

use crate::graph::Graph;
use crate::making::{make_in, remove_in};
use crate::mounted::{
    arrive_in, bail_in, connect_in, drop_pages_in, held_in, retire_in, run_task_in, submit_in,
};
use crate::moved::{Mount, Moved};
use fop_types::{BrickRep, Fop, Gfid, Seq};
use graph_build::Plan;
use std::alloc::{AllocError, Global};
use std::collections::BTreeMap;
use std::marker::Model;
use xlator_law::{Settled, Stop, WindNo};

/// The graphs of a mount and what they share. Each call names a graph by its number, and answers `None` where there is
/// no such graph.
///
/// Contracts see the numbers, by them the connections of each graph and whether it has frames, the ready tasks, the inodes in
/// use, the history, and whether the graphs are spent: once a call failed, each answers so from then on. They are not
/// dropped: [`Graphs::discard`] ends them, so that no crate above proves how.
pub struct Graphs {
    pub(crate) live: BTreeMap<u32, Graph>,
    pub(crate) mount: Mount,
    is_spent: bool,
}

impl Model for Graphs {
    ghost use Rattle.std.specs.Prelude.{MatchBool};
    ghost use Rattle.std.specs.BTreeMap.{keys};
    ghost use Rattle.graph_nodes.specs.Live.{AllLive};
    ghost use Rattle.graph_nodes.specs.Mounted.{Mounted, mounted_code};
    ghost use Rattle.graph_nodes.specs.Ready.{tasks_in};
    ghost use Rattle.graph_nodes.specs.Seen.{seen_in};

    ghost Value = { Mounted };

    ghost coded = { mounted_code };

    ghost view = { λ g. record { numbers = keys g.live; graphs = seen_in g.live.entries; tasks = tasks_in g.live.entries; inodes = g.mount.inodes; history = g.mount.ledger.history; spent = g.is_spent } };

    ghost invariant = { λ g. MatchBool g.is_spent (Unit {0}) (AllLive g.live g.mount) };
}

impl Graphs {
    /// No graphs, in a mount whose first graph will have so many sets. It takes no memory.
    pub fn new(alloc: Global, root_sets: u8) -> Graphs
        ensures { result ≡ record { numbers = []; graphs = []; tasks = []; inodes = map.empty; history = []; spent = false } }
    {
        Graphs {
            live: BTreeMap::new(alloc),
            mount: Mount::new(alloc, root_sets),
            is_spent: false,
        }
    }

    /// Makes a graph of a plan that `build` gives, under this number. False comes exactly where there is one of this number.
    ///
    /// # Errors
    /// Out of memory, now or in an earlier call. The graphs are spent.
    pub fn make(&mut self, alloc: Global, plan: &Plan, number: u32) -> Result<bool, AllocError>
        requires { IsPlan plan.now }
        ensures inodes { self.new.inodes ≡ self.old.inodes }
        ensures history { self.new.history ≡ self.old.history }
        ensures ok { OnOk result ((self.old.spent ≡ false) × (self.new.spent ≡ false)) }
        ensures made { IfOk result (λ made. made ≡ not (has self.old.numbers number)) }
        ensures numbers { OnOk result ((q : ℕ) → has self.new.numbers q ≡ (is_at (nat_cmp number) q || has self.old.numbers q)) }
        ensures graphs { IfOk result (λ made. self.new.graphs ≡ (if made then insert_entry nat_cmp self.old.graphs number (new_graph plan.now number) else self.old.graphs)) }
        ensures tasks { OnOk result (self.new.tasks ≡ self.old.tasks) }
        ensures err { OnErr result (IsSpentBy self.old self.new) }
    {
        if self.is_spent {
            return Err(AllocError);
        }
        self.is_spent = true;
        let made = make_in(alloc, &mut self.live, plan, number)?;
        self.is_spent = false;
        Ok(made)
    }

    /// Drops a graph without frames. False comes exactly where it has some, or there is no such graph.
    pub fn remove(&mut self, number: u32) -> bool
        ensures inodes { self.new.inodes ≡ self.old.inodes }
        ensures history { self.new.history ≡ self.old.history }
        ensures spent { self.new.spent ≡ self.old.spent }
        ensures numbers { (q : ℕ) → has self.new.numbers q ≡ (not (result && is_at (nat_cmp number) q) && has self.old.numbers q) }
        ensures drained { result ≡ is_drained_in self.old.graphs number }
        ensures graphs { self.new.graphs ≡ (if result then remove_entry (is_at (nat_cmp number)) self.old.graphs else self.old.graphs) }
    {
        remove_in(&mut self.live, number)
    }

    /// A fop of a call enters a graph.
    ///
    /// # Errors
    /// As for [`Graph::submit`], now or in an earlier call. The graphs are spent.
    pub fn submit(
        &mut self,
        alloc: Global,
        number: u32,
        call: u32,
        fop: Fop,
    ) -> Result<Option<Moved>, Stop>
        requires { IsFop fop }
        ensures ok { OnOk result (KeepsMounted self.old self.new) }
        ensures graphs { OnOk result (Works same_clients number self.old.graphs self.new.graphs) }
        ensures gives { IfOk result (λ moved. IfSome moved (λ m. SeemsToGive number (submits call fop) self.old m self.new)) }
        ensures there { IfOk result (λ moved. is_some moved ≡ has self.old.numbers number) }
        ensures err { OnErr result (IsSpentBy self.old self.new) }
    {
        if self.is_spent {
            drop(fop);
            return Err(Stop::Mem);
        }
        self.is_spent = true;
        let moved = submit_in(alloc, &mut self.live, &mut self.mount, number, call, fop)?;
        self.is_spent = false;
        Ok(moved)
    }

    /// The hold of a call that waits for it in a graph was granted.
    ///
    /// # Errors
    /// As for [`Graphs::submit`].
    pub fn held(&mut self, alloc: Global, number: u32, call: u32) -> Result<Option<Moved>, Stop>
        ensures ok { OnOk result (KeepsMounted self.old self.new) }
        ensures graphs { OnOk result (Works same_clients number self.old.graphs self.new.graphs) }
        ensures gives { IfOk result (λ moved. IfSome moved (λ m. SeemsToGive number (holds call) self.old m self.new)) }
        ensures there { IfOk result (λ moved. is_some moved ≡ has self.old.numbers number) }
        ensures err { OnErr result (IsSpentBy self.old self.new) }
    {
        if self.is_spent {
            return Err(Stop::Mem);
        }
        self.is_spent = true;
        let moved = held_in(alloc, &mut self.live, &mut self.mount, number, call)?;
        self.is_spent = false;
        Ok(moved)
    }

    /// A graph takes a brick's output for a wind, as [`Graph::arrive`] does.
    ///
    /// # Errors
    /// As for [`Graphs::submit`].
    pub fn arrive(
        &mut self,
        alloc: Global,
        number: u32,
        wind: WindNo,
        rep: BrickRep,
        taken: u64,
    ) -> Result<Option<(Option<Settled>, Moved)>, Stop>
        requires { IsRep true rep }
        ensures ok { OnOk result (KeepsMounted self.old self.new) }
        ensures graphs { OnOk result (Works same_clients number self.old.graphs self.new.graphs) }
        ensures gives { IfOk result (λ arrived. IfSome arrived (λ r. SeemsToGive number (arrives wind rep taken r.0) self.old r.1 self.new)) }
        ensures there { IfOk result (λ arrived. is_some arrived ≡ has self.old.numbers number) }
        ensures err { OnErr result (IsSpentBy self.old self.new) }
    {
        if self.is_spent {
            drop(rep);
            return Err(Stop::Mem);
        }
        self.is_spent = true;
        let arrived = arrive_in(
            alloc,
            &mut self.live,
            &mut self.mount,
            number,
            wind,
            rep,
            taken,
        )?;
        self.is_spent = false;
        Ok(arrived)
    }

    /// Ends a graph's connection to a brick with the winds that are open there, as [`Graph::bail`] does.
    ///
    /// # Errors
    /// As for [`Graphs::submit`].
    pub fn bail(
        &mut self,
        alloc: Global,
        number: u32,
        brick: u8,
    ) -> Result<Option<(u32, Moved)>, Stop>
        ensures ok { OnOk result (KeepsMounted self.old self.new) }
        ensures graphs { OnOk result (Works (λ cs. ended_at cs brick) number self.old.graphs self.new.graphs) }
        ensures gives { IfOk result (λ bailed. IfSome bailed (λ r. SeemsToGive number (bails brick r.0) self.old r.1 self.new)) }
        ensures there { IfOk result (λ bailed. is_some bailed ≡ has self.old.numbers number) }
        ensures err { OnErr result (IsSpentBy self.old self.new) }
    {
        if self.is_spent {
            return Err(Stop::Mem);
        }
        self.is_spent = true;
        let bailed = bail_in(alloc, &mut self.live, &mut self.mount, number, brick)?;
        self.is_spent = false;
        Ok(bailed)
    }

    /// Runs a task of a graph. `None` comes too where the task is not ready.
    ///
    /// # Errors
    /// As for [`Graphs::submit`].
    pub fn run_task(&mut self, alloc: Global, number: u32, task: u32) -> Result<Option<Moved>, Stop>
        ensures ok { OnOk result (KeepsMounted self.old self.new) }
        ensures graphs { OnOk result (Works same_clients number self.old.graphs self.new.graphs) }
        ensures gives { IfOk result (λ moved. IfSome moved (λ m. SeemsToGive number (runs_task task) self.old m self.new)) }
        ensures absent { has self.old.numbers number ≡ false → IfOk result (λ moved. moved ≡ None) }
        ensures err { OnErr result (IsSpentBy self.old self.new) }
    {
        if self.is_spent {
            return Err(Stop::Mem);
        }
        self.is_spent = true;
        let moved = run_task_in(alloc, &mut self.live, &mut self.mount, number, task)?;
        self.is_spent = false;
        Ok(moved)
    }

    /// A graph opens its next connection to a brick, whose number this gives. `None` comes exactly where there is no such
    /// graph, or it uses neither this brick nor one with a greater number, or has an open connection to it, or has opened
    /// 4,294,967,295.
    pub fn connect(&mut self, number: u32, brick: u8) -> Option<u32>
        ensures number { result ≡ next_in self.old.graphs number brick }
        ensures connects { self.new ≡ record self.old { graphs = changed_at (connects brick) number self.old.graphs } }
        ensures absent { has self.old.numbers number ≡ false → result ≡ None }
    {
        connect_in(&mut self.live, number, brick)
    }

    /// A graph drops the pages of a file. False comes exactly where there is no such graph.
    pub fn drop_pages(&mut self, number: u32, gfid: Gfid) -> bool
        ensures same { self.new ≡ self.old }
        ensures there { result ≡ has self.old.numbers number }
    {
        drop_pages_in(&mut self.live, number, gfid)
    }

    /// A graph drops all its pages, and keeps none from now on. False comes exactly where there is no such graph.
    pub fn retire(&mut self, number: u32) -> bool
        ensures same { self.new ≡ self.old }
        ensures there { result ≡ has self.old.numbers number }
    {
        retire_in(&mut self.live, number)
    }

    /// Ends the graphs, with all that they have.
    pub fn discard(self) {
        let Graphs {
            live,
            mount,
            is_spent: _,
        } = self;
        drop(live);
        drop(mount);
    }

    /// Whether a call failed.
    pub fn is_spent(&self) -> bool
        ensures { result ≡ self.now.spent }
    {
        self.is_spent
    }

    /// The lines of the winds before a call that failed, which were not given.
    pub fn last_lines(&mut self, _alloc: Global) -> Seq<(WindNo, u32, bool)>
        requires { self.old.spent ≡ true }
        ensures { self.new ≡ self.old }
    {
        Seq::from_vec(self.mount.frames.lines())
    }
}
