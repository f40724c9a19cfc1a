//! The graphs that are live.
ghost use Rattle.std.specs.Prelude.{◌≡◌, ◌∷◌, [], OnOk};
ghost use Rattle.std.specs.BTreeMap.{insert_entry};
ghost use Rattle.std.specs.Ordering.{nat_cmp};
ghost use Rattle.graph_nodes.specs.Plans.{IsPlan};
ghost use Rattle.hub_calls.specs.Live.{HasNoGraphs, volfiles_in};

use crate::planned::Planned;
use fop_types::Gfid;
use graph_build::{Plan, follows};
use graph_nodes::Graphs as NodeGraphs;
use hub_tables::{SmallSet, bricks_of};
use std::alloc::{AllocError, Global};
use std::collections::BTreeMap;

/// Of a live graph the number of the volfile that it is made from, the bricks that it uses, and how many sets it has.
#[derive(Clone, Copy)]
pub struct LiveGraph {
    pub volfile: u8,
    pub bricks: SmallSet,
    pub sets: u8,
}

/// The live graphs by their numbers, and which of them is the newest.
#[derive(Drop)]
pub struct LiveGraphs {
    graphs: BTreeMap<u32, LiveGraph>,
    pub newest: u32,
}

impl LiveGraphs {
    /// No graphs. It takes no memory.
    fn new(alloc: Global) -> LiveGraphs
        ensures { HasNoGraphs result }
    {
        LiveGraphs {
            graphs: BTreeMap::new(alloc),
            newest: 0,
        }
    }

    // Puts the newest graph to the others.
    fn add(&mut self, number: u32, made: LiveGraph) -> Result<(), AllocError>
        ensures graphs { OnOk result (self.new.graphs.entries ≡ insert_entry nat_cmp self.old.graphs.entries number made) }
        ensures newest { OnOk result (self.new.newest ≡ number) }
    {
        self.graphs.insert(number, made)?;
        self.newest = number;
        Ok(())
    }

    /// A graph is live no more.
    pub(crate) fn remove(&mut self, number: u32)
        ensures { self.new.newest ≡ self.old.newest }
    {
        self.graphs.remove(&number);
    }

    /// How many graphs are live.
    pub(crate) fn len(&self) -> usize {
        self.graphs.len()
    }

    /// How many sets a graph has; 0 where it is not live.
    pub(crate) fn sets_of(&self, number: u32) -> u8 {
        match self.graphs.get(&number) {
            Some(graph) => graph.sets,
            None => 0,
        }
    }

    /// Whether a live graph uses a brick.
    pub(crate) fn uses(&self, number: u32, brick: u8) -> bool {
        match self.graphs.get(&number) {
            Some(graph) => graph.bricks.has(brick),
            None => false,
        }
    }

    /// The first live graph from a number on.
    pub(crate) fn first_from(&self, number: u32) -> Option<u32> {
        match self.graphs.range(number..).next() {
            Some((found, _)) => Some(*found),
            None => None,
        }
    }

    /// Whether a switch to the plan of a volfile may be carried out: the plan follows that of the newest graph. Each plan
    /// has the sets of the one before it, so it follows all those so far. The last graph has number 4,294,967,294, so that
    /// each graph's number has a next one.
    pub(crate) fn may_follow(&self, on: &Planned, volfile: u8) -> bool {
        if self.newest >= u32::MAX - 1 {
            return false;
        }
        match self.plan(on, self.newest) {
            Some(current) => match on.plan(volfile) {
                Some(new) => follows(current, new),
                None => false,
            },
            None => false,
        }
    }

    /// The plan that a live graph is made from.
    pub(crate) fn plan<'a>(&self, on: &'a Planned, number: u32) -> Option<&'a Plan> {
        match self.graphs.get(&number) {
            Some(graph) => on.plan(graph.volfile),
            None => None,
        }
    }
}

/// The live graphs, and the nodes of all of them, with what they share.
pub struct Graphs {
    pub live: LiveGraphs,
    pub nodes: NodeGraphs,
}

impl Graphs {
    /// No graphs, of which the first one will have so many sets. It takes no memory.
    pub(crate) fn new(alloc: Global, root_sets: u8) -> Graphs
        ensures { HasNoGraphs result.live }
    {
        Graphs {
            live: LiveGraphs::new(alloc),
            nodes: NodeGraphs::new(alloc, root_sets),
        }
    }

    /// Ends them.
    pub(crate) fn discard(self) {
        let Graphs { live, nodes } = self;
        drop(live);
        nodes.discard();
    }

    /// Makes the next graph, from the plan of a volfile.
    ///
    /// # Errors
    /// Out of memory. A graph after number 4,294,967,295 would be answered so too; `may_follow` lets none come.
    pub(crate) fn make(&mut self, alloc: Global, plan: &Plan, volfile: u8) -> Result<(), AllocError>
        requires { IsPlan plan.now }
        ensures first { OnOk result (HasNoGraphs self.old.live → volfiles_in self.new.live.graphs.entries ≡ (1, volfile) ∷ []) }
    {
        let Some(number) = self.live.newest.checked_add(1) else {
            return Err(AllocError);
        };
        self.nodes.make(alloc, plan, number)?;
        let made = LiveGraph {
            volfile,
            bricks: bricks_of(plan),
            sets: plan.sets.len().min(255) as u8,
        };
        self.live.add(number, made)?;
        Ok(())
    }

    /// Drops the pages of a file in every live graph.
    pub(crate) fn drop_pages(&mut self, gfid: Gfid) {
        let mut from = 0;
        for _ in 0..self.live.len() {
            let Some(number) = self.live.first_from(from) else {
                return;
            };
            self.nodes.drop_pages(number, gfid);
            from = number.saturating_add(1);
        }
    }
}
