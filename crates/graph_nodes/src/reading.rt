//! What is asked of the graphs of a mount without changing them.
ghost use Rattle.std.specs.Prelude.{◌≡◌, true, false, None, IfSome, min, length, slice_get};
ghost use Rattle.graph_nodes.specs.Mounted.{has};
ghost use Rattle.graph_nodes.specs.Ready.{has_task};
ghost use Rattle.graph_nodes.specs.Seen.{connection_in, is_drained_in};

use crate::graphs::Graphs;
use fop_types::Entry;
use xlator_law::WindNo;

/// Who waits for a reply to a wind: the node of this number in a graph, as in its plan, above which the root is one more.
#[derive(Clone, Copy)]
pub struct Owner {
    pub graph: u32,
    pub node: u16,
}

impl Graphs {
    /// Whether there is a graph of this number.
    pub fn has(&self, number: u32) -> bool
        ensures { result ≡ has self.now.numbers number }
    {
        self.live.contains_key(&number)
    }

    /// Whether no frame of a graph is open. It is false where there is no such graph.
    pub fn is_drained(&self, number: u32) -> bool
        ensures drained { result ≡ is_drained_in self.now.graphs number }
        ensures absent { has self.now.numbers number ≡ false → result ≡ false }
    {
        match self.live.get(&number) {
            Some(graph) => graph.is_drained(),
            None => false,
        }
    }

    /// The number of a graph's open connection to a brick.
    pub fn connection(&self, number: u32, brick: u8) -> Option<u32>
        ensures connection { result ≡ connection_in self.now.graphs number brick }
        ensures absent { has self.now.numbers number ≡ false → result ≡ None }
    {
        match self.live.get(&number) {
            Some(graph) => graph.connection(brick),
            None => None,
        }
    }

    /// How many tasks are ready, over all graphs; 4,294,967,295 where they are more.
    #[tactic(auto, using(crate::proofs::Ready::counted, crate::proofs::Ready::all_counted))]
    pub fn tasks_len(&self) -> u32
        ensures { result ≡ min (length self.now.tasks) 4294967295 }
    {
        let mut count = 0u32;
        for graph in self.live.values() {
            count = count.saturating_add(graph.ready_len());
        }
        count
    }

    /// The ready task of this place, from 0, by graph and then by node.
    #[tactic(auto, using(crate::proofs::Ready::task_found, crate::proofs::Ready::task_past))]
    pub fn task_at(&self, at: u32) -> Option<(u32, u32)>
        ensures { result ≡ slice_get self.now.tasks at }
    {
        let mut left = at;
        for (number, graph) in self.live.iter() {
            match graph.ready_at(left) {
                Some(task) => return Some((*number, task)),
                None => left = left.saturating_sub(graph.ready_len()),
            }
        }
        None
    }

    /// Whether a task of a graph is ready.
    pub fn is_ready(&self, number: u32, task: u32) -> bool
        ensures task { result ≡ has_task self.now.tasks number task }
        ensures absent { has self.now.numbers number ≡ false → result ≡ false }
    {
        // Each graph has a number of its own.
        let _ = self.live.len();
        match self.live.get(&number) {
            Some(graph) => graph.is_ready(task),
            None => false,
        }
    }

    /// Who waits for a reply to a wind, where one is awaited. Until a call fails, its graph is one of these.
    pub fn owner(&self, wind: WindNo) -> Option<Owner>
        ensures { self.now.spent ≡ false → IfSome result (λ o. has self.now.numbers o.graph ≡ true) }
    {
        let parent = self.mount.frames.wound_by(wind)?;
        let place = self.mount.frames.place(parent.frame)?;
        Some(Owner {
            graph: place.graph,
            node: place.node,
        })
    }

    /// The accepted changes with an effect, in the order in which they were decided.
    pub fn history(&self) -> &[Entry]
        ensures { result.now ≡ self.now.history }
    {
        self.mount.ledger.history()
    }
}
