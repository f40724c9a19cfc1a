ghost use Rattle.std.specs.Prelude.{◌≡◌, Some};
ghost use Rattle.brick_machine.specs.Serving.{is_late as is_late_in};

use crate::graphs::Graphs;

/// A brick that is down: how many more requests it serves late, and the graphs that were connected at the Down.
#[derive(Drop)]
pub struct Late {
    pub left: u32,
    pub graphs: Graphs,
}

impl Late {
    /// Whether a request of a graph is served late.
    pub(crate) fn takes(&self, graph: u32) -> bool
        ensures { result ≡ is_late_in (Some self.now) graph }
    {
        if self.graphs.is_connected(graph) {
            return self.left != 0;
        }
        false
    }
}
