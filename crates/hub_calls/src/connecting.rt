//! Moves of connections: they are opened, and they end with their winds.
ghost use Rattle.std.specs.Prelude.{ℕ, ◌≡◌, ◌==◌, true, false, None, is_some, OnOk};
ghost use Rattle.fop_types.specs.declared.messages.Input.TheVariants as sent;
ghost use Rattle.graph_nodes.specs.Mounted.{has};
ghost use Rattle.graph_nodes.specs.Seen.{changed_at, connection_in, connects, next_in};
ghost use Rattle.mount_log.specs.Logs.{sends};
ghost use Rattle.wire_xdr.specs.WireText.{input_text};
ghost use Rattle.hub_calls.specs.Live.{OnlyDoneGo};

use crate::parts::Parts;
use crate::planned::Planned;
use std::alloc::{AllocError, Global};
use xlator_law::Stop;

impl Parts {
    /// A graph opens its next connection to a brick that it uses, and the brick is sent a Connect. After number 4,294,967,295
    /// it opens none.
    ///
    /// # Errors
    /// Out of memory.
    pub(crate) fn connect(&mut self, alloc: Global, graph: u32, brick: u8) -> Result<(), AllocError>
        ensures live { self.new.graphs.live ≡ self.old.graphs.live }
        ensures graphs { self.new.graphs.nodes ≡ record (self.old.graphs.nodes) { graphs = changed_at (connects brick) graph self.old.graphs.nodes.graphs } }
        ensures sends { is_some (next_in self.old.graphs.nodes.graphs graph brick) ≡ true → OnOk result (self.new.turn.lines ≡ sends self.old.turn.lines 0 brick (input_text (sent.Connect graph 1))) }
        ensures none { is_some (next_in self.old.graphs.nodes.graphs graph brick) ≡ false → self.new.turn ≡ self.old.turn }
    {
        if self.graphs.nodes.connect(graph, brick).is_some() {
            self.turn.send_connect(alloc, brick, graph)?;
        }
        Ok(())
    }

    /// The newest graph opens a connection to each of its bricks that is not known to be closed.
    ///
    /// # Errors
    /// Out of memory.
    pub(crate) fn connect_newest(&mut self, alloc: Global, on: &Planned) -> Result<(), AllocError>
        ensures { self.new.graphs.live ≡ self.old.graphs.live }
    {
        let graph = self.graphs.live.newest;
        for brick in 0..on.bricks() {
            if self.graphs.live.uses(graph, brick) && !self.turn.closed.has(brick) {
                self.connect(alloc, graph, brick)?;
            }
        }
        Ok(())
    }

    /// The connection of a graph to a brick ends with its winds, and the brick is sent a Disconnect.
    ///
    /// # Errors
    /// As for `Hub::submit`.
    pub(crate) fn lose(&mut self, alloc: Global, graph: u32, brick: u8) -> Result<(), Stop>
        ensures ended { OnOk result (connection_in self.new.graphs.nodes.graphs graph brick ≡ None) }
        ensures sends { is_some (connection_in self.old.graphs.nodes.graphs graph brick) ≡ true → OnOk result (self.new.turn.lines.sent ≡ (sends self.old.turn.lines 0 brick (input_text (sent.Disconnect graph))).sent) }
        ensures none { is_some (connection_in self.old.graphs.nodes.graphs graph brick) ≡ false → OnOk result (self.new ≡ self.old) }
    {
        if self.graphs.nodes.connection(graph, brick).is_none() {
            return Ok(());
        }
        self.bail(alloc, graph, brick)?;
        self.turn.send_disconnect(alloc, brick, graph)?;
        Ok(())
    }

    /// All connections to a brick are cut, graph by graph.
    ///
    /// # Errors
    /// As for `Hub::submit`.
    pub(crate) fn cut(&mut self, alloc: Global, brick: u8) -> Result<(), Stop> {
        let mut from = 0;
        for _ in 0..self.graphs.live.len() {
            let Some(graph) = self.graphs.live.first_from(from) else {
                return Ok(());
            };
            self.lose(alloc, graph, brick)?;
            from = graph.saturating_add(1);
        }
        Ok(())
    }

    /// A brick has closed: all connections to it have ended.
    ///
    /// # Errors
    /// As for `Hub::submit`.
    pub(crate) fn closed(&mut self, alloc: Global, brick: u8) -> Result<(), Stop> {
        let mut from = 0;
        for _ in 0..self.graphs.live.len() {
            let Some(graph) = self.graphs.live.first_from(from) else {
                return Ok(());
            };
            if self.graphs.nodes.connection(graph, brick).is_some() {
                self.bail(alloc, graph, brick)?;
            }
            from = graph.saturating_add(1);
        }
        Ok(())
    }

    /// A brick has opened: each live graph that uses it and has no connection opens one.
    ///
    /// # Errors
    /// As for `Hub::submit`.
    pub(crate) fn opened(&mut self, alloc: Global, brick: u8) -> Result<(), Stop> {
        let mut from = 0;
        for _ in 0..self.graphs.live.len() {
            let Some(graph) = self.graphs.live.first_from(from) else {
                return Ok(());
            };
            if self.graphs.live.uses(graph, brick)
                && self.graphs.nodes.connection(graph, brick).is_none()
            {
                self.connect(alloc, graph, brick)?;
            }
            from = graph.saturating_add(1);
        }
        Ok(())
    }

    // A graph's bricks are sent a Disconnect.
    fn disconnect_all(&mut self, alloc: Global, on: &Planned, graph: u32) -> Result<(), Stop>
        ensures { (self.new.calls ≡ self.old.calls) × (self.new.graphs ≡ self.old.graphs) }
    {
        for brick in 0..on.bricks() {
            if self.graphs.live.uses(graph, brick) {
                self.turn.send_disconnect(alloc, brick, graph)?;
            }
        }
        Ok(())
    }

    // An older graph without frames and without calls is done with: its bricks are sent a Disconnect, and it is live no
    // more.
    #[tactic(auto, using(crate::proofs::Connections::others_stay))]
    fn disconnect(&mut self, alloc: Global, on: &Planned, graph: u32) -> Result<(), Stop>
        ensures calls { OnOk result (self.new.calls ≡ self.old.calls) }
        ensures newest { OnOk result (self.new.graphs.live.newest ≡ self.old.graphs.live.newest) }
        ensures others { OnOk result ((other : ℕ) → (graph == other) ≡ false → has self.new.graphs.nodes.numbers other ≡ has self.old.graphs.nodes.numbers other) }
    {
        if !self.graphs.nodes.remove(graph) {
            return Ok(());
        }
        self.disconnect_all(alloc, on, graph)?;
        self.graphs.live.remove(graph);
        Ok(())
    }

    /// The older graphs that have no frames and no calls without a reply are done with.
    ///
    /// # Errors
    /// As for `Hub::submit`.
    #[tactic(auto, using(crate::proofs::Connections::none_has_gone, crate::proofs::Connections::one_more_goes))]
    pub(crate) fn disconnect_drained(&mut self, alloc: Global, on: &Planned) -> Result<(), Stop>
        ensures { OnOk result (OnlyDoneGo self.old.calls self.old.graphs.live.newest self.old.graphs.nodes.numbers self.new.graphs.nodes.numbers) }
    {
        let mut from = 0;
        for _ in 0..self.graphs.live.len() {
            let Some(graph) = self.graphs.live.first_from(from) else {
                return Ok(());
            };
            if graph != self.graphs.live.newest && self.calls.count_of(graph) == 0 {
                self.disconnect(alloc, on, graph)?;
            }
            from = graph.saturating_add(1);
        }
        Ok(())
    }
}
