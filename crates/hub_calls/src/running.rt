//! Moves of a graph: a fop enters it, a hold is granted, a reply is taken, a connection ends. What the graph gives is
//! written down and left to be taken.
ghost use Rattle.std.specs.Prelude.{◌≡◌, true, false, IsErr, IsOk, IfOk, OnOk};
ghost use Rattle.fop_types.specs.Bounds.{IsRep};
ghost use Rattle.graph_items.specs.Clients.{ended_at};
ghost use Rattle.graph_nodes.specs.Among.{runs_task};
ghost use Rattle.graph_nodes.specs.Seen.{Works};
ghost use Rattle.hub_calls.specs.Noted.{IsNoted, noted_by};

use crate::parts::Parts;
use fop_types::{BrickRep, Fop};
use graph_nodes::Moved;
use hub_tables::is_fop;
use std::alloc::{AllocError, Global};
use xlator_law::{Settled, Stop, WindNo};

impl Parts {
    // A graph that needed a wind too many has left the lines of the winds before it.
    fn stopped(&mut self, alloc: Global, graph: u32, stop: Stop) -> Result<(), Stop>
        ensures { IsErr result }
    {
        match stop {
            Stop::Mem => Err(Stop::Mem),
            Stop::Winds => {
                if self.graphs.nodes.is_spent() {
                    let lines = self.graphs.nodes.last_lines(alloc);
                    let noted = self.turn.note_winds(graph, lines.as_slice());
                    drop(lines);
                    noted?;
                }
                Err(Stop::Winds)
            }
        }
    }

    /// What a graph that was moved has given is written down.
    ///
    /// # Errors
    /// As for `Hub::submit`.
    pub(crate) fn ran(
        &mut self,
        alloc: Global,
        graph: u32,
        moved: Result<Option<Moved>, Stop>,
    ) -> Result<(), Stop>
        ensures moved { OnOk result (IsOk moved) }
        ensures noted { IfOk moved (λ given. OnOk result (self.new ≡ record self.old { turn = noted_by graph given self.old.turn })) }
    {
        match moved {
            Ok(moved) => {
                self.turn.note_moved(graph, moved)?;
                Ok(())
            }
            Err(stop) => self.stopped(alloc, graph, stop),
        }
    }

    /// A fop of a call enters its graph. One that is out of its bounds does not.
    ///
    /// # Errors
    /// As for `Hub::submit`.
    pub(crate) fn enter(
        &mut self,
        alloc: Global,
        graph: u32,
        call: u32,
        fop: Fop,
    ) -> Result<(), Stop> {
        if !is_fop(&fop) {
            drop(fop);
            return Ok(());
        }
        let moved = self.graphs.nodes.submit(alloc, graph, call, fop);
        self.ran(alloc, graph, moved)
    }

    /// A task of a graph is run, where no failure has spent the graphs.
    ///
    /// # Errors
    /// As for `Hub::submit`.
    #[tactic(auto, using(crate::proofs::Noting::is_noted))]
    pub(crate) fn run_task(&mut self, alloc: Global, graph: u32, task: u32) -> Result<(), Stop>
        ensures unspent { OnOk result (self.old.graphs.nodes.spent ≡ false) }
        ensures noted { OnOk result (IsNoted graph (runs_task task) self.old.graphs.nodes self.old.turn self.new) }
    {
        let moved = self.graphs.nodes.run_task(alloc, graph, task);
        self.ran(alloc, graph, moved)
    }

    /// A reply is taken by the graph of its wind. It says whether the wind was pending.
    ///
    /// # Errors
    /// As for `Hub::submit`.
    pub(crate) fn take_reply(
        &mut self,
        alloc: Global,
        graph: u32,
        wind: WindNo,
        rep: BrickRep,
        taken: u64,
    ) -> Result<bool, Stop>
        requires { IsRep true rep }
    {
        match self.graphs.nodes.arrive(alloc, graph, wind, rep, taken) {
            Ok(Some((settled, moved))) => {
                self.turn.note(graph, moved)?;
                Ok(settled == Some(Settled::Won))
            }
            Ok(None) => Ok(false),
            Err(stop) => {
                self.stopped(alloc, graph, stop)?;
                Ok(false)
            }
        }
    }

    /// Ends the connection of a graph to a brick, and all winds that are open there.
    ///
    /// # Errors
    /// As for `Hub::submit`.
    pub(crate) fn bail(&mut self, alloc: Global, graph: u32, brick: u8) -> Result<(), Stop>
        ensures graphs { OnOk result (Works (λ cs. ended_at cs brick) graph self.old.graphs.nodes.graphs self.new.graphs.nodes.graphs) }
        ensures sent { OnOk result (self.new.turn.lines.sent ≡ self.old.turn.lines.sent) }
    {
        match self.graphs.nodes.bail(alloc, graph, brick) {
            Ok(Some((_, moved))) => {
                self.turn.note(graph, moved)?;
                Ok(())
            }
            Ok(None) => Ok(()),
            Err(stop) => self.stopped(alloc, graph, stop),
        }
    }
}
