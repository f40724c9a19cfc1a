//! Moves of an output that arrives.
ghost use Rattle.std.specs.Prelude.{◌≡◌, true, IfOk};
ghost use Rattle.fop_types.specs.Bounds.{IsRep};
ghost use Rattle.wire_xdr.specs.WireText.{IsOutput};
ghost use Rattle.wire_messages.specs.Messages.{output_in};
ghost use Rattle.mount_log.specs.Phases.{says_due};

use crate::parts::Parts;
use crate::planned::Planned;
use fop_types::{BrickRep, OutKind, Output};
use graph_build::NodeKind;
use hub_tables::{closed_after, is_due};
use std::alloc::Global;
use wire_messages::{Message, output_of};
use xlator_law::{Stop, WindNo};

// The wind of the request behind which an open may have gone.
fn request_wind(wind: WindNo) -> WindNo {
    match wind.request() {
        Some(request) => request,
        None => wind,
    }
}

fn is_gone(rep: &BrickRep) -> bool {
    match rep {
        BrickRep::Gone => true,
        _ => false,
    }
}

impl Parts {
    /// An output of a brick arrives. Bytes that are none do nothing. It says whether the output was owed.
    ///
    /// # Errors
    /// As for `Hub::submit`.
    pub(crate) fn arrived(
        &mut self,
        alloc: Global,
        on: &Planned,
        brick: u8,
        bytes: &[u8],
    ) -> Result<bool, Stop>
        ensures { IfOk result (λ due. due ≡ says_due (output_in bytes.now)) }
    {
        match output_of(alloc, bytes) {
            Ok(Message::Whole(output)) => {
                let due = is_due(&output.kind);
                self.put_out(alloc, on, brick, output)?;
                Ok(due)
            }
            Ok(Message::Wrong { place: _ }) => Ok(false),
            Err(_) => Err(Stop::Mem),
        }
    }

    fn put_out(
        &mut self,
        alloc: Global,
        on: &Planned,
        brick: u8,
        output: Output,
    ) -> Result<(), Stop>
        requires { IsOutput output }
    {
        let Output { taken, kind } = output;
        self.turn.closed = closed_after(self.turn.closed, brick, &kind);
        match kind {
            OutKind::Reply { wind, rep } => {
                self.replied(alloc, on, brick, WindNo::of_number(wind), rep, taken)
            }
            OutKind::Closed => self.closed(alloc, brick),
            OutKind::Opened => self.opened(alloc, brick),
            OutKind::Connected { .. } => Ok(()),
            OutKind::Malformed { .. } => Ok(()),
        }
    }

    // The graph that waits for a reply of this brick to a wind.
    fn graph_of(&self, on: &Planned, wind: WindNo, brick: u8) -> Option<u32> {
        let owner = self.graphs.nodes.owner(request_wind(wind))?;
        let plan = self.graphs.live.plan(on, owner.graph)?;
        match plan.nodes.as_slice().get(owner.node as usize)?.kind {
            NodeKind::Client(at) => { if at == brick { Some(owner.graph) } else { None } }
            _ => None,
        }
    }

    // A reply goes to the graph of its wind. One that says Gone of a pending wind ends the graph's connection.
    fn replied(
        &mut self,
        alloc: Global,
        on: &Planned,
        brick: u8,
        wind: WindNo,
        rep: BrickRep,
        taken: u64,
    ) -> Result<(), Stop>
        requires { IsRep true rep }
    {
        let Some(graph) = self.graph_of(on, wind, brick) else {
            drop(rep);
            return Ok(());
        };
        let gone = is_gone(&rep);
        let won = self.take_reply(alloc, graph, wind, rep, taken)?;
        if won && gone {
            self.lose(alloc, graph, brick)?;
        }
        Ok(())
    }
}
