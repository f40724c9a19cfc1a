ghost use Rattle.std.specs.Prelude.{◌≡◌, OnOk};
ghost use Rattle.brick_machine.specs.Machine.{input_served, served};
ghost use Rattle.brick_machine.specs.code.Outs.{put_out};

use crate::outs::Outs;
use crate::state::State;
use fop_types::{Input, OutKind};
use std::alloc::{AllocError, Global};
use wire_messages::Message;

#[tactic(auto, using(crate::proofs::Puts::put_nothing))]
impl State {
    fn input(&mut self, alloc: Global, outs: &mut Outs, input: Input) -> Result<(), AllocError>
        ensures state { OnOk result (self.new ≡ (input_served self.old input).state) }
        ensures outs { OnOk result (outs.new ≡ put_out outs.old (input_served self.old input).outs) }
        ensures names { self.new.store.names ≡ self.old.store.names }
    {
        match input {
            Input::Request { wind, graph, req } => self.request(alloc, outs, wind, graph, req),
            Input::Down { serve } => self.go_down(alloc, outs, serve),
            Input::Up => self.come_up(alloc, outs),
            Input::Connect { graph, version } => self.connect(alloc, outs, graph, version),
            Input::Disconnect { graph } => self.disconnect(alloc, outs, graph),
            Input::FaultAt { proc, number } => self.fault_at(proc, number),
        }
    }

    /// Serves a message: changes the state, and puts out what it causes.
    ///
    /// # Errors
    /// Out of memory; the state may be in disagreement with the inputs then.
    pub(crate) fn serve(
        &mut self,
        alloc: Global,
        outs: &mut Outs,
        message: Message<Input>,
    ) -> Result<(), AllocError>
        ensures state { OnOk result (self.new ≡ (served self.old message).state) }
        ensures outs { OnOk result (outs.new ≡ put_out outs.old (served self.old message).outs) }
        ensures names { self.new.store.names ≡ self.old.store.names }
    {
        match message {
            Message::Whole(input) => self.input(alloc, outs, input),
            Message::Wrong { place } => outs.put(alloc, OutKind::Malformed { place }),
        }
    }
}
