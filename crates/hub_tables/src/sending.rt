//! The inputs that go out in an event, each request behind the actions that are armed for it.
ghost use Rattle.std.specs.Prelude.{◌≡◌, ◌+◌, ◌++◌, ◌∷◌, [], ◌||◌, None, Some, length, OnOk, IfOk};
ghost use Rattle.mount_log.specs.Procedures.{rank_in};
ghost use Rattle.wire_xdr.specs.WireText.{IsInput, input_text};
ghost use Rattle.hub_tables.specs.PhaseControls.{ControlsState, with_count, next_count};
ghost use Rattle.hub_tables.specs.Agendas.{controls_by, controls_after, without_armed_of, armed_line, armed_lines, lines_before, outgoing, is_kind, owed_by, with_sends};

use crate::actions::may_be_armed;
use crate::agenda::Agenda;
use crate::requests::Nth;
use bytes::Bytes;
use fop_types::{Input, Proc, Seq};
use mount_log::SentLine;
use mount_log::requests::rank_of;
use script_lang::Action;
use std::alloc::{AllocError, Global};
use wire_xdr::encode_req;

const DOWN: [u8; 4] = [0, 0, 0, 1];

const UP: [u8; 4] = [0, 0, 0, 2];

// Whether an input is a Down or an Up, of which a brick owes an output.
fn is_down_or_up(input: &[u8]) -> bool
    ensures { result ≡ (is_kind 1 input.now || is_kind 2 input.now) }
{
    if input.len() < 4 {
        return false;
    }
    &input[..4] == DOWN.as_slice() || &input[..4] == UP.as_slice()
}

// An input goes out behind the others.
fn push_input(
    alloc: Global,
    lines: &mut Seq<SentLine>,
    event: u64,
    brick: u8,
    input: Input,
) -> Result<(), AllocError>
    requires { IsInput input }
    ensures { OnOk result (lines.new ≡ lines.old ++ record { event = event; brick = brick; bytes = input_text input } ∷ []) }
{
    let encoded = encode_req(alloc, &input);
    drop(input);
    let bytes = Bytes::from_vec(encoded?)?;
    lines.push(SentLine {
        event,
        brick,
        bytes,
    })?;
    Ok(())
}

impl Agenda {
    // One more output is owed. So many that their number has no next one would not fit into any memory.
    fn owe(&mut self) -> Result<(), AllocError>
        ensures { OnOk result (self.new ≡ record self.old { owed = self.old.owed + 1 }) }
    {
        if self.owed == u64::MAX {
            return Err(AllocError);
        }
        self.owed += 1;
        Ok(())
    }

    // An armed action goes out: a Down or a fault.
    #[tactic(auto, using(crate::proofs::Outgoing::down_owed, crate::proofs::Outgoing::down_alone, crate::proofs::Outgoing::fault_owed, crate::proofs::Outgoing::fault_alone, crate::proofs::Outgoing::fault_line, crate::proofs::Outgoing::no_fault_line, crate::proofs::Outgoing::no_line))]
    fn send_armed(
        &mut self,
        alloc: Global,
        event: u64,
        action: Action,
        lines: &mut Seq<SentLine>,
    ) -> Result<(), AllocError>
        ensures same { OnOk result (self.new ≡ record self.old { owed = self.new.owed }) }
        ensures owed { OnOk result (self.new.owed + owed_by lines.old ≡ self.old.owed + owed_by lines.new) }
        ensures controls { OnOk result ((c : ControlsState) → controls_after c lines.new ≡ controls_after c lines.old) }
        ensures lines { OnOk result (lines.new ≡ lines.old ++ armed_line event action) }
    {
        match action {
            Action::Down(brick, serve) => {
                self.owe()?;
                push_input(alloc, lines, event, brick, Input::Down { serve })
            }
            Action::Fault(brick, proc, number) => {
                if !may_be_armed(brick, action) {
                    return Ok(());
                }
                push_input(alloc, lines, event, brick, Input::FaultAt { proc, number })
            }
            _ => Ok(()),
        }
    }

    // What is armed for a request goes out.
    #[tactic(auto, using(crate::proofs::Outgoing::no_line, crate::proofs::Outgoing::one_line, crate::proofs::Outgoing::no_more_lines))]
    fn send_all_armed(
        &mut self,
        alloc: Global,
        event: u64,
        request: Nth,
        lines: &mut Seq<SentLine>,
    ) -> Result<(), AllocError>
        ensures same { OnOk result (self.new ≡ record self.old { owed = self.new.owed; controls = without_armed_of self.old.controls request (length self.old.controls.armed) }) }
        ensures owed { OnOk result (self.new.owed + owed_by lines.old ≡ self.old.owed + owed_by lines.new) }
        ensures controls { OnOk result ((c : ControlsState) → controls_after c lines.new ≡ controls_after c lines.old) }
        ensures lines { OnOk result (lines.new ≡ lines.old ++ armed_lines event self.old.controls request (length self.old.controls.armed)) }
    {
        for _ in 0..self.controls.armed_len() {
            let Some(action) = self.controls.take_armed(request) else {
                return Ok(());
            };
            self.send_armed(alloc, event, action, lines)?;
        }
        Ok(())
    }

    // What is armed for the next request of a procedure goes out, and an output is owed for that request.
    fn go_before(
        &mut self,
        alloc: Global,
        event: u64,
        brick: u8,
        proc: u8,
        lines: &mut Seq<SentLine>,
    ) -> Result<Nth, AllocError>
        ensures request { IfOk result (λ n. n ≡ record { brick = brick; proc = proc; count = next_count self.old.controls brick proc }) }
        ensures same { IfOk result (λ n. self.new ≡ record self.old { owed = self.new.owed; controls = without_armed_of (with_count self.old.controls brick proc) n (length self.old.controls.armed) }) }
        ensures owed { OnOk result (self.new.owed + owed_by lines.old ≡ self.old.owed + owed_by lines.new + 1) }
        ensures controls { OnOk result ((c : ControlsState) → controls_after c lines.new ≡ controls_after c lines.old) }
        ensures lines { IfOk result (λ n. lines.new ≡ lines.old ++ armed_lines event (with_count self.old.controls brick proc) n (length self.old.controls.armed)) }
    {
        let request = self.controls.count(brick, proc)?;
        self.send_all_armed(alloc, event, request, lines)?;
        self.owe()?;
        Ok(request)
    }

    // A request goes out, behind what is armed for it; the controls that wait for it have come.
    #[tactic(auto, using(crate::proofs::Outgoing::request_owed, crate::proofs::Outgoing::request_sent))]
    fn send_request(
        &mut self,
        alloc: Global,
        line: SentLine,
        proc: u8,
        lines: &mut Seq<SentLine>,
    ) -> Result<(), AllocError>
        requires { rank_in line.bytes ≡ Some proc }
        ensures same { OnOk result (self.new ≡ record self.old { owed = self.new.owed; controls = self.new.controls }) }
        ensures owed { OnOk result (self.new.owed + owed_by lines.old ≡ self.old.owed + owed_by lines.new) }
        ensures controls { OnOk result ((c : ControlsState) → controls_after c lines.old ≡ self.old.controls → controls_after c lines.new ≡ self.new.controls) }
        ensures now { OnOk result (self.new.controls ≡ controls_by self.old.controls line.brick (Some proc)) }
        ensures lines { OnOk result (lines.new ≡ lines.old ++ (lines_before self.old.controls line (Some proc) ++ line ∷ [])) }
    {
        match self.go_before(alloc, line.event, line.brick, proc, lines) {
            Ok(request) => {
                lines.push(line)?;
                self.controls.sent(request)?;
                Ok(())
            }
            Err(error) => {
                drop(line);
                Err(error)
            }
        }
    }

    // An input that is no request goes out.
    #[tactic(auto, using(crate::proofs::Outgoing::other_owed, crate::proofs::Outgoing::other_not_owed, crate::proofs::Outgoing::other_sent))]
    fn send_other(&mut self, line: SentLine, lines: &mut Seq<SentLine>) -> Result<(), AllocError>
        requires { rank_in line.bytes ≡ None }
        ensures same { OnOk result (self.new ≡ record self.old { owed = self.new.owed }) }
        ensures owed { OnOk result (self.new.owed + owed_by lines.old ≡ self.old.owed + owed_by lines.new) }
        ensures controls { OnOk result ((c : ControlsState) → controls_after c lines.new ≡ controls_after c lines.old) }
        ensures lines { OnOk result (lines.new ≡ lines.old ++ line ∷ []) }
    {
        let owed = is_down_or_up(line.bytes.as_slice());
        lines.push(line)?;
        if owed { self.owe() } else { Ok(()) }
    }

    fn send_one(
        &mut self,
        alloc: Global,
        line: SentLine,
        lines: &mut Seq<SentLine>,
    ) -> Result<(), AllocError>
        ensures same { OnOk result (self.new ≡ record self.old { owed = self.new.owed; controls = self.new.controls }) }
        ensures owed { OnOk result (self.new.owed + owed_by lines.old ≡ self.old.owed + owed_by lines.new) }
        ensures controls { OnOk result ((c : ControlsState) → controls_after c lines.old ≡ self.old.controls → controls_after c lines.new ≡ self.new.controls) }
        ensures now { OnOk result (self.new.controls ≡ controls_by self.old.controls line.brick (rank_in line.bytes)) }
        ensures lines { OnOk result (lines.new ≡ lines.old ++ (lines_before self.old.controls line (rank_in line.bytes) ++ line ∷ [])) }
    {
        match rank_of(line.bytes.as_slice()) {
            Some(proc) => self.send_request(alloc, line, proc, lines),
            None => self.send_other(line, lines),
        }
    }

    #[tactic(auto, using(crate::proofs::Outgoing::no_line, crate::proofs::Outgoing::next_lines, crate::proofs::Outgoing::next_controls))]
    fn send_each(
        &mut self,
        alloc: Global,
        sends: Vec<SentLine>,
        lines: &mut Seq<SentLine>,
    ) -> Result<(), AllocError>
        ensures same { OnOk result (self.new ≡ record self.old { owed = self.new.owed; controls = self.new.controls }) }
        ensures owed { OnOk result (self.new.owed + owed_by lines.old ≡ self.old.owed + owed_by lines.new) }
        ensures controls { OnOk result ((c : ControlsState) → controls_after c lines.old ≡ self.old.controls → controls_after c lines.new ≡ self.new.controls) }
        ensures lines { OnOk result (lines.new ≡ lines.old ++ outgoing self.old.controls sends.items) }
    {
        for line in sends {
            self.send_one(alloc, line, lines)?;
        }
        Ok(())
    }

    /// The inputs that go out in an event for what it sends: each request goes behind the actions that are armed for it, and the
    /// controls that wait for it have come.
    ///
    /// # Errors
    /// Out of memory.
    #[tactic(auto, using(crate::proofs::Outgoing::all_sent))]
    pub fn send_out(
        &mut self,
        alloc: Global,
        sends: Vec<SentLine>,
    ) -> Result<Seq<SentLine>, AllocError>
        ensures agenda { IfOk result (λ lines. self.new ≡ with_sends self.old lines) }
        ensures lines { IfOk result (λ lines. lines ≡ outgoing self.old.controls sends.items) }
    {
        let mut lines = Seq::new(alloc);
        match self.send_each(alloc, sends, &mut lines) {
            Ok(()) => Ok(lines),
            Err(error) => {
                drop(lines);
                Err(error)
            }
        }
    }
}
