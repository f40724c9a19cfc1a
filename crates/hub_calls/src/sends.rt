//! Moves of sending: requests and controls. What is armed for the requests goes out as the event is closed.
ghost use Rattle.std.specs.Prelude.{◌≡◌, true, false, is_some, OnOk};
ghost use Rattle.fop_types.specs.declared.messages.Input.TheVariants as sent;
ghost use Rattle.hub_tables.specs.Arming.{may_fail};
ghost use Rattle.mount_log.specs.Logs.{sends};
ghost use Rattle.mount_log.specs.Procedures.{rank_in};
ghost use Rattle.wire_xdr.specs.WireText.{IsInput, input_text};

use crate::numbering::UNNUMBERED;
use crate::turn::Turn;
use bytes::Bytes;
use fop_types::{Input, Proc, Seq};
use hub_tables::may_be_armed;
use mount_log::SentLine;
use mount_log::requests::rank_of;
use script_lang::Action;
use std::alloc::{AllocError, Global};
use wire_xdr::encode_req;

impl Turn {
    fn send(&mut self, brick: u8, bytes: Bytes) -> Result<(), AllocError>
        ensures { OnOk result (self.new.lines ≡ sends self.old.lines 0 brick bytes) }
    {
        self.lines.sent.push(SentLine {
            event: UNNUMBERED,
            brick,
            bytes,
        })?;
        Ok(())
    }

    fn send_input(&mut self, alloc: Global, brick: u8, input: Input) -> Result<(), AllocError>
        requires { IsInput input }
        ensures { OnOk result (self.new.lines ≡ sends self.old.lines 0 brick (input_text input)) }
    {
        let encoded = encode_req(alloc, &input);
        drop(input);
        let bytes = Bytes::from_vec(encoded?)?;
        self.send(brick, bytes)
    }

    /// Sends a brick a Connect of a graph.
    ///
    /// # Errors
    /// Out of memory.
    pub(crate) fn send_connect(
        &mut self,
        alloc: Global,
        brick: u8,
        graph: u32,
    ) -> Result<(), AllocError>
        ensures { OnOk result (self.new.lines ≡ sends self.old.lines 0 brick (input_text (sent.Connect graph 1))) }
    {
        self.send_input(alloc, brick, Input::Connect { graph, version: 1 })
    }

    /// Sends a brick a Disconnect of a graph.
    ///
    /// # Errors
    /// Out of memory.
    pub(crate) fn send_disconnect(
        &mut self,
        alloc: Global,
        brick: u8,
        graph: u32,
    ) -> Result<(), AllocError>
        ensures { OnOk result (self.new.lines ≡ sends self.old.lines 0 brick (input_text (sent.Disconnect graph))) }
    {
        self.send_input(alloc, brick, Input::Disconnect { graph })
    }

    /// Sends a brick a Down.
    ///
    /// # Errors
    /// Out of memory.
    pub(crate) fn send_down(
        &mut self,
        alloc: Global,
        brick: u8,
        serve: u32,
    ) -> Result<(), AllocError>
        ensures { OnOk result (self.new.lines ≡ sends self.old.lines 0 brick (input_text (sent.Down serve))) }
    {
        self.send_input(alloc, brick, Input::Down { serve })
    }

    /// Sends a brick an Up.
    ///
    /// # Errors
    /// Out of memory.
    pub(crate) fn send_up(&mut self, alloc: Global, brick: u8) -> Result<(), AllocError>
        ensures { OnOk result (self.new.lines ≡ sends self.old.lines 0 brick (input_text sent.Up)) }
    {
        self.send_input(alloc, brick, Input::Up)
    }

    /// Sends a brick the request that it is to fail.
    ///
    /// # Errors
    /// Out of memory.
    pub(crate) fn send_fault(
        &mut self,
        alloc: Global,
        brick: u8,
        proc: Proc,
        number: u32,
    ) -> Result<(), AllocError>
        ensures { may_fail proc number ≡ true → OnOk result (self.new.lines ≡ sends self.old.lines 0 brick (input_text (sent.FaultAt proc number))) }
    {
        if !may_be_armed(brick, Action::Fault(brick, proc, number)) {
            return Ok(());
        }
        self.send_input(alloc, brick, Input::FaultAt { proc, number })
    }

    // A request goes out. Bytes that are none do not.
    fn send_request(&mut self, brick: u8, bytes: Bytes) -> Result<(), AllocError>
        ensures request { is_some (rank_in bytes) ≡ true → OnOk result (self.new.lines ≡ sends self.old.lines 0 brick bytes) }
        ensures other { is_some (rank_in bytes) ≡ false → OnOk result (self.new ≡ self.old) }
    {
        if rank_of(bytes.as_slice()).is_none() {
            drop(bytes);
            return Ok(());
        }
        self.send(brick, bytes)
    }

    /// Requests of a graph go out, in order.
    ///
    /// # Errors
    /// Out of memory.
    pub(crate) fn send_all(&mut self, sends: Seq<(u8, Seq<u8>)>) -> Result<(), AllocError> {
        for next in sends.into_vec() {
            let (brick, message) = next;
            let bytes = Bytes::from_vec(message.into_vec())?;
            self.send_request(brick, bytes)?;
        }
        Ok(())
    }
}
