ghost use Rattle.std.specs.Prelude.{◌≡◌, ◌<◌, ◌+◌, ◌-◌, ◌^◌, ◌∷◌, ◌++◌, [], drop, is_some, slice_get, OnOk};
ghost use Rattle.world_bricks.specs.Lines.{empty_line};

use bytes::Bytes;
use hub_calls::SentLine;
use std::alloc::{AllocError, Global};
use std::collections::VecDeque;
use std::marker::Model;

/// The inputs that were sent to a brick and not served, and how many of its outputs have arrived.
#[derive(Drop)]
pub struct Line {
    inputs: VecDeque<Bytes>,
    arrived: usize,
}

impl Model for Line {
    ghost use Rattle.world_bricks.specs.Lines.{LineState};

    ghost Value = { LineState };

    ghost view = { λ l. record { inputs = l.inputs.items; arrived = l.arrived } };
}

impl Line {
    /// Nothing was sent, and nothing has arrived. It takes no memory.
    pub(crate) fn new(alloc: Global) -> Line
        ensures { result ≡ empty_line }
    {
        Line {
            inputs: VecDeque::new(alloc),
            arrived: 0,
        }
    }

    /// An input was sent, whose bytes are shared.
    ///
    /// # Errors
    /// Out of memory, and nothing changed.
    pub(crate) fn put(&mut self, sent: &SentLine) -> Result<(), AllocError>
        ensures { OnOk result (self.new ≡ record self.old { inputs = self.old.inputs ++ sent.now.bytes ∷ [] }) }
    {
        let bytes = sent.bytes.clone()?;
        self.inputs.push_back(bytes)?;
        Ok(())
    }

    pub(crate) fn has_input(&self) -> bool
        ensures { result ≡ is_some (slice_get self.now.inputs 0) }
    {
        self.inputs.len() > 0
    }

    /// Takes the first input.
    pub(crate) fn take(&mut self) -> Option<Bytes>
        ensures input { result ≡ slice_get self.old.inputs 0 }
        ensures rest { self.new ≡ record self.old { inputs = drop 1 self.old.inputs } }
    {
        self.inputs.pop_front()
    }

    /// How many outputs have arrived.
    pub(crate) fn arrived(&self) -> usize
        ensures { result ≡ self.now.arrived }
    {
        self.arrived
    }

    /// An output has arrived.
    pub(crate) fn arrive(&mut self)
        requires { self.old.arrived < 2 ^ 64 - 1 }
        ensures { self.new ≡ record self.old { arrived = self.old.arrived + 1 } }
    {
        self.arrived += 1;
    }
}
