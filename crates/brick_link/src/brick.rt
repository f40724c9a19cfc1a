ghost use Rattle.std.specs.Prelude.{◌≡◌, [], IfSome, IfNone, OnOk, OnErr};
ghost use Rattle.brick_link.specs.Ends.{queued, Sends, Receives};

use crate::port::Port;
use bytes::Bytes;
use std::alloc::{AllocError, Global};
use std::marker::Model;

/// The brick's end of a link: it receives inputs and sends outputs. Contracts see it as a `LinkEnd`.
#[derive(Drop)]
pub struct BrickEnd {
    pub(crate) port: Port,
}

impl Model for BrickEnd {
    ghost use Rattle.brick_link.specs.Ends.{LinkEnd};

    ghost Value = { LinkEnd };

    ghost view = { λ e. e.port };
}

impl BrickEnd {
    /// Takes the oldest input out of the ring. `None` comes exactly where this look, one pop of the ring,
    /// found no message in it.
    pub fn try_recv(&mut self) -> Option<Bytes>
        ensures some { IfSome result (λ m. Receives self.old m self.new) }
        ensures none { IfNone result ((self.new ≡ self.old) × (self.old.seen ≡ [])) }
    {
        self.port.receive()
    }

    /// Puts an output at the end of the backlog, which grows in the allocator of the link.
    ///
    /// # Errors
    /// Out of memory: the end is unchanged.
    pub fn queue(&mut self, _alloc: Global, output: Bytes) -> Result<(), AllocError>
        ensures ok { OnOk result (self.new ≡ queued self.old output) }
        ensures err { OnErr result (self.new ≡ self.old) }
    {
        self.port.queue(output)
    }

    /// Moves messages from the backlog into the ring, oldest first, until the backlog is empty or the ring
    /// has no place, and gives their number.
    pub fn try_send(&mut self) -> usize
        ensures { Sends self.old result self.new }
    {
        self.port.send()
    }
}
