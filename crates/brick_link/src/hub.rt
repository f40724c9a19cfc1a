ghost use Rattle.std.specs.Prelude.{◌≡◌, ◌≤◌, [], length, IfSome, IfNone, OnOk, OnErr};
ghost use Rattle.brick_link.specs.Ends.{queued, Sends, Receives, IsLooked, IsHeldBack};
ghost use Rattle.brick_link.specs.Messages.{taken_of};

use crate::port::Port;
use bytes::Bytes;
use std::alloc::{AllocError, Global};
use std::marker::Model;

/// The hub's end of a link: it sends inputs and receives outputs. Contracts see it as a `LinkEnd`.
#[derive(Drop)]
pub struct HubEnd {
    pub(crate) port: Port,
    // How many messages were sent. It stands still at its last value: no output counts more.
    sent_count: u64,
}

impl Model for HubEnd {
    ghost use Rattle.std.specs.Prelude.{◌≡◌, ◌-◌, ◌^◌, length, min};
    ghost use Rattle.brick_link.specs.Ends.{LinkEnd};

    ghost Value = { LinkEnd };

    ghost view = { λ e. e.port };

    ghost invariant = { λ e. e.sent_count ≡ min (length e.port.sent) (2 ^ 64 - 1) };
}

impl HubEnd {
    pub(crate) fn new(port: Port) -> HubEnd
        requires { port.sent ≡ [] }
        ensures { result ≡ port }
    {
        HubEnd {
            port,
            sent_count: 0,
        }
    }

    /// Takes the oldest output out of the ring, if it counts no more inputs than this end has sent. `None`
    /// comes exactly where this look, one peek into the ring, found no message in it, or the oldest one
    /// counts more.
    pub fn try_recv(&mut self) -> Option<Bytes>
        ensures some { IfSome result (λ m. Receives self.old m self.new) }
        ensures counted { IfSome result (λ m. taken_of m ≤ length self.old.sent) }
        ensures none { IfNone result (IsLooked self.old self.new × IsHeldBack (length self.old.sent) self.new.seen) }
    {
        self.port.receive_within(self.sent_count)
    }

    /// Puts an input at the end of the backlog, which grows in the allocator of the link.
    ///
    /// # Errors
    /// Out of memory: the end is unchanged.
    pub fn queue(&mut self, _alloc: Global, input: Bytes) -> Result<(), AllocError>
        ensures ok { OnOk result (self.new ≡ queued self.old input) }
        ensures err { OnErr result (self.new ≡ self.old) }
    {
        self.port.queue(input)
    }

    /// Moves messages from the backlog into the ring, oldest first, until the backlog is empty or the ring
    /// has no place, and gives their number.
    pub fn try_send(&mut self) -> usize
        ensures { Sends self.old result self.new }
    {
        let count = self.port.send();
        self.sent_count = self.sent_count.saturating_add(count as u64);
        count
    }
}
