ghost use Rattle.std.specs.Prelude.{◌≡◌, ◌-◌, ◌^◌, ◌≤◌, [], ◌++◌, IfSome, IfNone, OnOk, OnErr};
ghost use Rattle.rtrb.specs.Ring.{sent, received, known_free, known_items, ConsumerLooked};
ghost use Rattle.brick_link.specs.Ends.{ring_into, ring_from, queued, Sends, Receives, IsHeldBack, IsLooked, KnowsRing};
ghost use Rattle.brick_link.specs.Messages.{taken_of, IsFirstTaken};

use byteorder::{BigEndian, ByteOrder};
use bytes::Bytes;
use rtrb::{Consumer, Producer};
use std::alloc::{AllocError, AllocFailed, Global};
use std::collections::VecDeque;
use std::marker::Model;

// What both ends of a link have: a backlog, the ring that it goes into, and the ring that messages come
// from.
#[derive(Drop)]
pub(crate) struct Port {
    pub(crate) backlog: VecDeque<Bytes>,
    pub(crate) producer: Producer<Bytes>,
    pub(crate) consumer: Consumer<Bytes>,
}

impl Model for Port {
    ghost use Rattle.rtrb.specs.Ring.{sent, received, known_free, known_items};
    ghost use Rattle.brick_link.specs.Ends.{LinkEnd, ring_into, ring_from};

    ghost Value = { LinkEnd };

    ghost view = { λ p. record {
      outward = ring_into p.producer;
      inward = ring_from p.consumer;
      backlog = p.backlog.items;
      sent = sent p.producer;
      received = received p.consumer;
      free = known_free p.producer;
      seen = known_items p.consumer;
    } };
}

// The number of inputs that an output counts: its first eight bytes, the highest first, and 0 where it is
// shorter.
pub(crate) fn taken_of(message: &[u8]) -> u64
    ensures { result ≡ taken_of message.now }
{
    if message.len() < 8 {
        return 0;
    }
    BigEndian::read_u64(message)
}

// What the oldest message in a ring counts; `None` where the ring has no message.
fn first_taken(consumer: &mut Consumer<Bytes>) -> Option<u64>
    ensures looked { ConsumerLooked consumer.old consumer.new }
    ensures some { IfSome result (IsFirstTaken (known_items consumer.new)) }
    ensures none { IfNone result (known_items consumer.new ≡ []) }
{
    match consumer.peek() {
        Ok(message) => Some(taken_of(message)),
        Err(_) => None,
    }
}

impl Port {
    pub(crate) fn new(alloc: Global, producer: Producer<Bytes>, consumer: Consumer<Bytes>) -> Port
        ensures rings { (result.outward ≡ ring_into producer) × (result.inward ≡ ring_from consumer) }
        ensures lists { (result.backlog ≡ []) × (result.sent ≡ sent producer) × (result.received ≡ received consumer) }
        ensures looks { (result.free ≡ known_free producer) × (result.seen ≡ known_items consumer) }
    {
        Port {
            backlog: VecDeque::new(alloc),
            producer,
            consumer,
        }
    }

    pub(crate) fn queue(&mut self, message: Bytes) -> Result<(), AllocError>
        ensures ok { OnOk result (self.new ≡ queued self.old message) }
        ensures err { OnErr result (self.new ≡ self.old) }
    {
        self.backlog.push_back(message)?;
        Ok(())
    }

    pub(crate) fn send(&mut self) -> usize
        ensures { Sends self.old result self.new }
    {
        let waiting = self.backlog.len();
        for count in 0..waiting {
            if self.producer.is_full() {
                return count;
            }
            if let Some(message) = self.backlog.pop_front() {
                self.producer.push_reserved(message);
            }
        }
        waiting
    }

    pub(crate) fn receive(&mut self) -> Option<Bytes>
        ensures some { IfSome result (λ m. Receives self.old m self.new) }
        ensures none { IfNone result ((self.new ≡ self.old) × (self.old.seen ≡ [])) }
    {
        self.consumer.pop().ok()
    }

    // As `receive`, but a message that counts more than the limit stays in the ring.
    pub(crate) fn receive_within(&mut self, limit: u64) -> Option<Bytes>
        ensures some { IfSome result (λ m. Receives self.old m self.new × (taken_of m ≤ limit)) }
        ensures none { IfNone result (IsLooked self.old self.new × IsHeldBack limit self.new.seen) }
        ensures unlimited { IfNone result (limit ≡ 2 ^ 64 - 1 → self.new.seen ≡ []) }
    {
        let taken = first_taken(&mut self.consumer)?;
        if taken > limit {
            return None;
        }
        Some(self.consumer.pop_known())
    }

    // Looks at the ring that comes from the other port, with both of its ends, which are in this thread.
    pub(crate) fn look_beside(&mut self, other: &mut Port)
        requires { self.old.inward ≡ other.old.outward }
        ensures here { IsLooked self.old self.new × (self.new.free ≡ self.old.free) }
        ensures other { IsLooked other.old other.new × (other.new.seen ≡ other.old.seen) }
        ensures ring { KnowsRing other.new self.new }
    {
        other.producer.slots_beside(&mut self.consumer);
        self.consumer.slots_beside(&mut other.producer);
    }
}
