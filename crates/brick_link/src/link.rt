ghost use Rattle.std.specs.Prelude.{◌≤◌, IfOk};
ghost use Rattle.brick_link.specs.Ends.{IsPair, IsNew, IsLooked, KnowsRing};

use crate::brick::BrickEnd;
use crate::hub::HubEnd;
use crate::port::Port;
use rtrb::RingBuffer;
use std::alloc::{AllocError, Global};

/// A link of two empty rings with room for so many messages each, at least one: the hub's end and the
/// brick's.
///
/// # Errors
/// Out of memory.
pub fn pair(alloc: Global, room: usize) -> Result<(HubEnd, BrickEnd), AllocError>
    requires { 1 ≤ room }
    ensures pair { IfOk result (λ ends. IsPair ends.0 ends.1) }
    ensures hub { IfOk result (λ ends. IsNew room ends.0) }
    ensures brick { IfOk result (λ ends. IsNew room ends.1) }
{
    let (input_producer, input_consumer) = RingBuffer::new(alloc, room)?;
    let (output_producer, output_consumer) = RingBuffer::new(alloc, room)?;
    let hub = HubEnd::new(Port::new(alloc, input_producer, output_consumer));
    let brick = BrickEnd {
        port: Port::new(alloc, output_producer, input_consumer),
    };
    Ok((hub, brick))
}

/// Looks at both rings of a link whose ends are in one thread. It sends and receives nothing. What each end
/// received, and then what is in its ring, is what the other end sent: so what was received is a prefix of
/// what was sent. And each end knows which places of its ring are free, so the next `try_send` and `try_recv`
/// move whatever can be moved.
pub fn beside(hub: &mut HubEnd, brick: &mut BrickEnd)
    requires { IsPair hub.old brick.old }
    ensures hub { IsLooked hub.old hub.new }
    ensures brick { IsLooked brick.old brick.new }
    ensures inputs { KnowsRing hub.new brick.new }
    ensures outputs { KnowsRing brick.new hub.new }
{
    brick.port.look_beside(&mut hub.port);
    hub.port.look_beside(&mut brick.port);
}
