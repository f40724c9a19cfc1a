//! The link between the hub and one brick that has a thread of its own: two rings of messages, one each
//! way.
//!
//! ```text
//!  hub's thread          queue ► backlog ► try_send ► [ inputs  ] ► try_recv       brick's thread
//!  HubEnd                                                                          BrickEnd
//!              try_recv ◄ [ outputs ] ◄ try_send ◄ backlog ◄ queue
//! ```
//!
//! An end queues a message in its backlog, which is as long as it has to be. [`HubEnd::try_send`] moves the
//! backlog into the ring, oldest first, as far as the ring has room. A message is a [`bytes::Bytes`]: it is
//! moved, and neither end keeps a copy of it. No call waits, and only `queue` takes memory.
//!
//! The hub takes an output only once the inputs that the output counts were sent: an output begins with the
//! number of inputs that its brick had taken, and that count must be at most the number of inputs that the
//! hub's end has sent.
//!
//! A contract sees an end as [`LinkEnd`](../specs/Ends.antt): its backlog, what it sent and received, and
//! what it knows of its two rings. Across a pair these lists agree: [`beside`], once both ends are in one
//! thread, says that what each end received is a prefix of what the other one sent.
//!
//! Called by the threads of the mount: the hub's ends stand under the hub's lock, and a brick's end is with
//! the thread that owns the brick.
#![tactic(auto)]

mod brick;
mod hub;
mod link;
mod port;

pub use brick::BrickEnd;
pub use hub::HubEnd;
pub use link::{beside, pair};
