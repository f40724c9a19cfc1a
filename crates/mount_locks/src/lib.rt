//! The holds of the mount: which calls may work on which gfids at a time.
//!
//! A call asks for a hold on one gfid or more, shared or exclusive. Two requests of different calls conflict
//! where they name a common gfid and one of the two is exclusive. Requests are kept in one queue, from the
//! time that they are asked until their call is released:
//!
//! ```text
//!   first                                                  last
//!   [extension, waits] [call 3, granted] [call 5, waits] [call 7, granted]
//! ```
//!
//! The granted ones are the holds, and no two holds ever conflict. A request is granted when no granted
//! and no earlier waiting request conflicts with it, so no later request overtakes one that it conflicts
//! with. An extension, of a call that holds already, is put before all others. A request that waits is
//! always blocked: it conflicts with a hold, or with a request before it that waits.
//!
//! Holds end with each file operation: the hub asks before one starts, and releases all of a call's requests
//! when the operation is answered. A call of several operations, as of a lookup and then a change, asks
//! anew for each. What a lookup found may therefore have changed by the next operation of its call. The
//! locks of a brick are apart from these holds: they end with an unlock or with the connection.
//!
//! The queue finds its requests by call, and by gfid with the exclusive ones apart from the shared ones
//! (`queue_index`), and counts those that wait. So a call costs time by the requests that name its own
//! gfids, however many others hold and wait. Where n requests are in the queue:
//!
//! - `ask` looks, on each of its gfids, at the first request of another call: of the order log n a gfid.
//! - `extend` looks at the requests on its gfid up to the first hold, each of the order log n.
//! - `release` finds the requests that conflict with those that leave, and gives each its turn, each of the
//!   order log n a gfid; on a gfid where an exclusive one is the first, its turn looks at those behind it
//!   too. No other can be granted, since each that waits is blocked at all times, by a hold or by one before
//!   it.
//! - `release_done` takes the requests of its call out, of the order log n for each gfid that they name.
#![tactic(auto)]

mod locks;
mod queue;
mod request;
mod walk;

pub use locks::MountLocks;
pub use request::{Held, Request};
