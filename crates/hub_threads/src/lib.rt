//! The mount with threads: each brick is owned by one thread, and some threads take the hub's turns under a lock.
//!
//! ```text
//!   workers ── turn ──► Desk (locked): hub, its ends of the links
//!                          │ inputs            ▲ outputs
//!                          ▼                   │
//!                        ring of each brick, 64 messages each way
//!                          ▼                   │
//!   owners ─── turn ──► BrickSide: brick, its end of the link
//! ```
//!
//! A turn under the lock is one event: an arrival, a submission, a task or a control. An owner serves one input at a
//! time, and takes no lock for it. Threads go on until the log is finished, one of them runs out of memory, or the hub
//! needs a wind too many. Where threads ended before the log was finished, the caller goes on by itself.
//! A thread that finds nothing to do looks again; from the 65th time in a row on it naps first, up to a millisecond.
#![tactic(auto)]

mod desk;
mod gate;
mod idle;
mod links;
mod mounted;
mod mounting;
mod places;
mod side;

pub use gate::{Gate, OpenGate};
pub use mounted::{Ran, mount};
pub use side::BrickSide;
