//! What one call asks, and what it is answered: the part of the hub that goes by the seventeen calls, so that nothing
//! above has a case for each.
//!
//! ```text
//!   at_once ──► answered without a fop: an error, a seek, a close
//!      │
//!   Walk ──► next_hold, next_fop ──► the lookup of the next component ──► after_answer ──► Walk::step
//!                            └─────► the last fop                     ──► after_answer ──► the call's answer
//! ```
//!
//! The hub calls these for each call that it serves: it asks for the hold, sends the fop, and hands its answer in. Each takes
//! constant time, but for the names and bytes that a fop copies from its call, and a look at the table of descriptors.
//!
//! The laws say that a call which is served so has a lawful answer, where its fops have the answers of the flat file system at
//! their places.
#![tactic(auto)]

mod after;
mod asking;
mod holding;
mod laws;
mod moving;
mod objects;
mod paths;
mod replies;
mod walk;
mod without_fop;

pub use after::{after_answer, has_place};
pub use asking::next_fop;
pub use holding::{Hold, next_hold};
pub use laws::{descriptors_follow, fops_are_bounded, lookups_are_counted, walks_are_lawful};
pub use moving::move_fd;
pub use paths::{first_path, second_path};
pub use replies::{After, CallReply, FdMove};
pub use walk::Walk;
pub use without_fop::at_once;
