//! The judge of a log: whether its replies are those of one plain file system at the places that it writes, after the changes
//! of its one history.
//!
//! ```text
//!   log_calls  the calls of the log, and the events that submit them
//!   replies    the replies, and the event of each call's reply
//!   lengths    how long the history was at each of these events
//!     |
//!   history_replay::lawful_ops
//! ```
#![tactic(auto)]

mod judging;
mod lengths;
mod replies;

pub use judging::one_file_system;
