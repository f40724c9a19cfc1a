//! Audits of the winds, submissions, replies and arrivals of a log; and what other audits look up in one.
//!
//! ```text
//!   winds_are_balanced     the winds              each was opened once and ended once
//!   winds_are_once         the winds              each was opened once and ended at most once
//!   submits_are_in_order   the events, a script   each session submits its lines in order
//!   is_finished            the replies, a script  each call has one reply
//!   arrivals_are_outputs   what was sent and      what arrived is what the bricks put out, and their journals are what
//!                          arrived, the bricks    was sent
//!   arrivals_are_honest    the same, with the     what arrived is what the bricks make of what was sent
//!                          heads of what arrived
//! ```
//!
//! What arrived must be outputs where its heads are read (`heads` of `mount_log`), so `arrivals_are_outputs` comes first.
//!
//! Each audit goes through the log a fixed number of times, those of arrivals once more for each brick. It knows nothing of
//! how the log came about. True says that its definition holds of the log, and where that holds it says true: of winds where
//! those of a slot follow one another (`WindsFollow`), and of arrivals where there are at most 255 bricks and what was sent is
//! in the order of its events. The log of a run has these, which is not proved. A program calls them before it writes a report.
//!
//! `run_audit`, `line_audit`, `error_audit`, `change_audit` and `read_audit` have the other audits. What `run_audit` and
//! `line_audit` look up in a log is here, in the modules that are public: the calls that were submitted, with their lines, and
//! lines that can be armed. What most audits look up is in `mount_log`.
#![tactic(auto)]

pub mod armed_lines;
mod bricks;
pub mod calls_made;
mod ended;
mod finished;
mod honest;
mod slots;
mod submits;
mod timely;
mod winds;

pub use ended::is_finished;
pub use honest::{arrivals_are_honest, arrivals_are_outputs};
pub use submits::submits_are_in_order;
pub use winds::{winds_are_balanced, winds_are_once};
