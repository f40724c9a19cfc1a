//! The log of a run, as data.
//!
//! ```text
//!   events    1 Submit   2 Arrive   3 Run   4 Act   5 Arm ..       numbered from 1
//!   sent      event, brick, bytes                                 event 0 is the hub's making
//!   replies   event, call, session, line, places, answer          calls are numbered by their submissions, from 1
//!   history   entries; entered has the event of each
//!   winds     event, graph, call, wind, opened or ended
//!   copies, skips, answers of internal calls, each with its event
//! ```
//!
//! The hub writes an event's lines whole, or, where it was cut, its winds alone. `specs/` has what may be said of a log: which
//! calls were submitted, whether it follows its script and is finished, whether its winds are balanced, which connections were
//! open and for what they were made, and what an I/O error rests on. The audits find out whether it is so.
//!
//! What they look up in a log is in the modules that are public: events and lines by their numbers and places, in which event
//! and graph each call was made, and the sets of that graph, switches so far, the procedure of a request, and heads. `heads`
//! reads how an output begins, once for all audits that need no more of it: they take the heads from their caller.
#![tactic(auto)]

pub mod by_number;
pub mod by_place;
pub mod call_graphs;
mod first_units;
pub mod heads;
mod logs;
mod places;
pub mod requests;
mod session_lines;
pub mod switches;

pub use logs::{HubEvent, Log, ReplyLine, SentLine, WindLine};
pub use places::LineAt;
pub use session_lines::{lines_of_sessions, take_line};
