//! Audits of the lines of a log: whether replies, winds and requests are tied to calls, events and graphs, connections and
//! controls were sent for a cause, and those that were due were sent.
//!
//! ```text
//!   lines_are_tied        all lines              replies, winds and requests are of their calls, events and graphs
//!   connects_are_caused   what was sent, plans   connections and controls are sent for a cause, and where they are due
//! ```
//!
//! Where a brick answers Gone, or a graph ends, a Disconnect has a cause, but none is asked for.
//!
//! Each goes through the log a fixed number of times. As each audit of `log_audit`, it knows nothing of how the log came
//! about: true says that its definition holds of the log. Where `connects_are_caused` answers false, its definition does not
//! hold, or the log lacks what the clause `complete` names besides. The log of a run has that, which is not proved. Where
//! `lines_are_tied` answers false, nothing is known.
#![tactic(auto)]

mod causes;
mod connects;
mod downs;
mod due;
mod effects;
mod event_links;
mod in_time;
mod keeping;
mod known;
mod last_uses;
mod lines_sent;
mod linked;
mod links;
mod tie_notes;
mod tied_ends;
mod tied_replies;
mod tied_requests;
mod tied_sent;
mod tied_winds;
mod ties;

pub use connects::connects_are_caused;
pub use ties::lines_are_tied;
