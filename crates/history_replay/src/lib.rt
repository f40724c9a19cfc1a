//! The judge of a trace, and of a report: whether calls, answered as they are said to be, are those of one plain file system
//! after the changes of a history. It knows no graph, brick or hub.
//!
//! ```text
//!   find       one walk over the history: what each lookup found, the operation of each entry
//!     |
//!   claims_of  call by call: the claims by which its entries are legal and its reply is lawful
//!     |
//!   hold       one run of the flat file system over the operations: each claim at its place
//! ```
//!
//! [`lawful_ops`] is the check of any trace, and gives the operations of its entries: a program can run it over its own log.
//! [`judge`] is the check of a report of a script. What `find` gives is believed by nobody: a wrong finding makes a claim that
//! does not hold.
//!
//! What is lawful is said in `specs/Traces`, of any trace, and in `specs/Reports`, of a report. `specs/code` follows the code.
//! That [`judge`] names the first entry or call that fails is not proved: its contract speaks of [`Verdict::Lawful`] alone.
#![tactic(auto)]

mod asked;
mod assigned;
mod cases;
mod claims;
mod copies;
mod ends;
mod filled;
mod finding;
mod findings;
mod indices;
mod judging;
mod known;
mod lawful;
mod lines;
mod looking;
mod lookups;
mod making;
mod places;
mod progress;
mod reading;
mod same;
mod sessions;
mod shown;
mod steps;
mod trace;
mod turns;
mod visits;

pub use judging::{Verdict, judge};
pub use lawful::lawful_ops;
pub use trace::{Replied, Trace};
