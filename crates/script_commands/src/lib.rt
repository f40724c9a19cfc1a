//! What the program does with a script without running it: which command its words are; a script that is read and accepted
//! with its plans, or refused; the line of `check`; `replay`, which judges a script with its report; and the script that
//! `gen` generates.
//!
//! ```text
//!   words  ── command_in ───► Command
//!   source ── read_script ──► Accepted ── check_read ─┐
//!      │           └────────► Refusal ─── refuse ─────┼──► sink
//!      └───── write_verdict: find the report, judge ──┘
//! ```
//!
//! Whatever is written, and whatever status is given, goes by the text alone: nothing here knows a hub, a brick or a log.
//! A [`HeadSink`] keeps the first bytes of what was written, and [`meaning_of`] explains the kind that a fault line names.
#![tactic(auto)]

mod checks;
mod commands;
mod generator;
mod head_sinks;
mod meanings;
mod plans;
mod readings;
mod refusals;
mod replaying;
mod verdicts;
mod writes;

pub use commands::{Command, command_in};
pub use generator::{Draws, generated};
pub use head_sinks::HeadSink;
pub use meanings::{Meaning, meaning_of};
pub use plans::{Accepted, accept};
pub use readings::{NotRead, read_script};
pub use refusals::Refusal;
pub use verdicts::write_verdict;
pub use writes::{check_read, refuse_all, write};
