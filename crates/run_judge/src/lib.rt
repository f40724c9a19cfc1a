//! The judge of a finished run: whether the log and the bricks that a run left are as a run promises, and only then its report,
//! or the line that sums it up.
//!
//! ```text
//!   script, plans ─┐                         ┌─ no ──► None
//!                  ├─ is_lawful: all audits ─┤
//!   log, bricks ───┘                         └─ yes ─► the text, by lawful_report or lawful_summary
//! ```
//!
//! Of a run that stopped before its script's end [`has_stopped`] says whether it needed a wind where none was left.
//!
//! It knows no hub and no graph, and trusts neither: whoever has run the script, in one thread or by several, hands in what is
//! left. The definitions of the headline are here; `run_commands` writes the text and gives the status.
#![tactic(auto)]

mod audits;
mod reports;

pub use audits::{has_stopped, is_lawful};
pub use reports::{lawful_report, lawful_summary};
