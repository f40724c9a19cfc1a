//! The report of a run: what its log says, with the script's names in place of numbers.
#![tactic(auto)]

mod errors;
mod graph_lines;
mod limits;
mod names;
mod reports;
mod summaries;

pub use limits::has_report;
pub use reports::report_of;
pub use summaries::{opened_in, summary_line};
