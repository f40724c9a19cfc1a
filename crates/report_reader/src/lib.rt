//! The reader of a report's text: it takes exactly the bytes that `report_text::print` gives for some report, and refuses
//! all others at the first line that is in no report after the lines before it.
//!
//! ```text
//! bytes --> lines --> Draft::line --> words --> the forms of words
//! ```
//!
//! [`read`] goes line by line over a `Draft`: the report so far, and what may come next. A line is cut at its spaces, and
//! each form of a line takes its words one by one. No two lines, answers or words of a report have the same text, so that
//! the first word decides what a line is, and each word is a value in one way.
#![tactic(auto)]

mod answers;
mod bad;
mod cells;
mod drafts;
mod faults;
mod fields;
mod forms;
mod lines;
mod lists;
mod numbers;
mod reads;
mod words;

pub use bad::ReportError;
pub use reads::read;
