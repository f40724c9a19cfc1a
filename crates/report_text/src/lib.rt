//! The report of a run: what the program writes about its calls, its history, its heals and its
//! graphs, as a value and as its text.
//!
//! ```text
//! report 1
//! call C session NAME line L places P ANSWER     calls, by rising number
//! history N
//! entry I call C part K                          the history, counted from 1
//! heal CELL from BRICK to BRICK                  copies, as the log has them
//! skip CELL majority|unsettled|split             skips, as the log has them
//! graph G NAME winds A ended B drained|open      graphs, by rising number
//! end
//! ```
//!
//! [`Report`] has one list for each kind of line, and [`print`] writes it. `Text` is the text as it
//! grows: one list of bytes with a method for each word and each line. The program's last step makes
//! the report of its log and prints it.
#![tactic(auto)]

mod answering;
mod answers;
mod calls;
mod faults;
mod graphs;
mod lines;
mod printing;
mod report;
mod text;
mod words;

pub use answers::ReportAnswer;
pub use calls::ReportCall;
pub use faults::{ReportIo, ReportRow};
pub use graphs::ReportGraph;
pub use printing::print;
pub use report::Report;
