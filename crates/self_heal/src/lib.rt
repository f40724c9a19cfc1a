//! Copies of replicate: cells are brought from a sound replica to others, as a pure machine.
//!
//! ```text
//!   fetch      content and last of the next cell, from the lowest source that is still used
//!   replace    on every sink that is still used
//!              .. cell by cell ..
//!   clear      once, for all cells: nobody accuses the sources and the sinks that confirmed every cell any more
//! ```
//!
//! A transaction asks for a copy under its locks; the machine says which requests go out and takes their answers. Who
//! does not answer as asked is out. A source that goes out is followed by the next one. Where no sink or no source is
//! left the copy ends, and nothing is cleared: what was not confirmed stays accused.
#![tactic(auto)]

mod laws;
mod records;
mod run;
mod stage;

pub use fop_types::{CopyDone, CopyJob, CopyRecord, Out};
pub use laws::{
    clears_follow_replacements, copies_are_encoded, copies_go_on, current_have_every_cell,
    each_answer_leaves_less, requests_go_to_the_job, waits_are_open,
};
pub use run::CopyRun;
pub use stage::{CopyNeed, Origin, Stage};
