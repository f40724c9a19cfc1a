//! The file operations of a distribute volume, after cluster/distribute: what each asks of the sets, and how it is
//! answered.
//!
//! A fop asks for one job of one set at a time and takes the reply; what it asks next, and its answer, are a function
//! of the replies so far, its *course*. A rename of a file on set 0 to the name of a file on set 1:
//!
//! ```text
//!   set 0   names: the file is here          names: a copy is here           move, part 2
//!   set 1              names: a file is here                 unlink, part 1               link, if the new name
//!                                                                                         belongs here
//! ```
//!
//! Each fop has its course in `specs/Fops.antt`; the machine is one value of its state, and each state goes on with a
//! part of the course. A change of a link has no effect on the file system, and an error in one changes no answer.
//!
//! Called by the distribute node of a graph, with the replies of its sets. The names of a directory are searched where
//! they are, moved into the answer of a list, and never copied but for the few bytes of those that a change carries. A
//! look takes a copy of the names of the sets, by which links are followed.
#![tactic(auto)]

mod begin;
mod cells;
mod changes;
mod dht_fop;
mod drops;
mod entries;
mod fop;
mod internal;
mod laws;
mod layouts;
mod list;
mod look;
mod look_end;
mod merge;
mod objects;
mod purpose;
mod rename;
mod rename_names;
mod replies;
mod resume;
mod spans;
mod spans_read;
mod state;
mod step;
mod volume;

pub use dht_fop::DhtFop;
pub use laws::fops_keep_bounds;
pub use layouts::Layout;
pub use step::DhtNext;
