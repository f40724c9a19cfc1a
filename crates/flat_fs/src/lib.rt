//! The flat file system as a plain program: one map from gfid to object, and the calls of sessions with their
//! descriptors over it. It is what a mount without sets, bricks and links would be.
//!
//! ```text
//!   FlatMount   sessions and their descriptors; a call: at once, or its lookups and its last operation
//!      |
//!   FlatFs      objects by gfid; one method an operation: its answer, and the files after it
//!      |
//!   Held        one object, whose file is never longer than 65,536 bytes; the edits of its parts
//! ```
//!
//! No part of a mount calls it. Its methods are equal to the definitions of the flat file system, so a run of them
//! shows what the definitions say, and the answers of a mount can be compared with it.
#![tactic(auto)]

mod apply;
pub mod at_once;
mod edits;
mod fds;
mod flat_fs;
mod held;
pub mod last_op;
mod mount;
mod name_ops;
mod object_ops;
mod rename;
mod walk;

pub use fds::{Fd, Fds};
pub use flat_fs::FlatFs;
pub use mount::FlatMount;
pub use walk::Found;
