//! The table of open descriptors of the mount.
//!
//! A descriptor belongs to one session and has a number there. The table maps the two to the file that
//! is open, the set that has the file, and the offset of the next read or write:
//!
//! ```text
//!   (session, fd)  ->  Fd { gfid, set, offset }        in order of session, then of fd
//! ```
//!
//! The hub opens, moves and closes descriptors as calls are answered; a graph switch goes over all open
//! ones, by [`FdTable::iter`], to open them again at the new bricks.
//!
//! With n open descriptors each call takes time of the order log n, and only [`FdTable::open`]
//! allocates.
#![tactic(auto)]

mod fd;
mod table;

pub use fd::{Fd, FdKey, FdOpen};
pub use table::FdTable;
