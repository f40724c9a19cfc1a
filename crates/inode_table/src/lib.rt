//! The table of inodes of the mount: the kind and the set of each gfid in use.
//!
//! A gfid is in use while an open descriptor names it, or a file operation of a call that has no reply
//! yet. The table has one entry for each gfid in use, with a reference count:
//!
//! ```text
//!   gfid  ->  Inode { kind, set, held }        held = descriptors and operations that name the gfid
//! ```
//!
//! The graph takes a reference with [`InodeTable::link`] for each gfid that a file operation names, when
//! the operation is submitted, and gives it back with [`InodeTable::release`] when the operation is
//! answered. The hub does the same for open descriptors. [`InodeTable::get`] is the look-up.
//!
//! Contracts see the table as a finite map from gfid to [`Inode`]. Each call is one look-up by hash,
//! however many gfids are in use, and only [`InodeTable::link`] allocates.
#![tactic(auto)]

mod inode;
mod table;

pub use inode::Inode;
pub use table::InodeTable;
