//! A brick's store: what one brick keeps of the cells of its set, as one map from cell to its copy, its
//! counters and the number of its last change; and the names under which it shows the replicas of the set.
//!
//! ```text
//!   cell                 copy                        dirty   accuses   last
//!   gfid 1, metadata     mode 755 octal              0                 0
//!   gfid 1, entries      names: a is directory 2     1                 7     change 7 is marked and not yet posted
//!   gfid 2, metadata     mode 700 octal              0                 7     born with the name, in the same op
//!   gfid 2, entries      no names                    0       replica 1 7     posted, and replica 1 missed it
//!   gfid 3, data         none                        1                 0     only marked
//! ```
//!
//! A cell is present where it has a copy. An op alters cells and gives birth to others, all under one
//! change number; where it does not fit nothing changes. What an op does to the copies is defined in
//! `fop_types`, for bricks and for the file system alike. A mark says that a change is on its way, a post
//! that it came through and which replicas missed it; a settle decides a change that stopped on its way, and
//! a copy from another brick ends with a clear. Where memory runs out the store is as it was before the call.
//!
//! ```text
//!   Store       cells and names: what callers see
//!     CellMap   the cells alone: requests change these
//! ```
//!
//! The brick machine calls this for each request that it serves, and owns the one store of its brick.
//! `specs/Cells.antt` says what each call makes of the cells; `specs/code/` has the steps of the code.
#![tactic(auto)]

mod adding;
mod applying;
mod cell_laws;
mod cell_map;
mod counters;
mod counting;
mod dump;
mod fitting;
mod kept;
mod laws;
mod lines;
mod lookups;
mod steps;
mod store;
mod text;

pub use cell_laws::counts_change_the_listed;
pub use kept::Kept;
pub use laws::ops_change_copies;
pub use store::Store;
