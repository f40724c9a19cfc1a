//! The ledger of a mount: the numbers of changes, the changes that are not settled yet, and the history.
//!
//! ```text
//!   drawn 7                                  numbers 1 to 7 belong to changes
//!
//!   unsettled   5  set 0  data of gfid 9     effect: part 1 of call 4      asked of the bricks, not decided
//!               7  set 1  names of gfid 1    no effect
//!
//!   history     entry 1  call 1 part 1       the accepted changes with an effect, in the order of their decisions
//!               entry 2  call 3 part 1
//!
//!   places      (set 0, data of gfid 9)  5   where an unsettled change is found by its cells
//!               (set 1, names of gfid 1) 7
//! ```
//!
//! A transaction of replicate draws a number before it marks its cells, and begins the change when a quorum has
//! marked them. From then on the change is unsettled: bricks may have it or lack it. It is decided as adopted or as
//! dropped, once; as adopted, its effect becomes the next entry of the history. At most one unsettled change touches
//! a cell of a set, so whoever finds it there can settle it before he reads or changes the cell.
//!
//! Contracts see the ledger as [`State`](specs/Ledger.antt): the count of numbers drawn, the unsettled changes by
//! rising number, and the history. With n unsettled changes, a change of k cells is begun and decided in time of the
//! order k log n, and k cells are looked up in the same time. `begin` and `decide` allocate, and nothing else does.
#![tactic(auto)]

mod changes;
mod ledger;
mod place;
mod unsettled;

pub use fop_types::Entry;
pub use ledger::Ledger;
pub use unsettled::Unsettled;
