//! The locks of one brick: who holds which cells, and who waits for them.
//!
//! ```text
//!   requests, in the order in which they were asked
//!
//!     (1, 4)  cells a b  shared     holds
//!     (1, 7)  cells b    exclusive  waits: (1, 4) has b
//!     (2, 5)  cells b    shared     waits: (1, 7) came before it and is exclusive
//!     (2, 6)  cells c    exclusive  holds
//! ```
//!
//! An owner is one call of one graph, and has at most one request at a time, for all the cells that it wants.
//! Two requests conflict where they have a cell in common and one of the two is exclusive. A request holds
//! exactly where no earlier one conflicts with it, and waits otherwise. So held locks never conflict, and a
//! later request never overtakes one that waits for the same cell.
//!
//! A lock ends where its owner unlocks it (`release`) or where its connection ends: when the graph connects
//! again or disconnects (`drop_graph`), or when the brick goes down (`drop_all`). A request that still waits
//! ends only with the connection, and its owner is then reported as gone. Nothing else ends a lock, neither
//! time nor the end of the operation for which it was taken.
//!
//! The requests are kept in a queue that finds them by owner, by graph, and by cell with the exclusive ones
//! apart from the shared ones (`queue_index`). Where n requests hold or wait:
//!
//! - `knows` is of the order log n.
//! - `ask` looks, for each of its cells, at the first request that conflicts: of the order log n a cell.
//! - `release` and `drop_graph` take their requests out, of the order log n for each cell of these. On each
//!   cell they look at the requests behind one that leaves up to the first exclusive one, and at the shared
//!   ones among them only where the one that leaves is exclusive: each of the order log n for each cell of
//!   it. A request behind an exclusive one of its cell conflicts with it, so nothing changes for it.
//! - `drop_all` looks at every request.
//!
//! Called by the brick, for its requests lock and unlock, and where it connects, disconnects or goes
//! down.
#![tactic(auto)]

mod locks;
mod owner;
mod request;
mod walk;

pub use locks::{Asked, BrickLocks, Dropped};
pub use owner::Owner;
