//! A queue whose entries are found by keys.
//!
//! ```text
//!   entries, by rising number         places, by key and then by number
//!
//!     6: request of owner 3            (gfid 2, exclusive) 8
//!     8: request of owner 5            (gfid 2, shared)    6
//!     9: request of owner 7            (owner 3, name) 6, (owner 5, name) 8, (owner 7, name) 9, ..
//! ```
//!
//! New entries go to the end, or to the front. An entry keeps its number until the numbers at an end are used
//! up, which takes 2^63 - 1 entries there without the queue ever being empty; then all entries get fresh ones,
//! in the same order. Each entry has a place for each of its keys, so whoever asks for a key walks over the entries of that key
//! alone. A key names a thing and says whether its entry has the thing exclusive, shared, or by name only.
//! Two entries conflict where they have a thing in common, neither by name only, and one of the two has it
//! exclusive.
//!
//! With n entries, one that has k keys is put in and taken out in time of the order k log n, whether an
//! entry of some key comes before a number is found in time of the order log n, and each entry that
//! conflicts with another in time of the order log n for each thing that they have in common.
//!
//! Called by the tables of locks and holds.
#![tactic(auto)]

mod entry;
mod key;
mod keyed;
mod next;
mod place;
mod queue;
mod rivals;

pub use key::{EXCLUSIVE, Key, NAME, SHARED};
pub use keyed::Keyed;
pub use next::next_rivals_of;
pub use queue::KeyedQueue;
pub use rivals::rivals_of;
