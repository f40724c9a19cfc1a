//! The changelog of replicate, after cluster/replicate: the counters that a brick keeps beside its
//! copy of a cell, and which replicas' copies are sound.
//!
//! Each brick of a set has for each cell a row: whether the copy is there, how many marks no post has
//! lowered (dirty), and for each replica of the set a counter of accusations (pending). Replica i
//! accuses replica j where its counter for j is not zero.
//!
//! ```text
//!              counters for replica   0  1  2
//!   row of replica 0   present        0  0  1     accuses 2: it missed a change
//!   row of replica 1   present        0  0  1
//!   row of replica 2   present        0  0  0     unsound while 0 and 1 are reached
//! ```
//!
//! The brick's store raises and lowers counters; the transaction of replicate and the copies of self
//! heal ask which replicas are sound. Nothing here allocates.
#![tactic(auto)]

mod attribute;
mod counters;
mod masks;
mod soundness;

pub use attribute::{read12, write12};
pub use counters::{lower, raise};
pub use masks::common_source;
pub use soundness::sound;
