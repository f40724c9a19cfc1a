//! Trees of sample nodes under the driver of frames, for its tests and its times.
//!
//! ```text
//!   0 pair ──┬── 1 pair ──┬── 3 gate  ──── 6 relay ──── outside
//!            │            └── 4 relay ──── 7 gate  ──── outside
//!            └── 2 relay ──── 5 relay ──── 8 relay ──── outside
//! ```
//!
//! [`Tree`] has the nodes, which of them is below which, and the board. Its type keeps what the driver asks
//! of them from call to call.
#![tactic(auto)]

mod fitting;
mod kinds;
mod tree;

pub use kinds::{Kept, Kind, Node};
pub use tree::Tree;
