//! Scans of blocks of 4,096 bytes, 64 bytes at a time: where two blocks differ, and whether a block is
//! all zeros.
//!
//! ```text
//!   a     | 64 bytes | 64 bytes | 64 bytes | ..  | 64 bytes |
//!   b     | 64 bytes | 64 bytes | 64 bytes | ..  | 64 bytes |
//!   differ     bit 0      bit 1      bit 2   ..      bit 63
//! ```
//!
//! Self heal asks this of each block of a file before it sends the block to a sink. The scans work on
//! vectors of 64 lanes; `plain` has the same two calls byte by byte, as a reference.
//! Nothing here allocates.
#![tactic(auto)]

mod lanes;
pub mod plain;

pub use lanes::{all_zero, differ};
