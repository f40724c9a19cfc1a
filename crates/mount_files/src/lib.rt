//! The files that all sets show: what an op that one set applies makes of them, and which ops stay possible after it.
//!
//! The crate has definitions and laws alone: each public function has no body, and its contract is a law of all contents.
#![tactic(auto)]

mod laws;

pub use laws::{names_are_known, op_is_shown, ops_stay_possible};
