//! The audit of I/O errors: whether each reply that is one has its cause in the log.
//!
//! ```text
//!   io_errors_are_caused   the replies, plans   each I/O error has its cause
//!
//!   lost     bricks of a set were without a connection at a moment of the call, so many that the others are no quorum
//!   fault    bricks answered the call's requests by a fault, so many, with lost ones, that the others are no quorum
//!   split    in the call's last lock phase a quorum of bricks showed rows by which there is no source
//! ```
//!
//! Clues to the evidence are noted without a contract (`clue_notes`, `wanted_winds`). Where they lead (`evidence`,
//! `split_clues`) is then checked, and the audit's `true` rests on that alone. It goes through the log a fixed number of times. As
//! each audit of `log_audit`, it knows nothing of how the log came about: true says that its definition holds of the log; false
//! says that where the clues lead there is no evidence. Where no reply is an I/O error, or each names bricks to which the call's
//! graph had opened no connection, the answer is true.
#![tactic(auto)]

mod brick_replies;
mod cells;
mod clue_notes;
mod connections;
mod enough;
mod evidence;
mod grants;
mod io_causes;
mod lock_phases;
mod locks;
mod losses;
mod sources;
mod split_clues;
mod split_rows;
mod splits;
mod tables;
mod wanted_winds;

pub use io_causes::io_errors_are_caused;
