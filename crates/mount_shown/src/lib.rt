//! The files of all sets are one flat file system, over every list of steps of the mount over atomic stores.
//!
//! What `mount_files` says of the contents of all sets is put to the states of `mount_laws`: which step is which op, which
//! unsettled changes fit, what a fop knows by what it was handed in, and how it is answered. The crate has definitions and laws
//! alone: each public function does nothing, and its contract is a law.
#![tactic(auto)]

mod bridge;
mod dropping;
mod known;
mod pending;
mod replies;

pub use bridge::{sets_may_be_more, start_is_empty, steps_are_ops};
pub use dropping::fops_drop_in_turn;
pub use known::calls_know_names;
pub use pending::{every_change_begins_well, every_state_keeps_files};
pub use replies::{every_answer_is_flat, every_history_is_legal, failed_changes_come_later};
