//! How unsettled changes are decided, over every list of steps of one set of replicas: each is decided once, and the decision
//! stands. Proved from the machine of `afr_machine` and the facts of `afr_laws` and `afr_soundness`.
//!
//! ```text
//!   post or settle ─ Done ─▶ noted in the lock phase ─▶ the brick goes on accusing, while the change is unsettled
//!                                     │                                  │
//!                                     │                                  └─ seen in the rows of a later settling
//!                                     └─ by a quorum ─▶ decided ─▶ no other lock phase decides it otherwise
//! ```
//!
//! A later settling finds nobody sound whom a quorum accuses, so its group takes what that quorum spared. The crate has
//! definitions and laws alone: each public function has no body, and its contract is a law.
#![tactic(auto)]

mod asks;
mod confirmations;
mod decisions;

pub use asks::{every_lock_is_in_order, every_op_is_new, one_is_unaccused};
pub use confirmations::{
    every_confirmation_is_noted, every_confirmed_accuses, every_later_shows, every_settling_stands,
};
pub use decisions::{every_decision_stands, every_state_is_guarded, every_verdict_stands};
