//! What the copies of one set of replicas hold, over every list of steps of the machine of `afr_machine`: each is good, or its
//! replica accused. Proved from the facts of `afr_laws`, `afr_soundness` and `afr_decisions`.
//!
//! ```text
//!   decision ─ each replica has the change as decided, or a quorum accuses it ─▶ accused until a clear is sent
//!        │
//!        ├─ adopted changes of a cell ─ the content that they leave ─▶ good copies
//!        │
//!        └─ copies, and what is on its way to them, are good, or their replicas accused for good
//!                                                                        │
//!                                                                        └─▶ whoever is free is good ─▶ what a read finds is adopted
//! ```
//!
//! The crate has definitions and laws alone: each public function has no body, and its contract is a law.
#![tactic(auto)]

mod copies;
mod decisions;
mod good;
mod reads;

pub use copies::{
    appliers_have_adopted, every_adopted_bears, every_change_is_present,
    every_confirmed_equals_source, every_firm_is_present, every_known_is_shown, seen_all_has_one,
    seen_all_has_sound, sources_are_good,
};
pub use decisions::{accusations_stay, every_decision_is_spread};
pub use good::{
    every_adopted_is_as_born, every_adoption_fits, every_change_is_of_adopted, every_copy_is_good,
    every_copy_stays_good, every_good_copy_has_verdicts, every_set_is_guarded,
    every_state_comes_good, free_is_good,
};
pub use reads::{every_read_shows_adopted, good_is_settled, ready_have_adopted};
