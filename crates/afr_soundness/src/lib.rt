//! What lock phases decide, whom they accuse, who stays free, and what copies carry, over every list of steps of one set of
//! replicas. Proved from the machine of `afr_machine` and the facts of `afr_laws`. The facts of decisions are in
//! `afr_decisions`, and those of contents in `afr_contents`.
//!
//! ```text
//!   lock phase ─ decides ─▶ a change ─ accuses ─▶ those outside who applied it, or outside the group
//!        │
//!        ├─ reached ─▶ bricks ─ sound, or copied and cleared ─▶ takers: one is not accused, and free
//!        │
//!        ├─ later lock phases over an unsettled change accuse nobody, or settle it
//!        │
//!        └─ copies ─ what sources have ─▶ sinks: apart from unsettled changes, which are where their lock phase reached
//! ```
//!
//! Each fact is about one lock phase of a cell, and has a proof for each kind of step that can break it: `TxnMoves`,
//! `PhaseMoves` and `ChangeMoves` say what a step makes of a transaction, a lock phase and a change. The crate has definitions
//! and laws alone: each public function has no body, and its contract is a law.
#![tactic(auto)]

mod changes;
mod copies;
mod phases;

pub use changes::{
    every_applied_holds, every_group_agrees, every_post_done_accuses, every_settle_done_accuses,
    every_state_leaves_one_free, every_unsettled_has_free, every_unsettled_is_alone,
};
pub use copies::{
    every_copied_is_free, every_copy_is_apart, every_copy_knows_its_sources, every_copy_stands,
    every_replaced_has_copy,
};
pub use phases::{
    every_decision_spares_a_taker, every_line_is_apart, every_lock_phase_leaves_one_free,
    every_phase_accuses_as_it_decides,
};
