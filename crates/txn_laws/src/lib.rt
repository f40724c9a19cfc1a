//! What the turns of the transactions of `afr_transaction` keep, whatever the replicas answer: that a job stays what it is, that what
//! it knows of its replicas was handed in, and who is out; what a turn does to the ledger, and when it decides; that I/O errors have
//! causes; that requests end, how often a job begins again, and that it ends.
//!
//! The crate has definitions and laws alone: each public function has no body, and its contract is a law of every turn, or of every run.
#![tactic(auto)]

mod laws;

pub use laws::{
    confirmations_are_handed_in, failures_have_causes, failures_list_all, grants_are_handed_in,
    jobs_end, jobs_stay, lock_phases_follow, losses_are_losses, others_add_few_rounds,
    outs_are_handed_in, quorums_decide, requests_end, rounds_are_paid, rows_are_handed_in,
    runs_are_lawful, runs_end, skips_have_causes, splits_have_quorums, splits_lack_free,
    turns_move_the_ledger,
};
