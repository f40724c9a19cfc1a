//! That each request which a transaction of `afr_transaction` or a copy of `self_heal` sends meets its guard in
//! `afr_machine`.
//!
//! ```text
//!   afr_transaction               IsRecordOf            afr_machine
//!   Txn, its phase and wave  ◀─────────────────────▶  its record: stage, grants, out, left
//!   the rows that it saw     ◀─────────────────────▶  its lock phase
//!   live, last, the ledger   ◀─────────────────────▶  connections, changes
//!        │ Send (k, request)                               │
//!        ▼                                                 ▼
//!   IsOfPhase                 ─────────────────────▶  MayAsk k (ask_of request)
//! ```
//!
//! A turn sends requests; at that moment the machine has a record of the transaction, and each request is one that the
//! guard of its kind allows. The exceptions are those of the machine: a replica whose lock was lost with its connection
//! is not asked there but missed, and that births are apart is kept by whoever runs the transactions.
//!
//! So it is with the copies of `self_heal`, which run under the locks of a transaction. How far a copy has come is a part
//! of its record there: what is fetched and replaced of the current cell, and that the sinks which a clear names are those
//! that confirmed every cell. `self_heal` proves one half of the last: each that is named has confirmed every cell.
//!
//! And a copy leaves a sink out of date only where a replica that its transaction used went out in it, which `txn_laws` asks for
//! where it counts how often a job begins again.
//!
//! The crate has definitions and laws alone: each public function has no body, and its contract is a law of every turn, or of every run.
#![tactic(auto)]

mod laws;

pub use laws::{
    copies_are_asked_for, copies_leave_for_loss, copies_meet_guards, jobs_with_copies_end,
    posts_are_met, requests_go_one_after_another, requests_meet_guards, runs_meet_guards,
};
