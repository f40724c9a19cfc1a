//! The transaction of replicate: what a set of replicas does for one job, as a pure machine.
//!
//! ```text
//!   Change    settle what touches its cells · lock · copy to the unsound · mark · op · post · unlock · answer
//!   Read      settle what touches its cells · lock · fetch cell by cell · unlock · answer
//!   Birth     lock · op · unlock · answer
//!   Heal      lock · copy to the unsound · unlock · answer
//!   Open      open on every live replica · answer
//!   Index     index of every live replica · answer
//! ```
//!
//! A transaction takes what a replica answered and says what it needs next: requests to be sent, a copy to be made,
//! nothing before another answer, or that it is done. It knows no frames and no bytes, and asks each replica for one
//! thing at a time. Who does not answer as asked, or has lost its lock by the release, is out, and when so many are out
//! that the others are no quorum, the locks are released and the job is answered by the cause.
#![tactic(auto)]

mod answers;
mod begin;
mod causes;
mod changes;
mod copying;
mod jobs;
mod laws;
mod listed;
mod locked;
mod need;
mod parts;
mod phase;
mod polls;
mod reads;
mod ready;
mod settles;
mod size;
mod turns;
mod txn;

pub use jobs::Kind;
pub use laws::{
    replies_are_within_bounds, requests_are_encoded, requests_are_of_phases, transactions_go_on,
};
pub use listed::Listed;
pub use need::Need;
pub use phase::{Adopted, Part, Phase, Then, Verdict};
pub use size::Size;
pub use txn::Txn;
