//! A call of a session, as it was submitted: what the judges and the audits of calls go by.
#![tactic(auto)]

mod calls;

pub use calls::Submitted;
