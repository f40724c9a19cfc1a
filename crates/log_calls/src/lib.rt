//! The calls of a log, by the lines of its script, and the events that submit them.
//!
//! ```text
//!   script    session 0 has the lines a b      session 1 has the line c
//!   events    1 session 1 submits      2 an output arrives      3 session 0 submits      4 session 0 submits
//!
//!   calls     c  a  b
//!   events    1  3  4
//! ```
//!
//! An event that submits names a session alone: its call is the first line that the session has left. Judges and audits of a
//! log begin with [`calls_in`].
#![tactic(auto)]

mod calls;

pub use calls::{Calls, calls_in};
