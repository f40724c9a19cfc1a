//! Tests of the audits of `log_audit`, and of `connects_are_caused` of `line_audit`: one honest log, for which each of these
//! answers true, and the same log with one line of it wrong, for which those answer false that the line concerns.
//!
//! Logs are tables of rows, and messages are written in their units of four bytes.
#![tactic(auto)]

#[cfg(test)]
mod audits;
#[cfg(test)]
mod cases;
#[cfg(test)]
mod logs;
