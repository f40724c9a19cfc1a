//! The audits of a run: whether a log is that of a run of its script.
//!
//! ```text
//!   follows_script   the whole log, a script   each session submits its lines in order, each phase ends with nothing else
//!                                              left, each control is carried out once, in its moment, and calls are
//!                                              submitted one at a time, within their phases
//! ```
//!
//! `noting` notes how the log carried out its script, without a contract: of which control an event or a line is, and where
//! phases end. What was noted is then checked against script and log, and an audit's `true` rests on that alone. As each
//! audit of `log_audit`, it knows nothing of how the log came about: true says that its definition holds of the log. The
//! checks of phases, calls and controls are also true where what they check holds of the notes, and the log has what their
//! clause `complete` names. That the notes of a run are right is not proved, so false says nothing of the log. Of what arrived
//! it takes the heads. It goes through the log a fixed number of times, and once more through what was sent for each control
//! whose request has not come.
#![tactic(auto)]

mod acts;
mod alone;
mod answered;
mod call_phases;
mod carried;
mod in_line;
mod moments;
mod noting;
mod nth_requests;
mod numbers;
mod phase_ends;
mod phase_notes;
mod run;
mod run_notes;
mod sent_for;
mod settled;

pub use run::follows_script;
