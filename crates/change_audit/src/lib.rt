//! The audits of acknowledged changes, of copies and of skips: whether each change of the history whose call was answered well
//! is on the bricks, whether each copy that the log has was made, and whether each skip is of a cell that a brick had listed.
//!
//! ```text
//!   history    entry k: call 7, part 1          its operation, by the judge of histories
//!   replies    call 7 was answered well         call_graphs, acknowledged
//!
//!   brick 0    journal .. Op 12 .. Post 12 ..   in the call's graph, on winds of the call
//!   brick 2    journal .. Op 12 .. Post 12 ..   one change number, one store op, which makes the operation
//!              a quorum of the bricks of one set; a new file's name on the set of its hash; a change for which a set is handed
//!              in on that set
//!   events     .. Op 12 is answered Done .. Post 12 goes out .. it is answered Done .. the call is answered
//!
//!   copies     cell, from brick 0 to brick 2, last change 12
//!   events     .. the answer of brick 0 to Fetch arrives, Replace goes to brick 2 .. its Done arrives .. the copy is entered
//! ```
//!
//! Bearers (`finding`) and replacements (`copy_finding`) are found by one pass each over what arrived, without a contract. What
//! was found is then checked where it is (`bearers`, `copy_requests`), each change is taken for one entry and each replacement
//! for one copy (`claims`), and an audit's `true` rests on that alone: true says that each acknowledged change was on the bricks
//! by its call's reply, by a change of its own, or that each copy was made, by a replacement of its own; false says no more than
//! that there was something to find: where no entry's call was answered well, or the log has no copy or no skip, the answer is
//! true. What is checked at a place says no only where it is not so there, for requests and answers that have an encoding. With
//! n events, winds, entries and copies an audit takes time of the order n log n, and of the bytes that are decoded.
//!
//! What `read_audit` looks up as these audits do is here, in the modules that are public.
#![tactic(auto)]

pub mod acknowledged;
mod answers;
pub mod arrivals;
pub mod bearers;
pub mod call_graphs;
mod candidates;
mod changes;
pub mod claims;
mod copies;
mod copy_finding;
pub mod copy_requests;
pub mod finding;
pub mod history;
mod index_requests;
pub mod journals;
mod listings;
pub mod making;
mod notes;
pub mod openings;
mod placing;
mod replacing;
mod served;
mod skips;
pub mod sources;

pub use changes::changes_are_borne;
pub use copies::copies_are_made;
pub use skips::skips_are_listed;
