//! What the hub knows of its calls, sessions, controls and bricks, each in a table of its own; and what it asks of a fop, a
//! request, a plan or a script without a graph.
//!
//! ```text
//!   SessionLines   the lines that each session has left                                         by session
//!   Calls          the calls without a reply, with their stages; where replies are in the log   by call, by graph
//!   Agenda         what decides what is due: how many outputs are owed, whether an internal call is under way, and
//!     Progress       the phase, the sessions that may submit                                    by session
//!     Controls       the controls that were not carried out, the actions that are armed         by place, by request
//! ```
//!
//! The hub (`hub_calls`) has one of each and changes them at its events. None looks at a graph or at a log. An event changes
//! the agenda as it begins, by what it is, and as it ends, by the lines that it adds to the log.
//! A method takes the time of some look-ups in maps, `Agenda::send_out` for each input and for each control that waits for it;
//! only what begins a script or a phase goes through all its lines.
#![tactic(auto)]

mod actions;
mod agenda;
mod brick_names;
mod calls;
mod control_maps;
mod controls;
mod fop_checks;
mod fops;
mod outputs;
mod plan_bricks;
mod progress;
mod requests;
mod script_lines;
mod sending;
mod session_lines;
mod small_set;

pub use actions::{Due, Turned, may_be_armed};
pub use agenda::Agenda;
pub use brick_names::named_brick;
pub use calls::{CallState, Calls, Stage};
pub use fop_checks::is_fop;
pub use fops::{changes_bytes_next, fd_number};
pub use outputs::{closed_after, is_due};
pub use plan_bricks::{bricks_of, has_queues};
pub use script_lines::{creations, makes};
pub use session_lines::SessionLines;
pub use small_set::SmallSet;
