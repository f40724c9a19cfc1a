//! The graph of a volfile: its nodes as translators, run by the driver of frames.
//!
//! ```text
//!   submit ─ Fop ─► root ▸ pass, io-cache, io-threads ▸ distribute ─ Job ─► pass ▸ replicate ─ Request ─► pass ▸ client ─► messages
//!                                    │ one job             │ one request             │ a brick's reply, or
//!                                    │ at a time           │ to each replica         │ Gone where its
//!   Moved ◄ Answer ─────────────────◄┘ ◄──────────── Set ──┘ ◄─────────────── Brick ─┘ connection is closed
//! ```
//!
//! Each kind of node is a file of `nodes/` and one translator: what enters it, what its frames keep, and what a reply
//! makes of them. A node never calls another, and knows neither frames nor winds. [`Graph`] has the nodes of one plan,
//! the connections to its bricks, and the board of its frames; all graphs of a [`Mount`] share one stack of frames
//! and one ledger, which a graph borrows for a call. Between two calls nothing is left to do, and the frames that wait for
//! what is no wind are parked at the mount. [`Graphs`] has all graphs of a mount by number, and keeps this of each.
//!
//! Nodes answer whatever comes: a node that is entered by what is not of its kind, or a machine that asks for more
//! than its budget, ends its frame with the answer of a set without a quorum. The laws of the machines say that this
//! never happens.
#![tactic(auto)]

mod arriving;
mod bailing;
mod caches;
mod calls;
mod context;
mod costs;
mod fits;
mod graph;
mod graphs;
mod kinds;
mod ledgers;
mod linking;
mod loads;
mod locals;
mod making;
mod mounted;
mod moved;
mod names;
mod nodes;
mod opening;
mod outer;
mod owning;
mod parked;
mod planned;
mod reading;
mod running;
mod sending;
mod tree;

pub use context::{Context, HoldWait};
pub use graph::Graph;
pub use graphs::Graphs;
pub use kinds::{BrickClient, Distribute, IoCache, IoThreads, Kind, Node, Replicate};
pub use ledgers::MountLedger;
pub use loads::cost;
pub use locals::{FopFrame, FopState, JobState, Local, PageRange, PageRead, SetFrame};
pub use moved::{HoldAsk, Mount, Moved};
pub use reading::Owner;
