//! The hub: it submits the calls of a script, carries each out by fops that it sends down the newest graph, takes what
//! the bricks answer, carries out the script's controls, and keeps the log of the run.
//!
//! ```text
//!   script ── submit ──► call: lookups of its path, then its last fop, one at a time
//!                          │ hold (waits in the queue of holds)
//!                          ▼
//!                        graph ── requests ──► bricks          sent
//!                          ▲                     │
//!                          └───── arrive ◄───────┘             events, winds, copies, skips
//!                          │ answer: holds released, places
//!                          ▼
//!                        reply                                 replies, history
//! ```
//!
//! What a call asks, in which order, and what it is answered is `call_fops`' part; the hub has its stages, its holds and its
//! descriptors, and has no case for each call. What it knows of its calls, sessions, controls and bricks is in the tables of
//! `hub_tables`.
//!
//! A call is in one of these places until it has its reply: it waits for the calls of an older graph with fewer sets; it
//! waits for the hold of its next fop; its fop is in its graph; or the fop waits until the hold is extended. The internal
//! call, number 0, opens descriptors in a new graph or heals cells, and holds nothing.
//!
//! An event is one turn: a call is submitted, an output arrives, a task is run, an action is carried out or armed. What the graphs give
//! is taken in the order in which it was given, until nothing is left: first what is sent, then the holds that are asked
//! for, then the answers. At an answer the fop's holds are released, those who are let in begin, and then the call asks
//! for its next hold. At its end what it has sent goes out, behind what is armed for it, the phase moves on where it has nothing
//! left, and the event is written to the log with its lines. The moves of an event are not handed the log, nor the agenda, which
//! decides what is due: an event changes the agenda as it begins, by what it is, and as it ends, by the lines that it adds. The
//! hub's contracts name the event that a call adds, and the agenda after it.
//!
//! No event looks through the log, the calls, the sessions or the frames of other calls.
#![tactic(auto)]

mod acting;
mod arriving;
mod connecting;
mod due;
mod engine;
mod events;
mod graphs;
mod holding;
mod hub;
mod inodes;
mod numbering;
mod parts;
mod planned;
mod racks;
mod replying;
mod running;
mod sends;
mod turn;
mod turns;
mod writing;

pub use hub::Hub;
pub use hub_tables::{Due, SmallSet, Turned, named_brick};
pub use mount_log::requests::request_proc;
pub use mount_log::{HubEvent, Log, ReplyLine, SentLine, WindLine};
pub use racks::Rack;
