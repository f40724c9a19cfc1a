//! One brick, whole: a machine over bytes that takes requests and controls one after the other, and answers each
//! request.
//!
//! ```text
//!   journal   bytes 1      bytes 2      bytes 3          what was served, in order:
//!                |            |            |             each is an input, or stops being one at a place
//!   state     a new brick ->  state  ->  state           cells, locks, connections, descriptors, faults
//!                |            |            |
//!   outputs   bytes        bytes        bytes            each with the number of inputs up to it
//! ```
//!
//! A brick is a function of its journal: by its type its outputs and its state are `outputs_of` and `state_of` the
//! journal, but for the names of replicas in its store, which only `dump` shows. So what a brick answers is known from
//! what was sent to it, and its first outputs don't change as more inputs come. Bytes that are no input change
//! nothing, and are answered `Malformed` with the place at which they stop being one.
//!
//! ```text
//!   Brick      journal, outputs, spent
//!     State    served input by input
//!       Store      cells with rows, names       (cell_store)
//!       BrickLocks held and waiting locks       (brick_locks)
//!       Waiters    the wind of each lock that waits
//!       Graphs     connected graphs with their open descriptors
//!       Late       while the brick is down
//!       Faults     requests that are to fail
//! ```
//!
//! A served input costs a few searches of the order log n in what the brick keeps, beside the bytes that it moves;
//! an index looks at every cell, a Down at every lock that waits, and a dropped or released lock at those that it
//! kept waiting. Inputs and outputs are buffers that are shared and not copied, and the store keeps the long bytes of a
//! write where they are in its input.
//!
//! `specs/` has the rules, one definition each, in the order in which `specs/Lib.antt` lists its files.
#![tactic(auto)]

mod answers;
mod brick;
mod changes;
mod controls;
mod faults;
mod graphs;
mod late;
mod laws;
mod locking;
mod machine;
mod outs;
mod serving;
mod sharing;
mod state;
mod waiters;

pub use brick::Brick;
pub use laws::{
    locks_are_orderly, malformed_bytes_change_nothing, one_more_input_is_served,
    outputs_are_encoded, outputs_are_in_order, plain_runs_are_answered, requests_are_answered_once,
    unlocks_do_not_fail,
};
pub use state::State;
