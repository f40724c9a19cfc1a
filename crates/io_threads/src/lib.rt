//! The queues of an io-threads node: a task waits in the queue of its priority until it is taken.
//!
//! ```text
//!   push(Normal, t) ──► high    [ .. ]
//!                       normal  [ oldest .. t ]  ──► pop: the oldest task of the
//!                       low     [ .. ]               highest priority that has one
//!                       least   [ .. ]
//! ```
//!
//! Within a queue tasks are taken in the order in which they came. A task of a lower priority is taken
//! only where every higher queue is empty. A push and a pop take the same time however many tasks wait.
//!
//! Called by the graph, which pushes each fop that goes down through an io-threads node, and pops one each
//! time that it runs a task of the node.
#![tactic(auto)]

mod priority;
mod queues;

pub use priority::Priority;
pub use queues::Queues;
