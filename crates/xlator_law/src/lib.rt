//! What a translator is: a node of a graph that takes a file operation, winds requests to its children,
//! and unwinds with an answer; and the law that every translator meets.
//!
//! ```text
//!          fop │        ▲ reply                enter   a fop comes from above
//!              ▼        │                      resume  a child answered a wind
//!         ┌────────────────┐                   go_on   what the frame waited for has come
//!         │   translator   │  local: what a frame keeps while it waits,
//!         └────────────────┘         with its unanswered slots
//!    slot 0 │    │ slot 1                      Step::Wind    winds, and the local that waits
//!           ▼    ▼                             Step::Wait    waits for something that is no wind
//!         children                             Step::Unwind  the answer, with no slot unanswered
//! ```
//!
//! A translator never calls another one. Its step says what it winds or unwinds, and the graph carries
//! the step out: a frame that waits is a value in the frame stack, resumed by the reply of its wind, or
//! by the end of its wait.
//!
//! The law is [`Xlator`]'s contract. It keeps the slots apart, and it bounds the winds: each frame has a
//! cost, and each wind with all that it causes below is paid out of it. A node has a number of slots too,
//! so its frames and all below them have a bounded number of winds open at once. What a node's steps do
//! beyond that, each translator says in a word of its own, `makes`.
//!
//! [`samples`] has three small translators that meet it.
//!
//! The numbers of winds and the places of frames are here too, for all crates that name them.
#![tactic(auto)]

mod law;
pub mod samples;
mod step;
mod winds;
mod xlator;

pub use law::{frames_are_bounded, open_winds_are_bounded};
pub use step::Step;
pub use winds::{Entry, Parent, Place, Settled, Stop, WindNo};
pub use xlator::Xlator;
