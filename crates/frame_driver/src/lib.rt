//! The driver of frames: it runs any translators through their law, and knows nothing of what their fops
//! mean.
//!
//! ```text
//!  submit              reply, bail            go_on
//!    │ a fop is to       │ ends winds; their    │ a frame whose
//!    ▼ enter             ▼ frames get it        ▼ wait is over
//!  queue  Enter          Resume                 Go
//!    │
//!    ▼ run takes the tasks, first come, first served, until none is left; each is one step of a frame
//!  step   Wind    ► an Enter task for each node below, or `sent` where the child is outside
//!         Wait    ► `waiting`
//!         Unwind  ► ends the wind that opened the frame, with a Resume task, or `answers` where there is none
//! ```
//!
//! Each graph has its own nodes and its own [`Board`]; all graphs of a mount share one stack of frames. A
//! frame is opened before its node takes the first step, so that the node learns the frame's number. No node
//! calls another, and a run has no recursion. A task takes the time of its node's step and of the winds that
//! it opens, however many frames are open.
//!
//! The clause `ran` of [`Board::run`] says what a run makes of the board and of the nodes, step by step; the
//! others say that it keeps the frames of all graphs to the law of their nodes (`sound`), and each open frame
//! has a trace (`traced`); that each open wind is in exactly one place: parent of an open frame, in a task, or
//! outside (`parted`); that the frames which wait for no wind are noted (`held`); that what no wind opened is at
//! the root of its graph (`rooted`); how much work is left (`work`); that no call opens more winds than its fops
//! cost (`paid`); that each frame fits below the one that opened it (`nests`), so that
//! [`open_winds_are_within`] bounds the winds that a call has open; and, also where it was cut short, that the
//! stack's law of winds goes on and frames and winds of other graphs are as before (`leads`), and that a
//! further wind was needed where none is left (`winds`). The other calls have the same clauses, as far as they
//! change something.
#![tactic(auto)]

mod board;
mod ends;
mod items;
mod law;
mod nodes;
mod queue;
mod run;
mod steps;
mod wiring;

pub use board::Board;
pub use items::{Answered, Bailed, Sent, Task};
pub use law::{boards_share_a_stack, open_winds_are_within, roots_stay, traces_are_bounded};
pub use queue::Queue;
pub use wiring::{Child, Wiring};
