//! The words that decide how a wind ends, where several threads may end it.
//!
//! ```text
//!            open             settle              collect
//!   free ──────────► pending ─────────► replied ──────────► free, at the next turn
//!             hub       │     any pass             hub        ▲
//!                       └─────────────► bailed ───────────────┘
//!                             bail, hub
//! ```
//!
//! Each slot has one word, which is four times the slot's turn, and the state of that turn. A wind is a slot
//! at a turn. A word only rises, so a wind ends once: by the reply that settles it, or by the bail that comes
//! where its connection ends. Whoever comes second finds that the word has moved on, and sees which word it
//! is. A call is one step of the word, or two where a bailed wind is collected; none waits, and none takes
//! memory but [`WindWords::new`].
//!
//! A step is made with a [`WindPass`]. The hub's pass opens, bails and collects; a reader's pass, split off
//! from another, settles. A contract sees a pass as the words that it is of and a [`View`]: the winds that
//! it won, and those that it lost with the word that it saw. [`specs/Rule.antt`](../specs/Rule.antt) says
//! what the views of all passes hold of each wind, between any two steps and whatever the schedule.
//! [`winds_are_won_once`] draws from it that no wind is won or collected twice.
//!
//! Called by the frame stack, which has the hub's pass, and by the owners of bricks, each with a reader's
//! pass.
#![tactic(auto)]

mod law;
mod pass;
mod rule;
mod view;
mod words;

pub use law::winds_are_won_once;
pub use pass::WindPass;
pub use view::{Loss, Role, View};
pub use words::WindWords;
