//! The frame stack of a mount: the open frames of all its graphs, and the winds that they opened.
//!
//! ```text
//!   frames                                 slots                     a slot's word
//!   0  graph 1, call 7, node 2, local ◄─── 0  frame 0, its slot 0    pending, turn 3
//!   1  graph 1, call 7, node 5, out   ◄─── 1  frame 1, its slot 2    replied, turn 0
//!   2  -                                   2  -                      free,    turn 4
//!
//!        wind                settle              resume
//!   free ────► pending ────────► replied ────────────► free, at the next turn
//! ```
//!
//! A wind is a slot at a turn. It is settled once at most, by the first that answers it, and its frame is
//! resumed once at most. A later answer finds that the slot's word has moved on, and so cannot resume the
//! frame again. A slot whose wind was resumed is used again at its next turn, so the slots stay as few as
//! the most winds that were ever open at once, and a number never comes back.
//!
//! The stack writes down each opening and each end of a wind. [`winds_are_balanced`] says what these lines
//! keep, whatever the calls were. The clause `leads` of each call is its part in that.
//! [`frames_follow_translators`] says that a graph which winds and unwinds as its translators' law has it
//! meets the conditions of [`FrameStack::wind`] and [`FrameStack::free`].
//!
//! A frame is opened by a wind that is open, and is in the graph and of the call of that wind. Winds are
//! numbered as they are opened, so that those of a lost connection can be ended oldest first.
//!
//! Called by the graph, which opens a frame where a fop enters a node, winds what the node's translator
//! says, and resumes the frame of a wind that was answered. Each call takes the same time however many
//! frames and winds are open, but for the growth of the lists, which is amortized. Only
//! [`FrameStack::open`], [`FrameStack::begin`], [`FrameStack::wind`] and [`FrameStack::resume`] take memory.
#![tactic(auto)]

mod frame;
mod keyed;
mod law;
mod stack;
mod words;

pub use frame::Opener;
pub use law::{frames_follow_translators, winds_are_balanced};
pub use stack::FrameStack;
