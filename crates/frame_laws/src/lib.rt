//! What the boards of `frame_driver` keep where they have nothing to do: each open frame awaits something outside of
//! its graph, for itself or by its winds; so a call, or a graph, that awaits nothing has no open frame.
//!
//! ```text
//!   frame ── wind ─▶ frame ── wind ─▶ frame   waits for something that is no wind
//!     └───── wind ─▶ frame ── wind ────────▶  outside
//! ```
//!
//! The crate has definitions and laws alone: each public function has no body, and its contract is a law of every
//! board.
#![tactic(auto)]

mod laws;

pub use laws::{
    frames_under_are_of_the_call, rest_is_met, resting_boards_await, resting_boards_have_no_frame,
};
