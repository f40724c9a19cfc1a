//! The machine of one set of replicas: its state, the steps that can happen to it, and a guard for each.
//!
//! ```text
//!   transactions          connections            bricks
//!   ┌──────────┐   sent   ┌────────┐  line   ┌──────────────┐
//!   │ job      │ ───────▶ │ graph, │ ──────▶ │ store, locks │
//!   │ stage    │          │ number │         │ graphs       │
//!   │ grants   │ ◀─────── │ open?  │ ◀────── │              │
//!   └──────────┘ handed in└────────┘ outputs └──────────────┘
//!      changes: drawn ▸ unsettled ▸ adopted or dropped
//! ```
//!
//! A transaction is what was handed in to it; a guard says by that alone what it may do. A brick is a function
//! of its line. Requests, replies and connections are as the hub and the bricks have them; frames, messages
//! and other sets are not here. The crate has definitions and laws alone: each public function has no body,
//! and its contract is a law of the steps. What every state keeps that steps lead to is proved above it.
#![tactic(auto)]

mod laws;

pub use laws::{adopted_moves, one_brick_moves};
