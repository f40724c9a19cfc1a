//! The files of all sets: a mount whose sets are atomic stores, as a machine, and what every state of it keeps.
//!
//! ```text
//!   calls                     sets                        history
//!   ┌───────────────┐  job    ┌──────────────────────┐    ┌─────────────────┐
//!   │ holds         │ ──────▶ │ adopted contents     │    │ entries         │
//!   │ fop ▸ course  │         │ firm cells           │ ─▶ │ operations      │
//!   │ what it saw   │ ◀────── │ unsettled changes    │    │ homes, objects  │
//!   └───────────────┘  reply  └──────────────────────┘    └─────────────────┘
//!      job: waiting ▸ settled ▸ changing ▸ decided, or failed at each point
//! ```
//!
//! A fop is its course in `dht_fops`, and a set is what `afr_machine` promises of one: bricks, their locks and frames are
//! not here. A change of a job that failed stays unsettled, until another job settles it, as adopted or as dropped. The
//! crate has definitions and laws alone: each public function does nothing, or cites laws of `dht_laws`, and its contract is a
//! law of every state that allowed steps lead to.
#![tactic(auto)]

mod states;

pub use states::{
    every_state_keeps_answers, every_state_keeps_births, every_state_keeps_effects,
    every_state_keeps_graphs, every_state_keeps_holds, every_state_keeps_homes,
    every_state_keeps_layouts, every_state_keeps_objects, every_state_keeps_presence,
    every_state_keeps_settled, every_state_keeps_sights,
};
