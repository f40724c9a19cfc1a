//! The world of one thread: the hub with its bricks, event by event.
//!
//! ```text
//!   hub ── sent ──► line of inputs ── Serve ──► brick ── outputs ──► Arrive ──► hub
//! ```
//!
//! Each brick has one line of inputs and one of outputs, both first in, first out. [`World::pick`] chooses the next event
//! by a value of the schedule that a seed gives, and [`World::run`] goes on until no event is left.
//!
//! Which bricks have an input or an output left is looked up at each event, in a walk over the bricks, of which a script has 60
//! at most.
#![tactic(auto)]

mod enabled;
mod events;
mod laws;
mod line;
mod lines;
mod parts;
mod schedule;
mod world;

pub use events::Event;
pub use hub_calls::Rack;
pub use laws::bricks_are_fed;
pub use schedule::Schedule;
pub use world::World;
