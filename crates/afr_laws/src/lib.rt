//! What every state of one set keeps, over every list of steps, proved from the machine of `afr_machine`. These are
//! part of the facts by which a set of replicas is one atomic store; those of lock phases and of copies that were made are in
//! `afr_soundness`, those of decisions in `afr_decisions`, and those of contents in `afr_contents`.
//!
//! ```text
//!   rows by counts        who accuses whom, soundness, quorums
//!   lines and locks       what is on its way, held locks, connections, grants; who alters which cells
//!   rows                  what a grant showed stands while its transaction gathers rows, what a lock phase saw until it
//!                         or a later one writes
//!   majorities            overtaken lock phases, who was sound in the last one, and who may take a change
//!   numbers               what was drawn, whose it is, what copies and rows say of it
//!   fresh cells           where no lock phase wrote, nobody is accused and nothing changed
//! ```
//!
//! Each fact is about one brick, one transaction at a brick, one connection, or one lock phase of a cell, and has a
//! proof for each step that can break it. The crate has definitions and laws alone: each public function has no body, and
//! its contract is a law.
#![tactic(auto)]

mod cells;
mod numbers;
mod rows;
mod states;

pub use cells::{every_cell_is_born_once, every_cell_is_fresh};
pub use numbers::{every_state_keeps_numbers, steps_keep_whole};
pub use rows::{
    accusers_follow, quorums_meet, rows_show_accusers, sound_has_few_accusers, soundness_is_counted,
};
pub use states::{
    every_change_is_drawn, every_holder_is_alone, every_member_is_ready, every_overtaken_is_apart,
    every_phase_is_own, every_row_stands, every_seen_row_stands, every_sound_is_free,
    every_state_covers_lines, every_state_keeps_lines,
};
