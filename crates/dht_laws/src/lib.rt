//! What the courses of the fops of `dht_fops` keep, whatever the sets answer: what a fop knows before it asks, on which sets
//! it reads, changes and adds names, what its links and copies rest on, how it is answered, and how much it asks for.
//!
//! The crate has definitions and laws alone: each public function has no body, and its contract is a law of every course.
#![tactic(auto)]

mod laws;

pub use laws::{
    fops_add_on_sets, fops_answer_as_flat, fops_answer_changes, fops_ask_all, fops_ask_few,
    fops_ask_well, fops_bear_first, fops_change_links, fops_change_on_sets, fops_extend_holds,
    fops_ignore_links, fops_place_answers,
};
