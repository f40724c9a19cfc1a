//! What a graph switch asks: whether a plan may follow those so far, and which descriptors the new graph
//! opens again.
//!
//! ```text
//!   plans so far      1: sets A B
//!                     2: sets A B C                    the current plan
//!   may follow:          sets A B C D                  where no plan so far has a brick of D
//!   may not follow:      sets A B D, or sets B A C     C is gone; A and B changed places
//! ```
//!
//! A switch adds graphs and ends none of the mount's own tables: descriptors stay open, with their session,
//! number and offset. So that the new graph's bricks know them, the descriptors are opened there again, in
//! the order of [`reopen_list`].
//!
//! With p plans of at most b bricks each, [`may_follow`] takes time of the order p b². [`reopen_list`] takes
//! the table's own order, so it is linear and sorts nothing.
//!
//! Called by the hub, where a `switch` is carried out.
#![tactic(auto)]

mod followings;
mod reopening;

pub use followings::may_follow;
pub use reopening::{Reopen, reopen_list};
