//! The plan of a graph: what a volfile's volumes are, and which sets they make.
//!
//! ```text
//!   volfile                        nodes, by place              sets
//!   volume c0 protocol/client      0 Client(0)                  0: clients c0, bricks 0, q 1
//!                                  1 Replicate(0) over 0    <-- put in: each set has a replicate node
//!                                  2 Distribute over 1      <-- put in: the plan has one distribute node
//!   volume v  debug/io-stats       3 Pass over 2            the last node is the top
//! ```
//!
//! [`build`] goes over the volumes once. Of each it learns its role, what is below it and whether a
//! rule is broken, from what is known of the volumes that it names, which all are before it; marks show
//! which volumes are used and which bricks are taken. A set is a replicate volume, or a client below none;
//! sets are in the order of the distribute volume's subvolumes, and without one there is one set. Then
//! the nodes are laid out in the file's order, each node that is put in directly behind what it was put in
//! for. [`follows`] says whether one plan may come after another in a graph switch.
//!
//! The script's reader plans each volfile by [`build`]; graphs are made from its plans.
#![tactic(auto)]

mod builds;
mod errors;
mod followings;
mod infos;
mod known;
mod laws;
mod marks;
mod nodes;
mod options;
mod places;
mod plans;
mod roles;
mod sets;
mod trees;
mod volumes;

pub use builds::build;
pub use errors::{PlanError, PlanKind};
pub use followings::{are_new, follows};
pub use fop_types::SetPlan;
pub use laws::{plans_have_nodes, plans_have_sets};
pub use plans::{NodeKind, NodePlan, Plan};
