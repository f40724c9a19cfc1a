//! A node that hands everything on to its only child, and each reply back.
ghost use Rattle.std.specs.Prelude.{IfOk};
ghost use Rattle.graph_nodes.specs.Moves.{IsMove};
ghost use Rattle.graph_nodes.specs.Pass.{enter_of, resume_of};

use crate::locals::Local;
use crate::nodes::one;
use graph_items::{Down, Up};
use std::alloc::{AllocError, Global};
use xlator_law::Step;

/// Hands on what comes from above.
///
/// # Errors
/// Out of memory.
pub(crate) fn enter(alloc: Global, down: Down) -> Result<Step<Down, Up, Local>, AllocError>
    ensures { IfOk result (λ step. IsMove (enter_of down) step) }
{
    one(alloc, 0, down, Local::Relay)
}

/// Hands a reply back.
pub(crate) fn resume(reply: Up) -> Step<Down, Up, Local>
    ensures { IsMove (resume_of reply) result }
{
    Step::Unwind(reply)
}
