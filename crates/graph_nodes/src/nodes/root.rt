//! The root of a graph: the end towards the mount. It fixes the place of an answer that no lock has fixed.
ghost use Rattle.std.specs.Prelude.{◌≡◌, IfOk, length};
ghost use Rattle.graph_nodes.specs.Moves.{IsMove};
ghost use Rattle.graph_nodes.specs.Root.{enter_of, place_by, resume_of};

use crate::context::Context;
use crate::locals::Local;
use crate::nodes::one;
use graph_items::{Down, Up};
use std::alloc::{AllocError, Global};
use xlator_law::Step;

/// Hands a fop down.
///
/// # Errors
/// Out of memory.
pub(crate) fn enter(alloc: Global, down: Down) -> Result<Step<Down, Up, Local>, AllocError>
    ensures { IfOk result (λ step. IsMove (enter_of down) step) }
{
    one(alloc, 0, down, Local::Relay)
}

// The place of an answer: that of its last lock, and the length of the history where it took none.
fn place_of(cx: &Context, place: Option<u32>) -> u32
    ensures { result ≡ place_by place (length cx.now.ledger.history) }
{
    match place {
        Some(place) => place,
        None => {
            cx.ledger.has_room();
            cx.ledger.history().len() as u32
        }
    }
}

/// Hands an answer out, with the length of the history as its place where it has none.
pub(crate) fn resume(cx: &Context, reply: Up) -> Step<Down, Up, Local>
    ensures { IsMove (resume_of cx.now.ledger reply) result }
{
    match reply {
        Up::Answer(answer, place) => {
            let place = place_of(cx, place);
            Step::Unwind(Up::Answer(answer, Some(place)))
        }
        Up::Set(reply) => Step::Unwind(Up::Set(reply)),
        Up::Brick(said) => Step::Unwind(Up::Brick(said)),
    }
}
