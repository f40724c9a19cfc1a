//! The content of a cell of a set that a call has fetched after a quorum had granted locks.
ghost use Rattle.std.specs.Prelude.{◌≡◌, IfOk, IfSome};
ghost use Rattle.mount_log.specs.Connections.{graph_of_call};
ghost use Rattle.read_audit.specs.Read.{IsFetched};

use crate::fetches::content_at;
use crate::found::FetchAt;
use crate::quorums::has_holders;
use crate::runs::Run;
use change_audit::call_graphs::{graph_of, set_in};
use fop_types::{Cell, Content};
use std::alloc::{AllocError, Global};

/// A call that has its reply: its number, its graph, and the number of the reply's event.
#[derive(Clone, Copy)]
pub struct Replied {
    pub call: u32,
    pub graph: usize,
    pub number: u64,
}

/// The graph of a call.
pub(crate) fn call_graph(run: &Run, call: u32) -> Option<usize>
    ensures { IfSome result (λ graph. graph ≡ graph_of_call run.now.log.now call) }
{
    let graph = graph_of(run.graphs, call)?;
    Some(graph)
}

/// The content of a cell that arrived for a call by the event of its reply, from a brick of a set of the call's graph, by a fetch
/// that was found, after a quorum of the set had granted locks.
///
/// # Errors
/// Out of memory.
pub(crate) fn content_read(
    alloc: Global,
    run: &Run,
    by: Replied,
    set: u8,
    cell: &Cell,
    at: FetchAt,
) -> Result<Option<Content>, AllocError>
    requires { by.graph ≡ graph_of_call run.now.log.now by.call }
    ensures { IfOk result (λ found. IfSome found (λ content. IsFetched run.now.script.now run.now.plans.now run.now.log.now run.now.bricks.now by.call by.number set cell.now content)) }
{
    if at.event as u64 >= by.number {
        return Ok(None);
    }
    let Some(plan) = set_in(run.plans, run.graphs, by.graph, set) else {
        return Ok(None);
    };
    if !has_holders(
        alloc, run.log, run.bricks, plan, run.found, by.call, by.graph, cell, at,
    )? {
        return Ok(None);
    }
    let content = content_at(alloc, run.log, run.bricks, by.call, by.graph, cell, at)?;
    Ok(content)
}
