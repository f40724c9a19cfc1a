//! Whether a graph may answer reads from pages that it keeps.
ghost use Rattle.std.specs.Prelude.{◌≡◌, ◌-◌, true, slice_get};
ghost use Rattle.mount_log.specs.Causes.{plan_of_volfile};
ghost use Rattle.read_audit.specs.Read.{is_cache as is_cache_kind, has_cache as has_cache_in, keeps_pages as keeps_pages_of};

use change_audit::call_graphs::{CallGraphs, plan_in};
use graph_build::{NodeKind, NodePlan, Plan};

fn is_cache(kind: NodeKind) -> bool
    ensures { result ≡ is_cache_kind kind }
{
    match kind {
        NodeKind::IoCache => true,
        _ => false,
    }
}

fn has_cache(nodes: &[NodePlan]) -> bool
    ensures { result ≡ true → has_cache_in nodes.now ≡ true }
{
    for node in nodes {
        if is_cache(node.kind) {
            return true;
        }
    }
    false
}

/// Whether a graph has a node that keeps pages. It may be false where the graph has no plan.
pub(crate) fn keeps_pages(plans: &[Plan], tables: &CallGraphs, graph: usize) -> bool
    ensures { result ≡ true → keeps_pages_of (plan_of_volfile plans.now (slice_get tables.now.volfiles (graph - 1))) ≡ true }
{
    match plan_in(plans, tables, graph) {
        Some(plan) => has_cache(plan.nodes.as_slice()),
        None => false,
    }
}
