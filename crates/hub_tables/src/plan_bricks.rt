//! The bricks of a plan, and its queues.
ghost use Rattle.std.specs.Prelude.{◌≡◌, ◌<◌, ◌||◌, ℕ};
ghost use Rattle.hub_tables.specs.PlanBricks.{is_client_of, has_client, is_queue as is_queue_of, has_queue as has_queue_of, has_queues as have_queues};
ghost use Rattle.hub_tables.specs.SmallSets.{has};

use crate::small_set::SmallSet;
use graph_build::{NodeKind, Plan};

// The set with the brick of a node more, where that is a client.
fn with_client(bricks: SmallSet, kind: NodeKind) -> SmallSet
    ensures { (brick : ℕ) → brick < 64 → has result brick ≡ (is_client_of brick kind || has bricks brick) }
{
    match kind {
        NodeKind::Client(brick) => bricks.with(brick),
        _ => bricks,
    }
}

/// The bricks that a plan uses.
#[tactic(auto, using(crate::proofs::PlanBricks::no_bricks, crate::proofs::PlanBricks::bricks_next, crate::proofs::PlanBricks::bricks_all))]
pub fn bricks_of(plan: &Plan) -> SmallSet
    ensures { (brick : ℕ) → brick < 64 → has result brick ≡ has_client brick plan.now.nodes }
{
    let mut bricks = SmallSet::new();
    for node in plan.nodes.as_slice() {
        bricks = with_client(bricks, node.kind);
    }
    bricks
}

fn is_queue(kind: NodeKind) -> bool
    ensures { result ≡ is_queue_of kind }
{
    match kind {
        NodeKind::IoThreads => true,
        _ => false,
    }
}

fn has_queue(plan: &Plan) -> bool
    ensures { result ≡ has_queue_of plan.now.nodes }
{
    for node in plan.nodes.as_slice() {
        if is_queue(node.kind) {
            return true;
        }
    }
    false
}

/// Whether one of these plans has an io-threads node.
pub fn has_queues(plans: &[Plan]) -> bool
    ensures { result ≡ have_queues plans.now }
{
    for plan in plans {
        if has_queue(plan) {
            return true;
        }
    }
    false
}
