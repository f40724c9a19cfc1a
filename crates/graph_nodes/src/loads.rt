//! What a fop costs in a graph of a plan, and what each node has below it.
ghost use Rattle.std.specs.Prelude.{◌≡◌, ◌≤◌, length, slice_get, slice_set};
ghost use Rattle.graph_nodes.specs.Costs.{at_most};
ghost use Rattle.graph_nodes.specs.PlanCosts.{planned_shape, no_load, with_load, greatest, load_of, planned_load, top_weight, plan_cost};
ghost use Rattle.graph_nodes.specs.Plans.{IsPlan};

use crate::costs::{Shape, breadth_of, fop_units, weight_of};
use fop_types::{Fop, SetPlan};
use graph_build::{NodeKind, NodePlan, Plan};

/// What one unit costs at a node, and the most winds that a frame of it and all below it have open at once.
#[derive(Clone, Copy)]
pub(crate) struct Load {
    pub weight: u32,
    pub breadth: u32,
}

fn no_load() -> Load
    ensures { result ≡ no_load }
{
    Load {
        weight: 0,
        breadth: 0,
    }
}

// The greater of two loads.
fn with_load(most: Load, load: Option<Load>) -> Load
    ensures { result ≡ with_load most load }
{
    match load {
        Some(load) => Load {
            weight: most.weight.max(load.weight),
            breadth: most.breadth.max(load.breadth),
        },
        None => most,
    }
}

// The load at a place, if there is one.
fn load_at(loads: &[Load], at: u16) -> Option<Load>
    ensures { result ≡ slice_get loads.now at }
{
    loads.get(at as usize).copied()
}

/// The greatest of the loads of a node's children.
pub(crate) fn below(loads: &[Load], children: &[u16]) -> Load
    ensures { result ≡ greatest children.now no_load loads.now }
{
    let mut most = no_load();
    for child in children {
        most = with_load(most, load_at(loads, *child));
    }
    most
}

/// A number that does not fit is the greatest one.
pub(crate) fn at_most_u32(n: u64) -> u32
    ensures { result ≡ at_most 4294967295 n }
{
    if n <= u32::MAX as u64 {
        n as u32
    } else {
        u32::MAX
    }
}

/// The load of a node over children with this one.
pub(crate) fn load_of(shape: Shape, sets: u8, under: Load) -> Load
    ensures { result ≡ load_of shape sets under }
{
    Load {
        weight: at_most_u32(weight_of(shape, sets, under.weight)),
        breadth: at_most_u32(breadth_of(shape, under.breadth)),
    }
}

// How many replicas a set has, which are at most five.
fn replicas_of(set: &SetPlan) -> u8
    ensures { result ≡ at_most 5 (length set.now.bricks) }
{
    let count = set.bricks.len();
    if count <= 5 { count as u8 } else { 5 }
}

fn planned_shape(sets: &[SetPlan], kind: NodeKind) -> Shape
    ensures { result ≡ planned_shape sets.now kind }
{
    match kind {
        NodeKind::Client(_) => Shape::Client,
        NodeKind::Replicate(number) => match sets.get(number as usize) {
            Some(set) => Shape::Set(replicas_of(set)),
            None => Shape::Relay,
        },
        NodeKind::Distribute => Shape::Distribute,
        NodeKind::IoCache => Shape::Cache,
        NodeKind::IoThreads => Shape::Queue,
        NodeKind::Pass => Shape::Relay,
    }
}

// The load of a node of a plan, behind nodes with these loads.
fn planned_load(sets: &[SetPlan], loads: &[Load], node: &NodePlan) -> Load
    requires { length sets.now ≤ 255 }
    ensures { result ≡ planned_load sets.now loads.now node.now }
{
    let under = below(loads, node.children.as_slice());
    load_of(planned_shape(sets, node.kind), sets.len() as u8, under)
}

/// The most winds that a fop causes in a graph of this plan, which is one that `build` gives: it has fewer than 1,024 nodes.
pub fn cost(plan: &Plan, fop: &Fop) -> u64
    requires { IsPlan plan.now }
    ensures { length plan.now.nodes ≤ 1024 → result ≡ plan_cost plan.now fop.now }
{
    let units = fop_units(fop, sets_in(plan));
    units * (1 + top_weight(plan) as u64)
}

/// How many sets a plan has.
pub(crate) fn sets_in(plan: &Plan) -> u8
    requires { IsPlan plan.now }
    ensures { result ≡ length plan.now.sets }
{
    plan.sets.len() as u8
}

// The load of the node at this place is kept, if the place is below 1,024.
#[tactic(auto, using(crate::proofs::PlanLoads::set_beyond))]
fn keep_load(loads: &mut [Load; 1024], at: usize, load: Load)
    ensures { loads.new ≡ slice_set loads.old at load }
{
    if at < 1024 {
        loads[at] = load;
    }
}

// What one unit costs at the top of a plan, which takes no memory.
fn top_weight(plan: &Plan) -> u32
    requires { IsPlan plan.now }
    ensures { length plan.now.nodes ≤ 1024 → result ≡ top_weight plan.now }
{
    let none = no_load();
    let mut loads = [none; 1024];
    let mut top = none;
    let nodes = plan.nodes.as_slice();
    for at in 0..nodes.len() {
        top = planned_load(plan.sets.as_slice(), &loads, &nodes[at]);
        keep_load(&mut loads, at, top);
    }
    top.weight
}
