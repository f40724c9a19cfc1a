//! What things cost: a fop costs so many units, and each node has a weight for one unit.
ghost use Rattle.std.specs.Prelude.{◌≡◌, ◌≤◌, ◌+◌, ◌*◌};
ghost use Rattle.graph_nodes.specs.Costs.{at_most, at_least, fop_units, units_of, jobs_for, requests_for, sets_of, IsFew, shape_of, weight_of, breadth_of, cost_of};

use crate::kinds::{Kind, Node};
use fop_types::Fop;
use graph_items::Down;

fn at_most(bound: u64, n: u64) -> u64
    ensures is { result ≡ at_most bound n }
    ensures most { result ≤ bound }
{
    if n <= bound { n } else { bound }
}

fn at_least(bound: u64, n: u64) -> u64
    ensures is { result ≡ at_least bound n }
    ensures most { result ≤ bound + n }
{
    if bound <= n { n } else { bound }
}

// The units of a heal of so many cells in each of so many sets.
#[tactic(auto, using(crate::proofs::Bounds::heal_units))]
fn heal_units(cells: u64, sets: u8) -> u64
    requires { cells ≤ 4096 }
    ensures is { result ≡ 1 + sets * (2 * cells + 2) }
    ensures few { result ≤ 2105871 }
{
    1 + sets as u64 * (2 * cells + 2)
}

/// How many units a fop is on so many sets: a Migrate one for each descriptor, a Heal one for each index and each cell
/// that a set may have, and any other fop one.
pub(crate) fn fop_units(fop: &Fop, sets: u8) -> u64
    ensures is { result ≡ fop_units sets fop.now }
    ensures few { result ≤ 2105871 }
{
    match fop {
        Fop::Migrate { fds } => at_least(1, at_most(16384, fds.len() as u64)),
        Fop::Heal { count } => heal_units(at_most(4096, *count as u64), sets),
        _ => 1,
    }
}

/// How many units that is which enters a node.
pub(crate) fn units(down: &Down, sets: u8) -> u64
    ensures is { result ≡ units_of sets down.now }
    ensures few { result ≤ 2105871 }
{
    match down {
        Down::Fop(op) => fop_units(op.fop(), sets),
        Down::Job(_) => 1,
        Down::Request(_) => 1,
    }
}

/// The most jobs that so many units are.
#[tactic(auto, using(crate::proofs::Bounds::jobs_fit))]
pub(crate) fn jobs_for(sets: u8, units: u64) -> u64
    requires few { units ≤ 2105871 }
    ensures { result ≡ jobs_for sets units }
{
    units * (4 * sets as u64 + 16)
}

/// The most requests that a job of a set of so many replicas sends.
#[tactic(auto, using(crate::proofs::Bounds::requests_fit, crate::proofs::Bounds::few_requests))]
pub(crate) fn requests_for(replicas: u8) -> usize
    ensures is { result ≡ requests_for replicas }
    ensures most { result ≤ 5202000 }
    ensures few { replicas ≤ 5 → result ≤ 2000 }
{
    let n = replicas as usize;
    80 * n * n
}

/// Over how many sets a node's units are counted, where its graph has so many.
pub(crate) fn sets_of(kind: &Kind, sets: u8) -> u8
    ensures { result ≡ sets_of kind.now sets }
{
    match kind {
        Kind::Distribute(node) => node.sets,
        _ => sets,
    }
}

/// What counts at a node for its cost: whether it hands on, lets wait, keeps pages, runs fops over sets, runs jobs over so many replicas, or
/// sends to a brick.
#[derive(Clone, Copy)]
pub(crate) enum Shape {
    Relay,
    Queue,
    Cache,
    Distribute,
    Set(u8),
    Client,
}

pub(crate) fn shape_of(kind: &Kind) -> Shape
    ensures is { result ≡ shape_of kind.now }
    ensures few { IsFew result }
{
    match kind {
        Kind::Root => Shape::Relay,
        Kind::Pass => Shape::Relay,
        Kind::IoThreads(_) => Shape::Queue,
        Kind::IoCache(_) => Shape::Cache,
        Kind::Distribute(_) => Shape::Distribute,
        Kind::Replicate(node) => Shape::Set(node.plan.bricks.len() as u8),
        Kind::Client(_) => Shape::Client,
    }
}

// What one unit costs at a distribute node.
#[tactic(auto, using(crate::proofs::Bounds::fop_weight))]
fn fop_weight(sets: u8, weight: u32) -> u64
    ensures is { result ≡ (4 * sets + 16) * (1 + weight) }
    ensures few { result ≤ 4449586118656 }
{
    (4 * sets as u64 + 16) * (1 + weight as u64)
}

// What one unit costs at the node of a set.
#[tactic(auto, using(crate::proofs::Bounds::set_weight, crate::proofs::Bounds::few_weight))]
fn set_weight(replicas: u8, weight: u32) -> u64
    ensures is { result ≡ requests_for replicas * (1 + weight) }
    ensures few { replicas ≤ 5 → result ≤ 8589934592000 }
{
    let requests = requests_for(replicas) as u64;
    requests * (1 + weight as u64)
}

/// What one unit costs at a node, by what it costs at a child.
pub(crate) fn weight_of(shape: Shape, sets: u8, weight: u32) -> u64
    ensures is { result ≡ weight_of shape sets weight }
    ensures few { IsFew shape → result ≤ 8589934592000 }
{
    let below = 1 + weight as u64;
    match shape {
        Shape::Relay => below,
        Shape::Queue => below,
        Shape::Cache => 17 * below,
        Shape::Distribute => fop_weight(sets, weight),
        Shape::Set(replicas) => set_weight(replicas, weight),
        Shape::Client => 3 + weight as u64,
    }
}

// The most winds that are open at once in a frame of a set and all below it.
#[tactic(auto, using(crate::proofs::Bounds::set_breadth))]
fn set_breadth(replicas: u8, breadth: u32) -> u64
    ensures { result ≡ replicas * (1 + breadth) }
{
    replicas as u64 * (1 + breadth as u64)
}

/// The most winds that are open at once in a frame and all below it, by what is open below a child.
pub(crate) fn breadth_of(shape: Shape, breadth: u32) -> u64
    ensures { result ≡ breadth_of shape breadth }
{
    let below = 1 + breadth as u64;
    match shape {
        Shape::Relay => below,
        Shape::Queue => below,
        Shape::Cache => below,
        Shape::Distribute => below,
        Shape::Set(replicas) => set_breadth(replicas, breadth),
        Shape::Client => below,
    }
}

/// The most winds that something which enters a node causes, in the node and below it.
#[tactic(auto, using(crate::proofs::Bounds::cost_fits))]
pub(crate) fn cost_at(node: &Node, down: &Down) -> u64
    ensures { result ≡ cost_of (shape_of node.now.kind) (sets_of node.now.kind node.now.sets) node.now.weight down.now }
{
    let sets = sets_of(&node.kind, node.sets);
    units(down, sets) * weight_of(shape_of(&node.kind), sets, node.weight)
}
