//! Whether the nodes of a tree fit their places: each costs at most what the node above it counts, and has no more winds
//! open, and each child that a node has is there.
ghost use Rattle.std.specs.Prelude.{ℕ, ◌≡◌, ◌<◌, ◌≤◌, true, length, map};
ghost use Rattle.frame_driver.specs.Follows.{promise_at, FitsAt, Fits};
ghost use Rattle.frame_driver.specs.Wiring.{below, IsWired};
ghost use Rattle.graph_nodes.specs.Fitting.{FitsChild, HasChildren};
ghost use Rattle.graph_nodes.specs.Promises.{node_promise};

use crate::costs::{Shape, breadth_of, sets_of, shape_of, weight_of};
use crate::kinds::Node;
use frame_driver::{Child, Wiring};

// Whether the node `to` may be below the node at this place.
#[tactic(auto, using(crate::proofs::Fitting::fits_below))]
fn fits_at(nodes: &[Node], at: usize, to: u16) -> bool
    ensures { result ≡ true → (child : ℕ) → FitsAt (map node_promise nodes.now) at child to }
{
    let (Some(above), Some(under)) = (nodes.get(at), nodes.get(to as usize)) else {
        return false;
    };
    let sets = sets_of(&above.kind, above.sets);
    let shape = shape_of(&under.kind);
    sets_of(&under.kind, under.sets) == sets
        && weight_of(shape, sets, under.weight) <= above.weight as u64
        && breadth_of(shape, under.breadth) <= above.breadth as u64
}

// Whether a child may be below the node at this place.
fn fits_child(nodes: &[Node], at: usize, child: Child) -> bool
    ensures { result ≡ true → FitsChild (map node_promise nodes.now) at child }
{
    match child {
        Child::Node(to) => fits_at(nodes, at, to),
        Child::Outside => true,
        Child::Nothing => true,
    }
}

// Whether each node that is below another one fits its place.
#[tactic(auto, using(crate::proofs::Wired::all_fit, crate::proofs::Wired::no_width, crate::proofs::Wired::fit_more))]
fn all_fit(nodes: &[Node], wiring: &Wiring) -> bool
    ensures { result ≡ true → (node child to : ℕ) → below wiring.now node child ≡ Child.Node to → FitsAt (map node_promise nodes.now) node child to }
{
    if wiring.width == 0 {
        return true;
    }
    for i in 0..wiring.below.len() {
        if !fits_child(nodes, i / wiring.width as usize, wiring.below[i]) {
            return false;
        }
    }
    true
}

fn has_child(wiring: &Wiring, node: u16, child: u16) -> bool
    ensures { result ≡ true → IsWired (below wiring.now node child) }
{
    match wiring.below(node, child) {
        Child::Node(_) => true,
        Child::Outside => true,
        Child::Nothing => false,
    }
}

// Whether the wiring has so many children of a node.
#[tactic(auto, using(crate::proofs::Wired::has_none, crate::proofs::Wired::has_more))]
fn has_children(wiring: &Wiring, at: u16, count: u16) -> bool
    ensures { result ≡ true → HasChildren wiring.now at count }
{
    for child in 0..count {
        if !has_child(wiring, at, child) {
            return false;
        }
    }
    true
}

// How many children a node has.
fn children_of(node: &Node) -> u16
    ensures { result ≡ (node_promise node.now).children }
{
    match shape_of(&node.kind) {
        Shape::Relay => 1,
        Shape::Queue => 1,
        Shape::Cache => 1,
        Shape::Distribute => sets_of(&node.kind, node.sets) as u16,
        Shape::Set(replicas) => replicas as u16,
        Shape::Client => 1,
    }
}

// Whether the wiring has each child of the node at this place.
fn has_all(wiring: &Wiring, at: u16, node: &Node) -> bool
    ensures { result ≡ true → HasChildren wiring.now at (node_promise node.now).children }
{
    has_children(wiring, at, children_of(node))
}

// Whether the wiring has each child of each node.
#[tactic(auto, using(crate::proofs::Wired::wired_none, crate::proofs::Wired::wired_more, crate::proofs::Wired::all_wired))]
fn all_wired(nodes: &[Node], wiring: &Wiring) -> bool
    requires few { length nodes.now ≤ 65535 }
    ensures { result ≡ true → (node child : ℕ) → child < (promise_at (map node_promise nodes.now) node).children → IsWired (below wiring.now node child) }
{
    for i in 0..nodes.len() {
        if !has_all(wiring, i as u16, &nodes[i]) {
            return false;
        }
    }
    true
}

/// Whether the nodes fit their places, of which there are at most 65,535.
pub(crate) fn fits(nodes: &[Node], wiring: &Wiring) -> bool
    ensures { result ≡ true → Fits (map node_promise nodes.now) wiring.now }
{
    if nodes.len() > 65535 {
        return false;
    }
    let wired = all_wired(nodes, wiring);
    if wired {
        return all_fit(nodes, wiring);
    }
    false
}
