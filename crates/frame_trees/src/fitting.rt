//! Whether the nodes of a tree fit their places.
ghost use Rattle.std.specs.Prelude.{ℕ, ◌≡◌, ◌<◌, ◌≤◌, true, length, map};
ghost use Rattle.frame_driver.specs.Follows.{promise_at, FitsAt, Fits};
ghost use Rattle.frame_driver.specs.Wiring.{below, IsWired};
ghost use Rattle.frame_trees.specs.Fitting.{FitsChild, HasChildren};
ghost use Rattle.frame_trees.specs.Kinds.{node_promise, children_of, cost_of};
ghost use Rattle.xlator_law.specs.Law.{breadth};

use crate::kinds::{Kind, Node};
use frame_driver::{Child, Wiring};

// What each fop costs at the node.
fn cost(node: &Node) -> u64
    ensures { result ≡ cost_of node.now.kind node.now.below }
{
    match node.kind {
        Kind::Relay => node.below as u64 + 1,
        Kind::Pair => node.below as u64 * 2 + 2,
        Kind::Gate => node.below as u64 + 1,
    }
}

// The most winds that a frame of the node and all below it have open at once.
fn breadth(node: &Node) -> u64
    ensures { result ≡ breadth (node_promise node.now) }
{
    let slots: u64 = match node.kind {
        Kind::Relay => 1,
        Kind::Pair => 2,
        Kind::Gate => 1,
    };
    slots * (1 + node.breadth as u64)
}

// Whether the node `to` may be below the node at this place.
#[tactic(auto, using(crate::proofs::Children::fits_there))]
fn fits_at(nodes: &[Node], at: usize, to: u16) -> bool
    ensures { result ≡ true → (child : ℕ) → FitsAt (map node_promise nodes.now) at child to }
{
    let (Some(above), Some(under)) = (nodes.get(at), nodes.get(to as usize)) else {
        return false;
    };
    cost(under) <= above.below as u64 && breadth(under) <= above.breadth as u64
}

// Whether a child may be below the node at this place.
fn fits_child(nodes: &[Node], at: usize, child: Child) -> bool
    ensures { result ≡ true → FitsChild nodes.now at child }
{
    match child {
        Child::Node(to) => fits_at(nodes, at, to),
        Child::Outside => true,
        Child::Nothing => true,
    }
}

// Whether each node that is below another one fits its place.
#[tactic(auto, using(crate::proofs::Children::all_fit, crate::proofs::Children::no_width, crate::proofs::Children::fit_more))]
fn all_fit(nodes: &[Node], wiring: &Wiring) -> bool
    ensures { result ≡ true → (node child to : ℕ) → below wiring.now node child ≡ Child.Node to → FitsAt (map node_promise nodes.now) node child to }
{
    if wiring.width == 0 {
        return true;
    }
    for i in 0..wiring.below.len() {
        if !fits_child(nodes, i / wiring.width as usize, wiring.below[i]) {
            return false;
        }
    }
    true
}

fn has_child(wiring: &Wiring, node: u16, child: u16) -> bool
    ensures { result ≡ true → IsWired (below wiring.now node child) }
{
    match wiring.below(node, child) {
        Child::Node(_) => true,
        Child::Outside => true,
        Child::Nothing => false,
    }
}

// Whether the wiring has each child of a node.
#[tactic(auto, using(crate::proofs::Children::one_child, crate::proofs::Children::two_children))]
fn has_children(wiring: &Wiring, at: u16, node: &Node) -> bool
    ensures { result ≡ true → HasChildren wiring.now at (children_of node.now.kind) }
{
    match node.kind {
        Kind::Relay => has_child(wiring, at, 0),
        Kind::Pair => has_child(wiring, at, 0) && has_child(wiring, at, 1),
        Kind::Gate => has_child(wiring, at, 0),
    }
}

// Whether the wiring has each child of each node.
#[tactic(auto, using(crate::proofs::Children::wired_none, crate::proofs::Children::wired_more, crate::proofs::Children::all_wired))]
fn all_wired(nodes: &[Node], wiring: &Wiring) -> bool
    requires few { length nodes.now ≤ 65535 }
    ensures { result ≡ true → (node child : ℕ) → child < (promise_at (map node_promise nodes.now) node).children → IsWired (below wiring.now node child) }
{
    for i in 0..nodes.len() {
        if !has_children(wiring, i as u16, &nodes[i]) {
            return false;
        }
    }
    true
}

/// Whether the nodes fit their places, of which there are at most 65,535.
pub fn fits(nodes: &[Node], wiring: &Wiring) -> bool
    ensures { result ≡ true → Fits (map node_promise nodes.now) wiring.now }
{
    if nodes.len() > 65535 {
        return false;
    }
    let wired = all_wired(nodes, wiring);
    if wired {
        return all_fit(nodes, wiring);
    }
    false
}
