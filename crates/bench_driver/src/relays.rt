use frame_driver::{Child, Wiring};
use frame_trees::{Kind, Node, Tree};
use std::alloc::{AllocError, Global};
use xlator_law::{Stop, WindNo};

/// How many relays stand below one another; a fop opens as many frames on its way down.
pub const DEPTH: u32 = 5;

// What a fop costs below each relay, which is also the most winds that are open below it, and the child.
const RELAYS: [(u32, Child); 5] = [
    (4, Child::Node(1)),
    (3, Child::Node(2)),
    (2, Child::Node(3)),
    (1, Child::Node(4)),
    (0, Child::Outside),
];

// The relays, without frames.
fn relays(alloc: Global) -> Result<Tree, AllocError> {
    let mut nodes = Vec::new(alloc);
    let mut below = Vec::new(alloc);
    for (cost, child) in &RELAYS {
        nodes.push(Node {
            kind: Kind::Relay,
            below: *cost,
            breadth: *cost,
        })?;
        below.push(*child)?;
    }
    match Tree::new(alloc, nodes, Wiring { width: 1, below }) {
        Some(tree) => Ok(tree),
        None => Err(AllocError),
    }
}

/// Relays with the frames of so many fops, which wait for answers from outside.
pub fn filled(alloc: Global, fops: u32) -> Result<Tree, AllocError> {
    let mut tree = relays(alloc)?;
    for call in 0..fops {
        tree = without_lines(tree.submit(alloc, call, 0))?;
        tree.sent();
    }
    Ok(tree)
}

/// So many fops go down, one after another, and their answers up.
pub fn rounds(alloc: Global, filled: Tree, fops: u32) -> Result<Tree, AllocError> {
    let mut tree = filled;
    for call in 0..fops {
        tree = round(alloc, tree, call)?;
    }
    Ok(tree)
}

fn round(alloc: Global, tree: Tree, call: u32) -> Result<Tree, AllocError> {
    let mut down = without_lines(tree.submit(alloc, call, 0))?;
    match down.sent() {
        Some((wind, _)) => answered(alloc, down, wind),
        None => {
            drop(down);
            Err(AllocError)
        }
    }
}

// The wind that went outside is answered, and so is its fop.
fn answered(alloc: Global, down: Tree, wind: WindNo) -> Result<Tree, AllocError> {
    let mut up = without_lines(down.reply(alloc, wind, 0))?;
    up.answer();
    Ok(up)
}

// The lines of the winds are let go, so that they take no memory.
fn without_lines(next: Result<Tree, Stop>) -> Result<Tree, AllocError> {
    match next {
        Ok(mut tree) => {
            tree.lines();
            Ok(tree)
        }
        Err(_) => Err(AllocError),
    }
}
