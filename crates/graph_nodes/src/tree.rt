//! The nodes of a plan, with the root above its top, and which of them is below which.
ghost use Rattle.std.specs.Prelude.{◌≡◌, ◌<◌, ◌≤◌, IfOk, IfSome, length, map};
ghost use Rattle.frame_driver.specs.Follows.{Fits};
ghost use Rattle.graph_nodes.specs.Plans.{IsPlan};
ghost use Rattle.graph_nodes.specs.Promises.{node_promise};

use crate::costs::shape_of;
use crate::fits::fits;
use crate::kinds::{Kind, Node};
use crate::loads::{Load, below, load_of, sets_in};
use crate::planned::kind_of;
use frame_driver::{Child, Wiring};
use graph_build::{NodePlan, Plan};
use std::alloc::{AllocError, Global};

/// The nodes of a graph, and which is below which. The last node is the root.
#[derive(Drop)]
pub struct Tree {
    pub nodes: Vec<Node>,
    pub wiring: Wiring,
}

fn at_most_u16(n: usize) -> u16 {
    if n > u16::MAX as usize {
        u16::MAX
    } else {
        n as u16
    }
}

// The greatest number of children that a node has, and at least 1: the root and each client have one.
fn width_of(nodes: &[NodePlan]) -> u16 {
    let mut width: u16 = 1;
    for node in nodes {
        width = width.max(at_most_u16(node.children.len()));
    }
    width
}

// The row of a node in the wiring.
fn push_row(
    row: &mut Vec<Child>,
    width: u16,
    kind: &Kind,
    children: &[u16],
) -> Result<(), AllocError> {
    for at in 0..width as usize {
        let child = match kind {
            Kind::Client(_) => outside(at),
            _ => inside(children, at),
        };
        row.push(child)?;
    }
    Ok(())
}

fn outside(at: usize) -> Child {
    if at == 0 {
        Child::Outside
    } else {
        Child::Nothing
    }
}

fn inside(children: &[u16], at: usize) -> Child {
    match children.get(at) {
        Some(child) => Child::Node(*child),
        None => Child::Nothing,
    }
}

/// The number of the last node.
pub(crate) fn last_of(nodes: &[Node]) -> Option<u16>
    ensures { IfSome result (λ last. last < length nodes.now) }
{
    let count = nodes.len();
    if count == 0 || count > 65535 {
        return None;
    }
    Some((count - 1) as u16)
}

fn node(kind: Kind, sets: u8, under: Load) -> Node {
    Node {
        kind,
        sets,
        weight: under.weight,
        breadth: under.breadth,
    }
}

// The nodes of a tree as it grows, what each weighs, and their rows in the wiring.
#[derive(Drop)]
struct Growing {
    sets: u8,
    width: u16,
    nodes: Vec<Node>,
    loads: Vec<Load>,
    row: Vec<Child>,
}

impl Growing {
    // The load and the row of a node over these children.
    fn push_place(&mut self, kind: &Kind, children: &[u16], under: Load) -> Result<(), AllocError> {
        self.loads.push(load_of(shape_of(kind), self.sets, under))?;
        push_row(&mut self.row, self.width, kind, children)
    }

    // A node over these children.
    fn push(&mut self, kind: Kind, children: &[u16]) -> Result<(), AllocError> {
        let under = below(&self.loads, children);
        match self.push_place(&kind, children, under) {
            Ok(()) => {
                self.nodes.push(node(kind, self.sets, under))?;
                Ok(())
            }
            Err(error) => {
                drop(kind);
                Err(error)
            }
        }
    }

    // Each node of the plan.
    fn push_all(&mut self, alloc: Global, plan: &Plan) -> Result<(), AllocError>
        requires plan { IsPlan plan.now }
        requires few { length plan.now.nodes ≤ 65534 }
    {
        let planned = plan.nodes.as_slice();
        let sets = plan.sets.as_slice();
        for at in 0..planned.len() {
            let one = &planned[at];
            let kind = kind_of(alloc, sets, one, at as u16)?;
            self.push(kind, one.children.as_slice())?;
        }
        Ok(())
    }

    // The root, above the last node.
    fn push_root(&mut self) -> Result<(), AllocError> {
        let Some(top) = last_of(self.nodes.as_slice()) else {
            return Err(AllocError);
        };
        self.push(Kind::Root, &[top])
    }
}

/// The tree of a plan that `build` gives.
///
/// # Errors
/// Out of memory. A plan with more than 65,534 nodes, or whose costs do not fit their numbers, would be answered so too;
/// one that `build` gives has fewer nodes, and its paths are too short for that.
pub(crate) fn tree_of(alloc: Global, plan: &Plan) -> Result<Tree, AllocError>
    requires plan { IsPlan plan.now }
    ensures fits { IfOk result (λ t. Fits (map node_promise t.nodes.items) t.wiring) }
{
    if plan.nodes.len() > 65534 {
        return Err(AllocError);
    }
    let mut growing = Growing {
        sets: sets_in(plan),
        width: width_of(plan.nodes.as_slice()),
        nodes: Vec::new(alloc),
        loads: Vec::new(alloc),
        row: Vec::new(alloc),
    };
    growing.push_all(alloc, plan)?;
    growing.push_root()?;
    let Growing {
        width,
        nodes,
        row,
        ..
    } = growing;
    let wiring = Wiring { width, below: row };
    if fits(&nodes, &wiring) {
        return Ok(Tree { nodes, wiring });
    }
    Err(AllocError)
}
