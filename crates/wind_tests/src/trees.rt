use frame_driver::{Bailed, Child, Wiring};
use frame_trees::{Kind, Node, Tree};
use std::alloc::Global;
use std::process::Abort;
use std::test::*;
use xlator_law::{Stop, WindNo};

// The kind of each node of the tree in the picture of `frame_trees`, the most that a fop costs below it, which is also
// the most winds that a frame below it has open at once, and its children.
const NODES: [(Kind, u32, Child, Child); 9] = [
    (Kind::Pair, 6, Child::Node(1), Child::Node(2)),
    (Kind::Pair, 2, Child::Node(3), Child::Node(4)),
    (Kind::Relay, 2, Child::Node(5), Child::Nothing),
    (Kind::Gate, 1, Child::Node(6), Child::Nothing),
    (Kind::Relay, 1, Child::Node(7), Child::Nothing),
    (Kind::Relay, 1, Child::Node(8), Child::Nothing),
    (Kind::Relay, 0, Child::Outside, Child::Nothing),
    (Kind::Gate, 0, Child::Outside, Child::Nothing),
    (Kind::Relay, 0, Child::Outside, Child::Nothing),
];

fn grown(alloc: Global) -> Result<Tree, Fail> {
    let mut nodes = Vec::new(alloc);
    let mut below = Vec::new(alloc);
    for (kind, cost, first, second) in &NODES {
        nodes.push(Node {
            kind: *kind,
            below: *cost,
            breadth: *cost,
        })?;
        below.push(*first)?;
        below.push(*second)?;
        below.push(Child::Nothing)?;
    }
    let Some(tree) = Tree::new(alloc, nodes, Wiring { width: 3, below }) else {
        return Err(Fail::new("each node fits its place"));
    };
    Ok(tree)
}

// What is done with the tree, from outside.
enum Act {
    Submit,
    GoOn,
    Reply(u32, u8),
    Bail,
}

fn wind(slot: u32) -> WindNo {
    WindNo { slot, turn: 0 }
}

fn ended(slot: u32, reply: u8) -> Bailed<u8> {
    Bailed {
        wind: wind(slot),
        reply,
    }
}

fn done(tree: Tree, alloc: Global, act: &Act) -> Result<Tree, Stop> {
    match act {
        Act::Submit => tree.submit(alloc, 7, 70),
        Act::GoOn => tree.go_on(alloc),
        Act::Reply(slot, reply) => tree.reply(alloc, wind(*slot), *reply),
        Act::Bail => tree.bail(alloc, ended(10, 22), ended(9, 21)),
    }
}

// Does it, with as many winds opened and ended.
fn counted(
    rt: &impl Abort,
    tree: Tree,
    alloc: Global,
    act: &Act,
    lines: usize,
) -> Result<Tree, Fail> {
    match done(tree, alloc, act) {
        Ok(next) => with_lines(rt, next, lines),
        Err(_) => Err(Fail::new("memory is ample")),
    }
}

fn with_lines(rt: &impl Abort, tree: Tree, lines: usize) -> Result<Tree, Fail> {
    let mut tree = tree;
    are_same(rt, tree.lines(), lines)?;
    Ok(tree)
}

fn are_same(rt: &impl Abort, found: usize, lines: usize) -> Result<(), Fail> {
    assert_eq!(rt; found, lines);
    Ok(())
}

// A fop goes down to the two gates and to one wind outside, which is wind 7; each gate goes on, with winds 9
// and 10 outside; wind 7 is answered, and once more; winds 10 and 9 are bailed, and 9, the older one, ends
// first. Beside each, how many winds it opens and ends.
const ACTS: [(Act, usize); 6] = [
    (Act::Submit, 8),
    (Act::GoOn, 2),
    (Act::GoOn, 1),
    (Act::Reply(7, 9), 4),
    (Act::Reply(7, 5), 0),
    (Act::Bail, 7),
];

#[test]
fn winds_are_as_counted(rt: HostRuntime) -> Result<(), Fail> {
    let mut tree = grown(rt.alloc())?;
    for (act, lines) in &ACTS {
        tree = counted(&rt, tree, rt.alloc(), act, *lines)?;
    }
    let answers = (tree.answer(), tree.answer());
    assert!(rt; answers == (Some((7, 22)), None));
    Ok(())
}
