//! The nodes of a graph: what each kind has. What they do is in `nodes/`.
ghost use Rattle.std.specs.Prelude.{◌≡◌, ◌≤◌, ◌+◌, ◌/◌, ◌%◌, length};

use crate::names::SetNames;
use fop_types::{Gfid, Seq, SetPlan, Span};
use io_cache::PageCache;
use io_threads::Queues;
use std::collections::BTreeMap;

/// A distribute node over the sets with these names, in their order. `kept` has the layout of each directory that fops
/// have read, as it was read last.
#[derive(Drop)]
pub struct Distribute {
    pub names: SetNames,
    pub sets: u8,
    pub kept: BTreeMap<Gfid, Seq<Option<Span>>>,
    ghost named: { length names ≡ sets },
}

/// The replicate node of a set: an odd number of replicas, at most five, and more than half of them as quorum.
#[derive(Drop)]
pub struct Replicate {
    pub plan: SetPlan,
    ghost odd: { length plan.bricks % 2 ≡ 1 },
    ghost few: { length plan.bricks ≤ 5 },
    ghost quorum: { plan.q ≡ (length plan.bricks + 1) / 2 },
}

/// An io-cache node with its pages. Once its graph is retired it keeps none.
#[derive(Drop)]
pub struct IoCache {
    pub pages: PageCache,
    pub retired: bool,
}

/// The io-threads node with this number in its graph: the frames that wait for their turn, by priority, and how many they
/// are.
#[derive(Drop)]
pub struct IoThreads {
    pub number: u16,
    pub queues: Queues<u32>,
    pub waiting: u32,
}

/// The client of the brick with this number.
#[derive(Clone, Copy)]
pub struct BrickClient {
    pub brick: u8,
}

/// What a node does.
#[derive(Drop)]
pub enum Kind {
    Root,
    Pass,
    IoThreads(IoThreads),
    IoCache(IoCache),
    Distribute(Distribute),
    Replicate(Replicate),
    Client(BrickClient),
}

/// A node of a graph over so many sets. `weight` is the greatest cost of one unit at a child, and `breadth` the most
/// winds that a frame of a child and all below it have open at once.
#[derive(Drop)]
pub struct Node {
    pub kind: Kind,
    pub sets: u8,
    pub weight: u32,
    pub breadth: u32,
}
