use fop_types::{Seq, SetPlan};

/// What a node of a graph does: a client of the brick with this number, a replicate node of the set with
/// this number, and the others.
#[derive(Clone, Copy)]
pub enum NodeKind {
    Client(u8),
    Replicate(u8),
    Distribute,
    IoCache,
    IoThreads,
    Pass,
}

/// A node of a graph. `children` are the places of the nodes directly below it, `cache_pages` the pages
/// of 4,096 bytes that an io-cache node may hold, and 0 of other nodes.
#[derive(Drop)]
pub struct NodePlan {
    pub kind: NodeKind,
    pub children: Seq<u16>,
    pub cache_pages: u32,
}

/// A plan: the nodes of a graph, each behind its children, the last one the top, and its sets.
#[derive(Drop)]
pub struct Plan {
    pub nodes: Seq<NodePlan>,
    pub sets: Seq<SetPlan>,
}
