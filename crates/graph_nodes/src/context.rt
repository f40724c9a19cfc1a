use crate::ledgers::MountLedger;
use fop_types::{Cell, CopyRecord, Gfid, SkipCause};
use frame_driver::Queue;
use graph_items::Clients;
use std::collections::BTreeSet;

/// A frame that waits until its call's hold is extended.
#[derive(Clone, Copy)]
pub struct HoldWait {
    pub call: u32,
    pub frame: u32,
    pub gfid: Gfid,
}

/// What the nodes of a graph share while its tasks run: the mount's ledger, which the graph has borrowed, the
/// connections of its bricks, which no node changes, and what the nodes have asked of the mount and made.
#[derive(Drop)]
pub struct Context {
    pub ledger: MountLedger,
    pub clients: Clients,
    /// How many sets the first graph has.
    pub root_sets: u8,
    pub holds: Queue<HoldWait>,
    pub copies: Queue<CopyRecord>,
    pub skips: Queue<(Cell, SkipCause)>,
    /// The io-threads nodes in which a frame waits for its turn.
    pub ready: BTreeSet<u16>,
}
