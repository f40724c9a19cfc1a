ghost use Rattle.std.specs.Prelude.{◌≡◌};
ghost use Rattle.brick_locks.specs.Keys.{owner_key, graph_key, cell_key};

use crate::owner::Owner;
use fop_types::{Cell, Seq};
use queue_index::{EXCLUSIVE, Key, Keyed, NAME, SHARED};
use std::alloc::{AllocError, Global};

const OWNERS: u8 = 3;

const GRAPHS: u8 = 4;

/// A lock that was asked for, on all its cells at once.
#[derive(Drop)]
pub struct Request {
    pub owner: Owner,
    pub cells: Seq<Cell>,
    pub shared: bool,
}

/// The key of the requests of an owner.
pub(crate) fn owner_key(owner: Owner) -> Key
    ensures { result ≡ owner_key owner }
{
    Key {
        kind: OWNERS,
        hi: u64::from(owner.graph),
        lo: u64::from(owner.call),
        mode: NAME,
    }
}

/// The key of the requests of a graph.
pub(crate) fn graph_key(graph: u32) -> Key
    ensures { result ≡ graph_key graph }
{
    Key {
        kind: GRAPHS,
        hi: u64::from(graph),
        lo: 0,
        mode: NAME,
    }
}

/// The key of the requests that have a cell, of the exclusive ones or of the shared ones.
pub(crate) fn cell_key(cell: Cell, shared: bool) -> Key
    ensures { result ≡ cell_key cell shared }
{
    let mode = if shared { SHARED } else { EXCLUSIVE };
    Key {
        kind: cell.aspect.rank(),
        hi: cell.gfid.hi,
        lo: cell.gfid.lo,
        mode,
    }
}

impl Keyed for Request {
    ghost use Rattle.std.specs.Prelude.{refl};
    ghost use Rattle.brick_locks.specs.Keys.{keys_of};

    ghost keys = { keys_of };

    ghost marked = { λ r. r };

    fn key_count(&self) -> usize {
        self.cells.as_slice().len() + 2
    }

    fn key(&self, at: usize) -> Key {
        if at == 0 {
            return owner_key(self.owner);
        }
        if at == 1 {
            return graph_key(self.owner.graph);
        }
        let cell = self.cells.as_slice()[at - 2];
        cell_key(cell, self.shared)
    }

    // No request of a brick has a mark.
    fn mark(&mut self) {}

    fn copy(&self, alloc: Global) -> Result<Request, AllocError> {
        let cells = Seq::from_vec(Vec::from_slice(alloc, self.cells.as_slice())?);
        Ok(Request {
            owner: self.owner,
            cells,
            shared: self.shared,
        })
    }

    ghost stays = { λ _. refl };
}
