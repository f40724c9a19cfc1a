//! What events move.
ghost use Rattle.hub_calls.specs.Live.{HasNoGraphs};

use crate::graphs::Graphs;
use crate::planned::Planned;
use crate::turn::Turn;
use fd_table::FdTable;
use hub_tables::Calls;
use mount_locks::MountLocks;
use std::alloc::Global;

/// The parts of a hub that events move: the event under way; the calls without a reply; the holds and the descriptors; and
/// the live graphs. `creations` is the number of mkdir and create calls of the script. The log of the whole events and the
/// agenda, which decides what is due, lie beside them: an event is written to the one and changes the other as it is closed.
///
/// Its moves are handed the script with its plans, which they cannot change. They stay within bounds whatever the parts
/// are: what is not there is passed over. Whether a run was as it should be, its log shows.
pub struct Parts {
    pub creations: u32,
    pub turn: Turn,
    pub calls: Calls,
    pub holds: MountLocks,
    pub fds: FdTable,
    pub graphs: Graphs,
}

impl Parts {
    /// The parts before anything has happened: no graph is made. They take no memory.
    pub(crate) fn new(alloc: Global, on: &Planned) -> Parts
        ensures { HasNoGraphs result.graphs.live }
    {
        Parts {
            creations: on.creations(),
            turn: Turn::new(alloc),
            calls: Calls::new(alloc),
            holds: MountLocks::new(alloc),
            fds: FdTable::new(alloc),
            graphs: Graphs::new(alloc, on.root_sets()),
        }
    }

    /// Ends the parts, with all that they have.
    pub(crate) fn discard(self) {
        let Parts {
            creations: _,
            turn,
            calls,
            holds,
            fds,
            graphs,
        } = self;
        drop(turn);
        drop(calls);
        drop(holds);
        drop(fds);
        graphs.discard();
    }
}
