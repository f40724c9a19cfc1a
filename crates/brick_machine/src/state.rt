ghost use Rattle.std.specs.Prelude.{◌≡◌, IfOk};
ghost use Rattle.brick_machine.specs.State.{start};

use crate::faults::Faults;
use crate::graphs::Graphs;
use crate::late::Late;
use crate::waiters::Waiters;
use brick_locks::BrickLocks;
use cell_store::Store;
use std::alloc::{AllocError, Global};

/// What a brick keeps between two inputs.
#[derive(Drop)]
pub struct State {
    pub store: Store,
    pub locks: BrickLocks,
    pub waiters: Waiters,
    pub graphs: Graphs,
    pub down: Option<Late>,
    pub faults: Faults,
}

impl State {
    /// A new brick: the root alone, no names of replicas, no connection, not down.
    ///
    /// # Errors
    /// Out of memory.
    pub(crate) fn new(alloc: Global) -> Result<State, AllocError>
        ensures { IfOk result (λ s. s ≡ start) }
    {
        let store = Store::new(alloc)?;
        Ok(State {
            store,
            locks: BrickLocks::new(alloc),
            waiters: Waiters::new(alloc),
            graphs: Graphs::new(alloc),
            down: None,
            faults: Faults::new(alloc),
        })
    }
}
