ghost use Rattle.std.specs.Prelude.{◌≡◌};

use crate::timing::ROUNDS;
use brick_locks::{BrickLocks, Owner};
use fop_types::{Aspect, Cell, Gfid};
use std::alloc::{AllocError, Global};

/// Adds requests of which so many hold and so many wait, each pair on a cell of its own.
pub fn fill(alloc: Global, locks: &mut BrickLocks, entries: u32) -> Result<(), AllocError> {
    for call in 0..entries {
        ask(alloc, locks, Owner { graph: 1, call }, call)?;
        ask(alloc, locks, Owner { graph: 2, call }, call)?;
    }
    Ok(())
}

/// A call asks for a cell that is free, and releases it.
pub fn ask_and_release(alloc: Global, locks: &mut BrickLocks, free: u32) -> Result<(), AllocError> {
    for call in 0..ROUNDS {
        let owner = Owner { graph: 3, call };
        ask(alloc, locks, owner, free)?;
        locks.release(alloc, owner)?;
    }
    Ok(())
}

/// Two calls ask for a cell that is free, and both release it.
pub fn hand_over(alloc: Global, locks: &mut BrickLocks, free: u32) -> Result<(), AllocError> {
    for call in 0..ROUNDS {
        let first = Owner { graph: 3, call };
        let second = Owner { graph: 4, call };
        ask(alloc, locks, first, free)?;
        ask(alloc, locks, second, free)?;
        locks.release(alloc, first)?;
        locks.release(alloc, second)?;
    }
    Ok(())
}

fn ask(alloc: Global, locks: &mut BrickLocks, owner: Owner, number: u32) -> Result<(), AllocError> {
    if locks.knows(owner) {
        return Ok(());
    }
    let cell = Cell {
        gfid: Gfid {
            hi: 0,
            lo: u64::from(number),
        },
        aspect: Aspect::Data,
    };
    locks.ask(alloc, owner, &[cell], false)?;
    Ok(())
}
