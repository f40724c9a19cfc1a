use crate::timing::ROUNDS;
use fop_types::Gfid;
use mount_locks::MountLocks;
use std::alloc::{AllocError, Global};

/// Adds holds of which so many are granted and so many wait, each pair on a gfid of its own.
pub fn fill(alloc: Global, holds: &mut MountLocks, entries: u32) -> Result<(), AllocError> {
    for number in 0..entries {
        holds.ask(alloc, number, &[gfid(number)], false)?;
        holds.ask(alloc, number ^ 2147483648, &[gfid(number)], false)?;
    }
    Ok(())
}

/// A call asks for a gfid that is free, and releases it.
pub fn ask_and_release(alloc: Global, holds: &mut MountLocks, free: u32) -> Result<(), AllocError> {
    for round in 0..ROUNDS {
        let call = round ^ 1073741824;
        holds.ask(alloc, call, &[gfid(free)], false)?;
        holds.release(alloc, call)?;
    }
    Ok(())
}

fn gfid(number: u32) -> Gfid {
    Gfid {
        hi: 0,
        lo: u64::from(number),
    }
}
