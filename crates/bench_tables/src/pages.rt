ghost use Rattle.std.specs.Prelude.{◌<◌};

use crate::timing::ROUNDS;
use fop_types::{Gfid, Seq};
use io_cache::PageCache;
use std::alloc::{AllocError, Global};

/// Puts so many pages into a cache, each of a file of its own.
pub fn fill(alloc: Global, cache: &mut PageCache, entries: u32) -> Result<(), AllocError> {
    for number in 0..entries {
        put(alloc, cache, 0, number)?;
    }
    Ok(())
}

/// Reads of pages that are held.
pub fn hit(alloc: Global, cache: &mut PageCache, entries: u32) -> Result<(), AllocError>
    requires { 0 < entries }
{
    for round in 0..ROUNDS {
        drop(cache.read(alloc, gfid(0, round % entries), 0, 4)?);
    }
    Ok(())
}

/// Reads of pages that are not held.
pub fn miss(alloc: Global, cache: &mut PageCache) -> Result<(), AllocError> {
    for round in 0..ROUNDS {
        drop(cache.read(alloc, gfid(2, round), 0, 4)?);
    }
    Ok(())
}

/// Pages that take the place of those that were used longest ago.
pub fn put_over(alloc: Global, cache: &mut PageCache) -> Result<(), AllocError> {
    for round in 0..ROUNDS {
        put(alloc, cache, 1, round)?;
    }
    Ok(())
}

fn put(alloc: Global, cache: &mut PageCache, hi: u64, number: u32) -> Result<(), AllocError> {
    let bytes = Seq::from_bytes(alloc, b"page")?;
    cache.put(alloc, gfid(hi, number), 0, bytes)
}

fn gfid(hi: u64, number: u32) -> Gfid {
    Gfid {
        hi,
        lo: u64::from(number),
    }
}
