use fop_types::{Gfid, Seq};
use io_cache::PageCache;
use std::alloc::Global;
use std::process::Abort;
use std::test::*;

const FILE: Gfid = Gfid { hi: 0, lo: 2 };

const OTHER: Gfid = Gfid { hi: 0, lo: 3 };

// Reads of a file of which page 1 is held, three bytes that end the file.
const READS: [(Gfid, u32, u32, Option<&[u8]>); 6] = [
    (FILE, 4096, 65536, Some(b"abc")),
    (FILE, 4097, 1, Some(b"b")),
    (FILE, 8192, 1, Some(b"")),
    (FILE, 0, 0, Some(b"")),
    (FILE, 4095, 2, None),
    (OTHER, 4096, 1, None),
];

fn has_bytes(found: Option<Seq<u8>>, want: Option<&[u8]>) -> bool {
    match (found, want) {
        (Some(bytes), Some(wanted)) => bytes.as_slice() == wanted,
        (None, None) => true,
        _ => false,
    }
}

#[test]
fn basic(rt: HostRuntime) -> Result<(), Fail> {
    let mut cache = PageCache::new(rt.alloc(), 2)?;
    let done = are_read(&rt, rt.alloc(), &mut cache);
    drop(cache);
    done
}

fn are_read(rt: &impl Abort, alloc: Global, cache: &mut PageCache) -> Result<(), Fail> {
    let short = Seq::from_bytes(alloc, b"abc")?;
    assert!(rt; cache.put(alloc, FILE, 1, short).is_ok());
    for (gfid, offset, len, want) in &READS {
        assert!(rt; *offset <= 65536 && *len <= 65536);
        assert!(rt; has_bytes(cache.read(alloc, *gfid, *offset, *len)?, *want));
    }
    Ok(())
}
