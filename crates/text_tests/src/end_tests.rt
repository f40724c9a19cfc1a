ghost use Rattle.std.specs.Prelude.{◌<◌, ◌-◌, ◌^◌};

use std::alloc::{AllocError, Global};
use xl_base::{
    MemSink, MemSource, ReadError, Source, StdSink, StdSource, hex, read_all, write_all,
};

// The bytes of a source of at most three, and none where they could not be read.
fn whole<S: Source>(alloc: Global, source: &mut S) -> Vec<u8>
    requires { S.faults source.old < 2 ^ 64 - 1 }
{
    match read_all(alloc, source, 3) {
        Ok(all) => all,
        Err(_) => Vec::new(alloc),
    }
}

fn passes_memory(alloc: Global) -> Result<bool, AllocError> {
    let bytes = Vec::from_slice(alloc, b"abc")?;
    let mut source = MemSource::new(bytes, Vec::new(alloc));
    let all = whole(alloc, &mut source);
    let mut sink = MemSink::new(alloc, 3, Vec::new(alloc))?;
    let written = write_all(&mut sink, all.as_slice());
    Ok(written.is_ok() && sink.bytes() == b"abc".as_slice())
}

fn reads_hex(alloc: Global) -> Result<bool, AllocError> {
    let found = hex(alloc, b"00ff7a")?;
    let reads = found.is_some();
    drop(found);
    Ok(reads)
}

// Each call that allocates gives its Ok answer where there is memory.
#[test]
fn basic(rt: HostRuntime) {
    assert!(rt; matches!(passes_memory(rt.alloc()), Ok(true)));
    assert!(rt; matches!(reads_hex(rt.alloc()), Ok(true)));
}

fn read_ends(alloc: Global) -> Result<bool, AllocError> {
    let bytes = Vec::from_slice(alloc, b"abcd")?;
    let mut source = MemSource::new(bytes, Vec::from_slice(alloc, &[2])?);
    Ok(matches!(read_all(alloc, &mut source, 9), Err(ReadError::ReadFault)))
}

fn write_ends(alloc: Global) -> Result<bool, AllocError> {
    let mut sink = MemSink::new(alloc, 9, Vec::from_slice(alloc, &[1])?)?;
    let written = write_all(&mut sink, b"abc");
    Ok(written.is_err() && sink.bytes().is_empty())
}

// The first call that fails ends a read or a write: no later call is made that would succeed.
#[test]
fn first_failure_ends(rt: HostRuntime) {
    assert!(rt; matches!(read_ends(rt.alloc()), Ok(true)));
    assert!(rt; matches!(write_ends(rt.alloc()), Ok(true)));
}

fn passes_std(alloc: Global) -> bool {
    let mut source = StdSource::new(b"abc".as_slice());
    let all = whole(alloc, &mut source);
    let mut sink = StdSink::new(Vec::new(alloc));
    all.as_slice() == b"abc".as_slice() && write_all(&mut sink, all.as_slice()).is_ok()
}

// Over a reader and a writer in memory of std, all is read and all is written.
#[test]
fn std_ends(rt: HostRuntime) {
    assert!(rt; passes_std(rt.alloc()));
}
