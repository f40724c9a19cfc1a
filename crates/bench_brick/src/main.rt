//! Times a brick: the six requests of a write, with few cells and with many; a fetch and a replace of 65,536 bytes
//! beside a plain copy; and a line of exclusive locks on one cell that is drained.
//!
//! Without arguments it does nothing. With the argument `time` it writes the times to standard error. With `writes`
//! it serves 1,000 writes of 65,536 bytes, and with `none` no write, and ends: `bench/brick` takes the peak of its
//! memory.
#![tactic(auto)]

mod messages;
mod requests;
mod rounds;
mod timing;

use std::alloc::Global;
use std::io;
use std::rt::{Env, Runtime};

fn main(rt: HostRuntime) -> io::Result<()> {
    let mut word = [0u8; 6];
    if rt.arg(1, &mut word).is_ok() {
        begin(&rt, rt.alloc(), &word)
    } else {
        Ok(())
    }
}

// Words that serve so many writes.
const WRITES: [(&[u8], u32); 2] = [(b"writes", 1000), (b"none\0\0", 0)];

// Does what a word says that has zeros behind it up to six bytes.
fn begin<R: Runtime>(rt: &R, alloc: Global, word: &[u8]) -> io::Result<()> {
    if word == b"time\0\0".as_slice() {
        return timing::report(rt, alloc);
    }
    for (name, writes) in &WRITES {
        if word == *name {
            rounds::serve_writes(alloc, *writes)?;
        }
    }
    Ok(())
}
