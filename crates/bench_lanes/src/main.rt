//! Times the scans of blocks: by lanes, byte by byte, and a plain compare of the same memory.
//!
//! Without arguments it does nothing. With the argument `time` it writes to standard error how long
//! each takes for a block of 4,096 bytes.
#![tactic(auto)]

mod timing;

use std::io;
use std::rt::Env;

fn main(rt: HostRuntime) -> io::Result<()> {
    let mut word = [0u8; 4];
    if rt.arg(1, &mut word).is_ok() && word.as_slice() == b"time".as_slice() {
        timing::report(&rt)
    } else {
        Ok(())
    }
}
