//! Times the calls of the tables of locks, holds, tasks and pages, with few entries in them and with many.
//!
//! Without arguments it does nothing. With the argument `time` it writes to standard error how long a call
//! takes where a table has 10 entries of each kind, and where it has 10,000. Where the two are alike, a
//! call walks only over what it touches.
#![tactic(auto)]

mod holds;
mod locks;
mod pages;
mod tasks;
mod timing;

use std::io;
use std::rt::Env;

fn main(rt: HostRuntime) -> io::Result<()> {
    let mut word = [0u8; 4];
    if rt.arg(1, &mut word).is_ok() && word.as_slice() == b"time".as_slice() {
        timing::report_all(&rt, rt.alloc())
    } else {
        Ok(())
    }
}
