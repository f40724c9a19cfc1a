//! Times how a request that writes 65,536 bytes is encoded and decoded, beside a plain copy of the bytes.
//!
//! Without arguments it does nothing. With the argument `time` it writes to standard error how many
//! bytes each second are copied, encoded and decoded, and the time of each in hundredths of the copy's.
#![tactic(auto)]

mod messages;
mod timing;

use std::io;
use std::rt::Env;

fn main(rt: HostRuntime) -> io::Result<()> {
    let mut word = [0u8; 4];
    if rt.arg(1, &mut word).is_ok() && word.as_slice() == b"time".as_slice() {
        timing::report(&rt, rt.alloc())
    } else {
        Ok(())
    }
}
