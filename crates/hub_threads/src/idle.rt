//! What a thread does that has found nothing to do.
ghost use Rattle.std.specs.Prelude.{◌≡◌, ◌≤◌};

use std::thread;
use std::time::{Clock, Duration};

// So often in a row a thread that finds nothing looks again without a nap.
const LOOKS: u32 = 64;

// How much longer each nap is than the one before it, and how long the longest is, in microseconds.
const LONGER: u32 = 10;

const LONGEST: u32 = 1000;

/// How often in a row a thread has found nothing to do.
#[derive(Drop)]
pub(crate) struct Idle {
    times: u32,
}

// How long a thread naps that has found nothing so often, in microseconds.
fn nap_after(times: u32) -> u32
    ensures longest { result ≤ 1000 }
    ensures none { times ≤ 64 → result ≡ 0 }
{
    if times <= LOOKS {
        return 0;
    }
    let naps = times - LOOKS;
    if naps >= LONGEST / LONGER {
        return LONGEST;
    }
    naps * LONGER
}

impl Idle {
    pub(crate) fn new() -> Idle {
        Idle { times: 0 }
    }

    /// Something was found.
    pub(crate) fn end(&mut self) {
        self.times = 0;
    }

    /// Nothing was found: other threads run first, or the thread naps, each time a little longer.
    pub(crate) fn wait<R: Clock>(&mut self, rt: &R) {
        self.times = self.times.saturating_add(1);
        let nap = nap_after(self.times);
        if nap == 0 {
            thread::yield_now();
        } else {
            thread::sleep(rt, Duration::from_micros(nap as u64));
        }
    }
}
