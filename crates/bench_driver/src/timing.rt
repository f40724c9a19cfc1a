use crate::relays::{self, DEPTH};
use frame_trees::Tree;
use std::alloc::Global;
use std::io;
use std::rt::Runtime;
use std::time::{Duration, Instant};

// How many fops go down and up while the driver is timed. Each is a task for each relay on its way down, and one
// for each on its way up.
const ROUNDS: u32 = 20000;

// How many frames are open while it is timed.
const FRAMES: [u32; 3] = [10, 1000, 100000];

/// Writes to standard error how many tasks the driver does each second, with few open frames and with many.
pub fn report<R: Runtime>(rt: &R, alloc: Global) -> io::Result<()> {
    for frames in &FRAMES {
        report_one(rt, alloc, *frames)?;
    }
    Ok(())
}

fn report_one<R: Runtime>(rt: &R, alloc: Global, frames: u32) -> io::Result<()> {
    let tree = relays::filled(alloc, frames / DEPTH)?;
    let tasks = each_second(time_of_rounds(rt, alloc, tree)?);
    eprintln!(rt; "{frames} open frames: {tasks} tasks each second")
}

// The time of all rounds, without that in which the tree ends.
fn time_of_rounds<R: Runtime>(rt: &R, alloc: Global, tree: Tree) -> io::Result<Duration> {
    let start = Instant::now(rt);
    let done = relays::rounds(alloc, tree, ROUNDS);
    let time = time_since(rt, start);
    done.and(Ok(()))?;
    time
}

fn time_since<R: Runtime>(rt: &R, start: io::Result<Instant>) -> io::Result<Duration> {
    start?.elapsed(rt)
}

fn each_second(time: Duration) -> u64 {
    let tasks = u64::from(ROUNDS) * u64::from(DEPTH) * 2;
    let micros = nanoseconds_of(time) / 1000;
    if micros == 0 {
        return 0;
    }
    tasks * 1000000 / micros
}

fn nanoseconds_of(time: Duration) -> u64 {
    time.as_secs()
        .saturating_mul(1000000000)
        .saturating_add(u64::from(time.subsec_nanos()))
}
