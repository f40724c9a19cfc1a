use crate::messages::{BLOCKS, WRITES, Work, add_prepared, add_timed};
use crate::rounds::{is_done, keep_copies, serve, served};
use brick_machine::Brick;
use bytes::Bytes;
use std::alloc::{AllocError, Global};
use std::io;
use std::rt::Runtime;
use std::time::{Duration, Instant};

/// How many passes there are. The quickest is reported, since others may use the processor meanwhile.
const PASSES: u32 = 5;

/// Writes all times to standard error.
pub fn report<R: Runtime>(rt: &R, alloc: Global) -> io::Result<()> {
    report_writes(rt, alloc, 100)?;
    report_writes(rt, alloc, 100000)?;
    report_blocks(rt, alloc)?;
    report_drain(rt, alloc, 1000)?;
    report_drain(rt, alloc, 4000)
}

fn report_writes<R: Runtime>(rt: &R, alloc: Global, files: u32) -> io::Result<()> {
    let best = quickest(rt, alloc, Work::Writes(files))?;
    let each = best / u64::from(WRITES) / 6;
    let rate = 1000000000u64.checked_div(each).unwrap_or(0);
    eprintln!(rt;
        "with {files} cells: {rate} requests each second of lock, mark, op of 4 KiB, post, unlock, fetch"
    )
}

/// A plain copy of 65,536 bytes, and a replace and a fetch of them.
fn report_blocks<R: Runtime>(rt: &R, alloc: Global) -> io::Result<()> {
    let copy = quickest(rt, alloc, Work::Copies)?;
    report_block(rt, "copy", copy, copy)?;
    report_work(rt, alloc, "replace", Work::Replaces, copy)?;
    report_work(rt, alloc, "fetch", Work::Fetches, copy)
}

fn report_work<R: Runtime>(
    rt: &R,
    alloc: Global,
    name: &str,
    work: Work,
    copy: u64,
) -> io::Result<()> {
    let time = quickest(rt, alloc, work)?;
    report_block(rt, name, time, copy)
}

fn report_drain<R: Runtime>(rt: &R, alloc: Global, calls: u32) -> io::Result<()> {
    let best = quickest(rt, alloc, Work::Drain(calls))?;
    let each = best.checked_div(u64::from(calls)).unwrap_or(0);
    eprintln!(rt; "{calls} exclusive locks of one cell: {each} ns for each unlock")
}

fn report_block<R: Runtime>(rt: &R, name: &str, time: u64, copy: u64) -> io::Result<()> {
    let each = time / u64::from(BLOCKS);
    let hundredths = time.saturating_mul(100).checked_div(copy).unwrap_or(0);
    eprintln!(rt;
        "65536 bytes, all results kept, {name}: {each} ns, {hundredths} % of the time of the copy"
    )
}

// The quickest of some passes in nanoseconds, each with a new brick; 18446744073709551615 where a request was not done.
fn quickest<R: Runtime>(rt: &R, alloc: Global, work: Work) -> io::Result<u64> {
    let mut best = u64::MAX;
    for _ in 0..PASSES {
        best = best.min(pass(rt, alloc, work)?);
    }
    Ok(best)
}

fn pass<R: Runtime>(rt: &R, alloc: Global, work: Work) -> io::Result<u64> {
    match work {
        Work::Copies => time_of_copies(rt, alloc),
        _ => time_of_messages(rt, alloc, work),
    }
}

fn time_of_messages<R: Runtime>(rt: &R, alloc: Global, work: Work) -> io::Result<u64> {
    let mut prepared = Vec::new(alloc);
    let mut messages = Vec::new(alloc);
    add_both(alloc, &mut prepared, &mut messages, work)?;
    time_behind(rt, alloc, served(alloc, prepared), messages)
}

fn add_both(
    alloc: Global,
    prepared: &mut Vec<Bytes>,
    messages: &mut Vec<Bytes>,
    work: Work,
) -> Result<(), AllocError> {
    add_prepared(alloc, prepared, work)?;
    add_timed(alloc, messages, work)
}

fn time_behind<R: Runtime>(
    rt: &R,
    alloc: Global,
    brick: Result<Brick, AllocError>,
    messages: Vec<Bytes>,
) -> io::Result<u64> {
    let mut brick = brick?;
    let time = timed(rt, alloc, &mut brick, messages);
    drop(brick);
    time
}

fn timed<R: Runtime>(
    rt: &R,
    alloc: Global,
    brick: &mut Brick,
    messages: Vec<Bytes>,
) -> io::Result<u64> {
    let start = Instant::now(rt);
    let done = serve(alloc, brick, messages);
    let time = time_since(rt, start, done)?;
    Ok(if is_done(brick) { time } else { u64::MAX })
}

// The copies are kept until the time is taken.
fn time_of_copies<R: Runtime>(rt: &R, alloc: Global) -> io::Result<u64> {
    let mut copies = Vec::new(alloc);
    let start = Instant::now(rt);
    let done = keep_copies(alloc, &mut copies, BLOCKS);
    let time = time_since(rt, start, done);
    drop(copies);
    time
}

// The nanoseconds since the start, where all was done.
fn time_since<R: Runtime>(
    rt: &R,
    start: io::Result<Instant>,
    done: Result<(), AllocError>,
) -> io::Result<u64> {
    let time = nanoseconds_of(start?.elapsed(rt)?);
    done?;
    Ok(time)
}

fn nanoseconds_of(time: Duration) -> u64 {
    time.as_secs()
        .saturating_mul(1000000000)
        .saturating_add(u64::from(time.subsec_nanos()))
}
