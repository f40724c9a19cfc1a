use crate::posts::act_beside_readers;
use crate::rings::{ROOM, through_link, through_ring};
use crate::winds::{Act, Desk, THREADS, WINDS, act_on_each, prepare};
use std::alloc::{AllocError, Global};
use std::io;
use std::rt::Runtime;
use std::thread::Threads;
use std::time::{Duration, Instant};

/// How often each is timed. The quickest counts, since others may use the processor meanwhile.
const PASSES: u32 = 20;

/// What is done with all winds, by its name.
const ACTS: [(&str, Act); 3] = [
    ("settle", Act::Settle),
    ("bail", Act::Bail),
    ("collect", Act::Collect),
];

/// Writes to standard error how many calls each second there are, in thousands.
pub fn report<R: Runtime + Threads + Sync>(rt: &R, alloc: Global) -> io::Result<()> {
    eprintln!(rt; "thousands of calls each second, the quickest of {PASSES} passes:")?;
    report_acts(rt, alloc)?;
    report_messages(rt, alloc, 100, 4096)?;
    report_messages(rt, alloc, 65536, 64)
}

fn report_acts<R: Runtime + Threads + Sync>(rt: &R, alloc: Global) -> io::Result<()> {
    for (name, act) in &ACTS {
        report_winds(rt, alloc, *act, name)?;
    }
    Ok(())
}

fn report_winds<R: Runtime + Threads + Sync>(
    rt: &R,
    alloc: Global,
    act: Act,
    name: &str,
) -> io::Result<()> {
    let mut one = u64::MAX;
    let mut own = u64::MAX;
    let mut same = u64::MAX;
    for _ in 0..PASSES {
        one = one.min(time_of_one(rt, alloc, act)?);
        own = own.min(time_of_four(rt, alloc, act)?);
        same = same.min(time_beside_readers(rt, alloc, act)?);
    }
    let one = thousands(u64::from(WINDS), one);
    let own = thousands(u64::from(WINDS) * THREADS as u64, own);
    let same = thousands(u64::from(WINDS) * THREADS as u64, same);
    eprintln!(rt;
        "  {name}: {one} with one thread, {own} with four on their own words, {same} on the same"
    )
}

fn time_of_one<R: Runtime>(rt: &R, alloc: Global, act: Act) -> io::Result<u64> {
    let mut desk = Desk::prepared(alloc, act)?;
    let start = Instant::now(rt);
    desk.act(act);
    time_since(rt, start, Ok(0))
}

fn time_of_four<R: Runtime + Threads + Sync>(rt: &R, alloc: Global, act: Act) -> io::Result<u64> {
    let mut desks = Vec::new(alloc);
    let time = time_of_desks(rt, alloc, &mut desks, act);
    drop(desks);
    time
}

fn time_of_desks<R: Runtime + Threads + Sync>(
    rt: &R,
    alloc: Global,
    desks: &mut Vec<Desk>,
    act: Act,
) -> io::Result<u64> {
    prepare(alloc, desks, act)?;
    let start = Instant::now(rt);
    act_on_each(rt, desks, act);
    time_since(rt, start, Ok(0))
}

fn time_beside_readers<R: Runtime + Threads + Sync>(
    rt: &R,
    alloc: Global,
    act: Act,
) -> io::Result<u64> {
    let desk = Desk::prepared(alloc, act)?;
    let start = Instant::now(rt);
    let done = act_beside_readers(rt, alloc, desk, act);
    time_since(rt, start, done)
}

fn report_messages<R: Runtime>(rt: &R, alloc: Global, size: usize, rounds: u32) -> io::Result<()> {
    let bytes = vec![in alloc; 7u8; size]?;
    report_rings(rt, alloc, &bytes, rounds)
}

// The plain ring and the link are timed in turn, so that both meet the same load.
fn report_rings<R: Runtime>(rt: &R, alloc: Global, bytes: &[u8], rounds: u32) -> io::Result<()> {
    let mut plain = u64::MAX;
    let mut linked = u64::MAX;
    for _ in 0..PASSES {
        plain = plain.min(time_of_ring(rt, alloc, bytes, rounds)?);
        linked = linked.min(time_of_link(rt, alloc, bytes, rounds)?);
    }
    let messages = u64::from(rounds) * ROOM as u64;
    let of_ring = thousands(messages, plain);
    let of_link = thousands(messages, linked);
    let hundredths = linked.saturating_mul(100).checked_div(plain).unwrap_or(0);
    let size = bytes.len();
    eprintln!(rt;
        "  messages of {size} bytes: {of_ring} through a plain ring, {of_link} through a link, in {hundredths} % of the time"
    )
}

fn time_of_ring<R: Runtime>(rt: &R, alloc: Global, bytes: &[u8], rounds: u32) -> io::Result<u64> {
    let start = Instant::now(rt);
    let done = through_ring(alloc, bytes, rounds);
    time_since(rt, start, done)
}

fn time_of_link<R: Runtime>(rt: &R, alloc: Global, bytes: &[u8], rounds: u32) -> io::Result<u64> {
    let start = Instant::now(rt);
    let done = through_link(alloc, bytes, rounds);
    time_since(rt, start, done)
}

// The nanoseconds since the start, where all was done.
fn time_since<R: Runtime>(
    rt: &R,
    start: io::Result<Instant>,
    done: Result<u64, AllocError>,
) -> io::Result<u64> {
    let time = nanoseconds_of(start?.elapsed(rt)?);
    done?;
    Ok(time)
}

fn nanoseconds_of(time: Duration) -> u64 {
    time.as_secs()
        .saturating_mul(1000000000)
        .saturating_add(u64::from(time.subsec_nanos()))
}

// So many calls in this time, as thousands of calls each second.
fn thousands(calls: u64, nanoseconds: u64) -> u64 {
    calls
        .saturating_mul(1000000)
        .checked_div(nanoseconds)
        .unwrap_or(0)
}
