ghost use Rattle.std.specs.Prelude.{◌<◌};

use crate::{holds, locks, pages, tasks};
use brick_locks::BrickLocks;
use io_cache::PageCache;
use io_threads::Queues;
use mount_locks::MountLocks;
use std::alloc::{AllocError, Global};
use std::io;
use std::rt::Runtime;
use std::time::{Duration, Instant};

/// How often each call is made while it is timed.
pub const ROUNDS: u32 = 1000;

/// Writes all times to standard error.
pub fn report_all<R: Runtime>(rt: &R, alloc: Global) -> io::Result<()> {
    report(rt, alloc, 10)?;
    report(rt, alloc, 10000)
}

/// How many nanoseconds each call takes where the tables have so many entries of each kind.
fn report<R: Runtime>(rt: &R, alloc: Global, entries: u32) -> io::Result<()>
    requires { 0 < entries }
{
    eprintln!(rt; "with {entries} of each kind, in nanoseconds:")?;
    report_locks(rt, alloc, entries)?;
    report_tasks(rt, alloc, entries)?;
    report_pages(rt, alloc, entries)?;
    report_holds(rt, alloc, entries)
}

fn report_locks<R: Runtime>(rt: &R, alloc: Global, entries: u32) -> io::Result<()> {
    let mut table = BrickLocks::new(alloc);
    let done = time_locks(rt, alloc, &mut table, entries);
    drop(table);
    done
}

fn time_locks<R: Runtime>(
    rt: &R,
    alloc: Global,
    table: &mut BrickLocks,
    entries: u32,
) -> io::Result<()> {
    locks::fill(alloc, table, entries)?;
    let start = Instant::now(rt);
    let single = locks::ask_and_release(alloc, table, entries);
    report_since(rt, "locks of a brick: ask and release", start, single)?;
    let start = Instant::now(rt);
    let two = locks::hand_over(alloc, table, entries);
    report_since(
        rt,
        "the same of two, of which one waits for the other",
        start,
        two,
    )
}

fn report_holds<R: Runtime>(rt: &R, alloc: Global, entries: u32) -> io::Result<()> {
    let mut table = MountLocks::new(alloc);
    let done = time_holds(rt, alloc, &mut table, entries);
    drop(table);
    done
}

fn time_holds<R: Runtime>(
    rt: &R,
    alloc: Global,
    table: &mut MountLocks,
    entries: u32,
) -> io::Result<()> {
    holds::fill(alloc, table, entries)?;
    let start = Instant::now(rt);
    let done = holds::ask_and_release(alloc, table, entries);
    report_since(rt, "holds of the mount: ask and release", start, done)
}

fn report_tasks<R: Runtime>(rt: &R, alloc: Global, entries: u32) -> io::Result<()> {
    let mut table: Queues<u32> = Queues::new(alloc);
    let done = time_tasks(rt, alloc, &mut table, entries);
    drop(table);
    done
}

fn time_tasks<R: Runtime>(
    rt: &R,
    alloc: Global,
    table: &mut Queues<u32>,
    entries: u32,
) -> io::Result<()> {
    tasks::fill(alloc, table, entries)?;
    let start = Instant::now(rt);
    let done = tasks::push_and_pop(alloc, table);
    report_since(rt, "tasks: push and pop", start, done)
}

fn report_pages<R: Runtime>(rt: &R, alloc: Global, entries: u32) -> io::Result<()>
    requires { 0 < entries }
{
    let mut table = PageCache::new(alloc, entries)?;
    let done = time_pages(rt, alloc, &mut table, entries);
    drop(table);
    done
}

fn time_pages<R: Runtime>(
    rt: &R,
    alloc: Global,
    table: &mut PageCache,
    entries: u32,
) -> io::Result<()>
    requires { 0 < entries }
{
    pages::fill(alloc, table, entries)?;
    let start = Instant::now(rt);
    let hits = pages::hit(alloc, table, entries);
    report_since(rt, "pages: hit", start, hits)?;
    let start = Instant::now(rt);
    let misses = pages::miss(alloc, table);
    report_since(rt, "pages: miss", start, misses)?;
    let start = Instant::now(rt);
    let puts = pages::put_over(alloc, table);
    report_since(rt, "pages: put into a full cache", start, puts)
}

// Writes a line with how long each call took since then, where all were made.
fn report_since<R: Runtime>(
    rt: &R,
    calls: &str,
    start: io::Result<Instant>,
    done: Result<(), AllocError>,
) -> io::Result<()> {
    let time = start?.elapsed(rt)?;
    done?;
    let nanoseconds = nanoseconds_of(time) / u64::from(ROUNDS);
    eprintln!(rt; "  {calls} {nanoseconds}")
}

fn nanoseconds_of(time: Duration) -> u64 {
    time.as_secs()
        .saturating_mul(1000000000)
        .saturating_add(u64::from(time.subsec_nanos()))
}
