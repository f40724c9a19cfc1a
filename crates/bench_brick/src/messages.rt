//! Lists of messages: what a brick serves before it is timed, and what it is timed with.
use crate::requests::{Proc, connect, request};
use bytes::Bytes;
use std::alloc::{AllocError, Global};

/// The most bytes that one request may write, and a cell may hold.
pub const MOST: u32 = 65536;

// The bytes of an op.
const PAGE: u32 = 4096;

// The files on which the writes are made whose memory is taken.
const WRITTEN: u32 = 100;

/// How many writes are timed.
pub const WRITES: u32 = 2000;

/// How many requests of 65,536 bytes are timed.
pub const BLOCKS: u32 = 500;

/// What a new brick is timed with, or a plain copy instead.
#[derive(Clone, Copy)]
pub enum Work {
    /// Lock, mark, op of 4 KiB, post, unlock and fetch, with so many cells.
    Writes(u32),
    /// Copies of 65,536 bytes.
    Copies,
    /// Replaces of 65,536 bytes.
    Replaces,
    /// Fetches of 65,536 bytes.
    Fetches,
    /// So many exclusive locks of one cell, unlocked one after the other.
    Drain(u32),
}

// The gfid of a file, lower half.
fn file(number: u32) -> u32 {
    number.wrapping_add(2)
}

// The rest of a division, 0 where there are no files.
fn among(number: u32, files: u32) -> u32 {
    number.checked_rem(files).unwrap_or(0)
}

/// Adds what could be made.
pub fn add<T: Drop>(list: &mut Vec<T>, made: Result<T, AllocError>) -> Result<(), AllocError> {
    list.push(made?)?;
    Ok(())
}

// So many requests of one kind, to as many files in turn.
fn add_each(
    alloc: Global,
    messages: &mut Vec<Bytes>,
    proc: Proc,
    count: u32,
    files: u32,
    size: u32,
) -> Result<(), AllocError> {
    for number in 0..count {
        let call = number.wrapping_add(1);
        let to = file(among(number, files));
        add(messages, request(alloc, proc, call, to, size))?;
    }
    Ok(())
}

// Connects the graph, and makes so many files of so many bytes.
fn add_files(
    alloc: Global,
    messages: &mut Vec<Bytes>,
    files: u32,
    size: u32,
) -> Result<(), AllocError> {
    add(messages, connect(alloc))?;
    add_each(alloc, messages, Proc::Replace, files, files, size)
}

// The requests of a write, in their order.
const WRITE: [Proc; 6] = [
    Proc::Lock,
    Proc::Mark,
    Proc::Op,
    Proc::Post,
    Proc::Unlock,
    Proc::Fetch,
];

fn add_write(
    alloc: Global,
    messages: &mut Vec<Bytes>,
    change: u32,
    file: u32,
) -> Result<(), AllocError> {
    for proc in &WRITE {
        add(messages, request(alloc, *proc, change, file, PAGE))?;
    }
    Ok(())
}

// The requests of the writes, each to a file of so many, all over them.
fn add_writes(alloc: Global, messages: &mut Vec<Bytes>, files: u32) -> Result<(), AllocError> {
    for call in 0..WRITES {
        let to = file(among(call.wrapping_mul(7919), files));
        add_write(alloc, messages, call.wrapping_add(1), to)?;
    }
    Ok(())
}

// A message again and again.
fn add_repeated(
    messages: &mut Vec<Bytes>,
    message: Result<Bytes, AllocError>,
) -> Result<(), AllocError> {
    let message = message?;
    for _ in 0..BLOCKS {
        add(messages, message.clone())?;
    }
    Ok(())
}

// Gives a new brick one file, of which so many calls wait behind one that holds.
fn add_line(alloc: Global, messages: &mut Vec<Bytes>, calls: u32) -> Result<(), AllocError> {
    add_files(alloc, messages, 1, 4)?;
    add_each(alloc, messages, Proc::Lock, calls, 1, 0)
}

/// What a new brick serves before it is timed.
pub fn add_prepared(
    alloc: Global,
    messages: &mut Vec<Bytes>,
    work: Work,
) -> Result<(), AllocError> {
    match work {
        Work::Writes(files) => add_files(alloc, messages, files, 4),
        Work::Drain(calls) => add_line(alloc, messages, calls),
        Work::Copies => Ok(()),
        Work::Replaces | Work::Fetches => add_files(alloc, messages, 1, MOST),
    }
}

/// What it is timed with.
pub fn add_timed(alloc: Global, messages: &mut Vec<Bytes>, work: Work) -> Result<(), AllocError> {
    match work {
        Work::Writes(files) => add_writes(alloc, messages, files),
        Work::Drain(calls) => add_each(alloc, messages, Proc::Unlock, calls, 1, 0),
        Work::Copies => Ok(()),
        Work::Replaces => add_repeated(messages, request(alloc, Proc::Replace, 0, file(0), MOST)),
        Work::Fetches => add_repeated(messages, request(alloc, Proc::Fetch, 0, file(0), 0)),
    }
}

/// A hundred files, and so many writes of 65,536 bytes to them in turn.
pub fn add_large_writes(
    alloc: Global,
    messages: &mut Vec<Bytes>,
    writes: u32,
) -> Result<(), AllocError> {
    add_files(alloc, messages, WRITTEN, 4)?;
    add_each(alloc, messages, Proc::Op, writes, WRITTEN, MOST)
}
