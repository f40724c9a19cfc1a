//! Times the words of winds and the link of a brick: the steps of the words with one thread and with four,
//! and the messages of a link beside a plain ring.
//!
//! Without arguments four threads end the same winds, and it writes how many were won and how many were collected:
//! whatever the schedule, each once. With the argument `time` it writes to standard error how many calls each second
//! there are.
#![tactic(auto)]

mod posts;
mod rings;
mod timing;
mod winds;

use std::alloc::Global;
use std::env::FillError;
use std::io;
use std::rt::{Env, Runtime};
use std::thread::Threads;
use winds::WINDS;

fn main(rt: HostRuntime) -> io::Result<()> {
    let mut word = [0u8; 4];
    let found = rt.arg(1, &mut word);
    if found.is_ok() && word.as_slice() == b"time".as_slice() {
        return timing::report(&rt, rt.alloc());
    }
    match found {
        Err(FillError::NotPresent) => report_race(&rt, rt.alloc()),
        _ => Ok(()),
    }
}

fn report_race<R: Runtime + Threads + Sync>(rt: &R, alloc: Global) -> io::Result<()> {
    let (won, collected) = posts::race(rt, alloc)?;
    println!(rt; "{WINDS} winds, {won} won, {collected} collected")
}
