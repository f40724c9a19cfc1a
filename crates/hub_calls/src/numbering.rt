//! The number of an event, which its lines get as it is closed.
ghost use Rattle.std.specs.Prelude.{◌≡◌, ◌+◌, length, map, IfOk, OnOk};
ghost use Rattle.mount_log.specs.Logs.{same_number};
ghost use Rattle.hub_calls.specs.EventNumbers.{sent_in, reply_in, wind_in};

use fop_types::Seq;
use mount_log::{Log, ReplyLine, SentLine, WindLine};
use std::alloc::{AllocError, Global};
use std::mem;

/// The number of a line whose event is not closed, and of what the hub sends before any event.
pub(crate) const UNNUMBERED: u64 = 0;

/// The number of the next event. So many that their number has no next one would not fit into any memory.
pub(crate) fn next_number(log: &Log) -> Result<u64, AllocError>
    ensures { IfOk result (λ n. n ≡ length log.now.events + 1) }
{
    match (log.events.len() as u64).checked_add(1) {
        Some(number) => Ok(number),
        None => Err(AllocError),
    }
}

// What was sent gets the number of its event.
pub(crate) fn number_sent(alloc: Global, lines: &mut Seq<SentLine>, number: u64)
    ensures { lines.new ≡ map (sent_in number) lines.old }
{
    let mut items = mem::replace(lines, Seq::new(alloc)).into_vec();
    for line in items.iter_mut() {
        line.event = number;
    }
    drop(mem::replace(lines, Seq::from_vec(items)));
}

// Replies get the number of their event.
pub(crate) fn number_replies(alloc: Global, lines: &mut Seq<ReplyLine>, number: u64)
    ensures { lines.new ≡ map (reply_in number) lines.old }
{
    let mut items = mem::replace(lines, Seq::new(alloc)).into_vec();
    for line in items.iter_mut() {
        line.event = number;
    }
    drop(mem::replace(lines, Seq::from_vec(items)));
}

// Winds get the number of their event.
pub(crate) fn number_winds(alloc: Global, lines: &mut Seq<WindLine>, number: u64)
    ensures { lines.new ≡ map (wind_in number) lines.old }
{
    let mut items = mem::replace(lines, Seq::new(alloc)).into_vec();
    for line in items.iter_mut() {
        line.event = number;
    }
    drop(mem::replace(lines, Seq::from_vec(items)));
}

// All these numbers become the number of one event.
pub(crate) fn number_all(alloc: Global, numbers: &mut Seq<u64>, number: u64)
    ensures { numbers.new ≡ same_number number numbers.old }
{
    let mut items = mem::replace(numbers, Seq::new(alloc)).into_vec();
    for at in items.iter_mut() {
        *at = number;
    }
    drop(mem::replace(numbers, Seq::from_vec(items)));
}

// The number of one event, once for each of these.
pub(crate) fn number_each<T>(
    alloc: Global,
    numbers: &mut Seq<u64>,
    items: &[T],
    number: u64,
) -> Result<(), AllocError>
    ensures { OnOk result (numbers.new ≡ same_number number items.now) }
{
    drop(mem::replace(numbers, Seq::new(alloc)));
    for _ in 0..items.len() {
        numbers.push(number)?;
    }
    Ok(())
}
