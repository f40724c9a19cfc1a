//! The entries that come next where those of a key leave: on each of their things, the ones after them up to
//! the first that has the thing exclusive.
ghost use Rattle.std.specs.Prelude.{◌≡◌, ◌+◌, ◌<◌, ◌^◌, ◌||◌, ◌&&◌, ℕ, OnOk, IfOk};
ghost use Rattle.std.specs.List.{filter};
ghost use Rattle.std.specs.Ordering.{nat_cmp};
ghost use Rattle.std.specs.BTreeSet as sorted;
ghost use Rattle.queue_index.specs.Queue.{numbers, touches, is_at_number};
ghost use Rattle.queue_index.specs.Next.{is_past, is_in_run, is_next_on, is_next_to, is_next, follows_at};

use crate::key::{EXCLUSIVE, Key, SHARED};
use crate::keyed::Keyed;
use crate::queue::KeyedQueue;
use crate::rivals::with_mode;
use std::alloc::{AllocError, Global};
use std::collections::BTreeSet;

/// The numbers, rising, of the entries that come next after one that has a key: they conflict with it by one
/// of its things, and none between has the thing exclusive. With n entries, each is found in time of the order
/// log n, as often as it comes next; what comes behind an exclusive one is not looked at.
///
/// # Errors
/// Out of memory.
pub fn next_rivals_of<T: Keyed + Drop>(
    alloc: Global,
    queue: &KeyedQueue<T>,
    key: Key,
) -> Result<BTreeSet<u64>, AllocError>
    ensures { IfOk result (λ found. found.keys ≡ numbers (filter (λ e. is_next T.keys key queue.now e.0 e.1) queue.now)) }
{
    queue.numbers_rise();
    let found = find_next(alloc, queue, key)?;
    Ok(found)
}

/// The set of these numbers.
fn find_next<T: Keyed + Drop>(
    alloc: Global,
    queue: &KeyedQueue<T>,
    key: Key,
) -> Result<BTreeSet<u64>, AllocError>
    ensures found { IfOk result (λ found. (q : ℕ) → sorted.contains nat_cmp found q ≡ is_at_number (is_next T.keys key queue.now) queue.now q) }
    ensures ordered { IfOk result (sorted.IsOrdered nat_cmp) }
{
    queue.numbers_rise();
    let mut found = BTreeSet::new(alloc);
    let mut from = 0;
    while let Some(number) = queue.next(key, from) {
        add_next_after(queue, number, &mut found)?;
        from = number + 1;
    }
    found.len();
    Ok(found)
}

/// Adds the numbers of the entries that come next after that of a number.
fn add_next_after<T: Keyed + Drop>(
    queue: &KeyedQueue<T>,
    number: u64,
    found: &mut BTreeSet<u64>,
) -> Result<(), AllocError>
    requires { number + 1 < 2 ^ 64 }
    ensures { OnOk result ((q : ℕ) → sorted.contains nat_cmp found.new q ≡ (sorted.contains nat_cmp found.old q || follows_at T.keys queue.now q number)) }
{
    let Some(item) = queue.get(number) else {
        return Ok(());
    };
    add_next_to(queue, item, number + 1, found)?;
    Ok(())
}

/// Adds the numbers of the entries that come next on the things of an item, from a number on.
fn add_next_to<T: Keyed + Drop>(
    queue: &KeyedQueue<T>,
    item: &T,
    from: u64,
    found: &mut BTreeSet<u64>,
) -> Result<(), AllocError>
    ensures { OnOk result ((q : ℕ) → sorted.contains nat_cmp found.new q ≡ (sorted.contains nat_cmp found.old q || is_at_number (is_next_to T.keys queue.now from item.now) queue.now q)) }
{
    for at in 0..item.key_count() {
        let key = item.key(at);
        add_next_on(queue, key, from, found)?;
    }
    Ok(())
}

/// Adds the numbers of the entries that come next on the thing of a key, from a number on.
fn add_next_on<T: Keyed + Drop>(
    queue: &KeyedQueue<T>,
    key: Key,
    from: u64,
    found: &mut BTreeSet<u64>,
) -> Result<(), AllocError>
    ensures { OnOk result ((q : ℕ) → sorted.contains nat_cmp found.new q ≡ (sorted.contains nat_cmp found.old q || is_at_number (is_next_on T.keys queue.now from key) queue.now q)) }
{
    let exclusive = with_mode(key, EXCLUSIVE);
    if key.mode == EXCLUSIVE {
        add_run(queue, exclusive, exclusive, from, found)?;
        add_run(queue, with_mode(key, SHARED), exclusive, from, found)?;
        return Ok(());
    }
    if key.mode == SHARED {
        add_run(queue, exclusive, exclusive, from, found)?;
        return Ok(());
    }
    Ok(())
}

/// Adds the numbers of the entries that have a key, from a number on and up to the first one that has the
/// last key.
fn add_run<T: Keyed + Drop>(
    queue: &KeyedQueue<T>,
    key: Key,
    last: Key,
    start: u64,
    found: &mut BTreeSet<u64>,
) -> Result<(), AllocError>
    ensures { OnOk result ((q : ℕ) → sorted.contains nat_cmp found.new q ≡ (sorted.contains nat_cmp found.old q || is_at_number (λ n y. touches T.keys key y && is_in_run T.keys queue.now last start n) queue.now q)) }
{
    queue.numbers_rise();
    let end = queue.next(last, start);
    let mut from = start;
    while let Some(number) = queue.next(key, from) {
        if is_past(end, number) {
            return Ok(());
        }
        found.insert(number)?;
        from = number + 1;
    }
    Ok(())
}

/// Whether a number is past the last one of a run, where the run has an end.
fn is_past(end: Option<u64>, number: u64) -> bool
    ensures { result ≡ is_past end number }
{
    match end {
        None => false,
        Some(last) => last < number,
    }
}
