//! The entries that conflict with those of a key, found by the keys of these.
ghost use Rattle.std.specs.Prelude.{◌≡◌, ℕ, ◌||◌, OnOk, IfOk};
ghost use Rattle.std.specs.List.{list_any, filter};
ghost use Rattle.std.specs.Ordering.{nat_cmp};
ghost use Rattle.std.specs.BTreeSet as sorted;
ghost use Rattle.queue_index.specs.Queue.{numbers, touches, is_at_number};
ghost use Rattle.queue_index.specs.Rivals.{of_mode, meets_key, conflicts, is_rival, meets_at};

use crate::key::{EXCLUSIVE, Key, SHARED};
use crate::keyed::Keyed;
use crate::queue::KeyedQueue;
use std::alloc::{AllocError, Global};
use std::collections::BTreeSet;

/// The numbers, rising, of the entries that conflict with one that has a key. An entry that has something
/// exclusive conflicts with itself too. With n entries, each rival is found in time of the order log n, once
/// for each thing that it has in common with one that has the key.
///
/// # Errors
/// Out of memory.
pub fn rivals_of<T: Keyed + Drop>(
    alloc: Global,
    queue: &KeyedQueue<T>,
    key: Key,
) -> Result<BTreeSet<u64>, AllocError>
    ensures { IfOk result (λ found. found.keys ≡ numbers (filter (λ e. is_rival T.keys key queue.now e.1) queue.now)) }
{
    queue.numbers_rise();
    let found = find_rivals(alloc, queue, key)?;
    Ok(found)
}

/// The set of these numbers.
fn find_rivals<T: Keyed + Drop>(
    alloc: Global,
    queue: &KeyedQueue<T>,
    key: Key,
) -> Result<BTreeSet<u64>, AllocError>
    ensures found { IfOk result (λ found. (q : ℕ) → sorted.contains nat_cmp found q ≡ is_at_number (λ _. is_rival T.keys key queue.now) queue.now q) }
    ensures ordered { IfOk result (sorted.IsOrdered nat_cmp) }
{
    queue.numbers_rise();
    let mut found = BTreeSet::new(alloc);
    let mut from = 0;
    while let Some(number) = queue.next(key, from) {
        add_rivals_of(queue, number, &mut found)?;
        from = number + 1;
    }
    found.len();
    Ok(found)
}

/// Adds the numbers of the entries that conflict with that of a number.
fn add_rivals_of<T: Keyed + Drop>(
    queue: &KeyedQueue<T>,
    number: u64,
    found: &mut BTreeSet<u64>,
) -> Result<(), AllocError>
    ensures { OnOk result ((q : ℕ) → sorted.contains nat_cmp found.new q ≡ (sorted.contains nat_cmp found.old q || meets_at T.keys queue.now q number)) }
{
    let Some(item) = queue.get(number) else {
        return Ok(());
    };
    add_rivals_with(queue, item, found)?;
    Ok(())
}

/// Adds the numbers of the entries that conflict with an item.
fn add_rivals_with<T: Keyed + Drop>(
    queue: &KeyedQueue<T>,
    item: &T,
    found: &mut BTreeSet<u64>,
) -> Result<(), AllocError>
    ensures { OnOk result ((q : ℕ) → sorted.contains nat_cmp found.new q ≡ (sorted.contains nat_cmp found.old q || is_at_number (λ _. conflicts T.keys item.now) queue.now q)) }
{
    for at in 0..item.key_count() {
        let key = item.key(at);
        add_rivals_on(queue, key, found)?;
    }
    Ok(())
}

/// Adds the numbers of the entries that have a key that conflicts with this one.
fn add_rivals_on<T: Keyed + Drop>(
    queue: &KeyedQueue<T>,
    key: Key,
    found: &mut BTreeSet<u64>,
) -> Result<(), AllocError>
    ensures { OnOk result ((q : ℕ) → sorted.contains nat_cmp found.new q ≡ (sorted.contains nat_cmp found.old q || is_at_number (λ _. meets_key T.keys key) queue.now q)) }
{
    if key.mode == EXCLUSIVE {
        add_numbers_of(queue, with_mode(key, EXCLUSIVE), found)?;
        add_numbers_of(queue, with_mode(key, SHARED), found)?;
        return Ok(());
    }
    if key.mode == SHARED {
        add_numbers_of(queue, with_mode(key, EXCLUSIVE), found)?;
        return Ok(());
    }
    Ok(())
}

/// Adds the numbers of the entries that have a key.
fn add_numbers_of<T: Keyed + Drop>(
    queue: &KeyedQueue<T>,
    key: Key,
    found: &mut BTreeSet<u64>,
) -> Result<(), AllocError>
    ensures { OnOk result ((q : ℕ) → sorted.contains nat_cmp found.new q ≡ (sorted.contains nat_cmp found.old q || is_at_number (λ _. touches T.keys key) queue.now q)) }
{
    queue.numbers_rise();
    let mut from = 0;
    while let Some(number) = queue.next(key, from) {
        found.insert(number)?;
        from = number + 1;
    }
    Ok(())
}

pub(crate) fn with_mode(key: Key, mode: u8) -> Key
    ensures { result ≡ of_mode mode key }
{
    Key {
        kind: key.kind,
        hi: key.hi,
        lo: key.lo,
        mode,
    }
}
