ghost use Rattle.std.specs.Prelude.{◌≡◌, ◌<◌, ◌≤◌, ◌+◌, ◌^◌, ℕ, [], ◌∷◌, ◌++◌, OnErr, IfOk, IfSome, IfNone, None, option_copied, length};
ghost use Rattle.std.specs.Map.{keys_of};
ghost use Rattle.std.specs.Ordering.{nat_cmp};
ghost use Rattle.std.specs.List.{list_any};
ghost use Rattle.std.specs.List.Sorted.{IsStrictlySortedBy};
ghost use Rattle.queue_index.specs.Queue.{item_at, items, numbers, before, without, changed_at, touches, touching, touching_from, number_after, number_before, is_end_used, is_front_used, renumbered, with_free_end, with_free_front};

use crate::entry::add_entry;
use crate::key::Key;
use crate::keyed::Keyed;
use crate::place::{Place, first_place, remove_places};
use std::alloc::{AllocError, Global};
use std::collections::{BTreeMap, BTreeSet};
use std::marker::Model;

// The number of the first entry of an empty queue: as many numbers are free before it as after it.
const MIDDLE: u64 = 9223372036854775808;

// The last number that an entry may have.
const LAST: u64 = 18446744073709551614;

/// A queue of entries that are found by keys. Contracts see its entries, each with its number, by rising
/// number.
#[derive(Drop)]
pub struct KeyedQueue<T: Keyed> {
    held: BTreeMap<u64, T>,
    places: BTreeSet<Place>,
}

impl<T: Keyed> Model for KeyedQueue<T> {
    ghost use Rattle.std.specs.Prelude.{List, ℕ};
    ghost use Rattle.queue_index.specs.Whole.{IsWhole};

    ghost Value = { List (ℕ × T) };

    ghost view = { λ q. q.held.entries };

    ghost invariant = { λ q. IsWhole T.keys q.held.entries q.places };
}

impl<T: Keyed + Drop> KeyedQueue<T> {
    /// The empty queue. It allocates nothing.
    pub fn new(alloc: Global) -> KeyedQueue<T>
        ensures { result ≡ [] }
    {
        KeyedQueue {
            held: BTreeMap::new(alloc),
            places: BTreeSet::new(alloc),
        }
    }

    /// The numbers rise. The call does nothing: its contract exports this.
    pub fn numbers_rise(&self)
        ensures { IsStrictlySortedBy nat_cmp (keys_of self.now) }
    {
        let _ = &self.held;
    }

    /// The number of entries.
    pub fn len(&self) -> usize
        ensures { result ≡ length self.now }
    {
        self.held.len()
    }

    /// The item of a number, `None` exactly where no entry has it.
    pub fn get(&self, number: u64) -> Option<&T>
        ensures { option_copied result ≡ item_at number self.now }
    {
        self.held.get(&number)
    }

    /// Puts an entry at the end, and returns its number: one more than that of the last entry, and 2^63
    /// where the queue is empty. Where the last entry has the last number, 2^64 - 2, all entries first get
    /// fresh numbers, from 2^63 on.
    ///
    /// # Errors
    /// Out of memory; so is a queue of 2^63 - 1 entries, which no memory holds. The queue is unchanged.
    pub fn push_back(&mut self, alloc: Global, item: T) -> Result<u64, AllocError>
        ensures added { IfOk result (λ n. self.new ≡ with_free_end self.old ++ (n, item) ∷ []) }
        ensures number { IfOk result (λ n. n ≡ number_after (with_free_end self.old)) }
        ensures err { OnErr result (self.new ≡ self.old) }
    {
        if self.is_end_used() {
            let mut fresh = self.renumbered(alloc)?;
            let number = fresh.append(item)?;
            *self = fresh;
            return Ok(number);
        }
        let number = self.append(item)?;
        Ok(number)
    }

    /// Puts an entry at the front, and returns its number: one less than that of the first entry, and 2^63
    /// where the queue is empty. Where the first entry has the number 0, all entries first get fresh
    /// numbers, from 2^63 on.
    ///
    /// # Errors
    /// Out of memory; so is a queue of 2^63 - 1 entries, which no memory holds. The queue is unchanged.
    pub fn push_front(&mut self, alloc: Global, item: T) -> Result<u64, AllocError>
        ensures added { IfOk result (λ n. self.new ≡ (n, item) ∷ with_free_front self.old) }
        ensures number { IfOk result (λ n. n ≡ number_before (with_free_front self.old)) }
        ensures err { OnErr result (self.new ≡ self.old) }
    {
        if self.is_front_used() {
            let mut fresh = self.renumbered(alloc)?;
            let number = fresh.prepend(item)?;
            *self = fresh;
            return Ok(number);
        }
        let number = self.prepend(item)?;
        Ok(number)
    }

    // Whether the last entry has the last number.
    fn is_end_used(&self) -> bool
        ensures { result ≡ is_end_used self.now }
    {
        let Some((last, _)) = self.held.last_key_value() else {
            return false;
        };
        *last == LAST
    }

    // Whether the first entry has the first number.
    fn is_front_used(&self) -> bool
        ensures { result ≡ is_front_used self.now }
    {
        let Some((first, _)) = self.held.first_key_value() else {
            return false;
        };
        *first == 0
    }

    // A queue of copies of the items, in the same order, with fresh numbers.
    fn renumbered(&self, alloc: Global) -> Result<KeyedQueue<T>, AllocError>
        ensures { IfOk result (λ q. q ≡ renumbered self.now) }
    {
        let mut fresh = KeyedQueue::new(alloc);
        for item in self.held.values() {
            let copy = item.copy(alloc)?;
            fresh.append(copy)?;
        }
        Ok(fresh)
    }

    // Puts an entry at the end, where there is a number for it.
    fn append(&mut self, item: T) -> Result<u64, AllocError>
        ensures added { IfOk result (λ n. self.new ≡ self.old ++ (n, item) ∷ []) }
        ensures number { IfOk result (λ n. n ≡ number_after self.old) }
        ensures err { OnErr result (self.new ≡ self.old) }
    {
        let number = match self.held.last_key_value() {
            None => MIDDLE,
            Some((last, _)) => {
                if *last == LAST {
                    return Err(AllocError);
                }
                *last + 1
            }
        };
        let Ok(()) = add_entry(&mut self.held, &mut self.places, number, item) else {
            return Err(AllocError);
        };
        Ok(number)
    }

    // Puts an entry at the front, where there is a number for it.
    fn prepend(&mut self, item: T) -> Result<u64, AllocError>
        ensures added { IfOk result (λ n. self.new ≡ (n, item) ∷ self.old) }
        ensures number { IfOk result (λ n. n ≡ number_before self.old) }
        ensures err { OnErr result (self.new ≡ self.old) }
    {
        let number = match self.held.first_key_value() {
            None => MIDDLE,
            Some((first, _)) => {
                if *first == 0 {
                    return Err(AllocError);
                }
                *first - 1
            }
        };
        let Ok(()) = add_entry(&mut self.held, &mut self.places, number, item) else {
            return Err(AllocError);
        };
        Ok(number)
    }

    /// Takes the entry of a number out, where there is one. It allocates nothing.
    pub fn remove(&mut self, number: u64)
        ensures { self.new ≡ without number self.old }
    {
        let Some(item) = self.held.remove(&number) else {
            return;
        };
        remove_places(&mut self.places, &item, number);
    }

    /// Sets the mark of the entry of a number, where there is one.
    pub fn mark(&mut self, number: u64)
        ensures { self.new ≡ changed_at T.marked number self.old }
    {
        let Some(item) = self.held.get_mut(&number) else {
            return;
        };
        item.mark();
    }

    /// The first number from `from` on whose entry has the key, `None` exactly where there is none. It is
    /// found in time of the order log n, so a walk from one to the next stops where it likes.
    pub fn next(&self, key: Key, from: u64) -> Option<u64>
        ensures found { IfSome result (λ m. numbers (touching_from T.keys key from self.now) ≡ m ∷ numbers (touching_from T.keys key (m + 1) self.now)) }
        ensures none { IfNone result (numbers (touching_from T.keys key from self.now) ≡ []) }
        ensures late { IfSome result (λ m. from ≤ m) }
        ensures fits { IfSome result (λ m. m + 1 < 2 ^ 64) }
    {
        let Some(found) = first_place(&self.places, key, from) else {
            return None;
        };
        Some(found)
    }

    /// The numbers of all entries that have the key, rising.
    ///
    /// # Errors
    /// Out of memory.
    pub fn numbers_of(&self, alloc: Global, key: Key) -> Result<Vec<u64>, AllocError>
        ensures { IfOk result (λ ns. ns.items ≡ numbers (touching T.keys key self.now)) }
    {
        let mut found = Vec::new(alloc);
        let mut from = 0;
        while let Some(number) = self.next(key, from) {
            found.push(number)?;
            from = number + 1;
        }
        Ok(found)
    }

    /// Whether an entry before a number has the key.
    pub fn has_before(&self, key: Key, number: u64) -> bool
        ensures { result ≡ list_any (touches T.keys key) (items (before number self.now)) }
    {
        let Some(first) = self.next(key, 0) else {
            return false;
        };
        first < number
    }

    /// Whether an entry has the key.
    pub fn has(&self, key: Key) -> bool
        ensures { result ≡ list_any (touches T.keys key) (items self.now) }
    {
        let Some(_) = self.next(key, 0) else {
            return false;
        };
        true
    }

    /// The numbers of all entries, rising.
    ///
    /// # Errors
    /// Out of memory.
    pub fn all_numbers(&self, alloc: Global) -> Result<Vec<u64>, AllocError>
        ensures { IfOk result (λ ns. ns.items ≡ numbers self.now) }
    {
        let mut found = Vec::new(alloc);
        for number in self.held.keys() {
            found.push(*number)?;
        }
        Ok(found)
    }
}
