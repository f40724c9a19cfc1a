ghost use Rattle.std.specs.Prelude.{◌≡◌, ◌<◌, [], None, Some, IsSome, OnOk, OnErr, IfOk, option_copied, is_some, slice_set, length};
ghost use Rattle.frame_stack.specs.Cells.{cell_at, taken, IsInserted};

use std::alloc::{AllocError, Global};
use std::marker::Model;
use std::mem;

/// Values under keys that it picks. A key whose value was removed is given out again before a new one
/// is, so the keys stay as small as the most values that were ever held at once. Contracts see the cells,
/// by key.
///
/// `slab` does the same, but its contract does not bound the keys.
#[derive(Drop)]
pub struct Keyed<T> {
    cells: Vec<Option<T>>,
    // The keys of the empty cells. There is room for the keys of all cells, so a removal takes no memory.
    vacant: Vec<u32>,
}

impl<T> Model for Keyed<T> {
    ghost use Rattle.std.specs.Prelude.{List, Option, vec_capacity};
    ghost use Rattle.frame_stack.specs.Vacancy.{AreVacant};

    ghost Value = { List (Option T) };

    ghost view = { λ k. k.cells.items };

    ghost invariant = { λ k. AreVacant k.cells.items k.vacant.items (vec_capacity k.vacant) };
}

impl<T> Keyed<T> {
    /// No values, which takes no memory.
    pub fn new(alloc: Global) -> Keyed<T>
        ensures { result ≡ [] }
    {
        Keyed {
            cells: Vec::new(alloc),
            vacant: Vec::new(alloc),
        }
    }

    /// How many values there are.
    pub fn len(&self) -> usize
        ensures { result ≡ taken self.now }
    {
        self.cells.len() - self.vacant.len()
    }

    /// The value at `key`, if there is one.
    pub fn get(&self, key: u32) -> Option<&T>
        ensures { option_copied result ≡ cell_at self.now key }
    {
        match self.cells.get(key as usize) {
            Some(Some(value)) => Some(value),
            _ => None,
        }
    }

    /// Stores a value and gives its key.
    ///
    /// # Errors
    /// Out of memory, and nothing changed.
    pub fn insert(&mut self, value: T) -> Result<u32, AllocError>
    where
        T: Drop,
        requires { taken self.old < 4294967295 }
        ensures ok { IfOk result (λ key. IsInserted self.old self.new key value) }
        ensures err { OnErr result (self.new ≡ self.old) }
    {
        if self.vacant.is_empty() {
            let key = self.cells.len() as u32;
            self.vacant.reserve(self.cells.len() + 1)?;
            self.cells.push(Some(value))?;
            return Ok(key);
        }
        let Some(key) = self.vacant.pop() else {
            unreachable!()
        };
        self.cells[key as usize] = Some(value);
        Ok(key)
    }

    /// Puts another value in the place of the one at `key`, and gives that one. `None` comes exactly where
    /// there was none, and then nothing changed.
    pub fn replace(&mut self, key: u32, value: T) -> Option<T>
    where
        T: Drop,
        ensures value { result ≡ cell_at self.old key }
        ensures present { IsSome result → self.new ≡ slice_set self.old key (Some value) }
        ensures absent { result ≡ None → self.new ≡ self.old }
    {
        let Some(_) = self.get(key) else {
            return None;
        };
        mem::replace(&mut self.cells[key as usize], Some(value))
    }

    /// Takes the value at `key` out. `None` comes exactly where there is none, and then nothing changed.
    pub fn remove(&mut self, key: u32) -> Option<T>
        ensures value { result ≡ cell_at self.old key }
        ensures emptied { self.new ≡ slice_set self.old key None }
    {
        let Some(_) = self.get(key) else {
            return None;
        };
        self.vacant.push_reserved(key);
        mem::replace(&mut self.cells[key as usize], None)
    }
}
