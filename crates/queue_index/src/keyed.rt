ghost use Rattle.std.specs.Prelude.{◌≡◌, ◌<◌, ℕ, List, length, slice_index_or, IfOk};
ghost use Rattle.queue_index.specs.declared.key.Key.{Key};

use crate::key::Key;
use std::alloc::{AllocError, Global};

/// An entry of a [`KeyedQueue`](crate::KeyedQueue): it has keys, and a mark that may be set.
pub trait Keyed: Sized {
    // The keys of an entry.
    ghost keys: { Self → List Key };

    // The entry with its mark set.
    ghost marked: { Self → Self };

    /// The number of keys.
    fn key_count(&self) -> usize
        ensures { result ≡ length (keys self.now) };

    /// The key at a place.
    fn key(&self, at: usize) -> Key
        requires { at < length (keys self.now) }
        ensures { result ≡ slice_index_or (keys self.now) at result };

    /// Sets the mark, which is no key.
    fn mark(&mut self)
        ensures { self.new ≡ marked self.old };

    /// A copy of the entry.
    ///
    /// # Errors
    /// Out of memory.
    fn copy(&self, alloc: Global) -> Result<Self, AllocError>
        ensures { IfOk result (λ x. x ≡ self.now) };

    ghost stays: { (x : Self) → keys (marked x) ≡ keys x };
}
