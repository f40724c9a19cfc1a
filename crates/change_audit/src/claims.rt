//! The changes that were taken for entries, and the winds that were taken for copies, each for one.
ghost use Rattle.std.specs.Prelude.{◌≡◌, ◌↔◌, IsTrue, [], true, None, Some, is_some, IfOk};
ghost use Rattle.change_audit.specs.Claims.{claim_of, KeepClaims};

use std::alloc::{AllocError, Global};
use std::collections::BTreeMap;
use std::marker::Model;

/// The place of the entry that each change was taken for, by the change's number; or that of the copy, by the wind's. Contracts
/// see the places with these numbers.
#[derive(Drop)]
pub struct Claims {
    places: BTreeMap<u64, usize>,
}

impl Model for Claims {
    ghost use Rattle.std.specs.Prelude.{List, ℕ};

    ghost Value = { List (ℕ × ℕ) };

    ghost view = { λ c. c.places.entries };
}

#[tactic(auto, using(crate::proofs::Claiming::claimed_now, crate::proofs::Claiming::claims_kept))]
impl Claims {
    /// Nothing was taken. It allocates nothing.
    pub fn new(alloc: Global) -> Claims
        ensures { result ≡ [] }
    {
        Claims {
            places: BTreeMap::new(alloc),
        }
    }

    /// Whether a change was taken for an entry, or a wind for a copy.
    pub(crate) fn has(&self, change: u64) -> bool
        ensures { result ≡ is_some (claim_of self.now change) }
    {
        self.places.contains_key(&change)
    }

    /// Takes a change for the entry at a place, or a wind for the copy. It is false where that was taken before.
    ///
    /// # Errors
    /// Out of memory.
    pub fn take(&mut self, change: u64, place: usize) -> Result<bool, AllocError>
        ensures taken { IfOk result (λ did. did ≡ true → claim_of self.new change ≡ Some place) }
        ensures free { IfOk result (λ did. IsTrue did ↔ (claim_of self.old change ≡ None)) }
        ensures keeps { IfOk result (λ did. KeepClaims self.old self.new) }
    {
        if self.has(change) {
            return Ok(false);
        }
        self.places.insert(change, place)?;
        Ok(true)
    }
}
