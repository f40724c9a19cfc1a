ghost use Rattle.std.specs.Prelude.{◌≡◌, None, Some, [], ◌∷◌, OnOk, OnErr, option_copied};
ghost use Rattle.afr_ledger.specs.Changes.{numbered, with_change, without, touching, lesser, AreKept};

use crate::place::{Place, add_places, remove_places};
use crate::unsettled::Unsettled;
use std::alloc::{AllocError, Global};
use std::collections::BTreeMap;
use std::marker::Model;

/// The unsettled changes, found by number and by cell. Contracts see them by rising number.
#[derive(Drop)]
pub(crate) struct Changes<C: Ord> {
    held: BTreeMap<u64, Unsettled<C>>,
    places: BTreeMap<Place<C>, u64>,
}

impl<C: Ord> Model for Changes<C> {
    ghost use Rattle.std.specs.Prelude.{List, ℕ};
    ghost use Rattle.afr_ledger.specs.declared.unsettled.Unsettled.{Unsettled};
    ghost use Rattle.afr_ledger.specs.code.Places.{IsWhole};

    ghost Value = { List (ℕ × Unsettled C) };

    ghost view = { λ c. c.held.entries };

    ghost invariant = { λ c. IsWhole C.cmp c.held.entries c.places };
}

impl<C: Ord + Copy> Changes<C> {
    /// No changes. It allocates nothing.
    pub(crate) fn new(alloc: Global) -> Changes<C>
        ensures { result ≡ [] }
    {
        Changes {
            held: BTreeMap::new(alloc),
            places: BTreeMap::new(alloc),
        }
    }

    /// The numbers rise, each is its change's, and at most one change touches a cell. The call does nothing: its
    /// contract exports this.
    pub(crate) fn keep_apart(&self)
        ensures { AreKept C.cmp self.now }
    {
        let _ = &self.held;
    }

    /// The change of a number.
    pub(crate) fn get(&self, change: u64) -> Option<&Unsettled<C>>
        ensures { option_copied result ≡ numbered change self.now }
    {
        self.held.get(&change)
    }

    /// Puts a change in that no other shares a cell with.
    pub(crate) fn insert(&mut self, u: Unsettled<C>) -> Result<(), AllocError>
        requires apart { touching C.cmp u.set u.cells self.old ≡ None }
        requires new { numbered u.change self.old ≡ None }
        ensures ok { OnOk result (self.new ≡ with_change self.old u) }
        ensures err { OnErr result (self.new ≡ self.old) }
    {
        add_places(&mut self.places, u.set, u.cells.as_slice(), u.change)?;
        match self.held.insert(u.change, u) {
            Ok(_) => Ok(()),
            Err(failed) => {
                let (_, u) = failed.value;
                remove_places(&mut self.places, u.set, u.cells.as_slice());
                Err(AllocError)
            }
        }
    }

    /// Takes the change of a number out. It allocates nothing.
    pub(crate) fn remove(&mut self, change: u64)
        ensures { self.new ≡ without change self.old }
    {
        let Some(u) = self.held.remove(&change) else {
            return;
        };
        remove_places(&mut self.places, u.set, u.cells.as_slice());
    }

    /// The least change of a set that touches one of the cells.
    pub(crate) fn touching(&self, set: u8, cells: &[C]) -> Option<u64>
        ensures { result ≡ touching C.cmp set cells.now self.now }
    {
        self.keep_apart();
        let mut least = None;
        for cell in cells {
            least = lesser(least, self.owner(set, *cell));
        }
        least
    }

    /// The change of a set that touches the cell.
    fn owner(&self, set: u8, cell: C) -> Option<u64>
        ensures { result ≡ touching C.cmp set (cell ∷ []) self.now }
    {
        self.places.get(&Place { set, cell }).copied()
    }
}

fn lesser(a: Option<u64>, b: Option<u64>) -> Option<u64>
    ensures { result ≡ lesser a b }
{
    match (a, b) {
        (None, b) => b,
        (a, None) => a,
        (Some(a), Some(b)) => Some(if a <= b { a } else { b }),
    }
}
