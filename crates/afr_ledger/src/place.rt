ghost use Rattle.std.specs.Prelude.{◌≡◌, ℕ, cond, None, Some, OnOk, OnErr, true};
ghost use Rattle.std.specs.BTreeMap.{get_by};
ghost use Rattle.afr_ledger.specs.Changes.{covers};
ghost use Rattle.afr_ledger.specs.code.Places.{owner};

use std::alloc::AllocError;
use std::collections::BTreeMap;

/// A cell of a set.
#[derive(Clone, Copy, PartialEq, Eq, PartialOrd, Ord)]
pub(crate) struct Place<C> {
    pub(crate) set: u8,
    pub(crate) cell: C,
}

/// Enters a change at its cells, at which none is entered. Where memory runs out none stays.
pub(crate) fn add_places<C: Ord + Copy>(
    places: &mut BTreeMap<Place<C>, u64>,
    set: u8,
    cells: &[C],
    change: u64,
) -> Result<(), AllocError>
    requires { (s : ℕ) (c : C) → covers C.cmp set cells.now s c ≡ true → owner C.cmp places.old s c ≡ None }
    ensures ok { OnOk result ((s : ℕ) (c : C) → owner C.cmp places.new s c ≡ cond (covers C.cmp set cells.now s c) (Some change) (owner C.cmp places.old s c)) }
    ensures err { OnErr result ((s : ℕ) (c : C) → owner C.cmp places.new s c ≡ owner C.cmp places.old s c) }
{
    for cell in cells {
        let place = Place { set, cell: *cell };
        let Ok(_) = places.insert(place, change) else {
            remove_places(places, set, cells);
            return Err(AllocError);
        };
    }
    Ok(())
}

/// Takes away what is entered at the cells of a set.
pub(crate) fn remove_places<C: Ord + Copy>(
    places: &mut BTreeMap<Place<C>, u64>,
    set: u8,
    cells: &[C],
)
    ensures { (s : ℕ) (c : C) → owner C.cmp places.new s c ≡ cond (covers C.cmp set cells.now s c) None (owner C.cmp places.old s c) }
{
    for cell in cells {
        places.remove(&Place { set, cell: *cell });
    }
}
