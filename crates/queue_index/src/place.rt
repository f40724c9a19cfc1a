ghost use Rattle.std.specs.Prelude.{◌≡◌, ◌≤◌, ◌||◌, ◌&&◌, not, false, true, OnOk, OnErr, IfSome, IfNone};
ghost use Rattle.std.specs.BTreeSet as sorted;
ghost use Rattle.queue_index.specs.declared.place.Place.{Place};
ghost use Rattle.queue_index.specs.declared.key.Key.{Key};
ghost use Rattle.queue_index.specs.Places.{place_cmp, place, is_of, IsFirst, IsNone};

use crate::key::Key;
use crate::keyed::Keyed;
use std::alloc::{AllocError, Global};
use std::collections::BTreeSet;

/// That the entry of a number has a key. Places go by key and then by number, so the entries of one key
/// are together, in the order of the queue.
#[derive(Clone, Copy, PartialEq, Eq, PartialOrd, Ord)]
pub(crate) struct Place {
    pub(crate) key: Key,
    pub(crate) number: u64,
}

/// Puts the places of an entry in. Where memory runs out none stays.
pub(crate) fn add_places<T: Keyed>(
    places: &mut BTreeSet<Place>,
    item: &T,
    number: u64,
) -> Result<(), AllocError>
    requires { (k : Key) → sorted.contains place_cmp places.old (place k number) ≡ false }
    ensures ok { OnOk result ((q : Place) → sorted.contains place_cmp places.new q ≡ (sorted.contains place_cmp places.old q || is_of (T.keys item.now) number q)) }
    ensures err { OnErr result ((q : Place) → sorted.contains place_cmp places.new q ≡ sorted.contains place_cmp places.old q) }
{
    for at in 0..item.key_count() {
        let key = item.key(at);
        let Ok(_) = places.insert(Place { key, number }) else {
            remove_places(places, item, number);
            return Err(AllocError);
        };
    }
    Ok(())
}

/// Takes the places of an entry out.
pub(crate) fn remove_places<T: Keyed>(places: &mut BTreeSet<Place>, item: &T, number: u64)
    ensures { (q : Place) → sorted.contains place_cmp places.new q ≡ (sorted.contains place_cmp places.old q && not (is_of (T.keys item.now) number q)) }
{
    for at in 0..item.key_count() {
        let key = item.key(at);
        places.remove(&Place { key, number });
    }
}

/// The first number from `from` on at which the key is.
pub(crate) fn first_place(places: &BTreeSet<Place>, key: Key, from: u64) -> Option<u64>
    ensures first { IfSome result (IsFirst places.now key from) }
    ensures none { IfNone result (IsNone places.now key from) }
{
    let Some(found) = places.range(Place { key, number: from }..).next() else {
        return None;
    };
    if found.key == key {
        return Some(found.number);
    }
    None
}
