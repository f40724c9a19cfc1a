ghost use Rattle.std.specs.Prelude.{◌≡◌, ℕ, cond, None, Some, OnOk, OnErr};
ghost use Rattle.std.specs.Ordering.{nat_cmp, is_eq};
ghost use Rattle.std.specs.BTreeMap.{insert_entry, IsOrdered};
ghost use Rattle.queue_index.specs.Queue.{item_at};
ghost use Rattle.queue_index.specs.Whole.{ArePlaced};

use crate::keyed::Keyed;
use crate::place::{Place, add_places, remove_places};
use std::alloc::AllocError;
use std::collections::{BTreeMap, BTreeSet};

/// Puts an entry of a new number in, with its places. Where memory runs out nothing stays.
pub(crate) fn add_entry<T: Keyed + Drop>(
    held: &mut BTreeMap<u64, T>,
    places: &mut BTreeSet<Place>,
    number: u64,
    item: T,
) -> Result<(), AllocError>
    requires absent { item_at number held.old.entries ≡ None }
    requires placed { ArePlaced T.keys held.old.entries places.old }
    ensures ok { OnOk result (held.new.entries ≡ insert_entry nat_cmp held.old.entries number item) }
    ensures updates { OnOk result ((q : ℕ) → item_at q held.new.entries ≡ cond (is_eq (nat_cmp number q)) (Some item) (item_at q held.old.entries)) }
    ensures err { OnErr result (held.new.entries ≡ held.old.entries) }
    ensures placed { ArePlaced T.keys held.new.entries places.new }
    ensures ordered { IsOrdered nat_cmp held.new }
{
    held.len();
    add_places(places, &item, number)?;
    match held.insert(number, item) {
        Ok(_) => Ok(()),
        Err(failed) => {
            let (_, item) = failed.value;
            remove_places(places, &item, number);
            Err(AllocError)
        }
    }
}
