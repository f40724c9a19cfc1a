ghost use Rattle.std.specs.Prelude.{None, ◌≡◌, ◌≤◌, ◌<◌, ◌∷◌, ◌++◌, suc, take, drop, length, insert, OnOk, OnErr, IfOk, IfErr};
ghost use Rattle.std.specs.Option.{option_copied};
ghost use Rattle.fop_types.specs.Names.{item_named, with_item};

use crate::contents::Item;
use crate::lists::Seq;
use std::alloc::AllocError;
use std::cmp::Ordering;

/// The first item of this name, in time of the number of items.
pub fn find_item<'a>(items: &'a [Item], name: &[u8]) -> Option<&'a Item>
    ensures { option_copied result ≡ item_named items.now name.now }
{
    for item in items {
        if item.name.as_slice() == name {
            return Some(item);
        }
    }
    None
}

/// The place of an item among items by rising name: `Ok` of the place of an equal name, or `Err` of the
/// place before which the item goes.
pub fn place_of_item(items: &[Item], item: &Item) -> Result<usize, usize>
    ensures taken { IfOk result (λ i. (i < length items.now) × (with_item items.now item.now ≡ take i items.now ++ item.now ∷ drop (suc i) items.now)) }
    ensures free { IfErr result (λ i. (i ≤ length items.now) × (with_item items.now item.now ≡ insert items.now i item.now)) }
{
    let mut place = 0;
    for other in items {
        match item.name.as_slice().cmp(other.name.as_slice()) {
            Ordering::Less => return Err(place),
            Ordering::Equal => return Ok(place),
            Ordering::Greater => place += 1,
        }
    }
    Err(place)
}

/// Puts an item of a new name at its place among items by rising name, and returns the place. The cost is
/// the search of the place and one move of the items after it.
///
/// # Errors
/// Out of memory, with the items unchanged.
pub fn insert_new_item(items: &mut Seq<Item>, item: Item) -> Result<usize, AllocError>
    requires { item_named items.old item.name ≡ None }
    ensures ok { OnOk result (items.new ≡ with_item items.old item) }
    ensures place { IfOk result (λ i. (i ≤ length items.old) × (items.new ≡ insert items.old i item)) }
    ensures err { OnErr result (items.new ≡ items.old) }
{
    match place_of_item(items.as_slice(), &item) {
        Ok(_) => unreachable!(),
        Err(index) => {
            items.insert(index, item)?;
            Ok(index)
        }
    }
}

/// Puts an item at its place among items by rising name; one of an equal name is replaced. The cost is
/// the search of the place and one move of the items after it.
///
/// # Errors
/// Out of memory, with the items unchanged.
#[tactic(auto, using(crate::proofs::Places::set_parts))]
pub fn insert_item(items: &mut Seq<Item>, item: Item) -> Result<(), AllocError>
    ensures ok { OnOk result (items.new ≡ with_item items.old item) }
    ensures err { OnErr result (items.new ≡ items.old) }
{
    match place_of_item(items.as_slice(), &item) {
        Ok(index) => {
            items.set(index, item);
            Ok(())
        }
        Err(index) => {
            items.insert(index, item)?;
            Ok(())
        }
    }
}
