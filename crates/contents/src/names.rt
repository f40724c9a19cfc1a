ghost use Rattle.std.specs.Prelude.{◌≡◌, ◌<◌, ◌≤◌, ◌∷◌, ◌++◌, suc, take, drop, insert, length, IfSome, IfNone, IfOk, IfErr, OnOk, OnErr};
ghost use Rattle.std.specs.List.{remove};
ghost use Rattle.std.specs.Option.{option_copied};
ghost use Rattle.fop_types.specs.Names.{item_named, with_item, without_item};
ghost use Rattle.contents.specs.Rising.{Rise, item_names};
ghost use Rattle.contents.specs.declared.halves.Search.TheVariants.{Halves};

use crate::halves::{Search, place_by_halves, thing_at};
use fop_types::{Item, Seq, find_item, place_of_item};
use std::alloc::{AllocError, Global};
use std::mem;

// The place of the item of a name, where the names rise.
fn place_halved(items: &[Item], name: &[u8]) -> Option<usize>
    requires { Rise (item_names items.now) }
    ensures found { IfSome result (λ i. (i < length items.now) × (without_item items.now name.now ≡ remove items.now i)) }
    ensures none { IfNone result (without_item items.now name.now ≡ items.now) }
{
    match place_by_halves(items, name) {
        Ok(index) => Some(index),
        Err(_) => None,
    }
}

// The place of the item of a name, found one by one.
fn place_in_turn(items: &[Item], name: &[u8]) -> Option<usize>
    ensures found { IfSome result (λ i. (i < length items.now) × (without_item items.now name.now ≡ remove items.now i)) }
    ensures none { IfNone result (without_item items.now name.now ≡ items.now) }
{
    let mut place = 0;
    for item in items {
        if item.name.as_slice() == name {
            return Some(place);
        }
        place += 1;
    }
    None
}

// The place of the item of a name.
fn place_named(items: &[Item], name: &[u8], search: Search) -> Option<usize>
    requires { search ≡ Halves → Rise (item_names items.now) }
    ensures found { IfSome result (λ i. (i < length items.now) × (without_item items.now name.now ≡ remove items.now i)) }
    ensures none { IfNone result (without_item items.now name.now ≡ items.now) }
{
    match search {
        Search::Halves => place_halved(items, name),
        Search::InTurn => place_in_turn(items, name),
    }
}

// The place of an item: `Ok` of that of an equal name, or `Err` of the place before which the item goes.
fn place_for(items: &[Item], item: &Item, search: Search) -> Result<usize, usize>
    requires { search ≡ Halves → Rise (item_names items.now) }
    ensures taken { IfOk result (λ i. (i < length items.now) × (with_item items.now item.now ≡ take i items.now ++ item.now ∷ drop (suc i) items.now)) }
    ensures free { IfErr result (λ i. (i ≤ length items.now) × (with_item items.now item.now ≡ insert items.now i item.now)) }
{
    match search {
        Search::Halves => place_for_halved(items, item),
        Search::InTurn => place_of_item(items, item),
    }
}

fn place_for_halved(items: &[Item], item: &Item) -> Result<usize, usize>
    requires { Rise (item_names items.now) }
    ensures taken { IfOk result (λ i. (i < length items.now) × (with_item items.now item.now ≡ take i items.now ++ item.now ∷ drop (suc i) items.now)) }
    ensures free { IfErr result (λ i. (i ≤ length items.now) × (with_item items.now item.now ≡ insert items.now i item.now)) }
{
    match place_by_halves(items, item.name.as_slice()) {
        Ok(index) => Ok(index),
        Err(index) => Err(index),
    }
}

// The item of a name, where the names rise.
fn item_halved<'a>(items: &'a [Item], name: &[u8]) -> Option<&'a Item>
    requires { Rise (item_names items.now) }
    ensures { option_copied result ≡ item_named items.now name.now }
{
    match place_by_halves(items, name) {
        Ok(index) => thing_at(items, index),
        Err(_) => None,
    }
}

/// The item of a name, `None` where there is none.
pub(crate) fn find_item_by<'a>(items: &'a [Item], name: &[u8], search: Search) -> Option<&'a Item>
    requires { search ≡ Halves → Rise (item_names items.now) }
    ensures { option_copied result ≡ item_named items.now name.now }
{
    match search {
        Search::Halves => item_halved(items, name),
        Search::InTurn => find_item(items, name),
    }
}

/// Takes the item of a name out, if there is one. The cost is the search of its place and one move of the items
/// after it.
pub fn remove_item(items: &mut Seq<Item>, name: &[u8])
    ensures { items.new ≡ without_item items.old name.now }
{
    remove_item_by(items, name, Search::InTurn);
}

/// The same, with a search that the caller chooses.
pub(crate) fn remove_item_by(items: &mut Seq<Item>, name: &[u8], search: Search)
    requires { search ≡ Halves → Rise (item_names items.old) }
    ensures { items.new ≡ without_item items.old name.now }
{
    match place_named(items.as_slice(), name, search) {
        Some(index) => {
            let _item = items.remove(index);
        }
        None => {}
    }
}

/// Puts an item at its place by rising name; one of an equal name is replaced.
///
/// # Errors
/// Out of memory, with the items unchanged.
#[tactic(auto, using(fop_types::proofs::Places::set_parts))]
pub(crate) fn insert_item_by(
    items: &mut Seq<Item>,
    item: Item,
    search: Search,
) -> Result<(), AllocError>
    requires { search ≡ Halves → Rise (item_names items.old) }
    ensures ok { OnOk result (items.new ≡ with_item items.old item) }
    ensures err { OnErr result (items.new ≡ items.old) }
{
    match place_for(items.as_slice(), &item, search) {
        Ok(index) => {
            items.set(index, item);
            Ok(())
        }
        Err(index) => {
            items.insert(index, item)?;
            Ok(())
        }
    }
}

// Puts an item at its place by rising name, in the room of the one at `index`.
#[tactic(auto, using(fop_types::proofs::Places::set_parts))]
fn exchange(items: &mut Vec<Item>, index: usize, item: Item, search: Search)
    requires there { index < length items.old.items }
    requires rise { search ≡ Halves → Rise (item_names (remove items.old.items index)) }
    ensures { items.new.items ≡ with_item (remove items.old.items index) item }
{
    let _gone = items.remove(index);
    match place_for(items.as_slice(), &item, search) {
        Ok(place) => items[place] = item,
        Err(place) => {
            let Ok(()) = items.insert(place, item) else {
                unreachable!()
            };
        }
    }
}

/// Takes the item of a name out and puts another at its place by rising name, where it replaces one of an equal
/// name. The cost is that of both.
///
/// # Errors
/// Out of memory, with the items unchanged; never where the name is there.
pub fn rename_item(
    alloc: Global,
    items: &mut Seq<Item>,
    name: &[u8],
    item: Item,
) -> Result<(), AllocError>
    ensures ok { OnOk result (items.new ≡ with_item (without_item items.old name.now) item) }
    ensures err { OnErr result (items.new ≡ items.old) }
{
    rename_item_by(alloc, items, name, item, Search::InTurn)
}

/// The same, with a search that the caller chooses.
pub(crate) fn rename_item_by(
    alloc: Global,
    items: &mut Seq<Item>,
    name: &[u8],
    item: Item,
    search: Search,
) -> Result<(), AllocError>
    requires { search ≡ Halves → Rise (item_names items.old) }
    ensures ok { OnOk result (items.new ≡ with_item (without_item items.old name.now) item) }
    ensures err { OnErr result (items.new ≡ items.old) }
{
    match place_named(items.as_slice(), name, search) {
        Some(index) => {
            let mut held = mem::replace(items, Seq::new(alloc)).into_vec();
            exchange(&mut held, index, item, search);
            *items = Seq::from_vec(held);
            Ok(())
        }
        None => insert_item_by(items, item, search),
    }
}
