//! Whether a list of names is what the lists of all sets have together, links left out. The names of each list rise.
ghost use Rattle.std.specs.Prelude.{◌≡◌, ◌<◌, ◌≤◌, true, false};
ghost use Rattle.std.specs.List.{AllByRecursion};
ghost use Rattle.std.specs.declared.cmp.Ordering.TheVariants.{Less};
ghost use Rattle.fop_types.specs.Bounds.{item_cmp, Rises};
ghost use Rattle.fop_types.specs.Names.{is_link as is_link_kind};
ghost use Rattle.read_audit.specs.Names.{HasName, IsAmong, IsOnASet, AreShown};

use crate::cells::is_kind;
use dht_linkto::is_link;
use fop_types::{Item, Seq};
use std::cmp::Ordering;

// ---- one name

// The middle of the places from `low` on that are below `high`.
fn middle_of(low: usize, high: usize) -> usize
    requires { low < high }
    ensures low { low ≤ result }
    ensures high { result < high }
{
    low + (high - low) / 2
}

// Where a name is, found by halves, if it is there and the names rise.
fn place_of(items: &[Item], name: &[u8]) -> usize {
    let mut low = 0;
    let mut high = items.len();
    while low < high {
        let middle = middle_of(low, high);
        match name.cmp(items[middle].name.as_slice()) {
            Ordering::Less => high = middle,
            Ordering::Equal => return middle,
            Ordering::Greater => low = middle + 1,
        }
    }
    low
}

fn is_name(item: &Item, name: &[u8]) -> bool
    ensures { result ≡ true → item.now.name ≡ name.now }
{
    item.name.as_slice() == name
}

fn has_name(items: &[Item], name: &[u8]) -> bool
    ensures { result ≡ true → HasName items.now name.now }
{
    match items.get(place_of(items, name)) {
        Some(item) => is_name(item, name),
        None => false,
    }
}

fn is_gfid(item: &Item, shown: &Item) -> bool
    ensures { result ≡ true → item.now.gfid ≡ shown.now.gfid }
{
    item.gfid == shown.gfid
}

// Whether an item shows the same object under the same name.
fn is_same(item: &Item, shown: &Item) -> bool
    ensures name { result ≡ true → item.now.name ≡ shown.now.name }
    ensures gfid { result ≡ true → item.now.gfid ≡ shown.now.gfid }
    ensures kind { result ≡ true → item.now.kind ≡ shown.now.kind }
{
    is_name(item, shown.name.as_slice()) && is_gfid(item, shown) && is_kind(item.kind, shown.kind)
}

fn is_among(items: &[Item], shown: &Item) -> bool
    ensures { result ≡ true → IsAmong items.now shown.now }
{
    match items.get(place_of(items, shown.name.as_slice())) {
        Some(item) => is_same(item, shown),
        None => false,
    }
}

// ---- all that the sets have

fn is_shown(shown: &[Item], item: &Item) -> bool
    ensures { result ≡ true → is_link_kind item.now.kind ≡ false → HasName shown.now item.now.name }
{
    is_link(item.kind) || has_name(shown, item.name.as_slice())
}

fn are_shown(shown: &[Item], items: &[Item]) -> bool
    ensures { result ≡ true → AreShown shown.now items.now }
{
    for item in items {
        if !is_shown(shown, item) {
            return false;
        }
    }
    true
}

fn are_all_shown(shown: &[Item], lists: &[Seq<Item>]) -> bool
    ensures { result ≡ true → AllByRecursion (AreShown shown.now) lists.now }
{
    for items in lists {
        if !are_shown(shown, items.as_slice()) {
            return false;
        }
    }
    true
}

// ---- only what the sets have

fn is_on_a_set(lists: &[Seq<Item>], shown: &Item) -> bool
    ensures { result ≡ true → IsOnASet lists.now shown.now }
{
    if is_link(shown.kind) {
        return false;
    }
    for set in 0..lists.len() {
        if is_among(lists[set].as_slice(), shown) {
            return true;
        }
    }
    false
}

fn are_on_sets(lists: &[Seq<Item>], shown: &[Item]) -> bool
    ensures { result ≡ true → AllByRecursion (IsOnASet lists.now) shown.now }
{
    for item in shown {
        if !is_on_a_set(lists, item) {
            return false;
        }
    }
    true
}

// ---- each once

fn is_below(item: &Item, next: &Item) -> bool
    ensures { result ≡ true → item_cmp item.now next.now ≡ Less }
{
    match item.name.as_slice().cmp(next.name.as_slice()) {
        Ordering::Less => true,
        _ => false,
    }
}

fn are_rising(items: &[Item]) -> bool
    ensures { result ≡ true → Rises item_cmp true items.now }
{
    for k in 1..items.len() {
        if !is_below(&items[k - 1], &items[k]) {
            return false;
        }
    }
    true
}

/// Whether a list shows just the names that the lists of all sets have, links left out, each once.
pub(crate) fn are_union(lists: &[Seq<Item>], shown: &[Item]) -> bool
    ensures all { result ≡ true → AllByRecursion (AreShown shown.now) lists.now }
    ensures only { result ≡ true → AllByRecursion (IsOnASet lists.now) shown.now }
    ensures rising { result ≡ true → Rises item_cmp true shown.now }
{
    are_all_shown(shown, lists) && are_on_sets(lists, shown) && are_rising(shown)
}
