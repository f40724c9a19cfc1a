ghost use Rattle.std.specs.Prelude.{◌≡◌, ◌+◌, ◌<◌, ◌≤◌, ◌∷◌, ◌++◌, [], reverse, length, IfOk, IfSome, IfNone};
ghost use Rattle.std.specs.Vec.{vec_len, vec_capacity};
ghost use Rattle.dht_fops.specs.Merges.{merged, real_items as real_items_of};

use dht_linkto::is_link;
use fop_types::{Item, Seq};
use std::alloc::{AllocError, Global};
use std::cmp::Ordering;

/// The items that are no links, in order. They are moved.
///
/// # Errors
/// Out of memory.
#[tactic(auto, using(crate::proofs::Merging::real_push, crate::proofs::Merging::link_push))]
pub(crate) fn real_items(alloc: Global, items: Seq<Item>) -> Result<Seq<Item>, AllocError>
    ensures { IfOk result (λ kept. kept ≡ real_items_of items) }
{
    let mut kept = Vec::with_capacity(alloc, items.len())?;
    for item in items.into_vec() {
        if !is_link(item.kind) {
            kept.push(item)?;
        }
    }
    Ok(Seq::from_vec(kept))
}

/// Two lists of names by rising bytes as one, in time of their lengths; of two equal names the second list's stays. The
/// names are moved.
///
/// # Errors
/// Out of memory.
#[tactic(auto, using(crate::proofs::Merging::reverse_twice))]
pub(crate) fn merge(
    alloc: Global,
    first: Seq<Item>,
    second: Seq<Item>,
) -> Result<Seq<Item>, AllocError>
    ensures { IfOk result (λ all. all ≡ merged first second) }
{
    let mut all = Vec::with_capacity(alloc, first.len())?;
    let mut left = first.into_vec();
    let mut right = second.into_vec();
    left.reverse();
    right.reverse();
    while let Some(item) = take_next(&mut left, &mut right) {
        all.push(item)?;
    }
    Ok(Seq::from_vec(all))
}

// Takes the next name of two lists that are kept last name first.
#[tactic(auto, using(crate::proofs::Merging::only_second))]
fn take_next(left: &mut Vec<Item>, right: &mut Vec<Item>) -> Option<Item>
    ensures none { IfNone result (merged (reverse left.old.items) (reverse right.old.items) ≡ []) }
    ensures some { IfSome result (λ item. merged (reverse left.old.items) (reverse right.old.items) ≡ item ∷ merged (reverse left.new.items) (reverse right.new.items)) }
    ensures fewer { IfSome result (λ item. length left.new.items + length right.new.items < length left.old.items + length right.old.items) }
{
    match left.pop() {
        None => right.pop(),
        Some(first) => Some(take_of_both(first, left, right)),
    }
}

// The next name of the two lists, where the first has one more name.
#[tactic(auto, using(crate::proofs::Merging::next_first, crate::proofs::Merging::next_second, crate::proofs::Merging::next_both, crate::proofs::Merging::only_first))]
fn take_of_both(first: Item, left: &mut Vec<Item>, right: &mut Vec<Item>) -> Item
    requires room { vec_len left.old < vec_capacity left.old }
    ensures next { merged (reverse (left.old.items ++ first ∷ [])) (reverse right.old.items) ≡ result ∷ merged (reverse left.new.items) (reverse right.new.items) }
    ensures fewer { length left.new.items + length right.new.items ≤ length left.old.items + length right.old.items }
{
    match right.pop() {
        None => first,
        Some(second) => match second.name.as_slice().cmp(first.name.as_slice()) {
            Ordering::Less => {
                left.push_reserved(first);
                second
            }
            Ordering::Equal => second,
            Ordering::Greater => {
                right.push_reserved(second);
                first
            }
        },
    }
}
