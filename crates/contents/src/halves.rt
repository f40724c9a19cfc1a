//! The place of a name among names that rise, found by halves.
ghost use Rattle.std.specs.Prelude.{◌≡◌, ◌<◌, ◌≤◌, List, ℕ, map, length, slice_get, Some, IfOk, IfErr};
ghost use Rattle.std.specs.Option.{option_copied};
ghost use Rattle.contents.specs.Rising.{GoesAt, are_rising};

use fop_types::{Attr, Item};
use std::cmp::Ordering;

/// How a name is looked for: by halves, where the names rise, or one name after the other.
#[derive(Clone, Copy)]
pub(crate) enum Search {
    Halves,
    InTurn,
}

/// What has a name.
pub(crate) trait Named {
    ghost name: { Self → List ℕ };

    /// Its name.
    fn name(&self) -> &[u8]
        ensures { result.now ≡ name self.now };
}

impl Named for Item {
    ghost name = { λ i. i.name };

    fn name(&self) -> &[u8] {
        self.name.as_slice()
    }
}

impl Named for Attr {
    ghost name = { λ a. a.name };

    fn name(&self) -> &[u8] {
        self.name.as_slice()
    }
}

// The name of the thing at a place.
fn name_at<T: Named>(things: &[T], at: usize) -> &[u8]
    requires { at < length things.now }
    ensures { slice_get (map T.name things.now) at ≡ Some result.now }
{
    things[at].name()
}

/// The thing at a place, `None` where there is none.
pub(crate) fn thing_at<T>(things: &[T], at: usize) -> Option<&T>
    ensures { option_copied result ≡ slice_get things.now at }
{
    things.get(at)
}

// The middle of the places from `low` on that are below `high`.
fn middle_of(low: usize, high: usize) -> usize
    requires { low < high }
    ensures low { low ≤ result }
    ensures high { result < high }
{
    low + (high - low) / 2
}

/// The place of a name among things whose names rise: `Ok` of the place of an equal name, or `Err` of the place before
/// which it goes. Of n things about log n names are compared.
pub(crate) fn place_by_halves<T: Named>(things: &[T], name: &[u8]) -> Result<usize, usize>
    ensures found { IfOk result (λ i. slice_get (map T.name things.now) i ≡ Some name.now) }
    ensures free { IfErr result (GoesAt (map T.name things.now) name.now) }
{
    let mut low = 0;
    let mut high = things.len();
    while low < high {
        let middle = middle_of(low, high);
        match name.cmp(name_at(things, middle)) {
            Ordering::Less => high = middle,
            Ordering::Equal => return Ok(middle),
            Ordering::Greater => low = middle + 1,
        }
    }
    Err(low)
}

/// Whether the names of some things rise. Each is looked at once.
pub(crate) fn rise<T: Named>(things: &[T]) -> bool
    ensures { result ≡ are_rising (map T.name things.now) }
{
    let mut at = 1;
    while at < things.len() {
        match name_at(things, at - 1).cmp(name_at(things, at)) {
            Ordering::Less => at += 1,
            Ordering::Equal => return false,
            Ordering::Greater => return false,
        }
    }
    true
}
