ghost use Rattle.std.specs.Prelude.{◌≡◌, ℕ, ◌<◌, ◌≤◌, ◌+◌, ◌∷◌, List, [], false, length, Some, IfSome, IfNone};
ghost use Rattle.dht_linkto.specs.Search.{is_set, set_named, hashed_set, led, without};
ghost use Rattle.dht_linkto.specs.Cursor.{left_from};
ghost use Rattle.fop_types.specs.Names.{is_link};

use crate::set_names::SetNames;
use dht_layout::{find, hash};
use fop_types::{Kind, Span};

/// The set to which a name of a directory belongs: the first whose range in the directory's layout holds the
/// name's hash, or the first of all where no range does. The layout has 1 to 255 places.
pub fn hashed_set(layout: &[Option<Span>], name: &[u8]) -> u8
    requires { length layout.now ≤ 255 }
    ensures set { result ≡ hashed_set layout.now name.now }
    ensures within { 1 ≤ length layout.now → result < length layout.now }
{
    match find(layout, hash(name)) {
        Some(set) => set,
        None => 0,
    }
}

/// Whether an item of this kind is a link, which is no name of the file system.
pub fn is_link(kind: Kind) -> bool
    ensures { result ≡ is_link kind }
{
    match kind {
        Kind::File | Kind::Dir => false,
        Kind::Link => true,
    }
}

// Whether it is this set.
fn is_set(one: Option<u8>, set: u8) -> bool
    ensures { result ≡ is_set one set }
{
    match one {
        None => false,
        Some(one) => one == set,
    }
}

/// The set to which a link on the hashed set leads, if it is one of the sets, and another one.
pub(crate) fn other_set(names: &SetNames, hashed: u8, target: &[u8]) -> Option<u8>
    ensures none { IfNone result ((sets : List ℕ) → led hashed sets (set_named names.now target.now) ≡ sets) }
    ensures some { IfSome result (λ set. (sets : List ℕ) → led hashed sets (set_named names.now target.now) ≡ set ∷ without sets (Some set)) }
    ensures within { IfSome result (λ set. set < length names.now) }
    ensures other { IfSome result (λ set. is_set (Some set) hashed ≡ false) }
{
    match names.set_named(target) {
        None => None,
        Some(set) => { if set == hashed { None } else { Some(set) } }
    }
}

/// The first set from one on that is neither the hashed one nor the one to which its link led.
pub(crate) fn first_left(first: u8, count: u8, hashed: u8, linked: Option<u8>) -> Option<u8>
    ensures none { IfNone result (left_from first count hashed linked ≡ []) }
    ensures some { IfSome result (λ set. left_from first count hashed linked ≡ set ∷ left_from (set + 1) count hashed linked) }
    ensures within { IfSome result (λ set. set < count) }
    ensures other { IfSome result (λ set. is_set (Some set) hashed ≡ false) }
{
    for set in first..count {
        if set != hashed && !is_set(linked, set) {
            return Some(set);
        }
    }
    None
}
