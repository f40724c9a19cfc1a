ghost use Rattle.std.specs.Prelude.{◌≡◌, ℕ, ◌<◌, ◌≤◌, length, IfOk, MatchOption};
ghost use Rattle.std.specs.List.{position};
ghost use Rattle.dht_layout.specs.Layouts.{holds, Has, IsLowestWith, even_span, even_layout, CoversEachOnce};

use fop_types::{Seq, Span};
use std::alloc::{AllocError, Global};

/// How many hashes there are.
const HASHES: u64 = 1 << 32;

/// The even split of all hashes over this many sets, which are at least one: each set has a range, the
/// ranges rise with the sets, and each hash is in exactly one of them.
///
/// # Errors
/// Out of memory.
pub fn even(alloc: Global, sets: u8) -> Result<Seq<Option<Span>>, AllocError>
    requires { 1 ≤ sets }
    ensures layout { IfOk result (λ layout. layout ≡ even_layout sets) }
    ensures once { IfOk result CoversEachOnce }
{
    let mut layout = Vec::with_capacity(alloc, sets as usize)?;
    for set in 0..sets {
        layout.push_reserved(Some(even_span(sets, set)));
    }
    Ok(Seq::from_vec(layout))
}

/// The range of one set, from 0, in the even split over this many sets.
pub fn even_span(sets: u8, set: u8) -> Span
    requires { set < sets }
    ensures { result ≡ even_span sets set }
{
    let first = set as u64 * HASHES / sets as u64;
    let next = (set as u64 + 1) * HASHES / sets as u64;
    Span {
        first: first as u32,
        last: (next - 1) as u32,
    }
}

/// The lowest set whose range holds the hash; `None` exactly where no range does. The layout has at
/// most 256 places.
pub fn find(layout: &[Option<Span>], hash: u32) -> Option<u8>
    requires { length layout.now ≤ 256 }
    ensures place { result ≡ position (holds hash) layout.now }
    ensures lowest { MatchOption result ((set : ℕ) → ¬ Has layout.now set hash) (IsLowestWith layout.now hash) }
{
    for (set, place) in layout.iter().enumerate() {
        if has(place, hash) {
            return Some(set as u8);
        }
    }
    None
}

fn has(place: &Option<Span>, hash: u32) -> bool
    ensures { result ≡ holds hash place.now }
{
    match place {
        Some(span) => span.first <= hash && hash <= span.last,
        None => false,
    }
}
