ghost use Rattle.std.specs.Prelude.{◌≡◌, ◌≤◌, ◌<◌, if◌then◌else◌};
ghost use Rattle.fop_types.specs.Bounds.{Each};
ghost use Rattle.afr_changelog.specs.Counters.{full_count, raised};
ghost use Rattle.cell_store.specs.Cells.{is_named, accused, cleared_of};

use afr_changelog::raise;
use fop_types::Mask;

// Whether a mask names a replica.
fn names(mask: Mask, replica: u8) -> bool
    requires { replica < 8 }
    ensures { result ≡ is_named mask replica }
{
    (mask.0 >> replica) & 1 == 1
}

fn accuse_one(mask: Mask, replica: u8, counter: u32) -> u32
    requires replica { replica < 8 }
    requires counter { counter ≤ full_count }
    ensures counter { result ≡ (if is_named mask replica then raised counter else counter) }
    ensures bound { result ≤ full_count }
{
    if names(mask, replica) {
        raise(counter)
    } else {
        counter
    }
}

fn clear_one(mask: Mask, replica: u8, counter: u32) -> u32
    requires replica { replica < 8 }
    requires counter { counter ≤ full_count }
    ensures counter { result ≡ (if is_named mask replica then 0 else counter) }
    ensures bound { result ≤ full_count }
{
    if names(mask, replica) { 0 } else { counter }
}

/// The counters of accusations after one more of each replica of a mask; one at 2,147,483,647 stays there.
pub(crate) fn accuse(mask: Mask, pending: [u32; 5]) -> [u32; 5]
    requires { Each (λ n. n ≤ full_count) pending }
    ensures counters { result ≡ accused mask pending }
    ensures bound { Each (λ n. n ≤ full_count) result }
{
    let [a, b, c, d, e] = pending;
    [
        accuse_one(mask, 0, a),
        accuse_one(mask, 1, b),
        accuse_one(mask, 2, c),
        accuse_one(mask, 3, d),
        accuse_one(mask, 4, e),
    ]
}

/// The counters of accusations, those of a mask's replicas at zero.
pub(crate) fn clear(mask: Mask, pending: [u32; 5]) -> [u32; 5]
    requires { Each (λ n. n ≤ full_count) pending }
    ensures counters { result ≡ cleared_of mask pending }
    ensures bound { Each (λ n. n ≤ full_count) result }
{
    let [a, b, c, d, e] = pending;
    [
        clear_one(mask, 0, a),
        clear_one(mask, 1, b),
        clear_one(mask, 2, c),
        clear_one(mask, 3, d),
        clear_one(mask, 4, e),
    ]
}
