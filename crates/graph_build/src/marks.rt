ghost use Rattle.std.specs.Prelude.{◌≡◌, ◌≤◌, ◌==◌, ◌||◌, ℕ, ⊤, false, length};
ghost use Rattle.std.specs.Bool.{MatchBool};
ghost use Rattle.graph_build.specs.Marks.{at};
ghost use Rattle.graph_build.specs.PlanRules.{has_brick, has_place, repeats};

use crate::infos::Role;

pub(crate) fn no_marks() -> [bool; 256]
    ensures size { length result ≡ 256 }
    ensures none { (q : ℕ) → at result q ≡ false }
{
    [false; 256]
}

// Marks these numbers, and says whether one was marked before or is there twice. Then some may be
// unmarked.
pub(crate) fn mark_all(flags: &mut [bool; 256], numbers: &[u8]) -> bool
    requires size { length flags.old ≡ 256 }
    ensures size { length flags.new ≡ 256 }
    ensures repeats { result ≡ repeats (at flags.old) numbers.now }
    ensures marked { MatchBool result ⊤ ((q : ℕ) → at flags.new q ≡ (has_place q numbers.now || at flags.old q)) }
    ensures few { MatchBool result ⊤ (length numbers.now ≤ 256) }
{
    for number in numbers {
        let place = *number as usize;
        if flags[place] {
            return true;
        }
        flags[place] = true;
    }
    false
}

// The flags with the brick that a client has.
pub(crate) fn with_brick(flags: [bool; 256], role: Role) -> [bool; 256]
    requires size { length flags ≡ 256 }
    ensures size { length result ≡ 256 }
    ensures marked { (q : ℕ) → at result q ≡ (has_brick q role || at flags q) }
{
    let mut flags = flags;
    if let Role::Client(brick) = role {
        flags[brick as usize] = true;
    }
    flags
}
