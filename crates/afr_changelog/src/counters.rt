ghost use Rattle.std.specs.Prelude.{◌≡◌, ◌≤◌};
ghost use Rattle.afr_changelog.specs.Counters.{full_count, raised, lowered};

/// The highest count. A counter that has come there stays until it is set to zero.
const FULL_COUNT: u32 = 2147483647;

/// A counter after one more mark or accusation: one more, but at 2147483647 unchanged.
pub fn raise(counter: u32) -> u32
    requires { counter ≤ full_count }
    ensures { result ≡ raised counter }
{
    if counter == FULL_COUNT {
        counter
    } else {
        counter + 1
    }
}

/// A counter after one mark was answered by a post: one less, but at 0 and at 2147483647 unchanged.
pub fn lower(counter: u32) -> u32
    requires { counter ≤ full_count }
    ensures { result ≡ lowered counter }
{
    if counter == FULL_COUNT {
        counter
    } else {
        counter.saturating_sub(1)
    }
}
