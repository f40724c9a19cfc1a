ghost use Rattle.std.specs.Prelude.{ℕ, ◌<◌, ◌≤◌, MatchOption, length};
ghost use Rattle.afr_changelog.specs.Masks.{IsCommon, IsLowestCommon};

use fop_types::Mask;

/// The lowest replica that all masks name; `None` exactly where there is none. With the masks of the
/// sound replicas of each cell of a change this is the source for all its cells.
pub fn common_source(masks: &[Mask]) -> Option<u8>
    requires { 1 ≤ length masks.now }
    ensures { MatchOption result ((k : ℕ) → ¬ IsCommon masks.now k) (IsLowestCommon masks.now) }
{
    let mut common = masks[0].0;
    for mask in masks {
        common &= mask.0;
    }
    if common == 0 {
        None
    } else {
        Some(common.trailing_zeros() as u8)
    }
}
