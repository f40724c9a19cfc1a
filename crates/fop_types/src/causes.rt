/// Why a heal left a cell as it was: its bricks were not a majority, a change of it was unsettled, or
/// its copies are in split brain.
#[derive(Clone, Copy, PartialEq, Eq)]
pub enum SkipCause {
    Majority,
    Unsettled,
    Split,
}
