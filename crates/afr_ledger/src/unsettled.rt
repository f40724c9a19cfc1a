use fop_types::{Entry, Seq};

/// A change that is asked of the bricks of a set and not decided yet. `change` is its number, `set` the number of
/// the set in the plan, `cells` are the one to four cells that it touches, by rising cell, and `effect` is the entry
/// of the history that it makes where it is adopted, or `None` for a change that the file system does not see.
#[derive(Drop)]
pub struct Unsettled<C> {
    pub change: u64,
    pub set: u8,
    pub cells: Seq<C>,
    pub effect: Option<Entry>,
}
