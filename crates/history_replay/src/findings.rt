//! What is known of a trace before its claims are made.
use fop_types::{Gfid, Seq};
use std::alloc::Global;

/// For each call: what its lookups are said to have found, at which place a rename whose part 1 is in the history was
/// possible, and the indices of its reply and of its entries: `first` of a rename's part 1, `last` of the last part. Nothing
/// rests on it: each of these is checked where it is used.
#[derive(Drop)]
pub(crate) struct Findings {
    pub found: Seq<Seq<Gfid>>,
    pub seen: Seq<u32>,
    pub replied: Seq<Option<usize>>,
    pub first: Seq<Option<u32>>,
    pub last: Seq<Option<u32>>,
}

impl Findings {
    /// Nothing.
    pub(crate) fn new(alloc: Global) -> Findings {
        Findings {
            found: Seq::new(alloc),
            seen: Seq::new(alloc),
            replied: Seq::new(alloc),
            first: Seq::new(alloc),
            last: Seq::new(alloc),
        }
    }
}
