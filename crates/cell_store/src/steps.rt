use fop_types::{Content, Mask};

/// A change of a cell's counters: a mark, or a post or a settle that accuses the replicas of a mask.
#[derive(Clone, Copy)]
pub enum Count {
    Mark,
    Post(Mask),
    Settle(Mask),
}

/// One step on a cell that can be taken back by the row before it: its counters change, or it is born with
/// a copy under a change number.
#[derive(Drop)]
pub enum Step {
    Counts(Count),
    Birth { content: Content, change: u64 },
}
