use crate::listed::Listed;
use fop_types::{Cell, Content, Seq, SetReply};

/// Cells that are copied together: from one of the sources to the sinks.
#[derive(Drop)]
pub struct Part {
    pub cells: Seq<Cell>,
    pub sources: [bool; 5],
    pub sinks: [bool; 5],
}

/// What a transaction does once its locks are released.
#[derive(Drop)]
pub enum Then {
    /// It answers.
    Answer(SetReply),
    /// It begins again: it settles what touches its cells, and takes its locks.
    Again,
}

/// A change was decided as adopted; `entry` is the number of its entry, where it has an effect.
#[derive(Clone, Copy)]
pub struct Adopted {
    pub entry: Option<u32>,
}

/// The verdict of a settling: the change is adopted where the group holds it, and else dropped. It is decided once a
/// quorum has confirmed the settle.
#[derive(Clone, Copy)]
pub struct Verdict {
    pub change: u64,
    pub held: bool,
    pub group: [bool; 5],
    pub decided: bool,
}

/// What a transaction waits for.
#[derive(Drop)]
pub enum Phase {
    /// Replica `at` was asked for its lock; those before it were asked.
    Locking {
        at: u8,
    },
    /// The locks are being released.
    Unlocking(Then),
    /// The content of the next cell was asked of a replica. `place` is the length of the history when the locks were
    /// granted, and `contents` are those of the cells before it.
    Fetching {
        place: u32,
        from: u8,
        contents: Seq<Option<Content>>,
    },
    /// A copy is being made; `rest` is copied after it.
    Copying {
        sinks: [bool; 5],
        rest: Seq<Part>,
    },
    /// The change's mark was sent.
    Marking {
        change: u64,
    },
    /// The change is unsettled, and its op was sent.
    Writing {
        change: u64,
    },
    /// The change's post was sent to the replicas that have its op.
    Posting {
        change: u64,
        adopted: Option<Adopted>,
    },
    /// The settle of a change was sent.
    Settling(Verdict),
    /// The op of a birth was sent.
    Bearing,
    /// A descriptor is being opened on every live replica.
    Opening,
    /// Every live replica is listing its cells.
    Listing(Listed),
    /// It has answered.
    Over,
}
