//! Claims about the flat file system.
use fop_types::{Answer, FlatOp, Gfid, Seq};

/// What is claimed: a lookup at a place found this object; an operation at a place has the answer of a reply; it would be a
/// change there; a reply has this answer; an entry is this operation and, if it has a reply, its answer is that one. Replies
/// and entries have their indices, from 0.
#[derive(Drop)]
pub(crate) enum Claim {
    Finds {
        place: u32,
        parent: Gfid,
        name: Seq<u8>,
        found: Gfid,
    },
    Answers {
        place: u32,
        op: FlatOp,
        reply: usize,
    },
    Accepts {
        place: u32,
        op: FlatOp,
    },
    Says {
        reply: usize,
        answer: Answer,
    },
    Enters {
        index: u32,
        op: FlatOp,
        reply: Option<usize>,
    },
}
