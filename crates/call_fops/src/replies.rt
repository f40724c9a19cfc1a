use fop_types::{Answer, Gfid, Object};

/// What becomes of a session's descriptors as a call is answered: nothing, or the descriptor of this number is opened at
/// the beginning of a file, moved on by some bytes, moved to an offset, or closed.
#[derive(Clone, Copy)]
pub enum FdMove {
    Stays,
    Opens { fd: u8, gfid: Gfid, set: u8 },
    Advances { fd: u8, by: usize },
    Seeks { fd: u8, offset: u32 },
    Closes { fd: u8 },
}

/// The answer of a call, and what becomes of its session's descriptors.
#[derive(Drop)]
pub struct CallReply {
    pub answer: Answer,
    pub fd: FdMove,
}

/// What a call does at the answer of its fop: it goes on from the object that was found, or it is answered.
#[derive(Drop)]
pub enum After {
    GoesOn(Object),
    Replies(CallReply),
}
