//! The offset at which each read began, by the replies before its own. Nothing is said of it: a part is compared with the bytes
//! that are there.

use crate::submissions::made_at;
use fop_types::{Answer, Call};
use mount_log::ReplyLine;
use std::alloc::{AllocError, Global};
use std::collections::BTreeMap;
use submitted_calls::Submitted;

// A descriptor of a session.
#[derive(Clone, Copy, PartialEq, Eq, PartialOrd, Ord)]
struct Descriptor {
    session: u8,
    fd: u8,
}

// Where a reply moves the offset of a descriptor.
#[derive(Clone, Copy)]
enum To {
    Offset(usize),
    Ahead(usize),
}

#[derive(Clone, Copy)]
struct Moved {
    fd: u8,
    to: To,
}

// ---- one reply

fn opened(fd: u8, answer: &Answer) -> Option<Moved> {
    match answer {
        Answer::Done => Some(Moved {
            fd,
            to: To::Offset(0),
        }),
        _ => None,
    }
}

fn was_read(fd: u8, answer: &Answer) -> Option<Moved> {
    match answer {
        Answer::Bytes(bytes) => Some(Moved {
            fd,
            to: To::Ahead(bytes.len()),
        }),
        _ => None,
    }
}

fn written(fd: u8, answer: &Answer) -> Option<Moved> {
    match answer {
        Answer::Count(count) => Some(Moved {
            fd,
            to: To::Ahead(*count as usize),
        }),
        _ => None,
    }
}

fn sought(fd: u8, answer: &Answer) -> Option<Moved> {
    match answer {
        Answer::Count(offset) => Some(Moved {
            fd,
            to: To::Offset(*offset as usize),
        }),
        _ => None,
    }
}

fn moved_by(call: &Call, answer: &Answer) -> Option<Moved> {
    match call {
        Call::Create { fd, .. } => opened(*fd, answer),
        Call::Open { fd, .. } => opened(*fd, answer),
        Call::Read { fd, .. } => was_read(*fd, answer),
        Call::Write { fd, .. } => written(*fd, answer),
        Call::Seek { fd, .. } => sought(*fd, answer),
        _ => None,
    }
}

// ---- the replies in turn

// The offsets of descriptors.
#[derive(Drop)]
struct Offsets {
    places: BTreeMap<Descriptor, usize>,
}

impl Offsets {
    fn get(&self, at: Descriptor) -> usize {
        match self.places.get(&at) {
            Some(offset) => *offset,
            None => 0,
        }
    }

    // The offset of the descriptor that a reply moves, before that.
    fn take(&mut self, made: &Submitted, answer: &Answer) -> Result<usize, AllocError> {
        let Some(moved) = moved_by(made.call, answer) else {
            return Ok(0);
        };
        let at = Descriptor {
            session: made.session,
            fd: moved.fd,
        };
        let before = self.get(at);
        let after = match moved.to {
            To::Offset(offset) => offset,
            To::Ahead(count) => before.saturating_add(count),
        };
        self.places.insert(at, after)?;
        Ok(before)
    }
}

/// The offset before each reply of the descriptor that it moves, 0 of one that moves none.
///
/// # Errors
/// Out of memory.
pub(crate) fn offsets_of(
    alloc: Global,
    calls: &[Submitted],
    replies: &[ReplyLine],
) -> Result<Vec<usize>, AllocError> {
    let mut offsets = Offsets {
        places: BTreeMap::new(alloc),
    };
    let mut list = Vec::new(alloc);
    for reply in replies {
        let offset = match made_at(calls, reply.call) {
            Some(made) => offsets.take(made, &reply.answer)?,
            None => 0,
        };
        list.push(offset)?;
    }
    Ok(list)
}
