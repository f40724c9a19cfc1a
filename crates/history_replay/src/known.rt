//! What a walk knows of a call.
use crate::asked::Asked;
use crate::copies::unlink_of;
use crate::ends::{ends_of, file_given, is_found};
use crate::making::{make_some, would_rename};
use crate::places::is_same_name;
use crate::sessions::Session;
use flat_fs::at_once::at_once;
use flat_fs::last_op::last_op;
use flat_fs::{Fds, FlatFs};
use fop_types::{Call, FlatOp, Gfid};
use std::alloc::{AllocError, Global};
use std::mem;

/// A part of a call: part 1 of a rename, or the last part.
#[derive(Drop)]
pub(crate) enum Part {
    First,
    Last,
}

/// What is known of a call: the gfid that it draws; what its lookups found; its last operation, once they are done; and the
/// place where its rename was possible.
#[derive(Drop)]
pub(crate) struct Known {
    pub drawn: Gfid,
    pub found: Vec<Gfid>,
    pub last: Option<FlatOp>,
    pub seen: Option<u32>,
}

// Whether a call's answer is not known at once.
fn is_sent(fds: &Fds, call: &Call) -> bool {
    let answer = at_once(fds, call);
    let is_sent = answer.is_none();
    drop(answer);
    is_sent
}

// The unlink that is a rename's part 1.
fn part_of(alloc: Global, op: &FlatOp) -> Result<Option<FlatOp>, AllocError> {
    match op {
        FlatOp::Rename {
            parent,
            name,
            target,
            new_name,
        } => {
            if is_same_name(*parent, name.as_slice(), *target, new_name.as_slice()) {
                return Ok(None);
            }
            let op = unlink_of(alloc, *target, new_name)?;
            Ok(Some(op))
        }
        _ => Ok(None),
    }
}

impl Known {
    /// Nothing but the gfid that the call draws.
    pub(crate) fn new(alloc: Global, lo: u64) -> Known {
        Known {
            drawn: Gfid { hi: 0, lo },
            found: Vec::new(alloc),
            last: None,
            seen: None,
        }
    }

    // The last operation of the call, if its lookups are done.
    fn last_op(&self, alloc: Global, call: &Call, fds: &Fds) -> Result<Option<FlatOp>, AllocError> {
        let found = self.found.as_slice();
        if is_found(call, found) && is_sent(fds, call) {
            last_op(alloc, call, ends_of(call, found), self.drawn, fds)
        } else {
            Ok(None)
        }
    }

    /// Keeps the last operation of the call, by what its lookups led to, and passes the call in its session.
    ///
    /// # Errors
    /// Out of memory.
    pub(crate) fn settle(
        &mut self,
        alloc: Global,
        asked: &Asked,
        session: &mut Session,
    ) -> Result<(), AllocError> {
        let last = self.last_op(alloc, asked.call, &session.fds)?;
        drop(mem::replace(&mut self.last, last));
        let file = file_given(asked.call, self.drawn, self.found.as_slice());
        session.pass(asked.call, file, &asked.reply)
    }

    /// Whether the rename of the call is possible at this place, which is then kept. `submitted` is a lower bound of the entries
    /// before the call's first one.
    pub(crate) fn sees(&mut self, files: &FlatFs, submitted: u32, place: u32) -> bool {
        let sees = submitted <= place && would_rename(files, &self.last);
        if sees {
            self.seen = Some(place);
        }
        sees
    }

    // The operation of part 1, if the rename was possible.
    fn first_op(&self, alloc: Global) -> Result<Option<FlatOp>, AllocError> {
        if self.seen.is_none() {
            return Ok(None);
        }
        match &self.last {
            Some(op) => part_of(alloc, op),
            None => Ok(None),
        }
    }

    // The operation of a part, which is made once.
    fn op_of(&mut self, alloc: Global, part: Part) -> Result<Option<FlatOp>, AllocError> {
        match part {
            Part::First => self.first_op(alloc),
            Part::Last => Ok(self.last.take()),
        }
    }

    /// Makes the change of a part. It is false where that is no change, or is not accepted.
    ///
    /// # Errors
    /// Out of memory.
    pub(crate) fn enter(
        &mut self,
        alloc: Global,
        files: &mut FlatFs,
        part: Part,
    ) -> Result<bool, AllocError> {
        let op = self.op_of(alloc, part)?;
        make_some(alloc, files, op)
    }
}
