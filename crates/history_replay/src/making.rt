//! What a walk asks of its files.
use crate::places::{is_change, is_ok};
use flat_fs::FlatFs;
use fop_types::{Answer, FlatAnswer, FlatOp, Gfid};
use std::alloc::{AllocError, Global};

fn gfid_in(answer: FlatAnswer) -> Option<Gfid> {
    match answer {
        FlatAnswer::Found { gfid, .. } => Some(gfid),
        FlatAnswer::Call(answer) => {
            drop(answer);
            None
        }
    }
}

fn answer_in(answer: FlatAnswer) -> Option<Answer> {
    match answer {
        FlatAnswer::Found { .. } => None,
        FlatAnswer::Call(answer) => Some(answer),
    }
}

fn is_accepted(answer: FlatAnswer) -> bool {
    match answer {
        FlatAnswer::Found { .. } => false,
        FlatAnswer::Call(answer) => {
            let is_accepted = is_ok(&answer);
            drop(answer);
            is_accepted
        }
    }
}

/// What a lookup finds.
///
/// # Errors
/// Out of memory.
pub(crate) fn find_gfid(
    alloc: Global,
    files: &mut FlatFs,
    op: FlatOp,
) -> Result<Option<Gfid>, AllocError> {
    match files.apply(alloc, op) {
        Ok(answer) => Ok(gfid_in(answer)),
        Err(_) => Err(AllocError),
    }
}

/// The answer that lists a directory.
///
/// # Errors
/// Out of memory.
pub(crate) fn list_of(
    alloc: Global,
    files: &mut FlatFs,
    gfid: Gfid,
) -> Result<Option<Answer>, AllocError> {
    match files.apply(alloc, FlatOp::List { gfid }) {
        Ok(answer) => Ok(answer_in(answer)),
        Err(_) => Err(AllocError),
    }
}

// Makes an operation. It is false where it is no change, or is not accepted.
fn make(alloc: Global, files: &mut FlatFs, op: FlatOp) -> Result<bool, AllocError> {
    let changes = is_change(&op);
    match files.apply(alloc, op) {
        Ok(answer) => Ok(is_accepted(answer) && changes),
        Err(_) => Err(AllocError),
    }
}

/// Makes a change, if there is one. It is false where there is none, or it is not accepted.
///
/// # Errors
/// Out of memory.
pub(crate) fn make_some(
    alloc: Global,
    files: &mut FlatFs,
    op: Option<FlatOp>,
) -> Result<bool, AllocError> {
    match op {
        Some(op) => make(alloc, files, op),
        None => Ok(false),
    }
}

/// Whether an operation is a rename that would be made.
pub(crate) fn would_rename(files: &FlatFs, op: &Option<FlatOp>) -> bool {
    match op {
        Some(
            FlatOp::Rename {
                parent,
                name,
                target,
                new_name,
            },
        ) => files.accepts_rename(*parent, name.as_slice(), *target, new_name.as_slice()),
        _ => false,
    }
}
