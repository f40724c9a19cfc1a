//! What the lookups of a call led to.
use crate::lookups::{ROOT, lookups};
use call_fops::{first_path, second_path};
use flat_fs::Found;
use fop_types::{Call, Gfid};

/// Whether all lookups of a call found something.
pub(crate) fn is_found(call: &Call, found: &[Gfid]) -> bool {
    lookups(call) == Some(found.len())
}

/// What so many lookups led to, the root where there is none.
pub(crate) fn end_at(found: &[Gfid], count: usize) -> Gfid {
    match count.checked_sub(1) {
        None => ROOT,
        Some(last) => match found.get(last) {
            Some(gfid) => *gfid,
            None => ROOT,
        },
    }
}

/// What all lookups of a call led to.
pub(crate) fn ends_of(call: &Call, found: &[Gfid]) -> Found {
    let first = end_at(found, first_path(call).len());
    match call {
        Call::Rename { .. } => {
            if second_path(call).is_empty() {
                Found::Two(first, ROOT)
            } else {
                Found::Two(first, end_at(found, found.len()))
            }
        }
        Call::Read { .. } => Found::Nothing,
        Call::Write { .. } => Found::Nothing,
        Call::Seek { .. } => Found::Nothing,
        Call::Close { .. } => Found::Nothing,
        _ => Found::One(first),
    }
}

/// The file of the descriptor that a call gives, the root where it gives none.
pub(crate) fn file_given(call: &Call, drawn: Gfid, found: &[Gfid]) -> Gfid {
    match call {
        Call::Create { .. } => drawn,
        Call::Open { .. } => {
            if is_found(call, found) {
                end_at(found, found.len())
            } else {
                ROOT
            }
        }
        _ => ROOT,
    }
}
