//! Tests of answers, operations and places.
ghost use Rattle.std.specs.Prelude.{◌≡◌, drop};
ghost use Rattle.fop_types.specs.Flat.{is_change as is_change_of, is_same_name as is_same_name_of};
ghost use Rattle.fop_types.specs.Replies.{is_ok as is_ok_of};
ghost use Rattle.history_replay.specs.code.Cases.{is_io as is_io_of, is_app as is_app_of, are_at_most as are_at_most_of, are_between as are_between_of};

use fop_types::{Answer, FlatOp, Gfid};

pub(crate) fn is_io(answer: &Answer) -> bool
    ensures { result ≡ is_io_of answer.now }
{
    match answer {
        Answer::Io(_) => true,
        _ => false,
    }
}

pub(crate) fn is_app(answer: &Answer) -> bool
    ensures { result ≡ is_app_of answer.now }
{
    match answer {
        Answer::App(_) => true,
        _ => false,
    }
}

/// Whether an answer is no error.
pub(crate) fn is_ok(answer: &Answer) -> bool
    ensures { result ≡ is_ok_of answer.now }
{
    match answer {
        Answer::App(_) => false,
        Answer::Io(_) => false,
        _ => true,
    }
}

pub(crate) fn is_same_name(parent: Gfid, name: &[u8], target: Gfid, new_name: &[u8]) -> bool
    ensures { result ≡ is_same_name_of parent name.now target new_name.now }
{
    parent.cmp(&target).is_eq() && name == new_name
}

/// Whether an operation is a change where nothing is refused.
#[tactic(auto, using(crate::proofs::Outcomes::write_changes))]
pub(crate) fn is_change(op: &FlatOp) -> bool
    ensures { result ≡ is_change_of op.now }
{
    match op {
        FlatOp::Lookup { .. } => false,
        FlatOp::Open { .. } => false,
        FlatOp::Stat { .. } => false,
        FlatOp::List { .. } => false,
        FlatOp::GetAttr { .. } => false,
        FlatOp::Read { .. } => false,
        FlatOp::Rename {
            parent,
            name,
            target,
            new_name,
        } => !is_same_name(*parent, name.as_slice(), *target, new_name.as_slice()),
        FlatOp::Write { bytes, .. } => !bytes.is_empty(),
        _ => true,
    }
}

/// Whether no place is above this one.
pub(crate) fn are_at_most(places: &[u32], most: u32) -> bool
    ensures { result ≡ are_at_most_of places.now most }
{
    for place in places {
        if *place > most {
            return false;
        }
    }
    true
}

/// Whether places never fall, and are between these bounds.
pub(crate) fn are_between(places: &[u32], low: u32, high: u32) -> bool
    ensures { result ≡ are_between_of places.now low high }
{
    let mut last = low;
    for place in places {
        if *place < last {
            return false;
        }
        if *place > high {
            return false;
        }
        last = *place;
    }
    true
}
