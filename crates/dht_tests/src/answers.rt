//! Answers as text: a word, and in brackets what the answer carries.

use crate::text::{kind_word, push_both, push_headed, push_mode, push_next};
use fop_types::{Answer, FopAnswer, Gfid, IoError, Item, Kind};
use std::alloc::{AllocError, Global};

fn push_item(text: &mut Vec<u8>, mark: &[u8], item: &Item) -> Result<(), AllocError> {
    push_both(text, mark, item.name.as_slice())?;
    push_both(text, b"/", kind_word(item.kind))
}

fn push_items(text: &mut Vec<u8>, items: &[Item]) -> Result<(), AllocError> {
    text.extend_from_slice(b"list[")?;
    let mut mark = b"".as_slice();
    for item in items {
        push_item(text, mark, item)?;
        mark = b",".as_slice();
    }
    Ok(())
}

fn push_stat(
    alloc: Global,
    text: &mut Vec<u8>,
    kind: Kind,
    mode: u16,
    size: u32,
) -> Result<(), AllocError> {
    push_both(text, b"stat[", kind_word(kind))?;
    push_mode(text, mode)?;
    push_next(alloc, text, size as u64)
}

// By the number of the set.
fn push_error(alloc: Global, text: &mut Vec<u8>, error: &IoError) -> Result<(), AllocError> {
    match error {
        IoError::Quorum { set, .. } => push_headed(alloc, text, b"quorum[", *set as u64),
        IoError::Split { set, .. } => push_headed(alloc, text, b"split[", *set as u64),
        IoError::Fault { set, .. } => push_headed(alloc, text, b"fault[", *set as u64),
    }
}

fn push_call(alloc: Global, text: &mut Vec<u8>, answer: &Answer) -> Result<(), AllocError> {
    match answer {
        Answer::Done => text.extend_from_slice(b"ok["),
        Answer::Count(count) => push_headed(alloc, text, b"count[", *count as u64),
        Answer::Bytes(bytes) => push_both(text, b"bytes[", bytes.as_slice()),
        Answer::Stat { kind, mode, size } => push_stat(alloc, text, *kind, *mode, *size),
        Answer::List(items) => push_items(text, items.as_slice()),
        Answer::App(error) => push_both(text, error.name().as_bytes(), b"["),
        Answer::Io(error) => push_error(alloc, text, error),
    }
}

// The number of the set, the gfid and the kind.
fn push_found(
    alloc: Global,
    text: &mut Vec<u8>,
    set: u8,
    gfid: Gfid,
    kind: Kind,
) -> Result<(), AllocError> {
    push_headed(alloc, text, b"found", set as u64)?;
    push_headed(alloc, text, b"[", gfid.lo)?;
    push_both(text, b",", kind_word(kind))
}

fn push_body(alloc: Global, text: &mut Vec<u8>, answer: &FopAnswer) -> Result<(), AllocError> {
    match answer {
        FopAnswer::Found { set, gfid, kind } => push_found(alloc, text, *set, *gfid, *kind),
        FopAnswer::Call(answer) => push_call(alloc, text, answer),
    }
}

pub(crate) fn push_answer(
    alloc: Global,
    text: &mut Vec<u8>,
    answer: &FopAnswer,
) -> Result<(), AllocError> {
    push_body(alloc, text, answer)?;
    text.extend_from_slice(b"]")
}
