//! The winds under which the replies may be that I/O errors rest on. Nothing is promised of them.

use fop_types::{Answer, IoError};
use mount_log::{ReplyLine, WindLine};
use std::alloc::{AllocError, Global};
use std::collections::BTreeMap;

/// A call of which replies are looked for, by the number of a wind of it, with the place of the wind's opening.
#[derive(Clone, Copy)]
pub struct Wound {
    pub call: usize,
    pub place: usize,
}

fn has_replies(answer: &Answer) -> bool {
    match answer {
        Answer::Io(IoError::Quorum { .. }) => false,
        Answer::Io(IoError::Split { .. }) => true,
        Answer::Io(IoError::Fault { .. }) => true,
        _ => false,
    }
}

fn highest_call(replies: &[ReplyLine]) -> usize {
    let mut highest = 0usize;
    for reply in replies {
        highest = highest.max(reply.call as usize);
    }
    highest
}

fn none_wanted(alloc: Global, calls: usize) -> Result<Vec<bool>, AllocError> {
    let mut wanted = Vec::new(alloc);
    for _ in 0..calls {
        wanted.push(false)?;
    }
    Ok(wanted)
}

fn want(wanted: &mut Vec<bool>, reply: &ReplyLine) {
    if !has_replies(&reply.answer) {
        return;
    }
    if let Some(call) = wanted.get_mut(reply.call as usize) {
        *call = true;
    }
}

/// Whether replies to each call are looked for.
///
/// # Errors
/// Out of memory.
pub fn wanted_calls(alloc: Global, replies: &[ReplyLine]) -> Result<Vec<bool>, AllocError> {
    let mut wanted = none_wanted(alloc, highest_call(replies).saturating_add(1))?;
    for reply in replies {
        want(&mut wanted, reply);
    }
    Ok(wanted)
}

fn note_wind(
    winds: &mut BTreeMap<u64, Wound>,
    line: &WindLine,
    place: usize,
) -> Result<(), AllocError> {
    let wound = Wound {
        call: line.call as usize,
        place,
    };
    winds.insert(line.wind.number(), wound)?;
    if line.wind.slot >= 2147483648 {
        return Ok(());
    }
    winds.insert(line.wind.open_before().number(), wound)?;
    Ok(())
}

fn note_winds(
    winds: &mut BTreeMap<u64, Wound>,
    lines: &[WindLine],
    wanted: &[bool],
) -> Result<(), AllocError> {
    for place in 0..lines.len() {
        let line = &lines[place];
        if !line.opened || wanted.get(line.call as usize) != Some(&true) {
            continue;
        }
        note_wind(winds, line, place)?;
    }
    Ok(())
}

/// The winds of the calls of which replies are looked for, by their numbers, with those of the opens before them.
///
/// # Errors
/// Out of memory.
pub fn winds_of(
    alloc: Global,
    lines: &[WindLine],
    wanted: &[bool],
) -> Result<BTreeMap<u64, Wound>, AllocError> {
    let mut winds = BTreeMap::new(alloc);
    let done = note_winds(&mut winds, lines, wanted);
    done.and(Ok(winds))
}
