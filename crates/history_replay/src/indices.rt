//! Where each call's reply and entries are.
ghost use Rattle.std.specs.Prelude.{◌≡◌, ◌+◌, Some, None, true, get_or};
ghost use Rattle.fop_types.specs.Calls.{last_part_number as last_part_number_of};
ghost use Rattle.history_replay.specs.code.Runs.{index_by, IsReplyFound, IsEntryFound, IsLastOf, AreRepliesFound, AreEntriesFound, AreLasts, AreIndexed};

use crate::filled::filled;
use crate::findings::Findings;
use crate::reading::{index_at, reply_index};
use crate::trace::{Replied, Trace};
use fop_types::{Call, Entry, Seq};
use std::alloc::{AllocError, Global};
use submitted_calls::Submitted;

fn last_part_number(call: &Call) -> u8
    ensures { result ≡ last_part_number_of call.now }
{
    match call {
        Call::Rename { .. } => 2,
        _ => 1,
    }
}

// Where an entry of a call is to be found.
fn entry_index(f: &Findings, at: usize, entry: Entry, call: &Submitted) -> Option<u32>
    ensures { result ≡ index_by f.now at entry (Some call.now) }
{
    if entry.part == last_part_number(call.call) {
        return index_at(f.last.as_slice(), at);
    }
    if entry.part == 1 {
        return index_at(f.first.as_slice(), at);
    }
    None
}

// Whether the entry of an index is found by its call.
fn is_entry_found(trace: &Trace, f: &Findings, index: usize, entry: Entry) -> bool
    ensures { result ≡ true → IsEntryFound trace.now f.now index entry }
{
    let Some(at) = entry.call.checked_sub(1) else {
        return false;
    };
    let at = at as usize;
    match trace.calls.get(at) {
        None => false,
        Some(call) => match entry_index(f, at, entry, call) {
            None => false,
            Some(found) => found as usize == index,
        },
    }
}

// Whether the reply of an index is found by its call.
fn is_reply_found(trace: &Trace, f: &Findings, index: usize, reply: &Replied) -> bool
    ensures { result ≡ true → IsReplyFound trace.now f.now index reply.now.call }
{
    let Some(at) = reply.call.checked_sub(1) else {
        return false;
    };
    let at = at as usize;
    if at >= trace.calls.len() {
        return false;
    }
    match reply_index(f, at) {
        None => false,
        Some(found) => found == index,
    }
}

// Whether the last part of a call, if it is said to have one, is in the history.
fn is_last(trace: &Trace, at: usize, call: &Submitted, index: Option<u32>) -> bool
    ensures { result ≡ true → IsLastOf trace.now at call.now index }
{
    match index {
        None => true,
        Some(index) => match trace.history.get(index as usize) {
            None => false,
            Some(entry) => is_entry(*entry, at, last_part_number(call.call)),
        },
    }
}

fn is_entry(entry: Entry, at: usize, part: u8) -> bool
    ensures { result ≡ true → entry ≡ record { call = at + 1; part = part } }
{
    entry.call > 0 && (entry.call - 1) as usize == at && entry.part == part
}

// Whether the last part of a call, if there is one by what was found, is in the history.
fn is_last_found(trace: &Trace, f: &Findings, at: usize, call: &Submitted) -> bool
    ensures { result ≡ true → IsLastOf trace.now at call.now (get_or f.now.last at None) }
{
    is_last(trace, at, call, index_at(f.last.as_slice(), at))
}

fn are_lasts(trace: &Trace, f: &Findings) -> bool
    ensures { result ≡ true → AreLasts trace.now f.now }
{
    for at in 0..trace.calls.len() {
        if !is_last_found(trace, f, at, &trace.calls[at]) {
            return false;
        }
    }
    true
}

fn are_replies(trace: &Trace, f: &Findings) -> bool
    ensures { result ≡ true → AreRepliesFound trace.now f.now }
{
    for index in 0..trace.replies.len() {
        if !is_reply_found(trace, f, index, &trace.replies[index]) {
            return false;
        }
    }
    true
}

fn are_entries(trace: &Trace, f: &Findings) -> bool
    ensures { result ≡ true → AreEntriesFound trace.now f.now }
{
    for index in 0..trace.history.len() {
        if !is_entry_found(trace, f, index, trace.history[index]) {
            return false;
        }
    }
    true
}

/// Whether each reply and each entry is found by its call.
pub(crate) fn are_indexed(trace: &Trace, f: &Findings) -> bool
    ensures { result ≡ true → AreIndexed trace.now f.now }
{
    if !are_replies(trace, f) {
        return false;
    }
    if !are_entries(trace, f) {
        return false;
    }
    are_lasts(trace, f)
}

fn put_index<T: Copy>(indices: &mut Vec<Option<T>>, at: usize, index: T) {
    if at < indices.len() && indices[at].is_none() {
        indices[at] = Some(index);
    }
}

// The indices of the replies, by their calls.
fn replies_found(alloc: Global, trace: &Trace) -> Result<Vec<Option<usize>>, AllocError> {
    let mut replied = filled(alloc, trace.calls.len(), None)?;
    for index in 0..trace.replies.len() {
        let reply = &trace.replies[index];
        if let Some(at) = reply.call.checked_sub(1) {
            put_index(&mut replied, at as usize, index);
        }
    }
    Ok(replied)
}

// The first and the last part of each call in the history.
#[derive(Drop)]
struct Parts {
    first: Vec<Option<u32>>,
    last: Vec<Option<u32>>,
}

impl Parts {
    // No part of so many calls.
    fn new(alloc: Global, count: usize) -> Result<Parts, AllocError> {
        let first = filled(alloc, count, None)?;
        let last = filled(alloc, count, None)?;
        Ok(Parts { first, last })
    }

    fn put(&mut self, call: &Call, at: usize, index: u32, part: u8) {
        if part == last_part_number(call) {
            put_index(&mut self.last, at, index);
        } else if part == 1 {
            put_index(&mut self.first, at, index);
        }
    }

    fn enter(&mut self, calls: &[Submitted], index: u32, entry: Entry) {
        if let Some(at) = entry.call.checked_sub(1) {
            let at = at as usize;
            if let Some(call) = calls.get(at) {
                self.put(call.call, at, index, entry.part);
            }
        }
    }

    fn enter_all(&mut self, calls: &[Submitted], history: &[Entry]) {
        for index in 0..history.len() {
            if let Ok(number) = u32::try_from(index) {
                self.enter(calls, number, history[index]);
            }
        }
    }
}

/// Finds the indices of the replies and of the entries, by their calls.
///
/// # Errors
/// Out of memory.
pub(crate) fn findings_of(alloc: Global, trace: &Trace) -> Result<Findings, AllocError> {
    let replied = replies_found(alloc, trace)?;
    let mut parts = Parts::new(alloc, trace.calls.len())?;
    parts.enter_all(trace.calls, trace.history);
    Ok(Findings {
        found: Seq::new(alloc),
        seen: Seq::new(alloc),
        replied: Seq::from_vec(replied),
        first: Seq::from_vec(parts.first),
        last: Seq::from_vec(parts.last),
    })
}
