//! The lock requests of each call.
ghost use Rattle.std.specs.Prelude.{◌≡◌, ◌<◌, ◌≤◌, ℕ, [], Contains, map, length, IfOk, IfSome, IfNone, OnOk};
ghost use Rattle.fop_types.specs.declared.messages.Input.TheVariants as input;
ghost use Rattle.wire_messages.specs.Messages.{input_in};
ghost use Rattle.wire_messages.specs.declared.messages.Message.TheVariants.{Whole};
ghost use Rattle.error_audit.specs.LockTable.{locks_at, lock_in, AreKept, IsRequestNoted, IsInputNoted, IsLineNoted, HaveLocks, IsAdded, AreFrom, AreOfCalls};

use fop_types::{BrickReq, Input};
use mount_log::by_place::line_at;
use mount_log::{Log, SentLine};
use std::alloc::{AllocError, Global};
use wire_messages::{Message, input_of};

/// A lock request: its place among what was sent, and the brick that was asked.
#[derive(Clone, Copy)]
pub struct LockAt {
    pub at: usize,
    pub brick: u8,
}

// An empty list for each of so many calls.
fn empty_lists(alloc: Global, many: usize) -> Result<Vec<Vec<LockAt>>, AllocError>
    ensures many { IfOk result (λ lists. length lists.items ≡ many) }
    ensures empty { IfOk result (λ lists. (call : ℕ) → locks_at (map (λ l. l.items) lists.items) call ≡ []) }
{
    let mut lists = Vec::new(alloc);
    for _ in 0..many {
        lists.push(Vec::new(alloc))?;
    }
    Ok(lists)
}

// A lock more in a list that is there.
fn put_at(lists: &mut Vec<Vec<LockAt>>, call: u32, lock: LockAt) -> Result<(), AllocError>
    requires { call < length lists.old.items }
    ensures kept { OnOk result (AreKept (map (λ l. l.items) lists.old.items) (map (λ l. l.items) lists.new.items)) }
    ensures put { OnOk result (Contains (locks_at (map (λ l. l.items) lists.new.items) call) lock) }
    ensures added { OnOk result (IsAdded (map (λ l. l.items) lists.old.items) call lock (map (λ l. l.items) lists.new.items)) }
{
    lists[call as usize].push(lock)?;
    Ok(())
}

fn note_request(
    lists: &mut Vec<Vec<LockAt>>,
    lock: LockAt,
    req: &BrickReq,
) -> Result<(), AllocError>
    ensures kept { OnOk result (AreKept (map (λ l. l.items) lists.old.items) (map (λ l. l.items) lists.new.items)) }
    ensures noted { OnOk result (IsRequestNoted (map (λ l. l.items) lists.new.items) lock req.now) }
    ensures from { OnOk result ((wind graph : ℕ) → AreFrom (map (λ l. l.items) lists.old.items) (map (λ l. l.items) lists.new.items) lock (Whole (input.Request wind graph req.now))) }
{
    match req {
        BrickReq::Lock { call, .. } => {
            if *call as usize >= lists.len() {
                return Ok(());
            }
            put_at(lists, *call, lock)?;
            Ok(())
        }
        _ => Ok(()),
    }
}

fn note_input(lists: &mut Vec<Vec<LockAt>>, lock: LockAt, sent: &Input) -> Result<(), AllocError>
    ensures kept { OnOk result (AreKept (map (λ l. l.items) lists.old.items) (map (λ l. l.items) lists.new.items)) }
    ensures noted { OnOk result (IsInputNoted (map (λ l. l.items) lists.new.items) lock sent.now) }
    ensures from { OnOk result (AreFrom (map (λ l. l.items) lists.old.items) (map (λ l. l.items) lists.new.items) lock (Whole sent.now)) }
{
    match sent {
        Input::Request { req, .. } => {
            note_request(lists, lock, req)?;
            Ok(())
        }
        _ => Ok(()),
    }
}

fn note_line(
    alloc: Global,
    lists: &mut Vec<Vec<LockAt>>,
    at: usize,
    line: &SentLine,
) -> Result<(), AllocError>
    ensures kept { OnOk result (AreKept (map (λ l. l.items) lists.old.items) (map (λ l. l.items) lists.new.items)) }
    ensures noted { OnOk result (IsLineNoted (map (λ l. l.items) lists.new.items) at line.now) }
    ensures from { OnOk result (AreFrom (map (λ l. l.items) lists.old.items) (map (λ l. l.items) lists.new.items) (lock_in at line.now) (input_in line.now.bytes)) }
{
    let lock = LockAt {
        at,
        brick: line.brick,
    };
    match input_of(alloc, line.bytes.as_slice())? {
        Message::Whole(sent) => {
            let done = note_input(lists, lock, &sent);
            drop(sent);
            done?;
            Ok(())
        }
        Message::Wrong { place: _ } => Ok(()),
    }
}

/// The locks of each call below a number, by the call's number.
///
/// # Errors
/// Out of memory.
pub fn locks_of(alloc: Global, log: &Log, many: usize) -> Result<Vec<Vec<LockAt>>, AllocError>
    ensures all { IfOk result (λ lists. HaveLocks log.now (map (λ l. l.items) lists.items)) }
    ensures only { IfOk result (λ lists. AreOfCalls log.now (map (λ l. l.items) lists.items)) }
    ensures many { IfOk result (λ lists. length lists.items ≡ many) }
{
    let mut lists = empty_lists(alloc, many)?;
    for at in 0..log.sent.len() {
        let Some(line) = line_at(log, at) else {
            return Ok(Vec::new(alloc));
        };
        note_line(alloc, &mut lists, at, line)?;
    }
    Ok(lists)
}

/// The locks of a call, if it has a list.
pub fn locks_at(lists: &[Vec<LockAt>], call: u32) -> Option<&[LockAt]>
    ensures there { IfSome result (λ locks. locks.now ≡ locks_at (map (λ l. l.items) lists.now) call) }
    ensures within { IfSome result (λ locks. call < length (map (λ l. l.items) lists.now)) }
    ensures none { IfNone result (length lists.now ≤ call) }
{
    match lists.get(call as usize) {
        Some(list) => Some(list.as_slice()),
        None => None,
    }
}
