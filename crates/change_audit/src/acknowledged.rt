//! Which calls were answered well, and by which event.
ghost use Rattle.std.specs.Prelude.{◌≡◌, ◌<◌, ◌≤◌, ◌↔◌, IsTrue, true, false, length, IfOk, IfSome, IfNone};
ghost use Rattle.fop_types.specs.Replies.{is_ok as is_well};
ghost use Rattle.change_audit.specs.Acknowledged.{mark_of as marked_as, IsMarkBy, IsMarkedBy, IsMarked, AreMarked, KeepMarks, IsNoEarlier};
ghost use Rattle.change_audit.specs.Acknowledged.{AreUnmarked, AreOfReplies, MarksOnly, MarksReply, HasCallFrom};

use fop_types::{Answer, Seq};
use mount_log::ReplyLine;
use std::alloc::{AllocError, Global};

// Whether an answer is no error.
fn is_ok(answer: &Answer) -> bool
    ensures { result ≡ is_well answer.now }
{
    match answer {
        Answer::App(_) => false,
        Answer::Io(_) => false,
        _ => true,
    }
}

// No call of so many is marked.
#[tactic(auto, using(crate::proofs::Marking::none_more))]
fn no_marks(alloc: Global, calls: usize) -> Result<Vec<Option<u64>>, AllocError>
    ensures many { IfOk result (λ marks. length marks.items ≡ calls) }
    ensures none { IfOk result (λ marks. AreUnmarked marks.items) }
{
    let mut marks = Vec::with_capacity(alloc, calls)?;
    for _ in 0..calls {
        marks.push(None)?;
    }
    Ok(marks)
}

// Whether a mark is of the event of this number, or of an earlier one.
fn is_by(mark: Option<u64>, number: u64) -> bool
    ensures by { IsTrue result ↔ IsMarkBy mark number }
    ensures no_earlier { result ≡ false → IsNoEarlier mark number }
{
    match mark {
        Some(earlier) => earlier <= number,
        None => false,
    }
}

// Marks a call with the number of an event, unless its mark is of an earlier one. It is false where there is no room for the call.
#[tactic(auto, using(crate::proofs::Marking::set_only, crate::proofs::Marking::marks_same))]
fn set_mark(marks: &mut Vec<Option<u64>>, call: u32, number: u64) -> bool
    ensures set { result ≡ true → IsMarkedBy marks.new.items call number }
    ensures keeps { KeepMarks marks.old.items marks.new.items }
    ensures room { IsTrue result ↔ (call < length marks.old.items) }
    ensures long { length marks.new.items ≡ length marks.old.items }
    ensures only { MarksOnly marks.old.items marks.new.items call number }
{
    if call as usize >= marks.len() {
        return false;
    }
    if is_by(mark_of(marks.as_slice(), call), number) {
        return true;
    }
    marks[call as usize] = Some(number);
    true
}

// Marks the call of a reply, if it was answered well. It is false where there is no room for the call.
#[tactic(auto, using(crate::proofs::Marking::reply_only, crate::proofs::Marking::reply_same))]
fn mark(marks: &mut Vec<Option<u64>>, reply: &ReplyLine) -> bool
    ensures marked { result ≡ true → IsMarked marks.new.items reply.now }
    ensures keeps { KeepMarks marks.old.items marks.new.items }
    ensures room { result ≡ false → length marks.old.items ≤ reply.now.call }
    ensures long { length marks.new.items ≡ length marks.old.items }
    ensures only { MarksReply marks.old.items marks.new.items reply.now }
{
    if !is_ok(&reply.answer) {
        return true;
    }
    set_mark(marks, reply.call, reply.event)
}

/// The calls that were answered well, by their numbers, where all of them are below a bound: of each the number of the event of
/// its first such reply.
///
/// # Errors
/// Out of memory.
#[tactic(auto, using(crate::proofs::Marking::none_of_replies))]
pub fn answered_well(
    alloc: Global,
    replies: &[ReplyLine],
    bound: usize,
) -> Result<Option<Seq<Option<u64>>>, AllocError>
    ensures marked { IfOk result (λ found. IfSome found (λ marks. AreMarked replies.now marks)) }
    ensures own { IfOk result (λ found. IfSome found (λ marks. AreOfReplies replies.now marks)) }
    ensures none { IfOk result (λ found. IfNone found (HasCallFrom replies.now bound)) }
{
    let mut marks = no_marks(alloc, bound)?;
    for reply in replies {
        if !mark(&mut marks, reply) {
            return Ok(None);
        }
    }
    Ok(Some(Seq::from_vec(marks)))
}

/// The number of the event by which a call was answered well, if it was.
pub fn mark_of(marks: &[Option<u64>], call: u32) -> Option<u64>
    ensures { result ≡ marked_as marks.now call }
{
    match marks.get(call as usize) {
        Some(mark) => *mark,
        None => None,
    }
}
