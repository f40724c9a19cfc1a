//! Whether each call has one reply.
ghost use Rattle.std.specs.Prelude.{◌≡◌, ◌≤◌, ◌↔◌, IsTrue, ℕ, true, [], length, IfOk};
ghost use Rattle.log_audit.specs.Replied.{HaveOne, AreSeen, IsUnseen, Sees, all_seen};

use mount_log::ReplyLine;
use std::alloc::{AllocError, Global};

// No call of so many was seen.
fn none_seen(alloc: Global, calls: usize) -> Result<Vec<bool>, AllocError>
    ensures { IfOk result (λ seen. AreSeen calls [] seen.items) }
{
    let mut seen = Vec::with_capacity(alloc, calls)?;
    for _ in 0..calls {
        seen.push(false)?;
    }
    Ok(seen)
}

// A reply to a call is seen. It is false, with nothing changed, where the call is none of those, or was seen before.
fn see(seen: &mut Vec<bool>, call: u32) -> bool
    ensures sound { result ≡ true → Sees seen.old.items call seen.new.items }
    ensures complete { IsUnseen seen.old.items call → result ≡ true }
{
    if call == 0 {
        return false;
    }
    let index = call as usize - 1;
    if index >= seen.len() || seen[index] {
        return false;
    }
    seen[index] = true;
    true
}

fn are_all(seen: &[bool]) -> bool
    ensures { result ≡ all_seen seen.now }
{
    for one in seen {
        if !*one {
            return false;
        }
    }
    true
}

fn are_as_many(replies: &[ReplyLine], calls: usize) -> bool
    ensures { IsTrue result ↔ (length replies.now ≡ calls) }
{
    replies.len() == calls
}

/// Whether each call of so many, by their numbers from 1, has one reply, and there is no other.
///
/// # Errors
/// Out of memory.
pub fn have_one_reply(
    alloc: Global,
    calls: usize,
    replies: &[ReplyLine],
) -> Result<bool, AllocError>
    ensures { IfOk result (λ yes. IsTrue yes ↔ HaveOne calls replies.now) }
{
    if !are_as_many(replies, calls) {
        return Ok(false);
    }
    let mut seen = none_seen(alloc, calls)?;
    for reply in replies {
        if !see(&mut seen, reply.call) {
            return Ok(false);
        }
    }
    Ok(are_all(seen.as_slice()))
}
