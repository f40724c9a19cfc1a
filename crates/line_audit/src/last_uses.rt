//! Until which event something of each graph is left.
ghost use Rattle.std.specs.Prelude.{◌≡◌, ◌<◌, ℕ, Some, true, length, slice_get, IsSome, IfOk, IfSome};
ghost use Rattle.mount_log.specs.Connections.{graph_of_call};
ghost use Rattle.mount_log.specs.declared.logs.Log.{Log};
ghost use Rattle.mount_log.specs.declared.logs.ReplyLine.{ReplyLine as Reply};
ghost use Rattle.mount_log.specs.declared.logs.WindLine.{WindLine as Line};
ghost use Rattle.mount_log.specs.CallGraphs.{calls_from};
ghost use Rattle.line_audit.specs.Linked.{IsNoted, AreZeros, AreWindsNoted, AreUsesNoted, IsCallBelow, AreUsesBelow};

use mount_log::call_graphs::{CallAt, call_at, calls_of};
use mount_log::{Log, ReplyLine, WindLine};
use std::alloc::{AllocError, Global};

fn zeros(alloc: Global, count: usize) -> Result<Vec<u64>, AllocError>
    ensures zeros { IfOk result (λ until. AreZeros until.items) }
    ensures many { IfOk result (λ until. length until.items ≡ count) }
{
    let mut until = Vec::new(alloc);
    for _ in 0..count {
        until.push(0)?;
    }
    Ok(until)
}

// Notes that a graph was used in an event. It is false where the graph has no place.
fn note(until: &mut Vec<u64>, graph: usize, event: u64) -> bool
    ensures sound { result ≡ true → IsNoted until.old.items graph event until.new.items }
    ensures complete { graph < length until.old.items → result ≡ true }
    ensures many { length until.new.items ≡ length until.old.items }
{
    if graph >= until.len() {
        return false;
    }
    if until[graph] >= event {
        return true;
    }
    until[graph] = event;
    true
}

fn note_winds(until: &mut Vec<u64>, winds: &[WindLine]) -> bool
    requires { AreZeros until.old.items }
    ensures sound { result ≡ true → AreWindsNoted winds.now until.new.items }
    ensures complete { ((k : ℕ) (line : Line) → slice_get winds.now k ≡ Some line → line.graph < length until.old.items) → result ≡ true }
    ensures many { length until.new.items ≡ length until.old.items }
{
    for k in 0..winds.len() {
        let line = &winds[k];
        if !note(until, line.graph as usize, line.event) {
            return false;
        }
    }
    true
}

fn note_reply(until: &mut Vec<u64>, calls: &[CallAt], reply: &ReplyLine) -> bool
    ensures sound { (log : Log) → calls.now ≡ calls_from 0 1 log.events → result ≡ true → IsNoted until.old.items (graph_of_call log reply.now.call) reply.now.event until.new.items }
    ensures complete { (log : Log) → calls.now ≡ calls_from 0 1 log.events → IsCallBelow log (length until.old.items) reply.now.call → result ≡ true }
    ensures many { length until.new.items ≡ length until.old.items }
{
    match call_at(calls, reply.call) {
        Some(at) => note(until, at.graph as usize, reply.event),
        None => false,
    }
}

fn note_replies(until: &mut Vec<u64>, log: &Log, calls: &[CallAt]) -> bool
    requires calls { calls.now ≡ calls_from 0 1 log.now.events }
    requires winds { AreWindsNoted log.now.winds until.old.items }
    ensures sound { result ≡ true → AreUsesNoted log.now log.now.replies until.new.items }
    ensures complete { ((k : ℕ) (reply : Reply) → slice_get log.now.replies k ≡ Some reply → IsCallBelow log.now (length until.old.items) reply.call) → result ≡ true }
{
    let replies = log.replies.as_slice();
    for k in 0..replies.len() {
        if !note_reply(until, calls, &replies[k]) {
            return false;
        }
    }
    true
}

/// Until which event a wind of each graph is opened or ends, or a call of it is answered, by the number of the graph, of
/// which there are fewer than `count`. `None` comes where a line is of another graph, or a reply of no call.
///
/// # Errors
/// Out of memory.
pub fn last_uses(alloc: Global, log: &Log, count: usize) -> Result<Option<Vec<u64>>, AllocError>
    ensures sound { IfOk result (λ found. IfSome found (λ until. AreUsesNoted log.now log.now.replies until.items)) }
    ensures complete { IfOk result (λ found. AreUsesBelow log.now count → IsSome found) }
{
    let calls = calls_of(alloc, log.events.as_slice())?;
    let mut until = zeros(alloc, count)?;
    if !note_winds(&mut until, log.winds.as_slice()) {
        drop(until);
        drop(calls);
        return Ok(None);
    }
    if !note_replies(&mut until, log, calls.as_slice()) {
        drop(until);
        drop(calls);
        return Ok(None);
    }
    drop(calls);
    Ok(Some(until))
}
