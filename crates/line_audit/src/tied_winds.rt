//! Whether winds are of their calls and graphs.
ghost use Rattle.std.specs.Prelude.{◌≡◌, ◌+◌, ◌≤◌, ◌↔◌, IsTrue, length, map, true};
ghost use Rattle.mount_log.specs.Ties.{do_rise};
ghost use Rattle.line_audit.specs.Tied.{IsReplyBehind, IsPlaceOfReply, ArePlacesOfReplies, place_of_reply, IsWindOf, AreWindsTied};

use crate::tied_replies::{place_for, reply_at, wind_at};
use log_audit::calls_made::{CallMade, call_of};
use mount_log::switches::{Switched, passed_to};
use mount_log::{Log, ReplyLine, WindLine};

// Whether the graph was made by an event, where its events were passed.
fn is_made(line: &WindLine, passed: Switched) -> bool
    ensures next { result ≡ true → passed.next ≡ line.now.event }
    ensures graph { result ≡ true → line.now.graph ≤ passed.count + 1 }
    ensures complete { passed.next ≡ line.now.event → line.now.graph ≤ passed.count + 1 → result ≡ true }
{
    if passed.next as u64 != line.event {
        return false;
    }
    line.graph == 0 || line.graph as usize - 1 <= passed.count
}

fn is_graph_of(call: &CallMade, graph: u32) -> bool
    ensures { IsTrue result ↔ (graph ≡ call.now.switches + 1) }
{
    graph != 0 && graph as usize - 1 == call.switches
}

fn is_before(line: &WindLine, reply: &ReplyLine) -> bool
    ensures call { result ≡ true → reply.now.call ≡ line.now.call }
    ensures earlier { result ≡ true → line.now.event ≤ reply.now.event }
    ensures complete { reply.now.call ≡ line.now.call → line.now.event ≤ reply.now.event → result ≡ true }
{
    reply.call == line.call && line.event <= reply.event
}

// Whether the reply at a place is that of the line's call, and does not come before it.
fn is_before_reply(log: &Log, line: &WindLine, at: usize) -> bool
    ensures { IsTrue result ↔ IsReplyBehind log.now.replies at line.now }
{
    match reply_at(log, at) {
        Some(reply) => is_before(line, reply),
        None => false,
    }
}

fn is_of(call: &CallMade, line: &WindLine) -> bool
    ensures later { result ≡ true → call.now.event ≤ line.now.event }
    ensures graph { result ≡ true → line.now.graph ≡ call.now.switches + 1 }
    ensures complete { call.now.event ≤ line.now.event → line.now.graph ≡ call.now.switches + 1 → result ≡ true }
{
    call.event <= line.event && is_graph_of(call, line.graph)
}

// Whether a line is of no call, or of a call that was submitted, of its graph, and not behind its reply, the place of which
// is given.
fn is_wind_of(log: &Log, calls: &[CallMade], line: &WindLine, at: usize) -> bool
    ensures sound { result ≡ true → IsWindOf log.now calls.now line.now }
    ensures complete { (1 ≤ line.now.call → IsPlaceOfReply log.now at line.now) → IsWindOf log.now calls.now line.now → result ≡ true }
{
    if line.call == 0 {
        return true;
    }
    match call_of(calls, line.call) {
        Some(call) => is_of(call, line) && is_before_reply(log, line, at),
        None => false,
    }
}

// The place that is noted for the reply of a line's call.
fn reply_for(replied: &[usize], line: &WindLine) -> usize
    ensures { result ≡ place_of_reply replied.now line.now.call }
{
    if line.call == 0 {
        return 0;
    }
    place_for(replied, line.call as usize - 1)
}

/// Whether each wind line is of a graph that was made by then, and one of a call of the call's graph, not before its
/// submission and not behind its reply. `replied` has, for a call, the place of its reply.
pub fn winds_are_tied(log: &Log, calls: &[CallMade], replied: &[usize]) -> bool
    ensures sound { result ≡ true → AreWindsTied log.now calls.now }
    ensures complete { do_rise 1 (length log.now.events) (map (λ l. l.event) log.now.winds) ≡ true → ArePlacesOfReplies log.now replied.now → AreWindsTied log.now calls.now → result ≡ true }
{
    let mut passed = Switched { next: 0, count: 0 };
    for k in 0..log.winds.len() {
        let Some(line) = wind_at(log, k) else {
            return false;
        };
        passed = passed_to(log, line.event, passed);
        if !is_made(line, passed) || !is_wind_of(log, calls, line, reply_for(replied, line)) {
            return false;
        }
    }
    true
}
