//! The audit.
ghost use Rattle.std.specs.Prelude.{◌≡◌, true, Some, option_copied, slice_get, IfOk};
ghost use Rattle.script_lang.specs.Accepted.{IsAccepted};
ghost use Rattle.mount_log.specs.Submissions.{submissions_of};
ghost use Rattle.mount_log.specs.declared.logs.ReplyLine.{ReplyLine as Line};
ghost use Rattle.read_audit.specs.Read.{asked_by, IsRead, AnswersAreRead};
ghost use Rattle.read_audit.specs.Replying.{IsReplyDue};

use crate::answers::is_read;
use crate::finding::find;
use crate::offsets::offsets_of;
use crate::readings::{Replied, call_graph};
use crate::runs::Run;
use crate::submissions::made_at;
use brick_machine::Brick;
use change_audit::call_graphs::call_graphs;
use graph_build::Plan;
use log_calls::calls_in;
use mount_log::heads::Head;
use mount_log::{Log, ReplyLine};
use script_lang::Script;
use std::alloc::{AllocError, Global};
use submitted_calls::Submitted;

// Whether the answer of a reply to a call was read from bricks.
fn is_reply_read(
    alloc: Global,
    run: &Run,
    offset: usize,
    made: &Submitted,
    reply: &ReplyLine,
) -> Result<bool, AllocError>
    ensures { IfOk result (λ yes. yes ≡ true → IsRead run.now.script.now run.now.plans.now run.now.log.now run.now.bricks.now reply.now.call reply.now.event (asked_by made.now.call) reply.now.answer) }
{
    let Some(graph) = call_graph(run, reply.call) else {
        return Ok(false);
    };
    let by = Replied {
        call: reply.call,
        graph,
        number: reply.event,
    };
    let answer = &reply.answer;
    let yes = is_read(alloc, run, by, offset, made.call, answer)?;
    Ok(yes)
}

/// The reply at a place.
pub(crate) fn reply_at(log: &Log, k: usize) -> Option<&ReplyLine>
    ensures { option_copied result ≡ slice_get log.now.replies k }
{
    log.replies.as_slice().get(k)
}

fn offset_at(offsets: &[usize], k: usize) -> usize {
    match offsets.get(k) {
        Some(offset) => *offset,
        None => 0,
    }
}

// Whether the reply at a place was read from bricks.
fn is_due(
    alloc: Global,
    run: &Run,
    calls: &[Submitted],
    offsets: &[usize],
    k: usize,
) -> Result<bool, AllocError>
    requires { calls.now ≡ submissions_of run.now.script.now run.now.log.now }
    ensures { IfOk result (λ yes. yes ≡ true → (reply : Line) → slice_get run.now.log.now.replies k ≡ Some reply → IsReplyDue run.now.script.now run.now.plans.now run.now.log.now run.now.bricks.now reply) }
{
    let Some(reply) = reply_at(run.log, k) else {
        return Ok(false);
    };
    let Some(made) = made_at(calls, reply.call) else {
        return Ok(false);
    };
    let offset = offset_at(offsets, k);
    let yes = is_reply_read(alloc, run, offset, made, reply)?;
    Ok(yes)
}

fn are_due(
    alloc: Global,
    run: &Run,
    calls: &[Submitted],
    offsets: &[usize],
) -> Result<bool, AllocError>
    requires { calls.now ≡ submissions_of run.now.script.now run.now.log.now }
    ensures { IfOk result (λ yes. yes ≡ true → AnswersAreRead run.now.script.now run.now.plans.now run.now.log.now run.now.bricks.now) }
{
    let log = run.log;
    for k in 0..log.replies.len() {
        if !is_due(alloc, run, calls, offsets, k)? {
            return Ok(false);
        }
    }
    Ok(true)
}

/// Whether each read, stat and getattr that was answered well was read from bricks: a brick had answered a fetch of the call, by
/// the event of the reply, by the content that the answer shows; and before that a quorum of the brick's set, the brick among
/// them, had granted the call locks of the same cells, of which the cell that was fetched is one. A read is held to that where its
/// graph has no io-cache. `heads` are those of the log's events: they guide the search alone.
///
/// # Errors
/// Out of memory.
pub fn answers_are_read(
    alloc: Global,
    script: &Script,
    plans: &[Plan],
    log: &Log,
    bricks: &[Brick],
    heads: &[Head],
) -> Result<bool, AllocError>
    requires { IsAccepted script.now }
    ensures { IfOk result (λ yes. yes ≡ true → AnswersAreRead script.now plans.now log.now bricks.now) }
{
    let Some(calls) = calls_in(alloc, script, log.events.as_slice())? else {
        return Ok(false);
    };
    let graphs = call_graphs(alloc, script, log)?;
    let found = find(alloc, log, bricks, heads)?;
    let made = calls.calls.as_slice();
    let offsets = offsets_of(alloc, made, log.replies.as_slice())?;
    let run = Run {
        script,
        plans,
        log,
        bricks,
        graphs: &graphs,
        found: &found,
    };
    let yes = are_due(alloc, &run, made, offsets.as_slice())?;
    Ok(yes)
}
