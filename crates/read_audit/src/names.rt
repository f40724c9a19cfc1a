//! The audit of names.
ghost use Rattle.std.specs.Prelude.{◌≡◌, true, Some, slice_get, IfOk};
ghost use Rattle.fop_types.specs.Replies.{is_ok as is_well};
ghost use Rattle.script_lang.specs.Accepted.{IsAccepted};
ghost use Rattle.mount_log.specs.Submissions.{submissions_of};
ghost use Rattle.mount_log.specs.declared.logs.ReplyLine.{ReplyLine as Line};
ghost use Rattle.read_audit.specs.Errors.{ErrorsAreRead};
ghost use Rattle.read_audit.specs.Names.{IsNamed, NamesAreRead};
ghost use Rattle.read_audit.specs.Naming.{IsNameDue};

use crate::errors::errors_are_read;
use crate::finding::find;
use crate::naming::is_named;
use crate::readings::{Replied, call_graph};
use crate::replies::reply_at;
use crate::runs::Run;
use crate::submissions::made_at;
use brick_machine::Brick;
use change_audit::call_graphs::call_graphs;
use fop_types::Answer;
use graph_build::Plan;
use log_calls::calls_in;
use mount_log::heads::Head;
use mount_log::{Log, ReplyLine};
use script_lang::Script;
use std::alloc::{AllocError, Global};
use submitted_calls::Submitted;

// Whether an answer is no error.
fn is_ok(answer: &Answer) -> bool
    ensures { result ≡ is_well answer.now }
{
    match answer {
        Answer::App(_) => false,
        Answer::Io(_) => false,
        _ => true,
    }
}

// Whether a call with its reply has read the names on its paths, and those that it shows.
fn is_reply_named(
    alloc: Global,
    run: &Run,
    made: &Submitted,
    reply: &ReplyLine,
) -> Result<bool, AllocError>
    ensures { IfOk result (λ yes. yes ≡ true → IsNamed run.now.script.now run.now.plans.now run.now.log.now run.now.bricks.now reply.now.call reply.now.event made.now.call reply.now.answer) }
{
    let Some(graph) = call_graph(run, reply.call) else {
        return Ok(false);
    };
    let by = Replied {
        call: reply.call,
        graph,
        number: reply.event,
    };
    let answer = &reply.answer;
    let yes = is_named(alloc, run, by, made.call, answer)?;
    Ok(yes)
}

// The same, if the answer is no error.
fn is_well_named(
    alloc: Global,
    run: &Run,
    made: &Submitted,
    reply: &ReplyLine,
) -> Result<bool, AllocError>
    ensures { IfOk result (λ yes. yes ≡ true → is_well reply.now.answer ≡ true → IsNamed run.now.script.now run.now.plans.now run.now.log.now run.now.bricks.now reply.now.call reply.now.event made.now.call reply.now.answer) }
{
    if !is_ok(&reply.answer) {
        return Ok(true);
    }
    let yes = is_reply_named(alloc, run, made, reply)?;
    Ok(yes)
}

// Whether the reply at a place is named.
fn is_due(alloc: Global, run: &Run, calls: &[Submitted], k: usize) -> Result<bool, AllocError>
    requires { calls.now ≡ submissions_of run.now.script.now run.now.log.now }
    ensures { IfOk result (λ yes. yes ≡ true → (reply : Line) → slice_get run.now.log.now.replies k ≡ Some reply → IsNameDue run.now.script.now run.now.plans.now run.now.log.now run.now.bricks.now reply) }
{
    let Some(reply) = reply_at(run.log, k) else {
        return Ok(false);
    };
    let Some(made) = made_at(calls, reply.call) else {
        return Ok(false);
    };
    let yes = is_well_named(alloc, run, made, reply)?;
    Ok(yes)
}

fn are_due(alloc: Global, run: &Run, calls: &[Submitted]) -> Result<bool, AllocError>
    requires { calls.now ≡ submissions_of run.now.script.now run.now.log.now }
    ensures { IfOk result (λ yes. yes ≡ true → NamesAreRead run.now.script.now run.now.plans.now run.now.log.now run.now.bricks.now) }
{
    let log = run.log;
    for k in 0..log.replies.len() {
        if !is_due(alloc, run, calls, k)? {
            return Ok(false);
        }
    }
    Ok(true)
}

/// Whether each call that was answered well has fetched names by its reply, each from a brick of a set of its graph after a quorum
/// of the set had granted it locks: those on its paths, which lead from the root to one object; and those that a list shows, of each
/// set of the graph but for one where a quorum had no copy; and whether what a stat or a getattr shows is that object's. And whether
/// each call that was answered by an error but an I/O error has fetched so what the error rests on, if it needs a look. `heads` are
/// those of the log's events: they guide the search alone.
///
/// # Errors
/// Out of memory.
pub fn names_are_read(
    alloc: Global,
    script: &Script,
    plans: &[Plan],
    log: &Log,
    bricks: &[Brick],
    heads: &[Head],
) -> Result<bool, AllocError>
    requires { IsAccepted script.now }
    ensures names { IfOk result (λ yes. yes ≡ true → NamesAreRead script.now plans.now log.now bricks.now) }
    ensures errors { IfOk result (λ yes. yes ≡ true → ErrorsAreRead script.now plans.now log.now bricks.now) }
{
    let Some(calls) = calls_in(alloc, script, log.events.as_slice())? else {
        return Ok(false);
    };
    let graphs = call_graphs(alloc, script, log)?;
    let found = find(alloc, log, bricks, heads)?;
    let run = Run {
        script,
        plans,
        log,
        bricks,
        graphs: &graphs,
        found: &found,
    };
    let made = calls.calls.as_slice();
    if !are_due(alloc, &run, made)? {
        return Ok(false);
    }
    let yes = errors_are_read(alloc, &run, made)?;
    Ok(yes)
}
