//! The audit of errors: whether what each error rests on was read, on one of its call's paths.
ghost use Rattle.std.specs.Prelude.{◌≡◌, true, Some, slice_get, IfOk};
ghost use Rattle.std.specs.Option.{option_copied};
ghost use Rattle.mount_log.specs.Connections.{graph_of_call};
ghost use Rattle.mount_log.specs.Submissions.{submissions_of};
ghost use Rattle.mount_log.specs.declared.logs.ReplyLine.{ReplyLine as Line};
ghost use Rattle.read_audit.specs.Errors.{paths_in, needed_by, paths_of, OnAPath, LeadsUpTo, RestsOn, IsErrorRead, ErrorsAreRead};
ghost use Rattle.read_audit.specs.Erring.{IsErrorDue};

use crate::grounds::rests_on_path;
use crate::readings::{Replied, call_graph};
use crate::replies::reply_at;
use crate::runs::Run;
use crate::submissions::made_at;
use call_fops::{first_path, second_path};
use fop_types::{Answer, AppError, Call, Path, Seq};
use mount_log::ReplyLine;
use std::alloc::{AllocError, Global};
use submitted_calls::Submitted;

// ---- the paths of a call

fn parts(path: &Path) -> Option<&[Seq<u8>]>
    ensures { option_copied result ≡ Some path.now.parts }
{
    Some(path.parts.as_slice())
}

fn first_in(call: &Call) -> Option<&[Seq<u8>]>
    ensures { option_copied result ≡ slice_get (paths_in call.now) 0 }
{
    match call {
        Call::Mkdir { path, .. } => parts(path),
        Call::Rmdir { path } => parts(path),
        Call::Create { path, .. } => parts(path),
        Call::Unlink { path } => parts(path),
        Call::Rename { path, .. } => parts(path),
        Call::Open { path, .. } => parts(path),
        Call::Stat { path } => parts(path),
        Call::List { path } => parts(path),
        Call::Chmod { path, .. } => parts(path),
        Call::Truncate { path, .. } => parts(path),
        Call::SetAttr { path, .. } => parts(path),
        Call::GetAttr { path, .. } => parts(path),
        Call::DelAttr { path, .. } => parts(path),
        Call::Read { .. } => None,
        Call::Write { .. } => None,
        Call::Seek { .. } => None,
        Call::Close { .. } => None,
    }
}

fn second_in(call: &Call) -> Option<&[Seq<u8>]>
    ensures { option_copied result ≡ slice_get (paths_in call.now) 1 }
{
    match call {
        Call::Rename { target, .. } => parts(target),
        _ => None,
    }
}

// The first path of which a name that is missing is an error.
fn first_needed(call: &Call) -> Option<&[Seq<u8>]>
    ensures { option_copied result ≡ slice_get (needed_by call.now) 0 }
{
    match call {
        Call::Mkdir { .. } => Some(first_path(call)),
        Call::Create { .. } => Some(first_path(call)),
        _ => first_in(call),
    }
}

// The second one.
fn second_needed(call: &Call) -> Option<&[Seq<u8>]>
    ensures { option_copied result ≡ slice_get (needed_by call.now) 1 }
{
    match call {
        Call::Rename { .. } => Some(second_path(call)),
        _ => None,
    }
}

fn first_of(error: AppError, call: &Call) -> Option<&[Seq<u8>]>
    ensures { option_copied result ≡ slice_get (paths_of error call.now) 0 }
{
    match error {
        AppError::Enoent => first_needed(call),
        _ => first_in(call),
    }
}

fn second_of(error: AppError, call: &Call) -> Option<&[Seq<u8>]>
    ensures { option_copied result ≡ slice_get (paths_of error call.now) 1 }
{
    match error {
        AppError::Enoent => second_needed(call),
        _ => second_in(call),
    }
}

// ---- replies

// Whether the error rests on the second path of the call, if it has one.
fn rests_on_second(
    alloc: Global,
    run: &Run,
    by: Replied,
    call: &Call,
    error: AppError,
) -> Result<bool, AllocError>
    requires { by.graph ≡ graph_of_call run.now.log.now by.call }
    ensures { IfOk result (λ yes. yes ≡ true → OnAPath (paths_of error call.now) (λ path. LeadsUpTo run.now.script.now run.now.plans.now run.now.log.now run.now.bricks.now by.call by.number path (RestsOn run.now.script.now run.now.plans.now run.now.log.now run.now.bricks.now by.call by.number call.now error))) }
{
    let Some(path) = second_of(error, call) else {
        return Ok(false);
    };
    let yes = rests_on_path(alloc, run, by, call, error, path)?;
    Ok(yes)
}

// Whether the error rests on a path of the call, if it has one.
fn rests_on_paths(
    alloc: Global,
    run: &Run,
    by: Replied,
    call: &Call,
    error: AppError,
) -> Result<bool, AllocError>
    requires { by.graph ≡ graph_of_call run.now.log.now by.call }
    ensures { IfOk result (λ yes. yes ≡ true → OnAPath (paths_of error call.now) (λ path. LeadsUpTo run.now.script.now run.now.plans.now run.now.log.now run.now.bricks.now by.call by.number path (RestsOn run.now.script.now run.now.plans.now run.now.log.now run.now.bricks.now by.call by.number call.now error))) }
{
    let Some(path) = first_of(error, call) else {
        return Ok(true);
    };
    if rests_on_path(alloc, run, by, call, error, path)? {
        return Ok(true);
    }
    let yes = rests_on_second(alloc, run, by, call, error)?;
    Ok(yes)
}

// Whether a call with its reply has read what the answer rests on, if it is an error.
fn is_error_read(
    alloc: Global,
    run: &Run,
    by: Replied,
    call: &Call,
    answer: &Answer,
) -> Result<bool, AllocError>
    requires { by.graph ≡ graph_of_call run.now.log.now by.call }
    ensures { IfOk result (λ yes. yes ≡ true → IsErrorRead run.now.script.now run.now.plans.now run.now.log.now run.now.bricks.now by.call by.number call.now answer.now) }
{
    match answer {
        Answer::App(error) => {
            let yes = rests_on_paths(alloc, run, by, call, *error)?;
            Ok(yes)
        }
        _ => Ok(true),
    }
}

fn is_reply_read(
    alloc: Global,
    run: &Run,
    made: &Submitted,
    reply: &ReplyLine,
) -> Result<bool, AllocError>
    ensures { IfOk result (λ yes. yes ≡ true → IsErrorRead run.now.script.now run.now.plans.now run.now.log.now run.now.bricks.now reply.now.call reply.now.event made.now.call reply.now.answer) }
{
    let Some(graph) = call_graph(run, reply.call) else {
        return Ok(false);
    };
    let by = Replied {
        call: reply.call,
        graph,
        number: reply.event,
    };
    let answer = &reply.answer;
    let yes = is_error_read(alloc, run, by, made.call, answer)?;
    Ok(yes)
}

// The same of the reply at a place.
fn is_due(alloc: Global, run: &Run, calls: &[Submitted], k: usize) -> Result<bool, AllocError>
    requires { calls.now ≡ submissions_of run.now.script.now run.now.log.now }
    ensures { IfOk result (λ yes. yes ≡ true → (reply : Line) → slice_get run.now.log.now.replies k ≡ Some reply → IsErrorDue run.now.script.now run.now.plans.now run.now.log.now run.now.bricks.now reply) }
{
    let Some(reply) = reply_at(run.log, k) else {
        return Ok(false);
    };
    let Some(made) = made_at(calls, reply.call) else {
        return Ok(false);
    };
    let yes = is_reply_read(alloc, run, made, reply)?;
    Ok(yes)
}

/// Whether what each error rests on that a call was answered, but for an I/O error, was read by the call.
///
/// # Errors
/// Out of memory.
pub(crate) fn errors_are_read(
    alloc: Global,
    run: &Run,
    calls: &[Submitted],
) -> Result<bool, AllocError>
    requires { calls.now ≡ submissions_of run.now.script.now run.now.log.now }
    ensures { IfOk result (λ yes. yes ≡ true → ErrorsAreRead run.now.script.now run.now.plans.now run.now.log.now run.now.bricks.now) }
{
    let log = run.log;
    for k in 0..log.replies.len() {
        if !is_due(alloc, run, calls, k)? {
            return Ok(false);
        }
    }
    Ok(true)
}
