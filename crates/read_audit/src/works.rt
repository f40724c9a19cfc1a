//! Whether the paths of a call lead to what its changes work on, by names that the call has read.
ghost use Rattle.std.specs.Prelude.{◌≡◌, true, Some, IfOk};
ghost use Rattle.call_fops.specs.Walks.{second_path as second_of};
ghost use Rattle.fop_types.specs.Calls.{looked_up};
ghost use Rattle.mount_log.specs.Connections.{graph_of_call};
ghost use Rattle.read_audit.specs.Taken.{worked_on as worked_on_by, changed_by, moved_into as moved_into_by, unlinking_path as unlinking_path_of, path_for as path_of, Reaches};

use crate::cells::is_gfid;
use crate::paths::object_at;
use crate::readings::Replied;
use crate::runs::Run;
use call_fops::{first_path, second_path};
use fop_types::{Call, FlatOp, Gfid, Seq};
use std::alloc::{AllocError, Global};

// ---- what an operation names

// The object that an operation changes, or the directory of the name that it makes, drops or moves.
fn worked_on(operation: &FlatOp) -> Option<Gfid>
    ensures { result ≡ worked_on_by operation.now }
{
    match operation {
        FlatOp::Mkdir { parent, .. } => Some(*parent),
        FlatOp::Rmdir { parent, .. } => Some(*parent),
        FlatOp::Create { parent, .. } => Some(*parent),
        FlatOp::Unlink { parent, .. } => Some(*parent),
        FlatOp::Rename { parent, .. } => Some(*parent),
        FlatOp::Chmod { gfid, .. } => Some(*gfid),
        FlatOp::Truncate { gfid, .. } => Some(*gfid),
        FlatOp::SetAttr { gfid, .. } => Some(*gfid),
        FlatOp::DelAttr { gfid, .. } => Some(*gfid),
        _ => None,
    }
}

/// The object that an operation changes where it makes, drops and moves no name.
pub(crate) fn changed(operation: &FlatOp) -> Option<Gfid>
    ensures { result ≡ changed_by operation.now }
{
    match operation {
        FlatOp::Chmod { gfid, .. } => Some(*gfid),
        FlatOp::Truncate { gfid, .. } => Some(*gfid),
        FlatOp::SetAttr { gfid, .. } => Some(*gfid),
        FlatOp::DelAttr { gfid, .. } => Some(*gfid),
        _ => None,
    }
}

// The directory to which an operation moves a name.
fn moved_into(operation: &FlatOp) -> Option<Gfid>
    ensures { result ≡ moved_into_by operation.now }
{
    match operation {
        FlatOp::Rename { target, .. } => Some(*target),
        _ => None,
    }
}

// The path to the directory in which a call unlinks a name.
fn unlinking_path(call: &Call) -> &[Seq<u8>]
    ensures { result.now ≡ unlinking_path_of call.now }
{
    match call {
        Call::Rename { .. } => second_path(call),
        _ => first_path(call),
    }
}

/// The path that leads to what an operation of a call works on.
pub(crate) fn path_for<'a>(call: &'a Call, operation: &FlatOp) -> &'a [Seq<u8>]
    ensures { result.now ≡ path_of call.now operation.now }
{
    match operation {
        FlatOp::Unlink { .. } => unlinking_path(call),
        _ => first_path(call),
    }
}

// ---- where paths lead

// Whether a path leads to an object of this gfid.
fn leads_to(
    alloc: Global,
    run: &Run,
    by: Replied,
    path: &[Seq<u8>],
    gfid: Gfid,
) -> Result<bool, AllocError>
    requires { by.graph ≡ graph_of_call run.now.log.now by.call }
    ensures { IfOk result (λ yes. yes ≡ true → Reaches run.now.script.now run.now.plans.now run.now.log.now run.now.bricks.now by.call by.number path.now (Some gfid)) }
{
    let reached = object_at(alloc, run, by, path)?;
    match reached {
        Some(object) => Ok(is_gfid(object.gfid, gfid)),
        None => Ok(false),
    }
}

// The same, if there is a gfid.
fn reaches(
    alloc: Global,
    run: &Run,
    by: Replied,
    path: &[Seq<u8>],
    to: Option<Gfid>,
) -> Result<bool, AllocError>
    requires { by.graph ≡ graph_of_call run.now.log.now by.call }
    ensures { IfOk result (λ yes. yes ≡ true → Reaches run.now.script.now run.now.plans.now run.now.log.now run.now.bricks.now by.call by.number path.now to) }
{
    match to {
        Some(gfid) => {
            let yes = leads_to(alloc, run, by, path, gfid)?;
            Ok(yes)
        }
        None => Ok(true),
    }
}

/// Whether the paths of a call lead to what its operation works on.
///
/// # Errors
/// Out of memory.
pub(crate) fn are_reached(
    alloc: Global,
    run: &Run,
    by: Replied,
    call: &Call,
    operation: &FlatOp,
) -> Result<bool, AllocError>
    requires { by.graph ≡ graph_of_call run.now.log.now by.call }
    ensures works { IfOk result (λ yes. yes ≡ true → Reaches run.now.script.now run.now.plans.now run.now.log.now run.now.bricks.now by.call by.number (path_of call.now operation.now) (worked_on_by operation.now)) }
    ensures moves { IfOk result (λ yes. yes ≡ true → Reaches run.now.script.now run.now.plans.now run.now.log.now run.now.bricks.now by.call by.number (second_of (looked_up call.now)) (moved_into_by operation.now)) }
{
    let path = path_for(call, operation);
    let to = worked_on(operation);
    if !reaches(alloc, run, by, path, to)? {
        return Ok(false);
    }
    let other = second_path(call);
    let into = moved_into(operation);
    let yes = reaches(alloc, run, by, other, into)?;
    Ok(yes)
}
