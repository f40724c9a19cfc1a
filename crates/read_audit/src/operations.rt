//! The set from which an operation takes a name, or that of the object that it changes, and whether it works on what the paths of its
//! call lead to, by names that the call has read.
ghost use Rattle.std.specs.Prelude.{◌≡◌, None, Some, IfOk, IfSome};
ghost use Rattle.mount_log.specs.Connections.{graph_of_call};
ghost use Rattle.read_audit.specs.Taken.{changed_by, IsNameTaken, IsTaken, RestsOnNames};

use crate::cells::is_gfid;
use crate::naming::home;
use crate::paths::{object_at, step};
use crate::readings::Replied;
use crate::rooms::has_room;
use crate::runs::Run;
use crate::unlinks::Unlinks;
use crate::works::{are_reached, changed, path_for};
use fop_types::{Call, FlatOp, Gfid, Seq};
use std::alloc::{AllocError, Global};

/// The set from which a change takes a name, or that of the object that it changes, if it does one of these.
#[derive(Clone, Copy)]
pub struct TakenFrom {
    pub set: Option<u8>,
}

// ---- the name that a change takes away

// The set on which a name of a directory means an object, by what the call has read.
fn name_taken(
    alloc: Global,
    run: &Run,
    by: Replied,
    dir: Gfid,
    name: &Seq<u8>,
) -> Result<Option<TakenFrom>, AllocError>
    requires { by.graph ≡ graph_of_call run.now.log.now by.call }
    ensures { IfOk result (λ found. IfSome found (λ from. IsNameTaken run.now.script.now run.now.plans.now run.now.log.now run.now.bricks.now by.call by.number dir name.now from.set)) }
{
    let to = step(alloc, run, by, dir, name)?;
    match to {
        Some(object) => Ok(Some(TakenFrom {
            set: Some(object.set),
        })),
        None => Ok(None),
    }
}

// The set of the name that an operation takes away.
fn taken_by(
    alloc: Global,
    run: &Run,
    by: Replied,
    operation: &FlatOp,
) -> Result<Option<TakenFrom>, AllocError>
    requires { by.graph ≡ graph_of_call run.now.log.now by.call }
    ensures { IfOk result (λ found. IfSome found (λ from. IsTaken run.now.script.now run.now.plans.now run.now.log.now run.now.bricks.now by.call by.number operation.now from.set)) }
{
    match operation {
        FlatOp::Rmdir { parent, name } => {
            let from = name_taken(alloc, run, by, *parent, name)?;
            Ok(from)
        }
        FlatOp::Unlink { parent, name } => {
            let from = name_taken(alloc, run, by, *parent, name)?;
            Ok(from)
        }
        FlatOp::Rename { parent, name, .. } => {
            let from = name_taken(alloc, run, by, *parent, name)?;
            Ok(from)
        }
        _ => Ok(Some(TakenFrom { set: None })),
    }
}

// ---- operations

// The set of the object that a call's operation changes, where its path leads to the object.
fn object_rests(
    alloc: Global,
    run: &Run,
    by: Replied,
    ops: &[FlatOp],
    call: &Call,
    operation: &FlatOp,
    gfid: Gfid,
) -> Result<Option<TakenFrom>, AllocError>
    requires graph { by.graph ≡ graph_of_call run.now.log.now by.call }
    requires changed { changed_by operation.now ≡ Some gfid }
    ensures { IfOk result (λ found. IfSome found (λ from. RestsOnNames run.now.script.now run.now.plans.now run.now.log.now run.now.bricks.now ops.now by.call by.number call.now operation.now from.set)) }
{
    let _ = ops;
    let path = path_for(call, operation);
    let reached = object_at(alloc, run, by, path)?;
    let Some(object) = reached else {
        return Ok(None);
    };
    if !is_gfid(object.gfid, gfid) {
        return Ok(None);
    }
    let set = home(object);
    Ok(Some(TakenFrom { set: Some(set) }))
}

// The set of the name that a call's operation takes away, where its paths lead to what the operation works on, and a rename takes
// away a file of the new name, too.
fn names_rest(
    alloc: Global,
    run: &Run,
    by: Replied,
    ops: &[FlatOp],
    unlinks: &Unlinks,
    call: &Call,
    operation: &FlatOp,
) -> Result<Option<TakenFrom>, AllocError>
    requires graph { by.graph ≡ graph_of_call run.now.log.now by.call }
    requires unchanged { changed_by operation.now ≡ None }
    ensures { IfOk result (λ found. IfSome found (λ from. RestsOnNames run.now.script.now run.now.plans.now run.now.log.now run.now.bricks.now ops.now by.call by.number call.now operation.now from.set)) }
{
    if !are_reached(alloc, run, by, call, operation)? {
        return Ok(None);
    }
    let taken = taken_by(alloc, run, by, operation)?;
    let Some(from) = taken else {
        return Ok(None);
    };
    if !has_room(alloc, run, by, ops, unlinks, operation, from.set)? {
        return Ok(None);
    }
    Ok(Some(from))
}

/// The set of what a call's operation changes or takes away, where it rests on what the call has read.
///
/// # Errors
/// Out of memory.
pub(crate) fn rests_on(
    alloc: Global,
    run: &Run,
    by: Replied,
    ops: &[FlatOp],
    unlinks: &Unlinks,
    call: &Call,
    operation: &FlatOp,
) -> Result<Option<TakenFrom>, AllocError>
    requires { by.graph ≡ graph_of_call run.now.log.now by.call }
    ensures { IfOk result (λ found. IfSome found (λ from. RestsOnNames run.now.script.now run.now.plans.now run.now.log.now run.now.bricks.now ops.now by.call by.number call.now operation.now from.set)) }
{
    match changed(operation) {
        Some(gfid) => {
            let from = object_rests(alloc, run, by, ops, call, operation, gfid)?;
            Ok(from)
        }
        None => {
            let from = names_rest(alloc, run, by, ops, unlinks, call, operation)?;
            Ok(from)
        }
    }
}
