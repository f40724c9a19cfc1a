//! Whether a file of the new name of a rename is taken away, if there is one: unlinked by an entry of the call, or replaced by the move.
ghost use Rattle.std.specs.Prelude.{◌≡◌, true, Some, IfOk};
ghost use Rattle.mount_log.specs.Connections.{graph_of_call};
ghost use Rattle.read_audit.specs.Taken.{IsNameTaken, IsFreed, HasRoom};

use crate::cells::names_cell;
use crate::found::FetchAt;
use crate::missing::is_nowhere;
use crate::paths::step_by;
use crate::readings::Replied;
use crate::runs::Run;
use crate::unlinks::{Unlinks, is_unlinked};
use change_audit::bearers::has_member;
use change_audit::call_graphs::set_in;
use fop_types::{FlatOp, Gfid, Seq};
use std::alloc::{AllocError, Global};

// ---- the set of the move

fn is_set(set: u8, other: u8) -> bool
    ensures { result ≡ true → set ≡ other }
{
    set == other
}

// Whether a name of a directory means an object on a set, by the answer to a fetch of its names.
fn is_taken_by(
    alloc: Global,
    run: &Run,
    by: Replied,
    set: u8,
    dir: Gfid,
    name: &Seq<u8>,
    at: FetchAt,
) -> Result<bool, AllocError>
    requires { by.graph ≡ graph_of_call run.now.log.now by.call }
    ensures { IfOk result (λ yes. yes ≡ true → IsNameTaken run.now.script.now run.now.plans.now run.now.log.now run.now.bricks.now by.call by.number dir name.now (Some set)) }
{
    let to = step_by(alloc, run, by, dir, name, at)?;
    match to {
        Some(object) => Ok(is_set(object.set, set)),
        None => Ok(false),
    }
}

// Whether a name of a directory means an object on a set, by some fetch of its names from the set.
fn is_taken_on(
    alloc: Global,
    run: &Run,
    by: Replied,
    set: u8,
    dir: Gfid,
    name: &Seq<u8>,
) -> Result<bool, AllocError>
    requires { by.graph ≡ graph_of_call run.now.log.now by.call }
    ensures { IfOk result (λ yes. yes ≡ true → IsNameTaken run.now.script.now run.now.plans.now run.now.log.now run.now.bricks.now by.call by.number dir name.now (Some set)) }
{
    let Some(plan) = set_in(run.plans, run.graphs, by.graph, set) else {
        return Ok(false);
    };
    let fetches = run
        .found
        .fetches_of(alloc, by.call, by.number, names_cell(dir))?;
    for at in &fetches {
        if !has_member(plan, at.source) {
            continue;
        }
        if is_taken_by(alloc, run, by, set, dir, name, *at)? {
            return Ok(true);
        }
    }
    Ok(false)
}

// The same on the set from which a rename takes the old name.
fn is_replaced(
    alloc: Global,
    run: &Run,
    by: Replied,
    from: Option<u8>,
    dir: Gfid,
    name: &Seq<u8>,
) -> Result<bool, AllocError>
    requires { by.graph ≡ graph_of_call run.now.log.now by.call }
    ensures { IfOk result (λ yes. yes ≡ true → IsNameTaken run.now.script.now run.now.plans.now run.now.log.now run.now.bricks.now by.call by.number dir name.now from) }
{
    match from {
        Some(set) => {
            let yes = is_taken_on(alloc, run, by, set, dir, name)?;
            Ok(yes)
        }
        None => Ok(false),
    }
}

// ---- the new name

// Whether a file of the name is unlinked by an entry of the call, or the call has read the name on the set from which it takes the
// old one, or on none.
fn is_freed(
    alloc: Global,
    run: &Run,
    by: Replied,
    ops: &[FlatOp],
    unlinks: &Unlinks,
    from: Option<u8>,
    dir: Gfid,
    name: &Seq<u8>,
) -> Result<bool, AllocError>
    requires { by.graph ≡ graph_of_call run.now.log.now by.call }
    ensures { IfOk result (λ yes. yes ≡ true → IsFreed run.now.script.now run.now.plans.now run.now.log.now run.now.bricks.now ops.now by.call by.number from dir name.now) }
{
    if is_unlinked(run.log, ops, unlinks, by.call, dir, name) {
        return Ok(true);
    }
    if is_replaced(alloc, run, by, from, dir, name)? {
        return Ok(true);
    }
    let yes = is_nowhere(alloc, run, by, dir, name.as_slice())?;
    Ok(yes)
}

/// Whether a file of the new name is taken away, where a call's operation is a rename that takes the old one from this set.
///
/// # Errors
/// Out of memory.
pub(crate) fn has_room(
    alloc: Global,
    run: &Run,
    by: Replied,
    ops: &[FlatOp],
    unlinks: &Unlinks,
    operation: &FlatOp,
    from: Option<u8>,
) -> Result<bool, AllocError>
    requires { by.graph ≡ graph_of_call run.now.log.now by.call }
    ensures { IfOk result (λ yes. yes ≡ true → HasRoom run.now.script.now run.now.plans.now run.now.log.now run.now.bricks.now ops.now by.call by.number operation.now from) }
{
    match operation {
        FlatOp::Rename {
            target,
            new_name,
            ..
        } => {
            let yes = is_freed(alloc, run, by, ops, unlinks, from, *target, new_name)?;
            Ok(yes)
        }
        _ => Ok(true),
    }
}
