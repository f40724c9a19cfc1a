//! Whether a set had no copy of a cell when a call locked it.
ghost use Rattle.std.specs.Prelude.{◌≡◌, ◌<◌, true, IfOk};
ghost use Rattle.std.specs.List.{AllByRecursion};
ghost use Rattle.mount_log.specs.Connections.{graph_of_call};
ghost use Rattle.read_audit.specs.Names.{IsWithout, IsLacking};
ghost use Rattle.read_audit.specs.Naming.{IsAbsent, HaveNoCopy};

use crate::found::{Found, Grant};
use crate::holders::granted_rows;
use crate::quorums::{are_apart, are_enough, bricks_of, grant_of};
use crate::readings::Replied;
use crate::runs::Run;
use brick_machine::Brick;
use change_audit::bearers::has_member;
use change_audit::call_graphs::set_in;
use fop_types::{Cell, Row, Seq, SetPlan};
use mount_log::Log;
use std::alloc::{AllocError, Global};
use std::collections::BTreeMap;

// Whether the rows of a lock of one cell are those of a brick that has no copy of it.
fn is_absent(rows: &Seq<Row>) -> bool
    ensures { result ≡ true → IsAbsent rows.now }
{
    match rows.as_slice() {
        [row] => !row.present,
        _ => false,
    }
}

// Whether a brick of the set had granted a call the lock of a cell alone, which is said to be where, and had no copy of it.
fn is_without(
    alloc: Global,
    log: &Log,
    bricks: &[Brick],
    plan: &SetPlan,
    call: u32,
    graph: usize,
    cell: &Cell,
    number: u64,
    grant: Grant,
    brick: u8,
) -> Result<bool, AllocError>
    ensures { IfOk result (λ yes. yes ≡ true → IsWithout log.now bricks.now plan.now call graph cell.now number brick) }
{
    if grant.event as u64 >= number {
        return Ok(false);
    }
    if !has_member(plan, brick) {
        return Ok(false);
    }
    let cells = [*cell];
    let Some(rows) = granted_rows(alloc, log, bricks, call, graph, &cells, grant, brick)? else {
        return Ok(false);
    };
    let yes = is_absent(&rows);
    Ok(yes)
}

// Those of some bricks of the set that had granted a call the lock of a cell alone, where they are said to, and had no copy of it.
fn bricks_without(
    alloc: Global,
    log: &Log,
    bricks: &[Brick],
    plan: &SetPlan,
    call: u32,
    graph: usize,
    cell: &Cell,
    number: u64,
    grants: &BTreeMap<u8, Grant>,
    holders: &[u8],
) -> Result<Vec<u8>, AllocError>
    ensures { IfOk result (λ list. AllByRecursion (IsWithout log.now bricks.now plan.now call graph cell.now number) list.items) }
{
    let mut list = Vec::new(alloc);
    for brick in holders {
        let grant = grant_of(grants, *brick);
        if !is_without(
            alloc, log, bricks, plan, call, graph, cell, number, grant, *brick,
        )? {
            continue;
        }
        list.push(*brick)?;
    }
    Ok(list)
}

// Whether a quorum of the set's bricks had no copy of a cell.
fn have_no_copy(
    alloc: Global,
    log: &Log,
    bricks: &[Brick],
    plan: &SetPlan,
    found: &Found,
    call: u32,
    graph: usize,
    cell: &Cell,
    number: u64,
) -> Result<bool, AllocError>
    ensures { IfOk result (λ yes. yes ≡ true → HaveNoCopy log.now bricks.now plan.now call graph cell.now number) }
{
    let cells = [*cell];
    let grants = found.grants_of(alloc, plan, call, number as usize, &cells)?;
    let granted = bricks_of(alloc, &grants)?;
    let list = bricks_without(
        alloc,
        log,
        bricks,
        plan,
        call,
        graph,
        cell,
        number,
        &grants,
        granted.as_slice(),
    )?;
    let holders = list.as_slice();
    Ok(are_apart(holders) && are_enough(plan, holders))
}

// Whether a set is not the first one.
fn is_behind(set: u8) -> bool
    ensures { result ≡ true → 0 < set }
{
    0 < set
}

/// Whether a set of the call's graph, which is not the first one, had no copy of a cell when the call locked it before its reply.
///
/// # Errors
/// Out of memory.
pub(crate) fn is_lacking(
    alloc: Global,
    run: &Run,
    by: Replied,
    set: u8,
    cell: &Cell,
) -> Result<bool, AllocError>
    requires { by.graph ≡ graph_of_call run.now.log.now by.call }
    ensures { IfOk result (λ yes. yes ≡ true → IsLacking run.now.script.now run.now.plans.now run.now.log.now run.now.bricks.now by.call by.number set cell.now) }
{
    if !is_behind(set) {
        return Ok(false);
    }
    let Some(plan) = set_in(run.plans, run.graphs, by.graph, set) else {
        return Ok(false);
    };
    let yes = have_no_copy(
        alloc, run.log, run.bricks, plan, run.found, by.call, by.graph, cell, by.number,
    )?;
    Ok(yes)
}
