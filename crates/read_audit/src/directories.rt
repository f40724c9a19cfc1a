//! The names that each set has of a directory, by what a call has read, and whether a list shows just these.
ghost use Rattle.std.specs.Prelude.{◌≡◌, true, false, length, IfOk, IfSome};
ghost use Rattle.fop_types.specs.declared.contents.Content.TheVariants.{Names};
ghost use Rattle.mount_log.specs.Connections.{graph_of_call};
ghost use Rattle.read_audit.specs.Names.{ShowsNames, ListsAll};
ghost use Rattle.read_audit.specs.Naming.{HaveFirst};

use crate::cells::names_cell;
use crate::found::FetchAt;
use crate::lacking::is_lacking;
use crate::lists::are_union;
use crate::readings::{Replied, content_read};
use crate::runs::Run;
use change_audit::bearers::has_member;
use change_audit::call_graphs::{plan_in, set_in};
use fop_types::{Content, Gfid, Item, Seq};
use graph_build::Plan;
use std::alloc::{AllocError, Global};

// ---- one set

// The names of a directory, by a content that is that of one which was not removed.
fn items_in(content: Content) -> Option<Seq<Item>>
    ensures { IfSome result (λ items. content ≡ Names false items) }
{
    match content {
        Content::Names { removed, items } => {
            if removed {
                return None;
            }
            Some(items)
        }
        _ => None,
    }
}

/// The names that a set has of a directory, by the answer to a fetch of them.
///
/// # Errors
/// Out of memory.
pub(crate) fn names_by(
    alloc: Global,
    run: &Run,
    by: Replied,
    dir: Gfid,
    set: u8,
    at: FetchAt,
) -> Result<Option<Seq<Item>>, AllocError>
    requires { by.graph ≡ graph_of_call run.now.log.now by.call }
    ensures { IfOk result (λ found. IfSome found (λ items. ShowsNames run.now.script.now run.now.plans.now run.now.log.now run.now.bricks.now by.call by.number set dir items)) }
{
    let cell = names_cell(dir);
    let read = content_read(alloc, run, by, set, &cell, at)?;
    let Some(content) = read else {
        return Ok(None);
    };
    Ok(items_in(content))
}

// The names that a set has of a directory, by the last fetch of them from the set.
fn names_shown(
    alloc: Global,
    run: &Run,
    by: Replied,
    dir: Gfid,
    set: u8,
) -> Result<Option<Seq<Item>>, AllocError>
    requires { by.graph ≡ graph_of_call run.now.log.now by.call }
    ensures { IfOk result (λ found. IfSome found (λ items. ShowsNames run.now.script.now run.now.plans.now run.now.log.now run.now.bricks.now by.call by.number set dir items)) }
{
    let Some(plan) = set_in(run.plans, run.graphs, by.graph, set) else {
        return Ok(None);
    };
    let fetches = run
        .found
        .fetches_of(alloc, by.call, by.number, names_cell(dir))?;
    for at in &fetches {
        if has_member(plan, at.source) {
            let names = names_by(alloc, run, by, dir, set, *at)?;
            match names {
                Some(items) => return Ok(Some(items)),
                None => {}
            }
        }
    }
    Ok(None)
}

/// No names, where a set has no copy of a directory.
///
/// # Errors
/// Out of memory.
pub(crate) fn no_names(
    alloc: Global,
    run: &Run,
    by: Replied,
    dir: Gfid,
    set: u8,
) -> Result<Option<Seq<Item>>, AllocError>
    requires { by.graph ≡ graph_of_call run.now.log.now by.call }
    ensures { IfOk result (λ found. IfSome found (λ items. ShowsNames run.now.script.now run.now.plans.now run.now.log.now run.now.bricks.now by.call by.number set dir items)) }
{
    let cell = names_cell(dir);
    if !is_lacking(alloc, run, by, set, &cell)? {
        return Ok(None);
    }
    Ok(Some(Seq::new(alloc)))
}

// The names that a set has of a directory.
fn names_on(
    alloc: Global,
    run: &Run,
    by: Replied,
    dir: Gfid,
    set: u8,
) -> Result<Option<Seq<Item>>, AllocError>
    requires { by.graph ≡ graph_of_call run.now.log.now by.call }
    ensures { IfOk result (λ found. IfSome found (λ items. ShowsNames run.now.script.now run.now.plans.now run.now.log.now run.now.bricks.now by.call by.number set dir items)) }
{
    let shown = names_shown(alloc, run, by, dir, set)?;
    match shown {
        Some(items) => Ok(Some(items)),
        None => no_names(alloc, run, by, dir, set),
    }
}

// ---- all sets

// The names that the first sets, so many, have of a directory.
fn names_over(
    alloc: Global,
    run: &Run,
    by: Replied,
    dir: Gfid,
    sets: u8,
) -> Result<Option<Seq<Seq<Item>>>, AllocError>
    requires { by.graph ≡ graph_of_call run.now.log.now by.call }
    ensures { IfOk result (λ found. IfSome found (λ lists. HaveFirst run.now.script.now run.now.plans.now run.now.log.now run.now.bricks.now by.call by.number dir sets lists)) }
{
    let mut lists = Vec::new(alloc);
    for set in 0..sets {
        let names = names_on(alloc, run, by, dir, set)?;
        let Some(items) = names else {
            return Ok(None);
        };
        lists.push(items)?;
    }
    Ok(Some(Seq::from_vec(lists)))
}

/// How many sets a graph has.
pub(crate) fn sets_of(plan: &Plan) -> Option<u8>
    ensures { IfSome result (λ sets. sets ≡ length plan.now.sets) }
{
    match u8::try_from(plan.sets.len()) {
        Ok(sets) => Some(sets),
        Err(_) => None,
    }
}

/// Whether what is shown of a directory is what the sets of the call's graph have of it, by what the call has read.
///
/// # Errors
/// Out of memory.
pub(crate) fn is_listed(
    alloc: Global,
    run: &Run,
    by: Replied,
    dir: Gfid,
    shown: &[Item],
) -> Result<bool, AllocError>
    requires { by.graph ≡ graph_of_call run.now.log.now by.call }
    ensures { IfOk result (λ yes. yes ≡ true → ListsAll run.now.script.now run.now.plans.now run.now.log.now run.now.bricks.now by.call by.number dir shown.now) }
{
    let Some(plan) = plan_in(run.plans, run.graphs, by.graph) else {
        return Ok(false);
    };
    let Some(sets) = sets_of(plan) else {
        return Ok(false);
    };
    let names = names_over(alloc, run, by, dir, sets)?;
    let Some(lists) = names else {
        return Ok(false);
    };
    Ok(are_union(lists.as_slice(), shown))
}
