//! Whether a name is nowhere in a directory, and what else a call has read of a directory: that it was removed, or is not empty.
ghost use Rattle.std.specs.Prelude.{◌≡◌, ℕ, ◌<◌, true, IfOk, IfSome, MatchOption};
ghost use Rattle.std.specs.Option.{option_copied};
ghost use Rattle.dht_linkto.specs.Known.{is_no_object as is_none};
ghost use Rattle.fop_types.specs.Cells.{names_cell as names_of};
ghost use Rattle.fop_types.specs.Names.{has_real_name as has_real};
ghost use Rattle.mount_log.specs.Connections.{graph_of_call};
ghost use Rattle.read_audit.specs.Erring.{AreNames, Lack, IsFetchedSomewhere};
ghost use Rattle.read_audit.specs.Errors.{IsShowing, IsNotOn, IsNowhere, IsMissing};

use crate::cells::names_cell;
use crate::directories::{names_by, no_names, sets_of};
use crate::found::FetchAt;
use crate::readings::{Replied, content_read};
use crate::runs::Run;
use change_audit::bearers::has_member;
use change_audit::call_graphs::{plan_in, set_in, set_with};
use dht_linkto::is_link;
use fop_types::{Content, Gfid, Item, Seq, find_item};
use std::alloc::{AllocError, Global};

// ---- a name on the sets

fn is_no_object(item: Option<&Item>) -> bool
    ensures { result ≡ is_none (option_copied item.entry) }
{
    match item {
        None => true,
        Some(item) => is_link(item.kind),
    }
}

// Whether there are names, and none is that of a file or a directory of this name.
fn lack(names: &Option<Seq<Item>>, name: &[u8]) -> bool
    ensures { result ≡ true → Lack names.now name.now }
{
    match names {
        Some(items) => is_no_object(find_item(items.as_slice(), name)),
        None => false,
    }
}

// Whether a set has no file and no directory of a name, by the answer to a fetch of a directory's names.
fn is_not_by(
    alloc: Global,
    run: &Run,
    by: Replied,
    dir: Gfid,
    name: &[u8],
    set: u8,
    at: FetchAt,
) -> Result<bool, AllocError>
    requires { by.graph ≡ graph_of_call run.now.log.now by.call }
    ensures { IfOk result (λ yes. yes ≡ true → IsNotOn run.now.script.now run.now.plans.now run.now.log.now run.now.bricks.now by.call by.number dir name.now set) }
{
    let names = names_by(alloc, run, by, dir, set, at)?;
    Ok(lack(&names, name))
}

// The same, where the set has no copy of the directory.
fn is_without(
    alloc: Global,
    run: &Run,
    by: Replied,
    dir: Gfid,
    name: &[u8],
    set: u8,
) -> Result<bool, AllocError>
    requires { by.graph ≡ graph_of_call run.now.log.now by.call }
    ensures { IfOk result (λ yes. yes ≡ true → IsNotOn run.now.script.now run.now.plans.now run.now.log.now run.now.bricks.now by.call by.number dir name.now set) }
{
    let names = no_names(alloc, run, by, dir, set)?;
    Ok(lack(&names, name))
}

// Whether a set has no file and no directory of a name, by some fetch of the directory's names from the set.
fn is_not_shown(
    alloc: Global,
    run: &Run,
    by: Replied,
    dir: Gfid,
    name: &[u8],
    set: u8,
) -> Result<bool, AllocError>
    requires { by.graph ≡ graph_of_call run.now.log.now by.call }
    ensures { IfOk result (λ yes. yes ≡ true → IsNotOn run.now.script.now run.now.plans.now run.now.log.now run.now.bricks.now by.call by.number dir name.now set) }
{
    let Some(plan) = set_in(run.plans, run.graphs, by.graph, set) else {
        return Ok(false);
    };
    let fetches = run
        .found
        .fetches_of(alloc, by.call, by.number, names_cell(dir))?;
    for at in &fetches {
        if !has_member(plan, at.source) {
            continue;
        }
        if is_not_by(alloc, run, by, dir, name, set, *at)? {
            return Ok(true);
        }
    }
    Ok(false)
}

fn is_not_on(
    alloc: Global,
    run: &Run,
    by: Replied,
    dir: Gfid,
    name: &[u8],
    set: u8,
) -> Result<bool, AllocError>
    requires { by.graph ≡ graph_of_call run.now.log.now by.call }
    ensures { IfOk result (λ yes. yes ≡ true → IsNotOn run.now.script.now run.now.plans.now run.now.log.now run.now.bricks.now by.call by.number dir name.now set) }
{
    if is_not_shown(alloc, run, by, dir, name, set)? {
        return Ok(true);
    }
    let yes = is_without(alloc, run, by, dir, name, set)?;
    Ok(yes)
}

// Whether none of the first sets, so many, has a file or a directory of a name.
fn is_on_none(
    alloc: Global,
    run: &Run,
    by: Replied,
    dir: Gfid,
    name: &[u8],
    sets: u8,
) -> Result<bool, AllocError>
    requires { by.graph ≡ graph_of_call run.now.log.now by.call }
    ensures { IfOk result (λ yes. yes ≡ true → (set : ℕ) → set < sets → IsNotOn run.now.script.now run.now.plans.now run.now.log.now run.now.bricks.now by.call by.number dir name.now set) }
{
    for set in 0..sets {
        if !is_not_on(alloc, run, by, dir, name, set)? {
            return Ok(false);
        }
    }
    Ok(true)
}

/// Whether no set of the call's graph has a file or a directory of the name.
///
/// # Errors
/// Out of memory.
pub(crate) fn is_nowhere(
    alloc: Global,
    run: &Run,
    by: Replied,
    dir: Gfid,
    name: &[u8],
) -> Result<bool, AllocError>
    requires { by.graph ≡ graph_of_call run.now.log.now by.call }
    ensures { IfOk result (λ yes. yes ≡ true → IsNowhere run.now.script.now run.now.plans.now run.now.log.now run.now.bricks.now by.call by.number dir name.now) }
{
    let Some(plan) = plan_in(run.plans, run.graphs, by.graph) else {
        return Ok(false);
    };
    let Some(sets) = sets_of(plan) else {
        return Ok(false);
    };
    let yes = is_on_none(alloc, run, by, dir, name, sets)?;
    Ok(yes)
}

// ---- what a set showed

fn is_of_removed(content: &Content) -> bool
    ensures { result ≡ true → AreNames (λ removed items. removed ≡ true) content.now }
{
    match content {
        Content::Names { removed, .. } => *removed,
        _ => false,
    }
}

fn has_real_name(items: &[Item]) -> bool
    ensures { result ≡ has_real items.now }
{
    for item in items {
        if !is_link(item.kind) {
            return true;
        }
    }
    false
}

fn is_of_some(content: &Content) -> bool
    ensures { result ≡ true → AreNames (λ removed items. has_real items ≡ true) content.now }
{
    match content {
        Content::Names { items, .. } => has_real_name(items.as_slice()),
        _ => false,
    }
}

// The content of a directory's names, from whatever set, by the answer to a fetch.
fn content_by(
    alloc: Global,
    run: &Run,
    by: Replied,
    dir: Gfid,
    at: FetchAt,
) -> Result<Option<Content>, AllocError>
    requires { by.graph ≡ graph_of_call run.now.log.now by.call }
    ensures { IfOk result (λ found. IfSome found (λ content. IsFetchedSomewhere run.now.script.now run.now.plans.now run.now.log.now run.now.bricks.now by.call by.number (names_of dir) content)) }
{
    let Some(set) = set_with(run.plans, run.graphs, by.graph, at.source) else {
        return Ok(None);
    };
    let cell = names_cell(dir);
    let content = content_read(alloc, run, by, set, &cell, at)?;
    Ok(content)
}

// Whether a set showed that a directory was removed, by the answer to a fetch.
fn is_removed_by(
    alloc: Global,
    run: &Run,
    by: Replied,
    dir: Gfid,
    at: FetchAt,
) -> Result<bool, AllocError>
    requires { by.graph ≡ graph_of_call run.now.log.now by.call }
    ensures { IfOk result (λ yes. yes ≡ true → IsShowing run.now.script.now run.now.plans.now run.now.log.now run.now.bricks.now by.call by.number dir (λ removed items. removed ≡ true)) }
{
    let read = content_by(alloc, run, by, dir, at)?;
    let Some(content) = read else {
        return Ok(false);
    };
    Ok(is_of_removed(&content))
}

// Whether a set showed that a directory was removed.
fn is_removed(alloc: Global, run: &Run, by: Replied, dir: Gfid) -> Result<bool, AllocError>
    requires { by.graph ≡ graph_of_call run.now.log.now by.call }
    ensures { IfOk result (λ yes. yes ≡ true → IsShowing run.now.script.now run.now.plans.now run.now.log.now run.now.bricks.now by.call by.number dir (λ removed items. removed ≡ true)) }
{
    let fetches = run
        .found
        .fetches_of(alloc, by.call, by.number, names_cell(dir))?;
    for at in &fetches {
        if is_removed_by(alloc, run, by, dir, *at)? {
            return Ok(true);
        }
    }
    Ok(false)
}

// Whether a set showed a file or a directory in a directory, by the answer to a fetch.
fn is_used_by(
    alloc: Global,
    run: &Run,
    by: Replied,
    dir: Gfid,
    at: FetchAt,
) -> Result<bool, AllocError>
    requires { by.graph ≡ graph_of_call run.now.log.now by.call }
    ensures { IfOk result (λ yes. yes ≡ true → IsShowing run.now.script.now run.now.plans.now run.now.log.now run.now.bricks.now by.call by.number dir (λ removed items. has_real items ≡ true)) }
{
    let read = content_by(alloc, run, by, dir, at)?;
    let Some(content) = read else {
        return Ok(false);
    };
    Ok(is_of_some(&content))
}

/// Whether a set showed a file or a directory in a directory.
///
/// # Errors
/// Out of memory.
pub(crate) fn is_used(alloc: Global, run: &Run, by: Replied, dir: Gfid) -> Result<bool, AllocError>
    requires { by.graph ≡ graph_of_call run.now.log.now by.call }
    ensures { IfOk result (λ yes. yes ≡ true → IsShowing run.now.script.now run.now.plans.now run.now.log.now run.now.bricks.now by.call by.number dir (λ removed items. has_real items ≡ true)) }
{
    let fetches = run
        .found
        .fetches_of(alloc, by.call, by.number, names_cell(dir))?;
    for at in &fetches {
        if is_used_by(alloc, run, by, dir, *at)? {
            return Ok(true);
        }
    }
    Ok(false)
}

// ---- a name that comes next

fn is_next_nowhere(
    alloc: Global,
    run: &Run,
    by: Replied,
    dir: Gfid,
    next: Option<&Seq<u8>>,
) -> Result<bool, AllocError>
    requires { by.graph ≡ graph_of_call run.now.log.now by.call }
    ensures { IfOk result (λ yes. yes ≡ true → MatchOption (option_copied next.entry) ⊥ (IsNowhere run.now.script.now run.now.plans.now run.now.log.now run.now.bricks.now by.call by.number dir)) }
{
    match next {
        Some(name) => {
            let yes = is_nowhere(alloc, run, by, dir, name.as_slice())?;
            Ok(yes)
        }
        None => Ok(false),
    }
}

/// Whether a directory was removed, or the name that comes next is nowhere in it.
///
/// # Errors
/// Out of memory.
pub(crate) fn is_missing(
    alloc: Global,
    run: &Run,
    by: Replied,
    dir: Gfid,
    next: Option<&Seq<u8>>,
) -> Result<bool, AllocError>
    requires { by.graph ≡ graph_of_call run.now.log.now by.call }
    ensures { IfOk result (λ yes. yes ≡ true → IsMissing run.now.script.now run.now.plans.now run.now.log.now run.now.bricks.now by.call by.number dir (option_copied next.entry)) }
{
    if is_removed(alloc, run, by, dir)? {
        return Ok(true);
    }
    let yes = is_next_nowhere(alloc, run, by, dir, next)?;
    Ok(yes)
}
