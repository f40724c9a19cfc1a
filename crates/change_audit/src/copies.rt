//! The audit of copies.
ghost use Rattle.std.specs.Prelude.{◌≡◌, ◌≢◌, [], true, length, Contains, Some, option_copied, slice_get, IfOk, IfSome};
ghost use Rattle.fop_types.specs.declared.copy_jobs.CopyRecord.{CopyRecord as Copied};
ghost use Rattle.change_audit.specs.CallGraphs.{AreGraphsOf};
ghost use Rattle.change_audit.specs.Claims.{KeepClaims};
ghost use Rattle.change_audit.specs.Copied.{IsMade, CopiesAreMade};
ghost use Rattle.change_audit.specs.Copying.{IsWithinTables, IsCopyClaimed, IsCopyDue};

use crate::bearers::has_member;
use crate::call_graphs::{CallGraphs, call_graphs, set_in, set_with};
use crate::claims::Claims;
use crate::copy_finding::{Found, Replacements, find_replacements};
use crate::replacing::replacement_for;
use crate::sources::has_sound_source;
use brick_machine::Brick;
use fop_types::{CopyRecord, SetPlan};
use graph_build::Plan;
use mount_log::Log;
use script_lang::Script;
use std::alloc::{AllocError, Global};

// ---- the set

fn has_sink(plan: &SetPlan, copy: &CopyRecord) -> bool
    ensures sink { result ≡ true → Contains plan.now.bricks copy.now.sink }
    ensures differ { result ≡ true → copy.now.source ≢ copy.now.sink }
    ensures complete { Contains plan.now.bricks copy.now.sink → copy.now.source ≢ copy.now.sink → result ≡ true }
{
    copy.source != copy.sink && has_member(plan, copy.sink)
}

// Whether the source and the sink of a copy are two bricks of one set of a graph, and the source is sound.
fn is_within(
    alloc: Global,
    plans: &[Plan],
    graphs: &CallGraphs,
    graph: usize,
    copy: &CopyRecord,
) -> Result<bool, AllocError>
    ensures { IfOk result (λ yes. yes ≡ true → IsWithinTables plans.now graphs.now graph copy.now) }
{
    let Some(set) = set_with(plans, graphs, graph, copy.sink) else {
        return Ok(false);
    };
    let Some(plan) = set_in(plans, graphs, graph, set) else {
        return Ok(false);
    };
    if !has_sink(plan, copy) {
        return Ok(false);
    }
    let yes = has_sound_source(alloc, plan, copy)?;
    Ok(yes)
}

// ---- the copies

// The wind of the replacement by which a copy was made.
fn made_by(
    alloc: Global,
    script: &Script,
    plans: &[Plan],
    log: &Log,
    bricks: &[Brick],
    graphs: &CallGraphs,
    copy: &CopyRecord,
    number: u64,
    at: Found,
) -> Result<Option<u64>, AllocError>
    requires { AreGraphsOf script.now log.now graphs.now }
    ensures { IfOk result (λ found. IfSome found (λ wind. IsMade script.now plans.now log.now bricks.now copy.now number wind)) }
{
    let Some(on) = replacement_for(alloc, log, bricks, copy, number, at)? else {
        return Ok(None);
    };
    if !is_within(alloc, plans, graphs, on.graph as usize, copy)? {
        return Ok(None);
    }
    Ok(Some(on.wind))
}

// Takes a replacement for the copy at a place.
fn take_replacement(
    alloc: Global,
    script: &Script,
    plans: &[Plan],
    log: &Log,
    bricks: &[Brick],
    graphs: &CallGraphs,
    found: &mut Replacements,
    claims: &mut Claims,
    k: usize,
    number: u64,
    copy: &CopyRecord,
) -> Result<bool, AllocError>
    requires { AreGraphsOf script.now log.now graphs.now }
    ensures claimed { IfOk result (λ yes. yes ≡ true → IsCopyClaimed script.now plans.now log.now bricks.now claims.new k number copy.now) }
    ensures keeps { IfOk result (λ yes. KeepClaims claims.old claims.new) }
{
    let Some(at) = found.next(copy)? else {
        return Ok(false);
    };
    let made = made_by(alloc, script, plans, log, bricks, graphs, copy, number, at)?;
    let Some(wind) = made else {
        return Ok(false);
    };
    let did = claims.take(wind, k)?;
    Ok(did)
}

fn copy_at(log: &Log, k: usize) -> Option<&CopyRecord>
    ensures { option_copied result ≡ slice_get log.now.copies k }
{
    log.copies.as_slice().get(k)
}

fn number_at(log: &Log, k: usize) -> Option<u64>
    ensures { result ≡ slice_get log.now.copied k }
{
    log.copied.as_slice().get(k).copied()
}

fn take_copy(
    alloc: Global,
    script: &Script,
    plans: &[Plan],
    log: &Log,
    bricks: &[Brick],
    graphs: &CallGraphs,
    found: &mut Replacements,
    claims: &mut Claims,
    k: usize,
) -> Result<bool, AllocError>
    requires { AreGraphsOf script.now log.now graphs.now }
    ensures claimed { IfOk result (λ yes. yes ≡ true → (copy : Copied) → slice_get log.now.copies k ≡ Some copy → IsCopyDue script.now plans.now log.now bricks.now claims.new k copy) }
    ensures keeps { IfOk result (λ yes. KeepClaims claims.old claims.new) }
{
    let Some(copy) = copy_at(log, k) else {
        return Ok(false);
    };
    let Some(number) = number_at(log, k) else {
        return Ok(false);
    };
    let yes = take_replacement(
        alloc, script, plans, log, bricks, graphs, found, claims, k, number, copy,
    )?;
    Ok(yes)
}

fn are_numbered(log: &Log) -> bool
    ensures copied { result ≡ true → length log.now.copied ≡ length log.now.copies }
    ensures skipped { result ≡ true → length log.now.skipped ≡ length log.now.skips }
    ensures complete { length log.now.copied ≡ length log.now.copies → length log.now.skipped ≡ length log.now.skips → result ≡ true }
{
    log.copied.len() == log.copies.len() && log.skipped.len() == log.skips.len()
}

// Whether each copy was made, by a replacement of its own, by the graphs of the calls.
fn each_is_made(
    alloc: Global,
    script: &Script,
    plans: &[Plan],
    log: &Log,
    bricks: &[Brick],
    graphs: &CallGraphs,
    found: &mut Replacements,
) -> Result<bool, AllocError>
    requires graphs { AreGraphsOf script.now log.now graphs.now }
    requires copied { length log.now.copied ≡ length log.now.copies }
    requires skipped { length log.now.skipped ≡ length log.now.skips }
    ensures sound { IfOk result (λ yes. yes ≡ true → CopiesAreMade script.now plans.now log.now bricks.now) }
    ensures none { IfOk result (λ yes. log.now.copies ≡ [] → yes ≡ true) }
{
    let mut claims = Claims::new(alloc);
    for k in 0..log.copies.len() {
        if !take_copy(
            alloc,
            script,
            plans,
            log,
            bricks,
            graphs,
            found,
            &mut claims,
            k,
        )? {
            return Ok(false);
        }
    }
    Ok(true)
}

fn are_all_made(
    alloc: Global,
    script: &Script,
    plans: &[Plan],
    log: &Log,
    bricks: &[Brick],
    graphs: &CallGraphs,
) -> Result<bool, AllocError>
    requires graphs { AreGraphsOf script.now log.now graphs.now }
    requires copied { length log.now.copied ≡ length log.now.copies }
    requires skipped { length log.now.skipped ≡ length log.now.skips }
    ensures sound { IfOk result (λ yes. yes ≡ true → CopiesAreMade script.now plans.now log.now bricks.now) }
    ensures none { IfOk result (λ yes. log.now.copies ≡ [] → yes ≡ true) }
{
    let mut found = find_replacements(alloc, log, bricks)?;
    let yes = each_is_made(alloc, script, plans, log, bricks, graphs, &mut found);
    drop(found);
    yes
}

/// Whether each copy and each skip of the log has the number of its event, and each copy was made, by a replacement of its own:
/// the source answered the fetch of the cell, in that event the replacement of the cell by just that answer was sent to the
/// sink for a wind of the same call, and the sink confirmed it by the event of the copy. Both are bricks of one set of the
/// graph, and the source is sound by the rows that the copy names.
///
/// # Errors
/// Out of memory.
pub fn copies_are_made(
    alloc: Global,
    script: &Script,
    plans: &[Plan],
    log: &Log,
    bricks: &[Brick],
) -> Result<bool, AllocError>
    ensures sound { IfOk result (λ yes. yes ≡ true → CopiesAreMade script.now plans.now log.now bricks.now) }
    ensures none { IfOk result (λ yes. log.now.copies ≡ [] → length log.now.copied ≡ length log.now.copies → length log.now.skipped ≡ length log.now.skips → yes ≡ true) }
{
    if !are_numbered(log) {
        return Ok(false);
    }
    let graphs = call_graphs(alloc, script, log)?;
    let yes = are_all_made(alloc, script, plans, log, bricks, &graphs);
    drop(graphs);
    yes
}
