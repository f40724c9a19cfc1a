//! The audit.
ghost use Rattle.std.specs.Prelude.{◌≡◌, ◌<◌, ◌≤◌, ◌-◌, true, length, None, Some, get_or, slice_get, IfOk, IfSome};
ghost use Rattle.fop_types.specs.declared.history.Entry.{Entry as Made};
ghost use Rattle.change_audit.specs.Acknowledged.{mark_of as marked_as};
ghost use Rattle.change_audit.specs.Borne.{IsBorne, AreBorne};
ghost use Rattle.mount_log.specs.Causes.{plan_of_volfile};
ghost use Rattle.change_audit.specs.CallGraphs.{AreGraphsOf, set_in_plan};
ghost use Rattle.change_audit.specs.declared.answers.Bearer.{Bearer as Claimed};
ghost use Rattle.change_audit.specs.Claims.{KeepClaims};
ghost use Rattle.change_audit.specs.Entries.{AreNotesOf, IsClaimed, IsClaimedInTime, IsEntryClaimed, AreNotMarked, NoneIsDue};

use crate::acknowledged::mark_of;
use crate::bearers::has_bearers;
use crate::call_graphs::{CallGraphs, graph_of, set_in, set_with};
use crate::candidates::Candidate;
use crate::claims::Claims;
use crate::history::{entry_at, op_at};
use crate::notes::{Notes, notes_of};
use crate::placing::is_on_set;
use brick_machine::Brick;
use fop_types::FlatOp;
use graph_build::Plan;
use mount_log::Log;
use script_lang::Script;
use std::alloc::{AllocError, Global};

// The number of the set that the first of the bearers is in.
fn set_of(plans: &[Plan], graphs: &CallGraphs, graph: usize, change: &Candidate) -> Option<u8>
    ensures { (first : Claimed) → slice_get change.now.bearers 0 ≡ Some first → 1 ≤ graph → result ≡ set_in_plan (plan_of_volfile plans.now (slice_get graphs.now.volfiles (graph - 1))) first.brick }
{
    let first = change.bearers.as_slice().first()?;
    set_with(plans, graphs, graph, first.brick)
}

// Whether a set is the one that is given, if one is.
fn is_from(from: Option<u8>, set: u8) -> bool
    ensures { result ≡ true → IfSome from (λ one. set ≡ one) }
{
    match from {
        Some(one) => set == one,
        None => true,
    }
}

// Whether the bricks of a set bear this change of a call by the event of a number, and it makes the operation, on the set of the
// name of the object that this makes, or on the one that is given.
fn is_borne(
    alloc: Global,
    script: &Script,
    plans: &[Plan],
    log: &Log,
    bricks: &[Brick],
    ops: &[FlatOp],
    notes: &Notes,
    call: u32,
    number: u64,
    operation: &FlatOp,
    from: Option<u8>,
    change: &Candidate,
) -> Result<bool, AllocError>
    requires { AreGraphsOf script.now log.now notes.now.graphs }
    ensures { IfOk result (λ yes. yes ≡ true → IsBorne script.now plans.now log.now bricks.now ops.now call change.now.change number operation.now from) }
{
    let graphs = &notes.graphs;
    let Some(graph) = graph_of(graphs, call) else {
        return Ok(false);
    };
    let Some(set) = set_of(plans, graphs, graph, change) else {
        return Ok(false);
    };
    let Some(plan) = set_in(plans, graphs, graph, set) else {
        return Ok(false);
    };
    if !is_from(from, set) {
        return Ok(false);
    }
    let makers = &notes.leads.makers;
    if !is_on_set(alloc, plans, log, graphs, ops, makers, operation, set)? {
        return Ok(false);
    }
    let bearers = change.bearers.as_slice();
    let of = change.change;
    let yes = has_bearers(
        alloc, log, bricks, plan, call, graph, of, number, operation, bearers,
    )?;
    Ok(yes)
}

// The number of a change of a call that makes the operation and is on the bricks of a set by the event of a number: the first
// that was not taken.
fn change_for(
    alloc: Global,
    script: &Script,
    plans: &[Plan],
    log: &Log,
    bricks: &[Brick],
    ops: &[FlatOp],
    notes: &Notes,
    claims: &Claims,
    call: u32,
    number: u64,
    operation: &FlatOp,
    from: Option<u8>,
) -> Result<Option<u64>, AllocError>
    requires { AreGraphsOf script.now log.now notes.now.graphs }
    ensures { IfOk result (λ found. IfSome found (λ change. IsBorne script.now plans.now log.now bricks.now ops.now call change number operation.now from)) }
{
    let found = &notes.leads.found;
    for at in found.begin(call)..found.count() {
        let Some(change) = found.change(at, call) else {
            return Ok(None);
        };
        if claims.has(change.change) {
            continue;
        }
        if is_borne(
            alloc, script, plans, log, bricks, ops, notes, call, number, operation, from, change,
        )? {
            return Ok(Some(change.change));
        }
    }
    Ok(None)
}

// Takes a change for the entry at a place, whose call and operation these are, by the event of a number.
fn take_change(
    alloc: Global,
    script: &Script,
    plans: &[Plan],
    log: &Log,
    bricks: &[Brick],
    ops: &[FlatOp],
    notes: &Notes,
    claims: &mut Claims,
    k: usize,
    call: u32,
    number: u64,
    operation: &FlatOp,
    from: Option<u8>,
) -> Result<bool, AllocError>
    requires { AreGraphsOf script.now log.now notes.now.graphs }
    ensures claimed { IfOk result (λ yes. yes ≡ true → IsClaimed script.now plans.now log.now bricks.now ops.now claims.new k call number operation.now from) }
    ensures keeps { IfOk result (λ yes. KeepClaims claims.old claims.new) }
{
    let found = change_for(
        alloc, script, plans, log, bricks, ops, notes, claims, call, number, operation, from,
    )?;
    let Some(change) = found else {
        return Ok(false);
    };
    let did = claims.take(change, k)?;
    Ok(did)
}

// Takes a change for the entry at a place, if its call was answered well.
fn take_due(
    alloc: Global,
    script: &Script,
    plans: &[Plan],
    log: &Log,
    bricks: &[Brick],
    ops: &[FlatOp],
    notes: &Notes,
    claims: &mut Claims,
    k: usize,
    call: u32,
    operation: &FlatOp,
    from: Option<u8>,
) -> Result<bool, AllocError>
    requires { AreNotesOf script.now log.now notes.now }
    ensures claimed { IfOk result (λ yes. yes ≡ true → IsClaimedInTime script.now plans.now log.now bricks.now ops.now claims.new k call operation.now from) }
    ensures not_due { IfOk result (λ yes. marked_as notes.now.marks call ≡ None → yes ≡ true) }
    ensures keeps { IfOk result (λ yes. KeepClaims claims.old claims.new) }
{
    let Some(number) = mark_of(notes.marks.as_slice(), call) else {
        return Ok(true);
    };
    let yes = take_change(
        alloc, script, plans, log, bricks, ops, notes, claims, k, call, number, operation, from,
    )?;
    Ok(yes)
}

// The set of the change of the entry at a place, if the list has one.
fn set_at(from: &[Option<u8>], k: usize) -> Option<u8>
    ensures { result ≡ get_or from.now k None }
{
    match from.get(k) {
        Some(set) => *set,
        None => None,
    }
}

// Takes a change for the entry at a place, if its call was answered well.
fn take_entry(
    alloc: Global,
    script: &Script,
    plans: &[Plan],
    log: &Log,
    bricks: &[Brick],
    ops: &[FlatOp],
    from: &[Option<u8>],
    notes: &Notes,
    claims: &mut Claims,
    k: usize,
) -> Result<bool, AllocError>
    requires { AreNotesOf script.now log.now notes.now }
    ensures claimed { IfOk result (λ yes. yes ≡ true → (entry : Made) → slice_get log.now.history k ≡ Some entry → IsEntryClaimed script.now plans.now log.now bricks.now ops.now from.now claims.new k entry) }
    ensures not_due { IfOk result (λ yes. AreNotMarked log.now.history notes.now.marks → k < length log.now.history → k < length ops.now → yes ≡ true) }
    ensures keeps { IfOk result (λ yes. KeepClaims claims.old claims.new) }
{
    let Some(entry) = entry_at(log, k) else {
        return Ok(false);
    };
    let Some(operation) = op_at(ops, k) else {
        return Ok(false);
    };
    let call = entry.call;
    let set = set_at(from, k);
    let yes = take_due(
        alloc, script, plans, log, bricks, ops, notes, claims, k, call, operation, set,
    )?;
    Ok(yes)
}

// Whether each entry whose call was answered well has a change of its own on the bricks, by the notes of the run.
fn are_borne(
    alloc: Global,
    script: &Script,
    plans: &[Plan],
    log: &Log,
    bricks: &[Brick],
    ops: &[FlatOp],
    from: &[Option<u8>],
    notes: &Notes,
) -> Result<bool, AllocError>
    requires { AreNotesOf script.now log.now notes.now }
    ensures sound { IfOk result (λ yes. yes ≡ true → AreBorne script.now plans.now log.now bricks.now ops.now from.now) }
    ensures not_due { IfOk result (λ yes. AreNotMarked log.now.history notes.now.marks → length log.now.history ≤ length ops.now → yes ≡ true) }
{
    let mut claims = Claims::new(alloc);
    for k in 0..log.history.len() {
        if !take_entry(
            alloc,
            script,
            plans,
            log,
            bricks,
            ops,
            from,
            notes,
            &mut claims,
            k,
        )? {
            return Ok(false);
        }
    }
    Ok(true)
}

/// Whether each entry of the history whose call was answered well has a change of its own on the bricks. A quorum of the bricks
/// of one set have answered Done to the op of the change, which makes the entry's operation, and then to its post. Both were for
/// winds of the call; the post was sent when the first answer had arrived, and the second arrived by the event of the call's
/// reply. Where the operation makes an object, the set is that of its name; where `from` has a set for the entry, it is that one.
/// `ops` are the operations of the entries, in their order; where they are fewer than the entries, it is false.
///
/// # Errors
/// Out of memory.
pub fn changes_are_borne(
    alloc: Global,
    script: &Script,
    plans: &[Plan],
    log: &Log,
    bricks: &[Brick],
    ops: &[FlatOp],
    from: &[Option<u8>],
) -> Result<bool, AllocError>
    ensures sound { IfOk result (λ yes. yes ≡ true → AreBorne script.now plans.now log.now bricks.now ops.now from.now) }
    ensures not_due { IfOk result (λ yes. NoneIsDue log.now → length log.now.history ≤ length ops.now → yes ≡ true) }
{
    match notes_of(alloc, script, log, bricks, ops)? {
        Some(notes) => {
            let yes = are_borne(alloc, script, plans, log, bricks, ops, from, &notes);
            drop(notes);
            yes
        }
        None => Ok(false),
    }
}
