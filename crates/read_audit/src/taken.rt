//! The sets from which changes take names, or of the objects that they change, and whether changes work on what the paths of their
//! calls lead to, by names that the calls have read.
ghost use Rattle.std.specs.Prelude.{◌≡◌, true, IfOk, IfSome};
ghost use Rattle.script_lang.specs.Accepted.{IsAccepted};
ghost use Rattle.mount_log.specs.Submissions.{submissions_of};
ghost use Rattle.change_audit.specs.Acknowledged.{AreMarked};
ghost use Rattle.change_audit.specs.Claims.{KeepClaims};
ghost use Rattle.read_audit.specs.Taken.{RestsOnNames, EntriesRestOnNames};
ghost use Rattle.read_audit.specs.Taking.{key_of as key_for, IsSetClaimed, RestsForCall, RestsInTime, EntryRests};

use crate::finding::find;
use crate::operations::{TakenFrom, rests_on};
use crate::readings::{Replied, call_graph};
use crate::runs::Run;
use crate::submissions::made_at;
use crate::unlinks::{Unlinks, unlinks_of};
use brick_machine::Brick;
use change_audit::acknowledged::{answered_well, mark_of};
use change_audit::call_graphs::call_graphs;
use change_audit::claims::Claims;
use change_audit::history::{entry_at, op_at};
use fop_types::{FlatOp, Seq};
use graph_build::Plan;
use log_calls::calls_in;
use mount_log::Log;
use mount_log::heads::Head;
use script_lang::Script;
use std::alloc::{AllocError, Global};
use submitted_calls::Submitted;

// ---- entries

// The set of what a call's operation changes or takes away, by what the call had read by the event of a number.
fn rests_by(
    alloc: Global,
    run: &Run,
    ops: &[FlatOp],
    unlinks: &Unlinks,
    made: &Submitted,
    call: u32,
    number: u64,
    operation: &FlatOp,
) -> Result<Option<TakenFrom>, AllocError>
    ensures { IfOk result (λ found. IfSome found (λ from. RestsOnNames run.now.script.now run.now.plans.now run.now.log.now run.now.bricks.now ops.now call number made.now.call operation.now from.set)) }
{
    let Some(graph) = call_graph(run, call) else {
        return Ok(None);
    };
    let by = Replied {
        call,
        graph,
        number,
    };
    let from = rests_on(alloc, run, by, ops, unlinks, made.call, operation)?;
    Ok(from)
}

// The same of a call by its number.
fn rests_for(
    alloc: Global,
    run: &Run,
    calls: &[Submitted],
    ops: &[FlatOp],
    unlinks: &Unlinks,
    call: u32,
    number: u64,
    operation: &FlatOp,
) -> Result<Option<TakenFrom>, AllocError>
    requires { calls.now ≡ submissions_of run.now.script.now run.now.log.now }
    ensures { IfOk result (λ found. IfSome found (λ from. RestsForCall run.now.script.now run.now.plans.now run.now.log.now run.now.bricks.now ops.now call number operation.now from.set)) }
{
    let Some(made) = made_at(calls, call) else {
        return Ok(None);
    };
    let from = rests_by(alloc, run, ops, unlinks, made, call, number, operation)?;
    Ok(from)
}

// The same by its reply, if it was answered well.
fn rests_in_time(
    alloc: Global,
    run: &Run,
    calls: &[Submitted],
    marks: &[Option<u64>],
    ops: &[FlatOp],
    unlinks: &Unlinks,
    call: u32,
    operation: &FlatOp,
) -> Result<Option<TakenFrom>, AllocError>
    requires calls { calls.now ≡ submissions_of run.now.script.now run.now.log.now }
    requires marks { AreMarked run.now.log.now.replies marks.now }
    ensures { IfOk result (λ found. IfSome found (λ from. RestsInTime run.now.script.now run.now.plans.now run.now.log.now run.now.bricks.now ops.now call operation.now from.set)) }
{
    let Some(number) = mark_of(marks, call) else {
        return Ok(Some(TakenFrom { set: None }));
    };
    let from = rests_for(alloc, run, calls, ops, unlinks, call, number, operation)?;
    Ok(from)
}

// The same of the entry at a place.
fn entry_rests(
    alloc: Global,
    run: &Run,
    calls: &[Submitted],
    marks: &[Option<u64>],
    ops: &[FlatOp],
    unlinks: &Unlinks,
    k: usize,
) -> Result<Option<TakenFrom>, AllocError>
    requires calls { calls.now ≡ submissions_of run.now.script.now run.now.log.now }
    requires marks { AreMarked run.now.log.now.replies marks.now }
    ensures { IfOk result (λ found. IfSome found (λ from. EntryRests run.now.script.now run.now.plans.now run.now.log.now run.now.bricks.now ops.now k from.set)) }
{
    let Some(entry) = entry_at(run.log, k) else {
        return Ok(None);
    };
    let Some(operation) = op_at(ops, k) else {
        return Ok(None);
    };
    let from = rests_in_time(
        alloc, run, calls, marks, ops, unlinks, entry.call, operation,
    )?;
    Ok(from)
}

// ---- the sets of the entries of one call

// A number for a call and a set.
fn key_of(call: u32, set: u8) -> u64
    ensures { result ≡ key_for call set }
{
    call as u64 * 256 + set as u64
}

// Takes the set of an entry's call for the entry, if it has a set. It is false where that was taken for another entry.
fn take_set(log: &Log, claims: &mut Claims, k: usize, from: Option<u8>) -> Result<bool, AllocError>
    ensures claimed { IfOk result (λ yes. yes ≡ true → IsSetClaimed log.now claims.new k from) }
    ensures keeps { IfOk result (λ yes. KeepClaims claims.old claims.new) }
{
    let Some(set) = from else {
        return Ok(true);
    };
    let Some(entry) = entry_at(log, k) else {
        return Ok(false);
    };
    let key = key_of(entry.call, set);
    let did = claims.take(key, k)?;
    Ok(did)
}

// The set of the entry at a place, where no entry of its call before it has the same one.
fn entry_taken(
    alloc: Global,
    run: &Run,
    calls: &[Submitted],
    marks: &[Option<u64>],
    ops: &[FlatOp],
    unlinks: &Unlinks,
    claims: &mut Claims,
    k: usize,
) -> Result<Option<TakenFrom>, AllocError>
    requires calls { calls.now ≡ submissions_of run.now.script.now run.now.log.now }
    requires marks { AreMarked run.now.log.now.replies marks.now }
    ensures rests { IfOk result (λ found. IfSome found (λ from. EntryRests run.now.script.now run.now.plans.now run.now.log.now run.now.bricks.now ops.now k from.set)) }
    ensures claimed { IfOk result (λ found. IfSome found (λ from. IsSetClaimed run.now.log.now claims.new k from.set)) }
    ensures keeps { IfOk result (λ found. KeepClaims claims.old claims.new) }
{
    let found = entry_rests(alloc, run, calls, marks, ops, unlinks, k)?;
    let Some(from) = found else {
        return Ok(None);
    };
    if !take_set(run.log, claims, k, from.set)? {
        return Ok(None);
    }
    Ok(Some(from))
}

// The sets of all entries.
fn sets_taken(
    alloc: Global,
    run: &Run,
    calls: &[Submitted],
    marks: &[Option<u64>],
    ops: &[FlatOp],
    unlinks: &Unlinks,
) -> Result<Option<Seq<Option<u8>>>, AllocError>
    requires calls { calls.now ≡ submissions_of run.now.script.now run.now.log.now }
    requires marks { AreMarked run.now.log.now.replies marks.now }
    ensures { IfOk result (λ found. IfSome found (λ sets. EntriesRestOnNames run.now.script.now run.now.plans.now run.now.log.now run.now.bricks.now ops.now sets)) }
{
    let log = run.log;
    let mut claims = Claims::new(alloc);
    let mut sets = Vec::new(alloc);
    for k in 0..log.history.len() {
        let found = entry_taken(alloc, run, calls, marks, ops, unlinks, &mut claims, k)?;
        let Some(from) = found else {
            return Ok(None);
        };
        sets.push(from.set)?;
    }
    Ok(Some(Seq::from_vec(sets)))
}

/// For each entry of the history the set from which it takes a name, or that of the object that it changes by path, if its call was
/// answered well and it does. It is `None` where such a call had not read by its reply, each time from a sound brick of a set of its
/// graph after a quorum of the set had granted it locks, the names that lead to what the entry's operation works on; or not the name
/// that the operation takes away, as that of an object; or where a rename leaves a file of the new name that it had to unlink on
/// another set, or unlinks one on the set of its move. `ops` are the operations of the entries, in their order; `heads` are those of
/// the log's events: they guide the search alone.
///
/// # Errors
/// Out of memory.
pub fn sets_taken_from(
    alloc: Global,
    script: &Script,
    plans: &[Plan],
    log: &Log,
    bricks: &[Brick],
    heads: &[Head],
    ops: &[FlatOp],
) -> Result<Option<Seq<Option<u8>>>, AllocError>
    requires { IsAccepted script.now }
    ensures { IfOk result (λ found. IfSome found (λ sets. EntriesRestOnNames script.now plans.now log.now bricks.now ops.now sets)) }
{
    let Some(calls) = calls_in(alloc, script, log.events.as_slice())? else {
        return Ok(None);
    };
    let bound = log.events.len().saturating_add(1);
    let Some(marks) = answered_well(alloc, log.replies.as_slice(), bound)? else {
        return Ok(None);
    };
    let graphs = call_graphs(alloc, script, log)?;
    let found = find(alloc, log, bricks, heads)?;
    let run = Run {
        script,
        plans,
        log,
        bricks,
        graphs: &graphs,
        found: &found,
    };
    let unlinks = unlinks_of(alloc, log, ops)?;
    let calls = calls.calls.as_slice();
    let sets = sets_taken(alloc, &run, calls, marks.as_slice(), ops, &unlinks)?;
    Ok(sets)
}
