//! Whether each I/O error has its cause.
ghost use Rattle.std.specs.Prelude.{◌≡◌, ◌≢◌, ◌<◌, ◌≤◌, ◌^◌, ◌↔◌, [], IsTrue, true, Some, map, option_copied, IfOk, IfSome};
ghost use Rattle.std.specs.List.{AllByRecursion};
ghost use Rattle.fop_types.specs.declared.jobs.SetPlan.{SetPlan as Bricks};
ghost use Rattle.mount_log.specs.declared.call_graphs.CallAt.{CallAt as Called};
ghost use Rattle.mount_log.specs.CallGraphs.{call_at};
ghost use Rattle.mount_log.specs.Causes.{IsLost, IsFaulted, IsQuorumLost, IsFault, set_of_call, set_named, HasEvidence, HasCause, IsCaused, AreCaused};
ghost use Rattle.mount_log.specs.Connections.{graph_of_call};
ghost use Rattle.mount_log.specs.Submissions.{submitted_at};
ghost use Rattle.error_audit.specs.AtPlaces.{IsFaultAmong};
ghost use Rattle.error_audit.specs.Evidence.{HaveNumbers};
ghost use Rattle.error_audit.specs.IoCauses.{AreTables, IsPlain};
ghost use Rattle.error_audit.specs.LockTable.{HaveLocks};
ghost use Rattle.error_audit.specs.Finding.{IsPairLost, AreQuorumLost, AreFaults, IsFound, HasFound, IsReplyFound, span_at};
ghost use Rattle.error_audit.specs.Never.{IsKnown};

use crate::brick_replies::is_faulted;
use crate::connections::openings_at;
use crate::enough::{are_rising, has_enough};
use crate::evidence::{Found, find_loss};
use crate::losses::{Span, is_lost};
use crate::splits::is_split;
use crate::tables::{Tables, tables_of};
use fop_types::{Answer, IoError, SetPlan};
use graph_build::Plan;
use mount_log::call_graphs::{call_at, set_of};
use mount_log::{Log, ReplyLine};
use script_lang::Script;
use std::alloc::{AllocError, Global};
use wire_messages::messages_read_back;

// ---- lost quorum

fn is_pair_lost(
    alloc: Global,
    log: &Log,
    tables: &Tables,
    plan: &SetPlan,
    reply: &ReplyLine,
    span: Span,
    pair: &(u8, u32),
) -> Result<bool, AllocError>
    requires numbers { HaveNumbers log.now span.graph (map (λ l. l.items) tables.now.openings.items) }
    requires graph { span.graph ≡ graph_of_call log.now reply.now.call }
    requires since { span.since ≡ submitted_at log.now reply.now.call }
    ensures sound { IfOk result (λ yes. yes ≡ true → IsLost log.now plan.now reply.now.call reply.now.event pair.now) }
    ensures exact { IfOk result (λ yes. IsTrue yes ↔ IsPairLost log.now tables.now plan.now span reply.now.event pair.now) }
{
    let openings = openings_at(tables.openings.as_slice(), pair.0);
    let loss = find_loss(openings, &tables.clues, span, reply.event, pair);
    let yes = is_lost(alloc, log, openings, plan, reply, span, pair, loss)?;
    Ok(yes)
}

fn are_lost(
    alloc: Global,
    log: &Log,
    tables: &Tables,
    plan: &SetPlan,
    reply: &ReplyLine,
    span: Span,
    lost: &[(u8, u32)],
) -> Result<bool, AllocError>
    requires numbers { HaveNumbers log.now span.graph (map (λ l. l.items) tables.now.openings.items) }
    requires graph { span.graph ≡ graph_of_call log.now reply.now.call }
    requires since { span.since ≡ submitted_at log.now reply.now.call }
    ensures sound { IfOk result (λ yes. yes ≡ true → AllByRecursion (IsLost log.now plan.now reply.now.call reply.now.event) lost.now) }
    ensures exact { IfOk result (λ yes. IsTrue yes ↔ AllByRecursion (IsPairLost log.now tables.now plan.now span reply.now.event) lost.now) }
{
    for pair in lost {
        if !is_pair_lost(alloc, log, tables, plan, reply, span, pair)? {
            return Ok(false);
        }
    }
    Ok(true)
}

fn is_quorum_lost(
    alloc: Global,
    log: &Log,
    tables: &Tables,
    plan: &SetPlan,
    reply: &ReplyLine,
    span: Span,
    lost: &[(u8, u32)],
) -> Result<bool, AllocError>
    requires numbers { HaveNumbers log.now span.graph (map (λ l. l.items) tables.now.openings.items) }
    requires graph { span.graph ≡ graph_of_call log.now reply.now.call }
    requires since { span.since ≡ submitted_at log.now reply.now.call }
    ensures sound { IfOk result (λ yes. yes ≡ true → IsQuorumLost log.now plan.now reply.now.call reply.now.event lost.now) }
    ensures exact { IfOk result (λ yes. IsTrue yes ↔ AreQuorumLost log.now tables.now plan.now span reply.now.event lost.now) }
{
    if !are_rising(lost) || !has_enough(alloc, plan, &[], lost)? {
        return Ok(false);
    }
    let yes = are_lost(alloc, log, tables, plan, reply, span, lost)?;
    Ok(yes)
}

// ---- faults

fn is_fault_found(
    alloc: Global,
    log: &Log,
    plan: &SetPlan,
    reply: &ReplyLine,
    pair: &(u8, u64),
    found: &[Found],
) -> Result<bool, AllocError>
    ensures sound { IfOk result (λ yes. yes ≡ true → IsFaulted log.now plan.now reply.now.call reply.now.event pair.now) }
    ensures exact { IfOk result (λ yes. IsTrue yes ↔ IsFaultAmong log.now plan.now reply.now.call reply.now.event found.now pair.now) }
{
    for one in found {
        if one.brick != pair.0 || one.taken != pair.1 {
            continue;
        }
        if is_faulted(alloc, log, plan, reply, pair, one.at)? {
            return Ok(true);
        }
    }
    Ok(false)
}

fn are_faulted(
    alloc: Global,
    log: &Log,
    plan: &SetPlan,
    reply: &ReplyLine,
    found: &[Found],
    faults: &[(u8, u64)],
) -> Result<bool, AllocError>
    ensures sound { IfOk result (λ yes. yes ≡ true → AllByRecursion (IsFaulted log.now plan.now reply.now.call reply.now.event) faults.now) }
    ensures exact { IfOk result (λ yes. IsTrue yes ↔ AllByRecursion (IsFaultAmong log.now plan.now reply.now.call reply.now.event found.now) faults.now) }
{
    for pair in faults {
        if !is_fault_found(alloc, log, plan, reply, pair, found)? {
            return Ok(false);
        }
    }
    Ok(true)
}

fn is_some(faults: &[(u8, u64)]) -> bool
    ensures { IsTrue result ↔ (faults.now ≢ []) }
{
    !faults.is_empty()
}

fn is_fault(
    alloc: Global,
    log: &Log,
    tables: &Tables,
    plan: &SetPlan,
    reply: &ReplyLine,
    span: Span,
    faults: &[(u8, u64)],
    lost: &[(u8, u32)],
) -> Result<bool, AllocError>
    requires numbers { HaveNumbers log.now span.graph (map (λ l. l.items) tables.now.openings.items) }
    requires graph { span.graph ≡ graph_of_call log.now reply.now.call }
    requires since { span.since ≡ submitted_at log.now reply.now.call }
    ensures sound { IfOk result (λ yes. yes ≡ true → IsFault log.now plan.now reply.now.call reply.now.event faults.now lost.now) }
    ensures exact { IfOk result (λ yes. IsTrue yes ↔ AreFaults log.now tables.now plan.now span reply.now.call reply.now.event faults.now lost.now) }
{
    if !is_some(faults) || !are_rising(faults) || !are_rising(lost) {
        return Ok(false);
    }
    if !has_enough(alloc, plan, faults, lost)? {
        return Ok(false);
    }
    if !are_faulted(alloc, log, plan, reply, tables.clues.of(reply.call), faults)? {
        return Ok(false);
    }
    let yes = are_lost(alloc, log, tables, plan, reply, span, lost)?;
    Ok(yes)
}

// ---- all

fn set_named(error: &IoError) -> u8
    ensures { result ≡ set_named error.now }
{
    match error {
        IoError::Quorum { set, .. } => *set,
        IoError::Split { set, .. } => *set,
        IoError::Fault { set, .. } => *set,
    }
}

fn has_evidence(
    alloc: Global,
    log: &Log,
    tables: &Tables,
    plan: &SetPlan,
    reply: &ReplyLine,
    span: Span,
    error: &IoError,
) -> Result<bool, AllocError>
    requires numbers { HaveNumbers log.now span.graph (map (λ l. l.items) tables.now.openings.items) }
    requires locks { HaveLocks log.now (map (λ l. l.items) tables.now.locks.items) }
    requires graph { span.graph ≡ graph_of_call log.now reply.now.call }
    requires since { span.since ≡ submitted_at log.now reply.now.call }
    ensures sound { IfOk result (λ yes. yes ≡ true → HasEvidence log.now plan.now reply.now.call reply.now.event error.now) }
    ensures complete { IfOk result (λ yes. IsFound log.now tables.now plan.now span reply.now.call reply.now.event error.now → yes ≡ true) }
{
    match error {
        IoError::Quorum { lost, .. } => {
            let lost = lost.as_slice();
            let yes = is_quorum_lost(alloc, log, tables, plan, reply, span, lost)?;
            Ok(yes)
        }
        IoError::Split { rows, .. } => {
            let yes = is_split(alloc, log, tables, plan, reply, span, rows.as_slice())?;
            Ok(yes)
        }
        IoError::Fault { faults, lost, .. } => {
            let faults = faults.as_slice();
            let lost = lost.as_slice();
            let yes = is_fault(alloc, log, tables, plan, reply, span, faults, lost)?;
            Ok(yes)
        }
    }
}

fn fits(graph: u64) -> bool
    ensures { IsTrue result ↔ (graph < 2 ^ 32) }
{
    graph <= 4294967295
}

fn unit_of(graph: u64) -> u32
    requires { graph < 2 ^ 32 }
    ensures { result ≡ graph }
{
    graph as u32
}

// The graph and the submission of a reply's call, where the graph has a number that an input has.
fn span_of(script: &Script, log: &Log, tables: &Tables, reply: &ReplyLine) -> Option<Span>
    requires { AreTables script.now log.now tables.now }
    ensures graph { IfSome result (λ span. span.graph ≡ graph_of_call log.now reply.now.call) }
    ensures since { IfSome result (λ span. span.since ≡ submitted_at log.now reply.now.call) }
    ensures from_one { IfSome result (λ span. 1 ≤ span.graph) }
    ensures numbers { IfSome result (λ span. HaveNumbers log.now span.graph (map (λ l. l.items) tables.now.openings.items)) }
    ensures complete { (at : Called) → call_at tables.now.calls.items reply.now.call ≡ Some at → at.graph < 2 ^ 32 → result ≡ Some (span_at at) }
{
    let _ = script;
    let _ = log;
    messages_read_back();
    let Some(at) = call_at(tables.calls.as_slice(), reply.call) else {
        return None;
    };
    if !fits(at.graph) {
        return None;
    }
    Some(Span {
        graph: unit_of(at.graph),
        since: at.event,
    })
}

// A set of the graph of a reply's call.
fn plan_of<'a>(
    script: &Script,
    plans: &'a [Plan],
    log: &Log,
    tables: &Tables,
    reply: &ReplyLine,
    span: Span,
    set: u8,
) -> Option<&'a SetPlan>
    requires tables { AreTables script.now log.now tables.now }
    requires graph { span.graph ≡ graph_of_call log.now reply.now.call }
    requires from_one { 1 ≤ span.graph }
    ensures { option_copied result ≡ set_of_call script.now plans.now log.now reply.now.call set }
{
    let _ = script;
    let _ = log;
    let _ = reply;
    set_of(plans, tables.volfiles.as_slice(), span.graph as u64, set)
}

fn has_cause_in(
    alloc: Global,
    script: &Script,
    plans: &[Plan],
    log: &Log,
    tables: &Tables,
    reply: &ReplyLine,
    span: Span,
    error: &IoError,
) -> Result<bool, AllocError>
    requires tables { AreTables script.now log.now tables.now }
    requires graph { span.graph ≡ graph_of_call log.now reply.now.call }
    requires since { span.since ≡ submitted_at log.now reply.now.call }
    requires from_one { 1 ≤ span.graph }
    requires numbers { HaveNumbers log.now span.graph (map (λ l. l.items) tables.now.openings.items) }
    ensures sound { IfOk result (λ yes. yes ≡ true → HasCause script.now plans.now log.now reply.now error.now) }
    ensures complete { IfOk result (λ yes. (plan : Bricks) → set_of_call script.now plans.now log.now reply.now.call (set_named error.now) ≡ Some plan → IsFound log.now tables.now plan span reply.now.call reply.now.event error.now → yes ≡ true) }
{
    let Some(plan) = plan_of(script, plans, log, tables, reply, span, set_named(error)) else {
        return Ok(false);
    };
    let yes = has_evidence(alloc, log, tables, plan, reply, span, error)?;
    Ok(yes)
}

fn has_cause(
    alloc: Global,
    script: &Script,
    plans: &[Plan],
    log: &Log,
    tables: &Tables,
    reply: &ReplyLine,
    error: &IoError,
) -> Result<bool, AllocError>
    requires { AreTables script.now log.now tables.now }
    ensures sound { IfOk result (λ yes. yes ≡ true → HasCause script.now plans.now log.now reply.now error.now) }
    ensures complete { IfOk result (λ yes. HasFound script.now plans.now log.now tables.now reply.now error.now → yes ≡ true) }
{
    let Some(span) = span_of(script, log, tables, reply) else {
        return Ok(false);
    };
    let yes = has_cause_in(alloc, script, plans, log, tables, reply, span, error)?;
    Ok(yes)
}

fn is_caused(
    alloc: Global,
    script: &Script,
    plans: &[Plan],
    log: &Log,
    tables: &Tables,
    reply: &ReplyLine,
) -> Result<bool, AllocError>
    requires { AreTables script.now log.now tables.now }
    ensures sound { IfOk result (λ yes. yes ≡ true → IsCaused script.now plans.now log.now reply.now reply.now.answer) }
    ensures complete { IfOk result (λ yes. IsReplyFound script.now plans.now log.now tables.now reply.now reply.now.answer → yes ≡ true) }
{
    match &reply.answer {
        Answer::Io(error) => {
            let yes = has_cause(alloc, script, plans, log, tables, reply, error)?;
            Ok(yes)
        }
        _ => Ok(true),
    }
}

fn are_caused(
    alloc: Global,
    script: &Script,
    plans: &[Plan],
    log: &Log,
    tables: &Tables,
    replies: &[ReplyLine],
) -> Result<bool, AllocError>
    requires { AreTables script.now log.now tables.now }
    ensures sound { IfOk result (λ yes. yes ≡ true → AllByRecursion (λ reply. IsCaused script.now plans.now log.now reply reply.answer) replies.now) }
    ensures complete { IfOk result (λ yes. AllByRecursion (λ reply. IsReplyFound script.now plans.now log.now tables.now reply reply.answer) replies.now → yes ≡ true) }
{
    for reply in replies {
        if !is_caused(alloc, script, plans, log, tables, reply)? {
            return Ok(false);
        }
    }
    Ok(true)
}

// Whether a reply is no I/O error.
fn is_plain(reply: &ReplyLine) -> bool
    ensures { IsTrue result ↔ IsPlain reply.now.answer }
{
    match &reply.answer {
        Answer::Io(_) => false,
        _ => true,
    }
}

fn are_plain(replies: &[ReplyLine]) -> bool
    ensures { IsTrue result ↔ AllByRecursion (λ reply. IsPlain reply.answer) replies.now }
{
    for reply in replies {
        if !is_plain(reply) {
            return false;
        }
    }
    true
}

// Whether no reply is an I/O error.
fn have_none(script: &Script, plans: &[Plan], log: &Log) -> bool
    ensures sound { result ≡ true → AreCaused script.now plans.now log.now }
    ensures exact { IsTrue result ↔ AllByRecursion (λ reply. IsPlain reply.answer) log.now.replies }
{
    let _ = script;
    let _ = plans;
    are_plain(log.replies.as_slice())
}

fn all_caused(
    alloc: Global,
    script: &Script,
    plans: &[Plan],
    log: &Log,
    tables: &Tables,
) -> Result<bool, AllocError>
    requires { AreTables script.now log.now tables.now }
    ensures sound { IfOk result (λ yes. yes ≡ true → AreCaused script.now plans.now log.now) }
    ensures complete { IfOk result (λ yes. AllByRecursion (λ reply. IsReplyFound script.now plans.now log.now tables.now reply reply.answer) log.now.replies → yes ≡ true) }
{
    let replies = log.replies.as_slice();
    let yes = are_caused(alloc, script, plans, log, tables, replies)?;
    Ok(yes)
}

/// Whether each reply that is an I/O error has its cause: bricks that were lost to the call's graph, bricks that answered a
/// request of the call by a fault, or rows that bricks showed in its last lock phase, by which there is no source. `plans` are
/// those of the script's volfiles.
///
/// # Errors
/// Out of memory.
pub fn io_errors_are_caused(
    alloc: Global,
    script: &Script,
    plans: &[Plan],
    log: &Log,
) -> Result<bool, AllocError>
    ensures sound { IfOk result (λ yes. yes ≡ true → AreCaused script.now plans.now log.now) }
    ensures plain { IfOk result (λ yes. AllByRecursion (λ reply. IsPlain reply.answer) log.now.replies → yes ≡ true) }
    ensures never { IfOk result (λ yes. AllByRecursion (λ reply. IsKnown script.now plans.now log.now reply reply.answer) log.now.replies → yes ≡ true) }
{
    if have_none(script, plans, log) {
        return Ok(true);
    }
    let tables = tables_of(alloc, script, log)?;
    let yes = all_caused(alloc, script, plans, log, &tables);
    drop(tables);
    yes
}
