//! What the bricks of a set showed in the last lock phase of a call, and which of them were out.
ghost use Rattle.std.specs.Prelude.{◌≡◌, ◌↔◌, List, IsTrue, true, Some, None, map, IfOk, IfSome, IsSome};
ghost use Rattle.std.specs.List.{AllByRecursion, AllZip};
ghost use Rattle.fop_types.specs.declared.contents.Row.{Row as Shown};
ghost use Rattle.fop_types.specs.declared.messages.BrickRep.TheVariants as rep;
ghost use Rattle.fop_types.specs.declared.messages.DoneArm.TheVariants as done;
ghost use Rattle.mount_log.specs.Causes.{IsGranted, IsOut, HasShown};
ghost use Rattle.mount_log.specs.Connections.{graph_of_call};
ghost use Rattle.mount_log.specs.Submissions.{submitted_at};
ghost use Rattle.error_audit.specs.Evidence.{HaveNumbers};
ghost use Rattle.error_audit.specs.AtPlaces.{HasFaultAmong};
ghost use Rattle.error_audit.specs.Finding.{WasLost, IsFoundOut, IsFoundGranted, IsFoundShown};
ghost use Rattle.error_audit.specs.code.Searches.{named, has_row_of};
ghost use Rattle.error_audit.specs.Showing.{AreRowsOf, HaveRows, IsOneMore, AreRowsAt, HaveRowsAt, IsGrantedAt, IsGrantAmong};

use crate::brick_replies::{ReplyAt, arrived, is_faulted, is_wind_of};
use crate::connections::{count_openings, openings_at};
use crate::evidence::{Found, find_out};
use crate::lock_phases::lock_at;
use crate::losses::{Span, is_lost};
use crate::split_clues::last_lock;
use crate::tables::Tables;
use fop_types::{BrickRep, Cell, DoneArm, OutKind, Row, Seq, SetPlan, SplitRow};
use mount_log::{Log, ReplyLine};
use std::alloc::{AllocError, Global};

/// A lock phase: the place of its first lock among what was sent, and its cells.
#[derive(Drop)]
pub struct LockPhase {
    pub from: usize,
    pub cells: Seq<Cell>,
}

// ---- a brick that was reached

fn rows_in(arm: DoneArm) -> Option<Seq<Row>>
    ensures sound { IfSome result (λ rows. arm ≡ done.Rows rows) }
    ensures complete { (rows : List Shown) → arm ≡ done.Rows rows → result ≡ Some rows }
{
    match arm {
        DoneArm::Rows(rows) => Some(rows),
        other => {
            drop(other);
            None
        }
    }
}

fn rows_of(answer: BrickRep) -> Option<Seq<Row>>
    ensures sound { IfSome result (λ rows. answer ≡ rep.Done (done.Rows rows)) }
    ensures complete { (rows : List Shown) → answer ≡ rep.Done (done.Rows rows) → result ≡ Some rows }
{
    match answer {
        BrickRep::Done(arm) => rows_in(arm),
        other => {
            drop(other);
            None
        }
    }
}

// The rows of an answer to the call's request under this wind, which the wind line at a place has.
fn rows_under(log: &Log, kind: OutKind, call: u32, place: usize, wind: u64) -> Option<Seq<Row>>
    ensures sound { IfSome result (λ rows. AreRowsOf log.now call wind rows kind) }
    ensures complete { (rows : List Shown) → AreRowsAt log.now place call wind rows kind → result ≡ Some rows }
{
    match kind {
        OutKind::Reply { wind: number, rep } => {
            if number != wind || !is_wind_of(log, place, call, wind) {
                drop(rep);
                return None;
            }
            rows_of(rep)
        }
        _ => None,
    }
}

// The rows by which a brick answered the call's request under this wind.
fn rows_arrived(
    alloc: Global,
    log: &Log,
    reply: &ReplyLine,
    brick: u8,
    at: ReplyAt,
    wind: u64,
) -> Result<Option<Seq<Row>>, AllocError>
    ensures sound { IfOk result (λ found. IfSome found (λ rows. HaveRows log.now reply.now.call reply.now.event brick wind rows)) }
    ensures complete { IfOk result (λ found. (rows : List Shown) → HaveRowsAt log.now reply.now.call reply.now.event brick wind at rows → found ≡ Some rows) }
{
    let came = arrived(alloc, log, at.event, brick, reply.event)?;
    match came {
        Some(output) => Ok(rows_under(log, output.kind, reply.call, at.wind, wind)),
        None => Ok(None),
    }
}

// The rows by which a brick answered the call's lock of these cells, which is at a place among what was sent.
fn granted(
    alloc: Global,
    log: &Log,
    reply: &ReplyLine,
    phase: &LockPhase,
    brick: u8,
    lock: usize,
    at: ReplyAt,
) -> Result<Option<Seq<Row>>, AllocError>
    ensures sound { IfOk result (λ found. IfSome found (λ rows. IsGranted log.now reply.now.call reply.now.event phase.now.from phase.now.cells brick rows)) }
    ensures complete { IfOk result (λ found. (rows : List Shown) → IsGrantedAt log.now reply.now.call reply.now.event phase.now.from phase.now.cells brick lock at rows → found ≡ Some rows) }
{
    if lock < phase.from {
        return Ok(None);
    }
    let asked = lock_at(alloc, log, lock, reply.call, brick, phase.cells.as_slice())?;
    let Some(wind) = asked else {
        return Ok(None);
    };
    let rows = rows_arrived(alloc, log, reply, brick, at, wind)?;
    Ok(rows)
}

fn find_granted(
    alloc: Global,
    log: &Log,
    reply: &ReplyLine,
    phase: &LockPhase,
    brick: u8,
    lock: usize,
    found: &[Found],
) -> Result<Option<Seq<Row>>, AllocError>
    ensures sound { IfOk result (λ granted. IfSome granted (λ rows. IsGranted log.now reply.now.call reply.now.event phase.now.from phase.now.cells brick rows)) }
    ensures complete { IfOk result (λ granted. IsGrantAmong log.now reply.now.call reply.now.event phase.now.from phase.now.cells brick lock found.now → IsSome granted) }
{
    for one in found {
        if one.brick != brick {
            continue;
        }
        if let Some(rows) = granted(alloc, log, reply, phase, brick, lock, one.at)? {
            return Ok(Some(rows));
        }
    }
    Ok(None)
}

// ---- a brick that was out

fn has_failed(
    alloc: Global,
    log: &Log,
    plan: &SetPlan,
    reply: &ReplyLine,
    brick: u8,
    found: &[Found],
) -> Result<bool, AllocError>
    ensures sound { IfOk result (λ yes. yes ≡ true → IsOut log.now plan.now reply.now.call reply.now.event brick) }
    ensures exact { IfOk result (λ yes. IsTrue yes ↔ HasFaultAmong log.now plan.now reply.now.call reply.now.event found.now brick) }
{
    for one in found {
        if one.brick != brick {
            continue;
        }
        if is_faulted(alloc, log, plan, reply, &(brick, one.taken), one.at)? {
            return Ok(true);
        }
    }
    Ok(false)
}

// The number as it is named, 0 where it has no name.
fn number_of(count: usize) -> u32
    ensures { result ≡ named count }
{
    if count <= 4294967295 { count as u32 } else { 0 }
}

fn was_lost(
    alloc: Global,
    log: &Log,
    tables: &Tables,
    plan: &SetPlan,
    reply: &ReplyLine,
    span: Span,
    brick: u8,
) -> Result<bool, AllocError>
    requires numbers { HaveNumbers log.now span.graph (map (λ l. l.items) tables.now.openings.items) }
    requires graph { span.graph ≡ graph_of_call log.now reply.now.call }
    requires since { span.since ≡ submitted_at log.now reply.now.call }
    ensures sound { IfOk result (λ yes. yes ≡ true → IsOut log.now plan.now reply.now.call reply.now.event brick) }
    ensures exact { IfOk result (λ yes. IsTrue yes ↔ WasLost log.now tables.now plan.now span reply.now.event brick) }
{
    let openings = openings_at(tables.openings.as_slice(), brick);
    let loss = find_out(openings, &tables.clues, span, reply.event, brick);
    let number = number_of(count_openings(openings, loss.found, span.graph, brick));
    let pair = (brick, number);
    let yes = is_lost(alloc, log, openings, plan, reply, span, &pair, loss)?;
    Ok(yes)
}

fn is_out(
    alloc: Global,
    log: &Log,
    tables: &Tables,
    plan: &SetPlan,
    reply: &ReplyLine,
    span: Span,
    brick: u8,
) -> Result<bool, AllocError>
    requires numbers { HaveNumbers log.now span.graph (map (λ l. l.items) tables.now.openings.items) }
    requires graph { span.graph ≡ graph_of_call log.now reply.now.call }
    requires since { span.since ≡ submitted_at log.now reply.now.call }
    ensures sound { IfOk result (λ yes. yes ≡ true → IsOut log.now plan.now reply.now.call reply.now.event brick) }
    ensures exact { IfOk result (λ yes. IsTrue yes ↔ IsFoundOut log.now tables.now plan.now span reply.now.call reply.now.event brick) }
{
    if was_lost(alloc, log, tables, plan, reply, span, brick)? {
        return Ok(true);
    }
    let yes = has_failed(alloc, log, plan, reply, brick, tables.clues.of(reply.call))?;
    Ok(yes)
}

// ---- all bricks

fn push_rows(
    alloc: Global,
    log: &Log,
    tables: &Tables,
    plan: &SetPlan,
    reply: &ReplyLine,
    phase: &LockPhase,
    brick: u8,
    shown: &mut Vec<Option<Seq<Row>>>,
) -> Result<bool, AllocError>
    ensures sound { IfOk result (λ yes. yes ≡ true → IsOneMore (HasShown log.now plan.now reply.now.call reply.now.event phase.now.from phase.now.cells brick) shown.old.items shown.new.items) }
    ensures complete { IfOk result (λ yes. IsFoundGranted log.now tables.now reply.now.call reply.now.event phase.now.from phase.now.cells brick → yes ≡ true) }
{
    let lock = last_lock(tables.locks.as_slice(), reply.call, brick);
    let found = tables.clues.of(reply.call);
    match find_granted(alloc, log, reply, phase, brick, lock, found)? {
        Some(rows) => {
            shown.push(Some(rows))?;
            Ok(true)
        }
        None => Ok(false),
    }
}

fn push_out(
    alloc: Global,
    log: &Log,
    tables: &Tables,
    plan: &SetPlan,
    reply: &ReplyLine,
    span: Span,
    phase: &LockPhase,
    brick: u8,
    shown: &mut Vec<Option<Seq<Row>>>,
) -> Result<bool, AllocError>
    requires numbers { HaveNumbers log.now span.graph (map (λ l. l.items) tables.now.openings.items) }
    requires graph { span.graph ≡ graph_of_call log.now reply.now.call }
    requires since { span.since ≡ submitted_at log.now reply.now.call }
    ensures sound { IfOk result (λ yes. yes ≡ true → IsOneMore (HasShown log.now plan.now reply.now.call reply.now.event phase.now.from phase.now.cells brick) shown.old.items shown.new.items) }
    ensures complete { IfOk result (λ yes. IsFoundOut log.now tables.now plan.now span reply.now.call reply.now.event brick → yes ≡ true) }
{
    let _ = phase;
    if !is_out(alloc, log, tables, plan, reply, span, brick)? {
        return Ok(false);
    }
    shown.push(None)?;
    Ok(true)
}

fn push_shown(
    alloc: Global,
    log: &Log,
    tables: &Tables,
    plan: &SetPlan,
    reply: &ReplyLine,
    span: Span,
    phase: &LockPhase,
    rows: &[SplitRow],
    brick: u8,
    shown: &mut Vec<Option<Seq<Row>>>,
) -> Result<bool, AllocError>
    requires numbers { HaveNumbers log.now span.graph (map (λ l. l.items) tables.now.openings.items) }
    requires graph { span.graph ≡ graph_of_call log.now reply.now.call }
    requires since { span.since ≡ submitted_at log.now reply.now.call }
    ensures sound { IfOk result (λ yes. yes ≡ true → IsOneMore (HasShown log.now plan.now reply.now.call reply.now.event phase.now.from phase.now.cells brick) shown.old.items shown.new.items) }
    ensures complete { IfOk result (λ yes. IsFoundShown log.now tables.now plan.now span reply.now.call reply.now.event phase.now.from phase.now.cells rows.now brick → yes ≡ true) }
{
    if has_row_of(rows, brick) {
        let yes = push_rows(alloc, log, tables, plan, reply, phase, brick, shown)?;
        return Ok(yes);
    }
    let yes = push_out(alloc, log, tables, plan, reply, span, phase, brick, shown)?;
    Ok(yes)
}

// Whether a row is a brick's.
fn has_row_of(rows: &[SplitRow], brick: u8) -> bool
    ensures { result ≡ has_row_of rows.now brick }
{
    for row in rows {
        if row.brick == brick {
            return true;
        }
    }
    false
}

/// What each brick of a set showed in the lock phase, `None` for each that was out; in all `None` where one is neither. Bricks
/// of which there is a row are looked at as reached.
///
/// # Errors
/// Out of memory.
pub fn shown_in(
    alloc: Global,
    log: &Log,
    tables: &Tables,
    plan: &SetPlan,
    reply: &ReplyLine,
    span: Span,
    phase: &LockPhase,
    rows: &[SplitRow],
) -> Result<Option<Vec<Option<Seq<Row>>>>, AllocError>
    requires numbers { HaveNumbers log.now span.graph (map (λ l. l.items) tables.now.openings.items) }
    requires graph { span.graph ≡ graph_of_call log.now reply.now.call }
    requires since { span.since ≡ submitted_at log.now reply.now.call }
    ensures sound { IfOk result (λ found. IfSome found (λ shown. AllZip (HasShown log.now plan.now reply.now.call reply.now.event phase.now.from phase.now.cells) plan.now.bricks shown.items)) }
    ensures complete { IfOk result (λ found. AllByRecursion (IsFoundShown log.now tables.now plan.now span reply.now.call reply.now.event phase.now.from phase.now.cells rows.now) plan.now.bricks → IsSome found) }
{
    let mut shown = Vec::new(alloc);
    for brick in plan.bricks.as_slice() {
        if !push_shown(
            alloc, log, tables, plan, reply, span, phase, rows, *brick, &mut shown,
        )? {
            return Ok(None);
        }
    }
    Ok(Some(shown))
}
