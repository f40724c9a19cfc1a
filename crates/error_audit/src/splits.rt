//! Whether a call was answered by the rows of its last lock phase, where they leave no source.
ghost use Rattle.std.specs.Prelude.{◌≡◌, ◌≤◌, ◌↔◌, IsTrue, true, is_some, length, map, IfOk};
ghost use Rattle.std.specs.List.{AllZip, count_by};
ghost use Rattle.mount_log.specs.Causes.{HasShown, HasNoSource, IsSplit, all_rows};
ghost use Rattle.mount_log.specs.Connections.{graph_of_call};
ghost use Rattle.mount_log.specs.Locks.{IsLastPhase};
ghost use Rattle.mount_log.specs.Submissions.{submitted_at};
ghost use Rattle.error_audit.specs.Evidence.{HaveNumbers};
ghost use Rattle.error_audit.specs.LockTable.{HaveLocks};
ghost use Rattle.error_audit.specs.Finding.{marks_in, IsAnswered, IsSplitIn, IsSplitFound};
ghost use Rattle.error_audit.specs.Showing.{IsSized, AreMarks};

use crate::grants::{LockPhase, shown_in};
use crate::lock_phases::is_last_phase;
use crate::losses::Span;
use crate::sources::{has_no_source, is_sized};
use crate::split_clues::{find_phase, places_of};
use crate::split_rows::are_rows;
use crate::tables::Tables;
use fop_types::{Row, Seq, SetPlan, SplitRow};
use mount_log::{Log, ReplyLine};
use std::alloc::{AllocError, Global};

fn are_quorum(plan: &SetPlan, shown: &[Option<Seq<Row>>]) -> bool
    ensures { IsTrue result ↔ (plan.now.q ≤ count_by is_some shown.now) }
{
    plan.q as usize <= shown.iter().filter(|one| one.is_some()).count()
}

// Whether by what the bricks of a set showed of the cells at some places these rows are answered, and leave no source.
fn is_answered_at(
    alloc: Global,
    log: &Log,
    tables: &Tables,
    plan: &SetPlan,
    reply: &ReplyLine,
    phase: &LockPhase,
    shown: &[Option<Seq<Row>>],
    rows: &[SplitRow],
    places: &[usize],
) -> Result<bool, AllocError>
    requires phase { IsLastPhase log.now plan.now reply.now.call phase.now.from }
    requires shown { AllZip (HasShown log.now plan.now reply.now.call reply.now.event phase.now.from phase.now.cells) plan.now.bricks shown.now }
    requires sized { IsSized (length plan.now.bricks) plan.now.q }
    requires quorum { plan.now.q ≤ count_by is_some shown.now }
    ensures sound { IfOk result (λ yes. yes ≡ true → IsSplit log.now plan.now reply.now.call reply.now.event rows.now) }
    ensures complete { IfOk result (λ yes. rows.now ≡ all_rows plan.now.bricks shown.now phase.now.cells places.now → HasNoSource log.now plan.now phase.now.from phase.now.cells shown.now places.now → AreMarks log.now plan.now phase.now.from phase.now.cells (marks_in tables.now phase.now.cells) → yes ≡ true) }
{
    let _ = reply;
    let cells = phase.cells.as_slice();
    if !are_rows(alloc, rows, plan.bricks.as_slice(), shown, cells, places)? {
        return Ok(false);
    }
    let marks = tables.clues.marks_of(cells);
    let yes = has_no_source(alloc, log, plan, phase, shown, places, marks)?;
    Ok(yes)
}

// Whether by what the bricks of a set showed these rows are answered, and leave no source.
fn is_answered(
    alloc: Global,
    log: &Log,
    tables: &Tables,
    plan: &SetPlan,
    reply: &ReplyLine,
    phase: &LockPhase,
    shown: &[Option<Seq<Row>>],
    rows: &[SplitRow],
) -> Result<bool, AllocError>
    requires phase { IsLastPhase log.now plan.now reply.now.call phase.now.from }
    requires shown { AllZip (HasShown log.now plan.now reply.now.call reply.now.event phase.now.from phase.now.cells) plan.now.bricks shown.now }
    ensures sound { IfOk result (λ yes. yes ≡ true → IsSplit log.now plan.now reply.now.call reply.now.event rows.now) }
    ensures complete { IfOk result (λ yes. IsSized (length plan.now.bricks) plan.now.q → AreMarks log.now plan.now phase.now.from phase.now.cells (marks_in tables.now phase.now.cells) → IsAnswered log.now plan.now phase.now rows.now shown.now → yes ≡ true) }
{
    if !is_sized(plan) || !are_quorum(plan, shown) {
        return Ok(false);
    }
    let places = places_of(alloc, rows, phase.cells.as_slice())?;
    let yes = is_answered_at(
        alloc,
        log,
        tables,
        plan,
        reply,
        phase,
        shown,
        rows,
        places.as_slice(),
    );
    drop(places);
    yes
}

// Whether these are the rows of a lock phase, and leave no source.
fn is_split_in(
    alloc: Global,
    log: &Log,
    tables: &Tables,
    plan: &SetPlan,
    reply: &ReplyLine,
    span: Span,
    phase: &LockPhase,
    rows: &[SplitRow],
) -> Result<bool, AllocError>
    requires numbers { HaveNumbers log.now span.graph (map (λ l. l.items) tables.now.openings.items) }
    requires locks { HaveLocks log.now (map (λ l. l.items) tables.now.locks.items) }
    requires graph { span.graph ≡ graph_of_call log.now reply.now.call }
    requires since { span.since ≡ submitted_at log.now reply.now.call }
    ensures sound { IfOk result (λ yes. yes ≡ true → IsSplit log.now plan.now reply.now.call reply.now.event rows.now) }
    ensures complete { IfOk result (λ yes. IsSplitIn log.now tables.now plan.now span reply.now.call reply.now.event phase.now rows.now → yes ≡ true) }
{
    if !is_last_phase(log, plan, tables.locks.as_slice(), reply.call, phase.from) {
        return Ok(false);
    }
    let found = shown_in(alloc, log, tables, plan, reply, span, phase, rows)?;
    match found {
        Some(shown) => {
            let yes = is_answered(
                alloc,
                log,
                tables,
                plan,
                reply,
                phase,
                shown.as_slice(),
                rows,
            )?;
            Ok(yes)
        }
        None => Ok(false),
    }
}

/// Whether the rows are those that the bricks of a set showed in the last lock phase of a call, but for bricks that were out,
/// and leave no source.
///
/// # Errors
/// Out of memory.
pub fn is_split(
    alloc: Global,
    log: &Log,
    tables: &Tables,
    plan: &SetPlan,
    reply: &ReplyLine,
    span: Span,
    rows: &[SplitRow],
) -> Result<bool, AllocError>
    requires numbers { HaveNumbers log.now span.graph (map (λ l. l.items) tables.now.openings.items) }
    requires locks { HaveLocks log.now (map (λ l. l.items) tables.now.locks.items) }
    requires graph { span.graph ≡ graph_of_call log.now reply.now.call }
    requires since { span.since ≡ submitted_at log.now reply.now.call }
    ensures sound { IfOk result (λ yes. yes ≡ true → IsSplit log.now plan.now reply.now.call reply.now.event rows.now) }
    ensures complete { IfOk result (λ yes. IsSplitFound log.now tables.now plan.now span reply.now.call reply.now.event rows.now → yes ≡ true) }
{
    let found = find_phase(alloc, log, tables.locks.as_slice(), reply.call, rows)?;
    match found {
        Some(phase) => {
            let yes = is_split_in(alloc, log, tables, plan, reply, span, &phase, rows)?;
            Ok(yes)
        }
        None => Ok(false),
    }
}
