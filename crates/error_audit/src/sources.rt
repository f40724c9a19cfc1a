//! Whether the rows of a lock phase leave no source.
ghost use Rattle.std.specs.Prelude.{◌≡◌, ◌+◌, ◌/◌, ◌%◌, ◌<◌, ◌↔◌, ℕ, IsTrue, true, Contains, length, IfOk};
ghost use Rattle.afr_changelog.specs.Masks.{Names, IsCommon};
ghost use Rattle.afr_changelog.specs.Soundness.{IsSound};
ghost use Rattle.fop_types.specs.declared.messages.Input.TheVariants as input;
ghost use Rattle.mount_log.specs.Causes.{IsMarked, IsSoundAt, HasNoSource};
ghost use Rattle.wire_messages.specs.Messages.{input_in};
ghost use Rattle.error_audit.specs.Showing.{IsMarkOf, IsMarkOn, IsSized, IsMarkedAt, HasMark, AreMarks, HasUnsoundCell};

use crate::cells::are_cells;
use crate::grants::LockPhase;
use crate::losses::has_brick;
use crate::split_rows::rows_of;
use afr_changelog::{common_source, sound};
use fop_types::{BrickReq, Cell, Input, Mask, Row, Seq, SetPlan};
use mount_log::by_place::line_at;
use mount_log::{Log, SentLine};
use std::alloc::{AllocError, Global};
use wire_messages::{Message, input_of};

/// Whether a set has an odd number of replicas, at most five, and its quorum is the majority.
pub fn is_sized(plan: &SetPlan) -> bool
    ensures { IsTrue result ↔ IsSized (length plan.now.bricks) plan.now.q }
{
    let n = plan.bricks.len();
    n % 2 == 1 && n <= 5 && plan.q as usize == (n + 1) / 2
}

// How many replicas a set has.
fn count_of(plan: &SetPlan) -> u8
    requires { IsSized (length plan.now.bricks) plan.now.q }
    ensures { result ≡ length plan.now.bricks }
{
    plan.bricks.len() as u8
}

// The sound replicas by the rows of one cell.
fn sound_by(plan: &SetPlan, rows: &[Option<Row>]) -> Mask
    requires sized { IsSized (length plan.now.bricks) plan.now.q }
    requires places { length rows.now ≡ length plan.now.bricks }
    ensures { (k : ℕ) → Names result k ↔ IsSound rows.now (length plan.now.bricks) plan.now.q k }
{
    sound(rows, count_of(plan), plan.q)
}

// The replicas whose copy of the cell at a place is sound.
fn sound_at(
    alloc: Global,
    plan: &SetPlan,
    shown: &[Option<Seq<Row>>],
    place: usize,
) -> Result<Mask, AllocError>
    requires sized { IsSized (length plan.now.bricks) plan.now.q }
    requires places { length shown.now ≡ length plan.now.bricks }
    ensures { IfOk result (λ mask. (k : ℕ) → IsSoundAt plan.now shown.now k place ↔ Names mask k) }
{
    let rows = rows_of(alloc, shown, place)?;
    Ok(sound_by(plan, rows.as_slice()))
}

// ---- one cell

fn have_none(masks: &[Mask]) -> bool
    ensures { IsTrue result ↔ ((k : ℕ) → IsCommon masks.now k → ⊥) }
{
    if masks.is_empty() {
        return false;
    }
    common_source(masks).is_none()
}

fn is_none(mask: Mask) -> bool
    ensures { IsTrue result ↔ ((k : ℕ) → Names mask k → ⊥) }
{
    have_none(&[mask])
}

fn has_unsound_cell(
    alloc: Global,
    plan: &SetPlan,
    shown: &[Option<Seq<Row>>],
    places: &[usize],
) -> Result<bool, AllocError>
    requires sized { IsSized (length plan.now.bricks) plan.now.q }
    requires places { length shown.now ≡ length plan.now.bricks }
    ensures { IfOk result (λ yes. IsTrue yes ↔ HasUnsoundCell plan.now shown.now places.now) }
{
    for place in places {
        let mask = sound_at(alloc, plan, shown, *place)?;
        if is_none(mask) {
            return Ok(true);
        }
    }
    Ok(false)
}

// ---- all cells

fn masks_at(
    alloc: Global,
    plan: &SetPlan,
    shown: &[Option<Seq<Row>>],
    places: &[usize],
) -> Result<Vec<Mask>, AllocError>
    requires sized { IsSized (length plan.now.bricks) plan.now.q }
    requires places { length shown.now ≡ length plan.now.bricks }
    ensures { IfOk result (λ masks. (k : ℕ) → ((place : ℕ) → Contains places.now place → IsSoundAt plan.now shown.now k place) ↔ IsCommon masks.items k) }
{
    let mut masks = Vec::new(alloc);
    for place in places {
        let mask = sound_at(alloc, plan, shown, *place)?;
        masks.push(mask)?;
    }
    Ok(masks)
}

fn have_no_common(
    alloc: Global,
    plan: &SetPlan,
    shown: &[Option<Seq<Row>>],
    places: &[usize],
) -> Result<bool, AllocError>
    requires sized { IsSized (length plan.now.bricks) plan.now.q }
    requires places { length shown.now ≡ length plan.now.bricks }
    ensures { IfOk result (λ yes. IsTrue yes ↔ ((k : ℕ) → ((place : ℕ) → Contains places.now place → IsSoundAt plan.now shown.now k place) → ⊥)) }
{
    let masks = masks_at(alloc, plan, shown, places)?;
    Ok(have_none(masks.as_slice()))
}

// ---- a change that was to be settled

fn is_mark(req: &BrickReq, cells: &[Cell]) -> bool
    ensures { (wind graph : ℕ) → IsTrue result ↔ IsMarkOf cells.now (input.Request wind graph req.now) }
{
    match req {
        BrickReq::Mark { cells: own, .. } => are_cells(own.as_slice(), cells),
        _ => false,
    }
}

fn is_mark_input(sent: &Input, cells: &[Cell]) -> bool
    ensures { IsTrue result ↔ IsMarkOf cells.now sent.now }
{
    match sent {
        Input::Request { req, .. } => is_mark(req, cells),
        _ => false,
    }
}

fn is_mark_line(alloc: Global, line: &SentLine, cells: &[Cell]) -> Result<bool, AllocError>
    ensures { IfOk result (λ yes. IsTrue yes ↔ IsMarkOn cells.now (input_in line.now.bytes)) }
{
    match input_of(alloc, line.bytes.as_slice())? {
        Message::Whole(sent) => {
            let yes = is_mark_input(&sent, cells);
            drop(sent);
            Ok(yes)
        }
        Message::Wrong { place: _ } => Ok(false),
    }
}

fn is_marked(
    alloc: Global,
    log: &Log,
    plan: &SetPlan,
    phase: &LockPhase,
    at: usize,
) -> Result<bool, AllocError>
    ensures sound { IfOk result (λ yes. yes ≡ true → IsMarked log.now plan.now phase.now.from phase.now.cells) }
    ensures exact { IfOk result (λ yes. IsTrue yes ↔ IsMarkedAt log.now plan.now phase.now.from phase.now.cells at) }
{
    if at >= phase.from {
        return Ok(false);
    }
    match line_at(log, at) {
        Some(line) => {
            if !has_brick(plan, line.brick) {
                return Ok(false);
            }
            let yes = is_mark_line(alloc, line, phase.cells.as_slice())?;
            Ok(yes)
        }
        None => Ok(false),
    }
}

fn was_marked(
    alloc: Global,
    log: &Log,
    plan: &SetPlan,
    phase: &LockPhase,
    marks: &[usize],
) -> Result<bool, AllocError>
    ensures sound { IfOk result (λ yes. yes ≡ true → IsMarked log.now plan.now phase.now.from phase.now.cells) }
    ensures exact { IfOk result (λ yes. IsTrue yes ↔ HasMark log.now plan.now phase.now.from phase.now.cells marks.now) }
{
    for at in marks {
        if is_marked(alloc, log, plan, phase, *at)? {
            return Ok(true);
        }
    }
    Ok(false)
}

/// Whether by what the replicas showed of the cells at some places there is no source. `marks` are places at which a change of
/// the cells may have been marked.
///
/// # Errors
/// Out of memory.
pub fn has_no_source(
    alloc: Global,
    log: &Log,
    plan: &SetPlan,
    phase: &LockPhase,
    shown: &[Option<Seq<Row>>],
    places: &[usize],
    marks: &[usize],
) -> Result<bool, AllocError>
    requires sized { IsSized (length plan.now.bricks) plan.now.q }
    requires places { length shown.now ≡ length plan.now.bricks }
    ensures sound { IfOk result (λ yes. yes ≡ true → HasNoSource log.now plan.now phase.now.from phase.now.cells shown.now places.now) }
    ensures complete { IfOk result (λ yes. AreMarks log.now plan.now phase.now.from phase.now.cells marks.now → HasNoSource log.now plan.now phase.now.from phase.now.cells shown.now places.now → yes ≡ true) }
{
    if has_unsound_cell(alloc, plan, shown, places)? {
        return Ok(true);
    }
    if !was_marked(alloc, log, plan, phase, marks)? {
        return Ok(false);
    }
    let yes = have_no_common(alloc, plan, shown, places)?;
    Ok(yes)
}
