//! The replacement by which a copy was made.
ghost use Rattle.std.specs.Prelude.{◌≡◌, ◌+◌, ◌^◌, ◌<◌, ◌↔◌, IsTrue, true, IfOk, IfSome};
ghost use Rattle.change_audit.specs.Answered.{IsOpenedIn};
ghost use Rattle.change_audit.specs.Copied.{IsReplaced};
ghost use Rattle.change_audit.specs.Copying.{IsConfirmed, IsOfCopy, HasFetch, IsReplacementOf};
ghost use Rattle.change_audit.specs.Served.{IsOpeningIn};

use crate::copy_finding::Found;
use crate::copy_requests::{Replacement, confirmed, fetched, is_cell};
use crate::openings::{is_opened_in, is_wind_for};
use brick_machine::Brick;
use fop_types::CopyRecord;
use mount_log::Log;
use std::alloc::{AllocError, Global};

/// The graph and the wind of a replacement.
#[derive(Clone, Copy)]
pub struct MadeOn {
    pub graph: u32,
    pub wind: u64,
}

fn is_of(by: &Replacement, copy: &CopyRecord) -> bool
    ensures { IsTrue result ↔ IsOfCopy copy.now by.now }
{
    by.last == copy.last && is_cell(&by.cell, &copy.cell)
}

// Whether the source has answered the fetch, on a wind of the call, by what the replacement carries.
fn has_fetch(
    alloc: Global,
    log: &Log,
    bricks: &[Brick],
    source: u8,
    at: Found,
    by: &Replacement,
) -> Result<bool, AllocError>
    ensures { IfOk result (λ yes. yes ≡ true → HasFetch log.now bricks.now source at.call at.fetched by.now) }
{
    match fetched(alloc, log, bricks, source, at.fetched, by)? {
        Some(wind) => Ok(is_wind_for(log.winds.as_slice(), at.fetch_opening, at.call, wind)),
        None => Ok(false),
    }
}

// Whether the wind of a replacement was opened in the event in which the answer to its fetch arrived.
fn is_in_turn(log: &Log, at: Found, wind: u64) -> bool
    ensures sound { result ≡ true → IsOpenedIn log.now.winds at.call wind (at.fetched + 1) }
    ensures exact { at.fetched + 1 < 2 ^ 64 → IsTrue result ↔ IsOpeningIn log.now.winds at.opening at.call wind (at.fetched + 1) }
{
    if at.fetched >= usize::MAX {
        return false;
    }
    let number = at.fetched as u64 + 1;
    is_opened_in(log.winds.as_slice(), at.opening, at.call, wind, number)
}

// Whether a replacement is of a copy, and was sent in the event in which the source answered its fetch.
fn is_replacement_of(
    alloc: Global,
    log: &Log,
    bricks: &[Brick],
    copy: &CopyRecord,
    at: Found,
    by: &Replacement,
) -> Result<bool, AllocError>
    ensures { IfOk result (λ yes. yes ≡ true → IsReplacementOf log.now bricks.now copy.now at.call at.fetched by.now) }
{
    if !is_of(by, copy) {
        return Ok(false);
    }
    if !is_in_turn(log, at, by.wind) {
        return Ok(false);
    }
    let yes = has_fetch(alloc, log, bricks, copy.source, at, by)?;
    Ok(yes)
}

// The graph and the wind of a confirmed replacement, if a copy was made by it.
fn made_with(
    alloc: Global,
    log: &Log,
    bricks: &[Brick],
    copy: &CopyRecord,
    number: u64,
    at: Found,
    by: &Replacement,
) -> Result<Option<MadeOn>, AllocError>
    requires in_time { at.replaced < number }
    requires confirmed { IsConfirmed log.now bricks.now copy.now.sink at.replaced by.now }
    ensures { IfOk result (λ found. IfSome found (λ on. IsReplaced log.now bricks.now copy.now number at.call on.graph on.wind)) }
{
    let _ = number;
    if !is_replacement_of(alloc, log, bricks, copy, at, by)? {
        return Ok(None);
    }
    Ok(Some(MadeOn {
        graph: by.graph,
        wind: by.wind,
    }))
}

/// The graph and the wind of the replacement by which a copy was made in a call, if it was confirmed before the copy's event ended.
///
/// # Errors
/// Out of memory.
pub(crate) fn replacement_for(
    alloc: Global,
    log: &Log,
    bricks: &[Brick],
    copy: &CopyRecord,
    number: u64,
    at: Found,
) -> Result<Option<MadeOn>, AllocError>
    ensures { IfOk result (λ found. IfSome found (λ on. IsReplaced log.now bricks.now copy.now number at.call on.graph on.wind)) }
{
    if at.replaced as u64 >= number {
        return Ok(None);
    }
    match confirmed(alloc, log, bricks, copy.sink, at.replaced)? {
        Some(by) => {
            let found = made_with(alloc, log, bricks, copy, number, at, &by);
            drop(by);
            found
        }
        None => Ok(None),
    }
}
