//! The audit of skips.
ghost use Rattle.std.specs.Prelude.{◌≡◌, [], true, option_copied, slice_get, Some, IfOk};
ghost use Rattle.fop_types.specs.declared.causes.SkipCause.{SkipCause as Cause};
ghost use Rattle.fop_types.specs.declared.cells.Cell.{Cell as Part};
ghost use Rattle.change_audit.specs.Listed.{IsListed, SkipsAreListed};
ghost use Rattle.change_audit.specs.Listings.{AreListings, IsSkipDue};

use crate::listings::{Listings, listings_of};
use brick_machine::Brick;
use fop_types::{Cell, SkipCause};
use mount_log::Log;
use std::alloc::{AllocError, Global};

// Whether a brick had listed a cell by the event of a number.
fn is_listed(log: &Log, bricks: &[Brick], listings: &Listings, cell: &Cell, number: u64) -> bool
    requires { AreListings log.now bricks.now listings.now }
    ensures { result ≡ true → IsListed log.now bricks.now number cell.now }
{
    match listings.get(cell) {
        Some(event) => (event as u64) < number,
        None => false,
    }
}

fn skip_at(log: &Log, k: usize) -> Option<&(Cell, SkipCause)>
    ensures { option_copied result ≡ slice_get log.now.skips k }
{
    log.skips.as_slice().get(k)
}

fn number_at(log: &Log, k: usize) -> Option<u64>
    ensures { result ≡ slice_get log.now.skipped k }
{
    log.skipped.as_slice().get(k).copied()
}

fn is_due(log: &Log, bricks: &[Brick], listings: &Listings, k: usize) -> bool
    requires { AreListings log.now bricks.now listings.now }
    ensures { result ≡ true → (skip : Part × Cause) → slice_get log.now.skips k ≡ Some skip → IsSkipDue log.now bricks.now k skip }
{
    let Some(skip) = skip_at(log, k) else {
        return false;
    };
    let Some(number) = number_at(log, k) else {
        return false;
    };
    is_listed(log, bricks, listings, &skip.0, number)
}

fn are_due(log: &Log, bricks: &[Brick], listings: &Listings) -> bool
    requires { AreListings log.now bricks.now listings.now }
    ensures sound { result ≡ true → SkipsAreListed log.now bricks.now }
    ensures none { log.now.skips ≡ [] → result ≡ true }
{
    for k in 0..log.skips.len() {
        if !is_due(log, bricks, listings, k) {
            return false;
        }
    }
    true
}

/// Whether each skip of the log is of a cell that a brick had listed to an internal call by then.
///
/// # Errors
/// Out of memory.
pub fn skips_are_listed(alloc: Global, log: &Log, bricks: &[Brick]) -> Result<bool, AllocError>
    ensures sound { IfOk result (λ yes. yes ≡ true → SkipsAreListed log.now bricks.now) }
    ensures none { IfOk result (λ yes. log.now.skips ≡ [] → yes ≡ true) }
{
    let listings = listings_of(alloc, log, bricks)?;
    let yes = are_due(log, bricks, &listings);
    drop(listings);
    Ok(yes)
}
