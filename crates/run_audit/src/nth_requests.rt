//! Which one of its procedure each request is, among those that were sent to its brick in its phase.
ghost use Rattle.std.specs.Prelude.{◌≡◌, ◌≤◌, ◌<◌, ◌+◌, ◌^◌, Some, length, slice_get, slice_set, IfOk, IfSome, IfNone, IsSome};
ghost use Rattle.run_audit.specs.Noted.{AreRising};
ghost use Rattle.run_audit.specs.Numbered.{held, cell_of, AreZero, IsCounted as IsLineCounted, HasNoNumber, AreInEvents, AreNth};

use crate::phase_ends::{begun_of, phase_from};
use mount_log::SentLine;
use mount_log::requests::rank_of;
use std::alloc::{AllocError, Global};

/// How many requests of one procedure were sent to one brick in a phase.
#[derive(Clone, Copy)]
pub struct PhaseCount {
    pub phase: usize,
    pub count: u64,
}

// The place of the count of a brick and the rank of a procedure.
fn cell(brick: u8, rank: u8) -> usize
    ensures value { result ≡ cell_of brick rank }
    ensures below { result < 65536 }
{
    brick as usize * 256 + rank as usize
}

fn no_counts(alloc: Global) -> Result<Vec<PhaseCount>, AllocError>
    ensures many { IfOk result (λ counts. length counts.items ≡ 65536) }
    ensures zero { IfOk result (λ counts. AreZero counts.items) }
{
    let mut counts = Vec::new(alloc);
    for _ in 0..65536usize {
        counts.push(PhaseCount { phase: 0, count: 0 })?;
    }
    Ok(counts)
}

// The count of a phase with one more. So many that there is no next number are not counted.
fn next_count(found: PhaseCount, phase: usize) -> Option<u64>
    ensures some { IfSome result (λ n. n ≡ held phase (Some found) + 1) }
    ensures none { IfNone result (2 ^ 64 ≤ held phase (Some found) + 1) }
{
    if found.phase == phase {
        found.count.checked_add(1)
    } else {
        Some(1)
    }
}

fn count_one(counts: &mut Vec<PhaseCount>, at: usize, phase: usize) -> Option<u64>
    requires { at < length counts.old.items }
    ensures count { IfSome result (λ n. n ≡ held phase (slice_get counts.old.items at) + 1) }
    ensures counts { IfSome result (λ n. counts.new.items ≡ slice_set counts.old.items at (record { phase = phase; count = n })) }
    ensures none { IfNone result (2 ^ 64 ≤ held phase (slice_get counts.old.items at) + 1) }
{
    let n = next_count(counts[at], phase)?;
    counts[at] = PhaseCount { phase, count: n };
    Some(n)
}

// Counts a line that was sent in a phase, if it is a request, and gives which one it is; 0 of other lines.
fn count_line(
    counts: &mut Vec<PhaseCount>,
    ended: &[u64],
    last: u64,
    phase: usize,
    line: &SentLine,
) -> Option<u64>
    requires { length counts.old.items ≡ 65536 }
    ensures some { IfSome result (λ n. IsLineCounted ended.now last phase line.now counts.old.items n counts.new.items) }
    ensures none { IfNone result (HasNoNumber ended.now last phase line.now counts.old.items) }
{
    let Some(rank) = rank_of(line.bytes.as_slice()) else {
        return Some(0);
    };
    if begun_of(ended, last, phase) >= line.event {
        return None;
    }
    count_one(counts, cell(line.brick, rank), phase)
}

// Counts all lines, and gives of each which one it is. `None` where lines are not in the order of their events.
fn count_lines(
    alloc: Global,
    counts: &mut Vec<PhaseCount>,
    sent: &[SentLine],
    ended: &[u64],
    last: u64,
) -> Result<Option<Vec<u64>>, AllocError>
    requires rising { AreRising ended.now last }
    requires many { length counts.old.items ≡ 65536 }
    requires zero { AreZero counts.old.items }
    ensures nth { IfOk result (λ found. IfSome found (λ nth. AreNth ended.now last sent.now nth.items)) }
    ensures many { IfOk result (λ found. IfSome found (λ nth. length nth.items ≡ length sent.now)) }
    ensures complete { IfOk result (λ found. AreInEvents last sent.now → IsSome found) }
{
    let mut phase = 0usize;
    let mut floor = 0u64;
    let mut nth = Vec::new(alloc);
    for k in 0..sent.len() {
        let Some(line) = sent.get(k) else {
            drop(nth);
            return Ok(None);
        };
        if line.event < floor || line.event > last {
            drop(nth);
            return Ok(None);
        }
        floor = line.event;
        phase = phase_from(ended, last, phase, line.event);
        let Some(n) = count_line(counts, ended, last, phase, line) else {
            drop(nth);
            return Ok(None);
        };
        nth.push(n)?;
    }
    Ok(Some(nth))
}

/// For each line that was sent, if it is a request, which one it is of its procedure to its brick in its phase. `None` where
/// lines are not in the order of their events.
///
/// # Errors
/// Out of memory.
pub fn nth_requests(
    alloc: Global,
    sent: &[SentLine],
    ended: &[u64],
    last: u64,
) -> Result<Option<Vec<u64>>, AllocError>
    requires { AreRising ended.now last }
    ensures nth { IfOk result (λ found. IfSome found (λ nth. AreNth ended.now last sent.now nth.items)) }
    ensures many { IfOk result (λ found. IfSome found (λ nth. length nth.items ≡ length sent.now)) }
    ensures complete { IfOk result (λ found. AreInEvents last sent.now → IsSome found) }
{
    let mut counts = no_counts(alloc)?;
    let nth = count_lines(alloc, &mut counts, sent, ended, last);
    drop(counts);
    nth
}
