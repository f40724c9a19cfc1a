//! Whether jobs, begun and taken through their turns, ask what a table says.
ghost use Rattle.std.specs.Prelude.{◌≡◌, ◌+◌, ◌/◌, ◌%◌, ◌≤◌, length};

use crate::jobs::{Work, job_of, ledger_of, set_of};
use crate::summary::{Want, summary};
use crate::turns::{Links, Turn};
use afr_ledger::Ledger;
use afr_transaction::{Need, Txn};
use fop_types::{Cell, Mask, SetPlan};
use std::alloc::{AllocError, Global};

const LAST: [u32; 5] = [4; 5];

// Whether a job that has begun asks first for this, and at each turn for that.
fn goes_on(
    alloc: Global,
    begun: &mut (Txn, Need),
    live: u8,
    ledger: &mut Ledger<Cell>,
    first: Want,
    turns: &[(Turn, Want)],
) -> Result<bool, AllocError> {
    if summary(&begun.1) != first {
        return Ok(false);
    }
    let mut links = Links { live, last: LAST };
    links.takes(alloc, &mut begun.0, ledger, turns)
}

// The same, unless memory ran out as it began.
fn goes_on_if_begun(
    alloc: Global,
    begun: &mut Result<(Txn, Need), AllocError>,
    live: u8,
    ledger: &mut Ledger<Cell>,
    first: Want,
    turns: &[(Turn, Want)],
) -> Result<bool, AllocError> {
    match begun {
        Ok(begun) => goes_on(alloc, begun, live, ledger, first, turns),
        Err(_) => Err(AllocError),
    }
}

// The same of a job on this set.
fn begins(
    alloc: Global,
    set: &SetPlan,
    work: Work,
    live: u8,
    ledger: &mut Ledger<Cell>,
    first: Want,
    turns: &[(Turn, Want)],
) -> Result<bool, AllocError>
    requires odd { length set.now.bricks % 2 ≡ 1 }
    requires few { length set.now.bricks ≤ 5 }
    requires quorum { set.now.q ≡ (length set.now.bricks + 1) / 2 }
{
    let job = job_of(alloc, work)?;
    let mut begun = Txn::begin(alloc, set, 3, job, Mask(live), &LAST, ledger);
    let did = goes_on_if_begun(alloc, &mut begun, live, ledger, first, turns);
    drop(begun);
    did
}

// The same of a job by its kind, where change 1 may be unsettled.
fn plays(
    alloc: Global,
    set: &SetPlan,
    work: Work,
    live: u8,
    unsettled: bool,
    first: Want,
    turns: &[(Turn, Want)],
) -> Result<bool, AllocError>
    requires odd { length set.now.bricks % 2 ≡ 1 }
    requires few { length set.now.bricks ≤ 5 }
    requires quorum { set.now.q ≡ (length set.now.bricks + 1) / 2 }
{
    let mut ledger = ledger_of(alloc, unsettled, work)?;
    begins(alloc, set, work, live, &mut ledger, first, turns)
}

// Whether a job on `n` replicas, of which these are live, asks first for this, and at each turn for that.
fn is_played(
    alloc: Global,
    n: u8,
    live: u8,
    unsettled: bool,
    work: Work,
    first: Want,
    turns: &[(Turn, Want)],
) -> Result<bool, AllocError> {
    let set = set_of(alloc, n)?;
    let count = set.bricks.len();
    if count % 2 != 1 || count > 5 || set.q as usize != (count + 1) / 2 {
        return Ok(false);
    }
    plays(alloc, &set, work, live, unsettled, first, turns)
}

fn is_begin(turn: Turn) -> bool {
    match turn {
        Turn::Begin(..) => true,
        _ => false,
    }
}

// The rows up to the next job, and those from there on.
fn cut(rows: &[(Turn, Want)]) -> (&[(Turn, Want)], &[(Turn, Want)]) {
    for i in 0..rows.len() {
        let row = rows[i];
        if is_begin(row.0) {
            return (&rows[..i], &rows[i..]);
        }
    }
    (rows, &[])
}

fn is_case_played(alloc: Global, begin: Turn, first: Want, turns: &[(Turn, Want)]) -> bool {
    match begin {
        Turn::Begin(n, live, unsettled, work) => {
            let played = is_played(alloc, n, live, unsettled, work, first, turns);
            matches!(played, Ok(true))
        }
        _ => false,
    }
}

/// Whether each job of a table asks first for what is beside its beginning, and at each turn for what is beside that.
pub(crate) fn are_played(alloc: Global, rows: &[(Turn, Want)]) -> bool {
    let mut rest = rows;
    for _ in 0..rows.len() {
        let Some((row, more)) = rest.split_first() else {
            return true;
        };
        let (turns, next) = cut(more);
        if !is_case_played(alloc, row.0, row.1, turns) {
            return false;
        }
        rest = next;
    }
    rest.is_empty()
}
