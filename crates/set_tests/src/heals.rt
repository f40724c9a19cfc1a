use crate::jobs::Work;
use crate::played::are_played;
use crate::summary::Want;
use crate::summary::Want::*;
use crate::turns::Turn;
use crate::turns::Turn::*;
use fop_types::SkipCause;

// Heals of one cell: each cause to leave it, nothing to copy, and a copy.
const HEALS: [(Turn, Want); 18] = [
    (Begin(3, 1, false, Work::Heal), Lock(1)),
    (Rows(0, 0, 0), Unlock(1)),
    (Done(0), Skipped(SkipCause::Majority)),
    (Begin(1, 1, true, Work::Heal), Lock(1)),
    (Rows(0, 0, 0), Unlock(1)),
    (Done(0), Skipped(SkipCause::Unsettled)),
    (Begin(1, 1, false, Work::Heal), Lock(1)),
    (Absent(0), Unlock(1)),
    (Done(0), Skipped(SkipCause::Split)),
    (Begin(1, 1, false, Work::Heal), Lock(1)),
    (Rows(0, 0, 0), Unlock(1)),
    (Done(0), Healed(0)),
    (Begin(3, 3, false, Work::Heal), Lock(1)),
    (Rows(0, 2, 0), Lock(2)),
    (Rows(1, 0, 0), Copy(1, 2)),
    (Copied(2), Unlock(3)),
    (Done(0), Wait),
    (Done(1), Healed(0)),
];

#[test]
fn heals_of_a_cell(rt: HostRuntime) {
    assert!(rt; are_played(rt.alloc(), &HEALS));
}
