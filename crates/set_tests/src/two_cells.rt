use crate::jobs::Work;
use crate::played::are_played;
use crate::summary::Want;
use crate::summary::Want::*;
use crate::turns::Turn;
use crate::turns::Turn::*;

// A change of two cells, and a settling of one, on three replicas. Each cell goes from those that are sound on both to
// those that are unsound on it; cells with the same sources and sinks go together; without a common source each goes
// from those that are sound on it, but a settling copies nothing before its verdict. Where one cell has no sound
// replica, the copies are split. A copy that is left without a source begins the job again.
const TWO_CELLS: [(Turn, Want); 68] = [
    (Begin(3, 7, false, Work::Rename), Lock(1)),
    (Pair(0, 2, 0, 4, 0), Lock(2)),
    (Pair(1, 0, 0, 4, 0), Lock(4)),
    (Pair(2, 2, 0, 0, 0), Part(1, 1, 2)),
    (Copied(2), Part(2, 1, 4)),
    (Copied(4), Mark(7)),
    (Begin(3, 7, false, Work::Rename), Lock(1)),
    (Pair(0, 4, 0, 4, 0), Lock(2)),
    (Pair(1, 4, 0, 4, 0), Lock(4)),
    (Pair(2, 0, 0, 0, 0), Part(3, 3, 4)),
    (Copied(4), Mark(7)),
    (Done(0), Wait),
    (Done(1), Wait),
    (Done(2), Op(7)),
    (Done(0), Wait),
    (Gone(1), Wait),
    (Done(2), Post(5, 2)),
    (Done(0), Wait),
    (Done(2), Unlock(7)),
    (Done(0), Wait),
    (Done(1), Wait),
    (Done(2), Decided(Some(1))),
    (Begin(3, 7, false, Work::Rename), Lock(1)),
    (Pair(0, 0, 0, 0, 0), Lock(2)),
    (Pair(1, 1, 0, 2, 0), Lock(4)),
    (Pair(2, 1, 0, 4, 0), Part(1, 6, 1)),
    (Copied(1), Part(2, 1, 6)),
    (Copied(6), Mark(7)),
    (Begin(3, 7, false, Work::Rename), Lock(1)),
    (Pair(0, 1, 0, 0, 0), Lock(2)),
    (Pair(1, 2, 0, 0, 0), Lock(4)),
    (Pair(2, 4, 0, 0, 0), Unlock(7)),
    (Done(0), Wait),
    (Done(1), Wait),
    (Done(2), Split(6)),
    (Begin(3, 7, true, Work::ReadNames), Lock(1)),
    (Pair(0, 0, 1, 0, 1), Lock(2)),
    (Pair(1, 0, 1, 0, 1), Lock(4)),
    (Pair(2, 0, 0, 0, 0), Settle(7, 4)),
    (Done(0), Wait),
    (Done(1), Wait),
    (Done(2), Part(3, 3, 4)),
    (Copied(4), Unlock(7)),
    (Done(0), Wait),
    (Done(1), Wait),
    (Done(2), Shared(1)),
    (Rows(0, 0, 1), Shared(2)),
    (Rows(1, 0, 1), Shared(4)),
    (Rows(2, 0, 1), Fetch(1)),
    (Names(0), Unlock(7)),
    (Done(0), Wait),
    (Done(1), Wait),
    (Done(2), Contents(1, 1)),
    (Begin(3, 7, true, Work::ReadNames), Lock(1)),
    (Pair(0, 0, 0, 0, 0), Lock(2)),
    (Pair(1, 1, 0, 2, 0), Lock(4)),
    (Pair(2, 1, 0, 4, 0), Unlock(7)),
    (Done(0), Wait),
    (Done(1), Wait),
    (Done(2), Split(6)),
    (Begin(3, 7, false, Work::Rename), Lock(1)),
    (Pair(0, 2, 0, 4, 0), Lock(2)),
    (Pair(1, 0, 0, 4, 0), Lock(4)),
    (Pair(2, 2, 0, 0, 0), Part(1, 1, 2)),
    (Cut(6), Wait),
    (CopyOuts(0, 1), Unlock(6)),
    (Done(1), Wait),
    (Done(2), Lock(2)),
];

#[test]
fn jobs_of_two_cells(rt: HostRuntime) {
    assert!(rt; are_played(rt.alloc(), &TWO_CELLS));
}
