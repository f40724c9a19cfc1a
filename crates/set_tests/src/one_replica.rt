use crate::jobs::Work;
use crate::played::are_played;
use crate::summary::Want;
use crate::summary::Want::*;
use crate::turns::Turn;
use crate::turns::Turn::*;

// One replica: each job to its end, and each way to fail.
const ALONE: [(Turn, Want); 52] = [
    (Begin(1, 1, false, Work::Read), Shared(1)),
    (Rows(0, 0, 0), Fetch(1)),
    (Bytes(0), Unlock(1)),
    (Done(0), Contents(1, 0)),
    (Begin(1, 1, false, Work::ReadDir), Shared(1)),
    (Absent(0), Unlock(1)),
    (Done(0), Contents(1, 0)),
    (Begin(1, 1, false, Work::Read), Shared(1)),
    (Absent(0), Unlock(1)),
    (Done(0), Split(1)),
    (Begin(1, 1, false, Work::Change), Lock(1)),
    (Rows(0, 0, 0), Mark(1)),
    (Done(0), Op(1)),
    (Done(0), Post(1, 0)),
    (Done(0), Unlock(1)),
    (Done(0), Decided(Some(1))),
    (Begin(1, 1, false, Work::Change), Lock(1)),
    (Rows(0, 0, 0), Mark(1)),
    (Turn::Fault(0), Unlock(1)),
    (Done(0), Want::Fault(1, 0)),
    (Begin(1, 1, false, Work::Change), Lock(1)),
    (Rows(0, 0, 0), Mark(1)),
    (Done(0), Op(1)),
    (Cut(0), Wait),
    (Gone(0), Quorum(1)),
    (Begin(1, 1, false, Work::Change), Lock(1)),
    (Rows(0, 0, 0), Mark(1)),
    (Begun, Wait),
    (Done(0), Unlock(1)),
    (Done(0), Lock(1)),
    (Rows(0, 0, 0), Settle(1, 0)),
    (Begin(1, 1, false, Work::Change), Lock(1)),
    (Gone(0), Quorum(1)),
    (Begin(1, 0, false, Work::Change), Quorum(1)),
    (Begin(1, 1, false, Work::Birth), Lock(1)),
    (Absent(0), Op(1)),
    (Done(0), Unlock(1)),
    (Done(0), Decided(None)),
    (Begin(1, 1, false, Work::Open), Open(1)),
    (Done(0), Opened),
    (Begin(1, 1, false, Work::Open), Open(1)),
    (Turn::Fault(0), Want::Fault(1, 0)),
    (Begin(1, 0, false, Work::Open), Quorum(1)),
    (Begin(1, 1, false, Work::Index), Index(1)),
    (Cells(0), Listed(1, 1, false)),
    (Begin(1, 1, true, Work::Read), Lock(1)),
    (Rows(0, 0, 1), Settle(1, 0)),
    (Done(0), Unlock(1)),
    (Done(0), Shared(1)),
    (Rows(0, 0, 1), Fetch(1)),
    (Bytes(0), Unlock(1)),
    (Done(0), Contents(1, 1)),
];

#[test]
fn jobs_on_one_replica(rt: HostRuntime) {
    assert!(rt; are_played(rt.alloc(), &ALONE));
}
