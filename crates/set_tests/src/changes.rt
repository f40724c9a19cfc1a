use crate::jobs::Work;
use crate::played::are_played;
use crate::summary::Want;
use crate::summary::Want::*;
use crate::turns::Turn;
use crate::turns::Turn::*;

// A change on three and five replicas: a post accuses all that have no confirmed op, the unreached ones too; too few are
// left in the lock phase and after the op; another has settled the change when its post is confirmed.
const CHANGES: [(Turn, Want); 65] = [
    (Begin(3, 7, false, Work::Change), Lock(1)),
    (Rows(0, 0, 0), Lock(2)),
    (Rows(1, 0, 0), Lock(4)),
    (Rows(2, 0, 0), Mark(7)),
    (Done(0), Wait),
    (Done(1), Wait),
    (Done(2), Op(7)),
    (Done(0), Wait),
    (Done(1), Wait),
    (Gone(2), Post(3, 4)),
    (Done(0), Wait),
    (Done(1), Unlock(7)),
    (Done(0), Wait),
    (Done(1), Wait),
    (Done(2), Decided(Some(1))),
    (Begin(3, 7, false, Work::Change), Lock(1)),
    (Rows(0, 0, 0), Lock(2)),
    (Turn::Fault(1), Lock(4)),
    (Cut(6), Wait),
    (Turn::Fault(2), Want::Fault(6, 0)),
    (Begin(3, 7, false, Work::Change), Lock(1)),
    (Rows(0, 0, 0), Lock(2)),
    (Rows(1, 0, 0), Lock(4)),
    (Cut(6), Wait),
    (Rows(2, 0, 0), Mark(6)),
    (Done(1), Wait),
    (Gone(2), Unlock(6)),
    (Done(1), Wait),
    (Done(2), Quorum(5)),
    (Begin(3, 3, false, Work::Change), Lock(1)),
    (Rows(0, 0, 0), Lock(2)),
    (Rows(1, 0, 0), Mark(3)),
    (Done(0), Wait),
    (Done(1), Op(3)),
    (Done(1), Wait),
    (Done(0), Post(3, 4)),
    (Done(0), Wait),
    (Settled(true), Wait),
    (Done(1), Unlock(3)),
    (Done(0), Wait),
    (Done(1), Decided(Some(1))),
    (Begin(3, 7, false, Work::Change), Lock(1)),
    (Rows(0, 4, 0), Lock(2)),
    (Rows(1, 4, 0), Lock(4)),
    (Rows(2, 0, 0), Copy(3, 4)),
    (Copied(4), Mark(7)),
    (Begin(5, 7, false, Work::Change), Lock(1)),
    (Rows(0, 0, 0), Lock(2)),
    (Rows(1, 0, 0), Lock(4)),
    (Rows(2, 0, 0), Mark(7)),
    (Done(0), Wait),
    (Done(1), Wait),
    (Done(2), Op(7)),
    (Done(0), Wait),
    (Done(1), Wait),
    (Done(2), Post(7, 24)),
    (Done(0), Wait),
    (Done(1), Wait),
    (Done(2), Unlock(7)),
    (Begin(5, 31, false, Work::Open), Open(31)),
    (Done(0), Wait),
    (Turn::Fault(1), Wait),
    (Gone(2), Wait),
    (Done(3), Wait),
    (Gone(4), Want::Fault(2, 20)),
];

#[test]
fn changes_on_several(rt: HostRuntime) {
    assert!(rt; are_played(rt.alloc(), &CHANGES));
}
