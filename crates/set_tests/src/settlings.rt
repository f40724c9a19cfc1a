use crate::jobs::Work;
use crate::played::are_played;
use crate::summary::Want;
use crate::summary::Want::*;
use crate::turns::Turn;
use crate::turns::Turn::*;

// Settlings on three replicas: adopted, with a copy to the one that lacks the change; dropped; overtaken under the locks
// and while its settle is out. A read that is left without a source begins again.
const SETTLINGS: [(Turn, Want); 47] = [
    (Begin(3, 7, true, Work::Read), Lock(1)),
    (Rows(0, 0, 1), Lock(2)),
    (Rows(1, 0, 1), Lock(4)),
    (Rows(2, 0, 0), Settle(7, 4)),
    (Done(0), Wait),
    (Done(1), Wait),
    (Done(2), Copy(3, 4)),
    (Copied(4), Unlock(7)),
    (Done(0), Wait),
    (Done(1), Wait),
    (Done(2), Shared(1)),
    (Begin(3, 7, true, Work::Change), Lock(1)),
    (Rows(0, 0, 0), Lock(2)),
    (Rows(1, 0, 1), Lock(4)),
    (Rows(2, 0, 0), Settle(7, 2)),
    (Done(0), Wait),
    (Settled(false), Wait),
    (Done(1), Wait),
    (Done(2), Copy(5, 2)),
    (Copied(0), Unlock(7)),
    (Begin(3, 7, true, Work::Read), Lock(1)),
    (Rows(0, 0, 0), Lock(2)),
    (Rows(1, 0, 0), Lock(4)),
    (Settled(true), Wait),
    (Rows(2, 0, 0), Unlock(7)),
    (Begin(3, 7, true, Work::Read), Lock(1)),
    (Rows(0, 4, 0), Lock(2)),
    (Rows(1, 5, 0), Lock(4)),
    (Rows(2, 1, 0), Settle(7, 5)),
    (Done(0), Wait),
    (Gone(1), Wait),
    (Gone(2), Unlock(7)),
    (Done(0), Wait),
    (Done(1), Wait),
    (Done(2), Quorum(6)),
    (Begin(3, 7, false, Work::Read), Shared(1)),
    (Rows(0, 4, 0), Shared(2)),
    (Rows(1, 5, 0), Shared(4)),
    (Rows(2, 1, 0), Fetch(2)),
    (Gone(1), Unlock(7)),
    (Done(0), Wait),
    (Done(1), Wait),
    (Done(2), Shared(1)),
    (Rows(0, 4, 0), Shared(4)),
    (Rows(2, 1, 0), Unlock(5)),
    (Done(0), Wait),
    (Done(2), Split(2)),
];

#[test]
fn settlings_and_reads_again(rt: HostRuntime) {
    assert!(rt; are_played(rt.alloc(), &SETTLINGS));
}
