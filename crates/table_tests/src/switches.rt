use fd_table::FdTable;
use fop_types::{Gfid, Seq, SetPlan};
use graph_build::Plan;
use graph_switch::{Reopen, may_follow, reopen_list};
use std::alloc::{AllocError, Global};
use std::test::*;

// A set: its bricks, and the names of their clients, one letter each.
type SetRow = (&'static [u8], &'static [u8]);

const A: SetRow = (&[0, 1, 2], b"abc");

const B: SetRow = (&[3, 4, 5], b"def");

const C: SetRow = (&[6], b"g");

const D: SetRow = (&[7], b"h");

// The sets of the plans so far, those of a new plan, and whether it may follow.
const CASES: [(&[&[SetRow]], &[SetRow], bool); 11] = [
    (&[], &[A, B], true),
    (&[&[A, B]], &[A, B], true),
    (&[&[A, B], &[A, B, C]], &[A, B, C, D], true),
    (&[&[A, B]], &[A], false),
    (&[&[A, B]], &[B, A], false),
    (&[&[A, B]], &[A, C, B], false),
    (&[&[A]], &[(&[0, 2, 1], b"acb")], false),
    (&[&[A]], &[(&[0, 1, 2], b"abx")], false),
    (&[&[A]], &[A, (&[2], b"y")], false),
    (&[&[A, B], &[A]], &[A, (&[4], b"z")], false),
    (&[&[A, B], &[A]], &[A, C], true),
];

#[test]
fn plans(rt: HostRuntime) -> Result<(), Fail> {
    for (plans, new, answer) in &CASES {
        assert!(rt; may_follow_rows(rt.alloc(), plans, new)? == *answer);
    }
    Ok(())
}

fn may_follow_rows(alloc: Global, plans: &[&[SetRow]], new: &[SetRow]) -> Result<bool, AllocError> {
    let mut so_far = Vec::new(alloc);
    for sets in plans {
        so_far.push(plan_of(alloc, sets)?)?;
    }
    let next = plan_of(alloc, new)?;
    Ok(may_follow(&so_far, &next))
}

fn plan_of(alloc: Global, rows: &[SetRow]) -> Result<Plan, AllocError> {
    let mut sets = Seq::new(alloc);
    for (bricks, clients) in rows {
        sets.push(set_of(alloc, bricks, clients)?)?;
    }
    Ok(Plan {
        nodes: Seq::new(alloc),
        sets,
    })
}

fn set_of(alloc: Global, bricks: &[u8], letters: &[u8]) -> Result<SetPlan, AllocError> {
    let mut clients = Seq::new(alloc);
    for letter in letters {
        clients.push(Seq::from_bytes(alloc, &[*letter])?)?;
    }
    Ok(SetPlan {
        number: 0,
        name: Seq::new(alloc),
        bricks: Seq::from_bytes(alloc, bricks)?,
        clients,
        q: 2,
    })
}

const FILE: Gfid = Gfid { hi: 0, lo: 2 };

const OTHER: Gfid = Gfid { hi: 0, lo: 3 };

// A session, a descriptor that it opens, the file and its set.
const OPENS: [(u8, u8, Gfid, u8); 4] = [
    (1, 0, FILE, 0),
    (0, 255, OTHER, 1),
    (0, 7, FILE, 0),
    (0, 8, OTHER, 1),
];

const LISTED: [Reopen; 3] = [
    Reopen {
        session: 0,
        fd: 7,
        gfid: FILE,
        set: 0,
    },
    Reopen {
        session: 0,
        fd: 255,
        gfid: OTHER,
        set: 1,
    },
    Reopen {
        session: 1,
        fd: 0,
        gfid: FILE,
        set: 0,
    },
];

// One of four descriptors is closed again; the others are listed in order.
#[test]
fn descriptors(rt: HostRuntime) -> Result<(), Fail> {
    let mut table = FdTable::new(rt.alloc());
    for (session, fd, gfid, set) in &OPENS {
        table.open(rt.alloc(), *session, *fd, *gfid, *set);
    }
    assert!(rt; table.close(0, 8));
    assert!(rt; reopen_list(rt.alloc(), &table)?.as_slice() == LISTED.as_slice());
    Ok(())
}
