use fop_types::Gfid;
use mount_locks::{Held, MountLocks};
use std::alloc::Global;
use std::process::Abort;
use std::test::*;

const ROOT: Gfid = Gfid { hi: 0, lo: 1 };

const DIR: Gfid = Gfid { hi: 0, lo: 2 };

const FILE: Gfid = Gfid { hi: 0, lo: 3 };

const LINK: Gfid = Gfid { hi: 0, lo: 4 };

// A call, the gfids that it asks for, whether shared, and the answer.
const ASKS: [(u32, &[Gfid], bool, Held); 6] = [
    (1, &[ROOT, DIR, FILE], false, Held::Granted),
    (2, &[ROOT], true, Held::Waiting),
    (3, &[DIR, FILE], false, Held::Waiting),
    (4, &[ROOT, DIR], true, Held::Waiting),
    (5, &[FILE], true, Held::Waiting),
    (6, &[LINK], false, Held::Granted),
];

// A call that extends its hold, the gfid, and the answer.
const EXTENSIONS: [(u32, Gfid, Held); 2] = [(6, LINK, Held::Granted), (6, ROOT, Held::Waiting)];

// A call that is released, and the calls that this grants.
const RELEASES: [(u32, &[u32]); 3] = [(1, &[6, 3]), (6, &[2]), (3, &[4, 5])];

// One call holds three gfids exclusive; others wait for some of them, and one extends its hold before all
// that wait. Each release grants in queue order, and once nobody waits `release_done` does.
#[test]
fn basic(rt: HostRuntime) -> Result<(), Fail> {
    let mut locks = MountLocks::new(rt.alloc());
    let done = are_as_wanted(&rt, rt.alloc(), &mut locks);
    drop(locks);
    done
}

fn are_as_wanted(rt: &impl Abort, alloc: Global, locks: &mut MountLocks) -> Result<(), Fail> {
    are_held(rt, alloc, locks)?;
    are_released(rt, alloc, locks)
}

fn are_held(rt: &impl Abort, alloc: Global, locks: &mut MountLocks) -> Result<(), Fail> {
    for (call, gfids, shared, held) in &ASKS {
        assert!(rt; locks.ask(alloc, *call, gfids, *shared)? == *held);
    }
    for (call, gfid, held) in &EXTENSIONS {
        assert!(rt; locks.extend(alloc, *call, *gfid)? == *held);
    }
    Ok(())
}

fn are_released(rt: &impl Abort, alloc: Global, locks: &mut MountLocks) -> Result<(), Fail> {
    assert!(rt; !locks.release_done(2));
    for (call, granted) in &RELEASES {
        assert!(rt; locks.release(alloc, *call)?.as_slice() == *granted);
    }
    assert!(rt; locks.release_done(2));
    Ok(())
}
