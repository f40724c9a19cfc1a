use self::Step::*;
use brick_locks::{Asked, BrickLocks, Dropped, Owner};
use fop_types::{Aspect, Cell, Gfid};
use std::alloc::{AllocError, Global};
use std::test::*;

const A: Cell = Cell {
    gfid: Gfid { hi: 0, lo: 2 },
    aspect: Aspect::Data,
};

const B: Cell = Cell {
    gfid: Gfid { hi: 0, lo: 2 },
    aspect: Aspect::Meta,
};

const C: Cell = Cell {
    gfid: Gfid { hi: 0, lo: 3 },
    aspect: Aspect::Data,
};

const READER: Owner = Owner { graph: 1, call: 4 };

const WRITER: Owner = Owner { graph: 1, call: 7 };

const LATER: Owner = Owner { graph: 2, call: 5 };

const APART: Owner = Owner { graph: 2, call: 6 };

// What is done with the locks, and what comes of it.
#[derive(Clone, Copy)]
enum Step {
    // An owner that neither holds nor waits, the cells that it asks for, whether shared, and the answer.
    Asks(Owner, &'static [Cell], bool, Asked),
    // An owner that releases, and the owners that this grants.
    Releases(Owner, &'static [Owner]),
    // A graph that ends: who waited and is gone, and who is granted.
    DropsGraph(u32, &'static [Owner], &'static [Owner]),
    // All end: the same.
    DropsAll(&'static [Owner], &'static [Owner]),
}

// A reader holds two cells, a writer waits for one of them, a later reader waits behind the writer, and
// a writer of another cell waits for nobody.
const STEPS: [Step; 9] = [
    Asks(READER, &[A, B], true, Asked::Granted),
    Asks(WRITER, &[B], false, Asked::Queued),
    Asks(LATER, &[B], true, Asked::Queued),
    Asks(APART, &[C], false, Asked::Granted),
    Releases(LATER, &[]),
    Releases(READER, &[WRITER]),
    DropsGraph(1, &[], &[LATER]),
    Asks(WRITER, &[A, B], false, Asked::Queued),
    DropsAll(&[WRITER], &[]),
];

#[test]
fn basic(rt: HostRuntime) -> Result<(), Fail> {
    let alloc = rt.alloc();
    let mut locks = BrickLocks::new(alloc);
    for step in &STEPS {
        assert!(rt; comes_out(alloc, &mut locks, *step)?);
    }
    Ok(())
}

fn comes_out(alloc: Global, locks: &mut BrickLocks, step: Step) -> Result<bool, AllocError> {
    match step {
        Asks(owner, cells, shared, asked) => ask_once(alloc, locks, owner, cells, shared, asked),
        Releases(owner, granted) => {
            let freed = locks.release(alloc, owner)?;
            Ok(freed.as_slice() == granted)
        }
        DropsGraph(graph, gone, granted) => {
            let dropped = locks.drop_graph(alloc, graph)?;
            Ok(are_dropped(&dropped, gone, granted))
        }
        DropsAll(gone, granted) => {
            let dropped = locks.drop_all(alloc)?;
            Ok(are_dropped(&dropped, gone, granted))
        }
    }
}

// Whether an owner neither holds nor waits, and has this answer when it asks.
fn ask_once(
    alloc: Global,
    locks: &mut BrickLocks,
    owner: Owner,
    cells: &[Cell],
    shared: bool,
    asked: Asked,
) -> Result<bool, AllocError> {
    if locks.knows(owner) {
        return Ok(false);
    }
    let answer = locks.ask(alloc, owner, cells, shared)?;
    Ok(answer == asked)
}

fn are_dropped(dropped: &Dropped, gone: &[Owner], granted: &[Owner]) -> bool {
    dropped.gone.as_slice() == gone && dropped.granted.as_slice() == granted
}
