//! Each kind of input and each answer once.
use crate::tables::{Case, wrong_of};
use brick_machine::Brick;
use std::alloc::{AllocError, Global};
use std::test::Fail;

// Requests of graph 1 and 2 on the root's names, its one cell but for the metadata: 0, 0, 0, 1, 2.
const FIRST: [Case; 19] = [
    // An Up on a brick that is not down. A fetch of a graph that never connected. A Connect.
    (&[2], &[&[0, 1, 2]]),
    (&[0, 0, 7, 1, 6, 0, 0, 0, 0, 1, 2], &[&[0, 2, 0, 0, 7, 1]]),
    (&[3, 1, 1], &[&[0, 3, 3, 1, 1]]),
    // The lock of call 4 is granted with its row. That of call 5 waits; a second one of call 5 is unfit.
    (
        &[0, 0, 8, 1, 1, 4, 0, 1, 0, 0, 0, 1, 2],
        &[&[0, 4, 0, 0, 8, 0, 1, 1, 1, 0, 0, 0, 0, 0, 0, 0, 0]],
    ),
    (&[0, 0, 9, 1, 1, 5, 0, 1, 0, 0, 0, 1, 2], &[]),
    (
        &[0, 0, 10, 1, 1, 5, 0, 1, 0, 0, 0, 1, 2],
        &[&[0, 6, 0, 0, 10, 3]],
    ),
    // A mark, and the name `a` of directory 2 under change 7. The same on a descriptor that is not open, and, once it
    // is open, a second time.
    (
        &[0, 0, 11, 1, 3, 0, 7, 1, 0, 0, 0, 1, 2],
        &[&[0, 7, 0, 0, 11, 0, 0]],
    ),
    (
        &[
            0, 0, 12, 1, 4, 0, 7, 0, 5, 0, 0, 0, 1, 1, 0x61000000, 0, 0, 0, 2, 1, 0, 448, 1, 0,
            4294967295,
        ],
        &[&[0, 8, 0, 0, 12, 0, 0]],
    ),
    (
        &[
            0, 0, 13, 1, 4, 0, 7, 258, 5, 0, 0, 0, 1, 1, 0x61000000, 0, 0, 0, 2, 1, 0, 448, 1, 0,
            4294967295,
        ],
        &[&[0, 9, 0, 0, 13, 4]],
    ),
    (
        &[0, 0, 14, 1, 11, 258, 0, 0, 0, 2],
        &[&[0, 10, 0, 0, 14, 0, 0]],
    ),
    (
        &[
            0, 0, 15, 1, 4, 0, 7, 258, 5, 0, 0, 0, 1, 1, 0x61000000, 0, 0, 0, 2, 1, 0, 448, 1, 0,
            4294967295,
        ],
        &[&[0, 11, 0, 0, 15, 3]],
    ),
    (&[0, 0, 15, 1, 12, 258], &[&[0, 12, 0, 0, 15, 0, 0]]),
    (&[0, 0, 15, 1, 12, 258], &[&[0, 13, 0, 0, 15, 4]]),
    // A post that accuses replica 1. The unlock of call 4 is Done, and the lock of call 5 is granted with the row as it
    // is now.
    (
        &[0, 0, 16, 1, 5, 0, 7, 1, 0, 0, 0, 1, 2, 2],
        &[&[0, 14, 0, 0, 16, 0, 0]],
    ),
    (
        &[0, 0, 17, 1, 2, 4],
        &[
            &[0, 15, 0, 0, 17, 0, 0],
            &[0, 15, 0, 0, 9, 0, 1, 1, 1, 0, 0, 1, 0, 0, 0, 0, 7],
        ],
    ),
    (&[0, 0, 17, 1, 2, 4], &[&[0, 16, 0, 0, 17, 0, 0]]),
    // The names, with their last change; a cell that is not there; all cells.
    (
        &[0, 0, 18, 1, 6, 0, 0, 0, 0, 1, 2],
        &[&[
            0, 17, 0, 0, 18, 0, 2, 2, 0, 1, 1, 0x61000000, 0, 0, 0, 2, 1, 0, 0, 7,
        ]],
    ),
    (
        &[0, 0, 18, 1, 6, 0, 0, 0, 0, 9, 0],
        &[&[0, 18, 0, 0, 18, 3]],
    ),
    (
        &[0, 0, 19, 1, 10],
        &[&[
            0, 19, 0, 0, 19, 0, 3, 4, 0, 0, 0, 1, 1, 0, 0, 0, 1, 2, 0, 0, 0, 2, 1, 0, 0, 0, 2, 2,
        ]],
    ),
];

// What follows on the same brick.
const THEN: [Case; 23] = [
    // The first mark from here on is to fail.
    (&[5, 3, 1], &[]),
    (
        &[0, 0, 20, 1, 3, 0, 8, 1, 0, 0, 0, 1, 2],
        &[&[0, 21, 0, 0, 20, 2]],
    ),
    // Graph 2 connects, and its lock waits for call 5 of graph 1, until that graph disconnects.
    (&[3, 2, 1], &[&[0, 22, 3, 2, 1]]),
    (&[0, 0, 21, 2, 1, 6, 0, 1, 0, 0, 0, 1, 2], &[]),
    (
        &[4, 1],
        &[&[0, 24, 0, 0, 21, 0, 1, 1, 1, 0, 0, 1, 0, 0, 0, 0, 7]],
    ),
    // A Down that serves two more. Graph 1 was not connected; of graph 2 a mode of gfid 2 under change 9 and a settle
    // that accuses replica 2 are served late, and a clear is given up.
    (&[0, 0, 22, 2, 1, 7, 0, 1, 0, 0, 0, 1, 2], &[]),
    (&[1, 2], &[&[0, 26, 1], &[0, 26, 0, 0, 22, 1]]),
    (
        &[0, 0, 23, 1, 3, 0, 9, 1, 0, 0, 0, 1, 2],
        &[&[0, 27, 0, 0, 23, 1]],
    ),
    (
        &[0, 0, 24, 2, 4, 0, 9, 0, 2, 0, 0, 0, 2, 511],
        &[&[0, 28, 0, 0, 24, 1]],
    ),
    (
        &[0, 0, 25, 2, 9, 1, 0, 0, 0, 1, 2, 4],
        &[&[0, 29, 0, 0, 25, 1]],
    ),
    (
        &[0, 0, 26, 2, 8, 1, 0, 0, 0, 1, 2, 6],
        &[&[0, 30, 0, 0, 26, 1]],
    ),
    // A Connect while it is down, a second Down, an Up, a Connect.
    (&[3, 2, 1], &[]),
    (&[1, 5], &[&[0, 32, 1]]),
    (
        &[0, 0, 26, 2, 8, 1, 0, 0, 0, 1, 2, 6],
        &[&[0, 33, 0, 0, 26, 1]],
    ),
    (&[2], &[&[0, 34, 2]]),
    (&[3, 2, 1], &[&[0, 35, 3, 2, 1]]),
    // Two cells of a shared lock, after what was served late; a clear of replicas 1 and 2.
    (
        &[0, 0, 27, 2, 1, 8, 1, 2, 0, 0, 0, 1, 2, 0, 0, 0, 2, 1],
        &[&[
            0, 36, 0, 0, 27, 0, 1, 2, 1, 0, 0, 1, 1, 0, 0, 0, 7, 1, 0, 0, 0, 0, 0, 0, 0, 9,
        ]],
    ),
    (
        &[0, 0, 28, 2, 8, 1, 0, 0, 0, 1, 2, 6],
        &[&[0, 37, 0, 0, 28, 0, 0]],
    ),
    // The data of gfid 2 is replaced by `ab` with last 3, and fetched.
    (
        &[0, 0, 1, 2, 7, 0, 0, 0, 2, 0, 0, 3, 0, 2, 0x61620000],
        &[&[0, 38, 0, 0, 1, 0, 0]],
    ),
    (
        &[0, 0, 29, 2, 6, 0, 0, 0, 0, 2, 0],
        &[&[0, 39, 0, 0, 29, 0, 2, 0, 2, 0x61620000, 0, 3]],
    ),
    // A control that is cut after 4 of its 12 bytes; one with a unit behind its end; a kind that there is not.
    (&[3], &[&[0, 40, 4, 4]]),
    (&[2, 0], &[&[0, 41, 4, 4]]),
    (&[6], &[&[0, 42, 4, 0]]),
];

fn wrong_at_first(alloc: Global, brick: &mut Brick) -> Result<usize, AllocError> {
    wrong_of(alloc, brick, &FIRST)
}

fn wrong_then(alloc: Global, brick: &mut Brick) -> Result<usize, AllocError> {
    wrong_of(alloc, brick, &THEN)
}

// The number of the first case, through both tables, whose outputs the brick does not put out; 0 where it puts out those
// of each.
fn wrong_in(alloc: Global, brick: &mut Brick) -> Result<usize, AllocError> {
    let number = wrong_at_first(alloc, brick)?;
    if number != 0 {
        return Ok(number);
    }
    let number = wrong_then(alloc, brick)?;
    Ok(if number == 0 {
        0
    } else {
        number.saturating_add(FIRST.len())
    })
}

fn first_wrong(alloc: Global) -> Result<usize, AllocError> {
    let mut brick = Brick::new(alloc)?;
    wrong_in(alloc, &mut brick)
}

#[test]
fn inputs_are_answered(rt: HostRuntime) -> Result<(), Fail> {
    assert_eq!(rt; first_wrong(rt.alloc())?, 0);
    Ok(())
}
