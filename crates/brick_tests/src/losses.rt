//! A brick that goes down, requests that are served late, and requests that are to fail.
use crate::tables::{Case, first_wrong};
use std::test::Fail;

// On the root's names, 0, 0, 0, 1, 2, and its metadata, 0, 0, 0, 1, 1.
const CASES: [Case; 35] = [
    // The second mark from here on is to fail. Graph 1 holds the names, graph 2 waits for them.
    (&[3, 1, 1], &[&[0, 1, 3, 1, 1]]),
    (&[3, 2, 1], &[&[0, 2, 3, 2, 1]]),
    (
        &[0, 0, 11, 1, 1, 4, 0, 1, 0, 0, 0, 1, 2],
        &[&[0, 3, 0, 0, 11, 0, 1, 1, 1, 0, 0, 0, 0, 0, 0, 0, 0]],
    ),
    (&[0, 0, 12, 2, 1, 4, 0, 1, 0, 0, 0, 1, 2], &[]),
    (&[5, 3, 2], &[]),
    (
        &[0, 0, 13, 1, 3, 0, 7, 1, 0, 0, 0, 1, 2],
        &[&[0, 6, 0, 0, 13, 0, 0]],
    ),
    // A Down that serves five late. A graph that was not connected does not count; the second mark fails, and counts.
    (&[1, 5], &[&[0, 7, 1], &[0, 7, 0, 0, 12, 1]]),
    (
        &[0, 0, 14, 3, 3, 0, 7, 1, 0, 0, 0, 1, 2],
        &[&[0, 8, 0, 0, 14, 1]],
    ),
    (
        &[0, 0, 15, 1, 3, 0, 7, 1, 0, 0, 0, 1, 2],
        &[&[0, 9, 0, 0, 15, 2]],
    ),
    // Late: a lock, an unlock, an open, and an op that does not fit. Then the count is used up.
    (
        &[0, 0, 16, 1, 1, 5, 0, 1, 0, 0, 0, 1, 2],
        &[&[0, 10, 0, 0, 16, 1]],
    ),
    (&[0, 0, 17, 1, 2, 4], &[&[0, 11, 0, 0, 17, 1]]),
    (
        &[0, 0, 18, 1, 11, 258, 0, 0, 0, 1],
        &[&[0, 12, 0, 0, 18, 1]],
    ),
    (
        &[0, 0, 19, 1, 4, 0, 8, 0, 1, 0, 0, 0, 9, 5],
        &[&[0, 13, 0, 0, 19, 1]],
    ),
    (
        &[0, 0, 20, 1, 3, 0, 7, 1, 0, 0, 0, 1, 2],
        &[&[0, 14, 0, 0, 20, 1]],
    ),
    // The first op from here on is to fail. One that is given up does not count.
    (&[5, 4, 1], &[]),
    (
        &[0, 0, 21, 1, 4, 0, 8, 0, 2, 0, 0, 0, 1, 511],
        &[&[0, 16, 0, 0, 21, 1]],
    ),
    (&[2], &[&[0, 17, 2]]),
    // No lock is held since the Down, and of the marks one was served.
    (&[3, 2, 1], &[&[0, 18, 3, 2, 1]]),
    (
        &[0, 0, 22, 2, 1, 9, 0, 1, 0, 0, 0, 1, 2],
        &[&[0, 19, 0, 0, 22, 0, 1, 1, 1, 1, 0, 0, 0, 0, 0, 0, 0]],
    ),
    (
        &[0, 0, 23, 2, 4, 0, 8, 0, 2, 0, 0, 0, 1, 511],
        &[&[0, 20, 0, 0, 23, 2]],
    ),
    (
        &[0, 0, 24, 2, 4, 0, 8, 0, 2, 0, 0, 0, 1, 511],
        &[&[0, 21, 0, 0, 24, 0, 0]],
    ),
    (
        &[0, 0, 25, 2, 6, 0, 0, 0, 0, 1, 1],
        &[&[0, 22, 0, 0, 25, 0, 2, 1, 511, 0, 0, 0, 8]],
    ),
    (&[0, 0, 26, 2, 12, 258], &[&[0, 23, 0, 0, 26, 4]]),
    // Late: a release, and an op on a descriptor that is not open, which is made all the same.
    (
        &[0, 0, 27, 2, 11, 258, 0, 0, 0, 1],
        &[&[0, 24, 0, 0, 27, 0, 0]],
    ),
    (&[1, 2], &[&[0, 25, 1]]),
    (&[0, 0, 28, 2, 12, 258], &[&[0, 26, 0, 0, 28, 1]]),
    (
        &[0, 0, 29, 2, 4, 0, 9, 300, 2, 0, 0, 0, 1, 448],
        &[&[0, 27, 0, 0, 29, 1]],
    ),
    (
        &[0, 0, 30, 2, 4, 0, 10, 0, 2, 0, 0, 0, 1, 504],
        &[&[0, 28, 0, 0, 30, 1]],
    ),
    // A Disconnect of a brick that is down, and a Connect after it. Descriptors ended with the Down.
    (&[4, 2], &[]),
    (&[2], &[&[0, 30, 2]]),
    (&[0, 0, 31, 2, 10], &[&[0, 31, 0, 0, 31, 1]]),
    (&[3, 2, 1], &[&[0, 32, 3, 2, 1]]),
    (
        &[0, 0, 32, 2, 6, 258, 0, 0, 0, 1, 1],
        &[&[0, 33, 0, 0, 32, 4]],
    ),
    (
        &[0, 0, 32, 2, 6, 0, 0, 0, 0, 1, 1],
        &[&[0, 34, 0, 0, 32, 0, 2, 1, 448, 0, 0, 0, 9]],
    ),
    // A control that the format has not: a FaultAt of an unlock.
    (&[5, 2, 1], &[&[0, 35, 4, 4]]),
];

#[test]
fn losses_leave_what_was_served(rt: HostRuntime) -> Result<(), Fail> {
    assert_eq!(rt; first_wrong(rt.alloc(), &CASES)?, 0);
    Ok(())
}
