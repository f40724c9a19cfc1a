//! Locks of two graphs, and what ends them: an unlock, a Connect, a Disconnect.
use crate::tables::{Case, first_wrong};
use std::test::Fail;

// On the root's names, 0, 0, 0, 1, 2, and its metadata, 0, 0, 0, 1, 1.
const CASES: [Case; 25] = [
    (&[3, 1, 1], &[&[0, 1, 3, 1, 1]]),
    (&[3, 2, 1], &[&[0, 2, 3, 2, 1]]),
    // Call 4 of graph 1 holds the names, and asks again; call 5 waits, and calls 4 and 5 of graph 2 wait behind it.
    (
        &[0, 0, 11, 1, 1, 4, 0, 1, 0, 0, 0, 1, 2],
        &[&[0, 3, 0, 0, 11, 0, 1, 1, 1, 0, 0, 0, 0, 0, 0, 0, 0]],
    ),
    (
        &[0, 0, 12, 1, 1, 4, 0, 1, 0, 0, 0, 1, 2],
        &[&[0, 4, 0, 0, 12, 3]],
    ),
    (&[0, 0, 13, 1, 1, 5, 0, 1, 0, 0, 0, 1, 2], &[]),
    (&[0, 0, 14, 2, 1, 4, 1, 1, 0, 0, 0, 1, 2], &[]),
    (&[0, 0, 15, 2, 1, 5, 1, 1, 0, 0, 0, 1, 2], &[]),
    // An unlock of an owner that waits is Done, and it waits on.
    (&[0, 0, 16, 2, 2, 4], &[&[0, 8, 0, 0, 16, 0, 0]]),
    // A Connect of graph 1: Gone for call 5, the shared locks of graph 2, Connected.
    (
        &[3, 1, 1],
        &[
            &[0, 9, 0, 0, 13, 1],
            &[0, 9, 0, 0, 14, 0, 1, 1, 1, 0, 0, 0, 0, 0, 0, 0, 0],
            &[0, 9, 0, 0, 15, 0, 1, 1, 1, 0, 0, 0, 0, 0, 0, 0, 0],
            &[0, 9, 3, 1, 1],
        ],
    ),
    // Call 6 of graph 1 waits for the shared locks; call 6 of graph 2, on both cells, for it; call 7 of graph 1 for that.
    (&[0, 0, 17, 1, 1, 6, 0, 1, 0, 0, 0, 1, 2], &[]),
    (
        &[0, 0, 18, 2, 1, 6, 0, 2, 0, 0, 0, 1, 1, 0, 0, 0, 1, 2],
        &[],
    ),
    (&[0, 0, 19, 1, 1, 7, 0, 1, 0, 0, 0, 1, 1], &[]),
    // A Disconnect of graph 2: Gone for its call 6, and then both locks of graph 1 in the order of asking.
    (
        &[4, 2],
        &[
            &[0, 13, 0, 0, 18, 1],
            &[0, 13, 0, 0, 17, 0, 1, 1, 1, 0, 0, 0, 0, 0, 0, 0, 0],
            &[0, 13, 0, 0, 19, 0, 1, 1, 1, 0, 0, 0, 0, 0, 0, 0, 0],
        ],
    ),
    (
        &[0, 0, 20, 2, 3, 0, 1, 1, 0, 0, 0, 1, 2],
        &[&[0, 14, 0, 0, 20, 1]],
    ),
    // A Connect of a connected graph closes its descriptors, and drops its locks.
    (
        &[0, 0, 21, 1, 11, 258, 0, 0, 0, 1],
        &[&[0, 15, 0, 0, 21, 0, 0]],
    ),
    (
        &[0, 0, 21, 1, 6, 258, 0, 0, 0, 1, 1],
        &[&[0, 16, 0, 0, 21, 0, 2, 1, 493, 0, 0, 0, 0]],
    ),
    (&[3, 1, 1], &[&[0, 17, 3, 1, 1]]),
    (
        &[0, 0, 22, 1, 6, 258, 0, 0, 0, 1, 1],
        &[&[0, 18, 0, 0, 22, 4]],
    ),
    (
        &[0, 0, 23, 1, 1, 8, 0, 1, 0, 0, 0, 1, 2],
        &[&[0, 19, 0, 0, 23, 0, 1, 1, 1, 0, 0, 0, 0, 0, 0, 0, 0]],
    ),
    // Three calls wait, two of them shared; the unlock is Done, and then those two are granted.
    (&[0, 0, 24, 1, 1, 9, 1, 1, 0, 0, 0, 1, 2], &[]),
    (&[0, 0, 25, 1, 1, 10, 1, 1, 0, 0, 0, 1, 2], &[]),
    (&[0, 0, 26, 1, 1, 11, 0, 1, 0, 0, 0, 1, 2], &[]),
    (
        &[0, 0, 27, 1, 2, 8],
        &[
            &[0, 23, 0, 0, 27, 0, 0],
            &[0, 23, 0, 0, 24, 0, 1, 1, 1, 0, 0, 0, 0, 0, 0, 0, 0],
            &[0, 23, 0, 0, 25, 0, 1, 1, 1, 0, 0, 0, 0, 0, 0, 0, 0],
        ],
    ),
    (&[0, 0, 28, 1, 2, 9], &[&[0, 24, 0, 0, 28, 0, 0]]),
    (
        &[0, 0, 29, 1, 2, 10],
        &[
            &[0, 25, 0, 0, 29, 0, 0],
            &[0, 25, 0, 0, 26, 0, 1, 1, 1, 0, 0, 0, 0, 0, 0, 0, 0],
        ],
    ),
];

#[test]
fn locks_end_in_order(rt: HostRuntime) -> Result<(), Fail> {
    assert_eq!(rt; first_wrong(rt.alloc(), &CASES)?, 0);
    Ok(())
}
