use lane_scan::{all_zero, differ, plain};
use std::test::*;

// A block with ones at these places and else zeros.
fn ones_at(places: &[usize]) -> [u8; 4096] {
    let mut block = [0; 4096];
    for place in places {
        block[*place % 4096] = 1;
    }
    block
}

// Places of a block that are not zero, and the marks of the pieces that have them.
const CASES: [(&[usize], u64); 7] = [
    (&[], 0),
    (&[0], 1),
    (&[63], 1),
    (&[64], 2),
    (&[2047, 2048], 0x180000000),
    (&[4095], 0x8000000000000000),
    (&[5, 70, 100, 4032], 0x8000000000000003),
];

// Lanes and bytes give the same marks.
#[test]
fn both_bodies(rt: HostRuntime) -> Result<(), Fail> {
    let zeros = ones_at(&[]);
    for (places, marks) in &CASES {
        let block = ones_at(places);
        assert!(rt; differ(&zeros, &block) == *marks);
        assert!(rt; plain::differ(&block, &zeros) == *marks);
        assert!(rt; all_zero(&block) == (*marks == 0));
        assert!(rt; plain::all_zero(&block) == (*marks == 0));
    }
    Ok(())
}
