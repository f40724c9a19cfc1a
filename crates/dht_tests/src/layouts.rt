use dht_layout::{even, find, hash, write16};
use fop_types::Span;
use std::test::*;

// The published vectors of FNV-1a.
const HASHES: [(&[u8], u32); 4] = [
    (b"", 0x811c9dc5),
    (b"a", 0xe40c292c),
    (b"fo", 0x6222e842),
    (b"foobar", 0xbf9cf968),
];

#[test]
fn hashes(rt: HostRuntime) {
    for (name, number) in &HASHES {
        assert!(rt; hash(name) == *number);
    }
}

// The even split over three sets.
const THIRDS: [Option<Span>; 3] = [
    Some(Span {
        first: 0,
        last: 0x55555554,
    }),
    Some(Span {
        first: 0x55555555,
        last: 0xaaaaaaa9,
    }),
    Some(Span {
        first: 0xaaaaaaaa,
        last: 0xffffffff,
    }),
];

#[test]
fn basic(rt: HostRuntime) -> Result<(), Fail> {
    let thirds = even(rt.alloc(), 3)?;
    assert!(rt; thirds.as_slice() == THIRDS.as_slice());
    assert!(rt; find(&THIRDS, 0x6222e842) == Some(1));
    Ok(())
}

// Set 1 of a directory that was made with two sets, as a brick shows it.
#[test]
fn attribute_value(rt: HostRuntime) {
    let upper = Span {
        first: 0x80000000,
        last: 0xffffffff,
    };
    let bytes = [
        0, 0, 0, 1, 0, 0, 0, 0, 0x80, 0, 0, 0, 0xff, 0xff, 0xff, 0xff,
    ];
    assert!(rt; write16(upper) == bytes);
}
