use afr_changelog::{common_source, sound, write12};
use fop_types::{Mask, Row};
use std::test::*;

const CLEAN: Option<Row> = Some(Row {
    present: true,
    dirty: 0,
    pending: [0, 0, 0, 0, 0],
    last: 1,
});

const ACCUSES_1: Option<Row> = Some(Row {
    present: true,
    dirty: 0,
    pending: [0, 1, 0, 0, 0],
    last: 1,
});

const ACCUSES_2: Option<Row> = Some(Row {
    present: true,
    dirty: 0,
    pending: [0, 0, 1, 0, 0],
    last: 1,
});

const ACCUSES_3_4: Option<Row> = Some(Row {
    present: true,
    dirty: 0,
    pending: [0, 0, 0, 1, 1],
    last: 1,
});

// Of three, two that accuse a third convict it; one does so where the other is not reached.
const OF_THREE: [([Option<Row>; 3], u8); 6] = [
    ([CLEAN, CLEAN, CLEAN], 0b111),
    ([ACCUSES_2, ACCUSES_2, CLEAN], 0b011),
    ([ACCUSES_2, CLEAN, CLEAN], 0b111),
    ([ACCUSES_2, None, CLEAN], 0b001),
    ([None, None, CLEAN], 0),
    ([None, ACCUSES_2, ACCUSES_1], 0),
];

const OF_FIVE: [([Option<Row>; 5], u8); 3] = [
    (
        [ACCUSES_3_4, ACCUSES_3_4, ACCUSES_3_4, CLEAN, CLEAN],
        0b00111,
    ),
    ([None, ACCUSES_3_4, ACCUSES_3_4, CLEAN, CLEAN], 0b00110),
    ([CLEAN, CLEAN, None, None, None], 0),
];

#[test]
fn sound_replicas(rt: HostRuntime) {
    for (rows, mask) in &OF_THREE {
        assert!(rt; sound(rows, 3, 2).0 == *mask);
    }
    for (rows, mask) in &OF_FIVE {
        assert!(rt; sound(rows, 5, 3).0 == *mask);
    }
}

#[test]
fn source_of_several_cells(rt: HostRuntime) {
    assert!(rt; common_source(&[Mask(0b110), Mask(0b011)]) == Some(1));
    assert!(rt; common_source(&[Mask(0b001), Mask(0b110)]).is_none());
}

// The value after one change that a replica missed on its data, as a brick shows it.
#[test]
fn attribute_value(rt: HostRuntime) {
    assert!(rt; write12([1, 0, 0]) == [0, 0, 0, 1, 0, 0, 0, 0, 0, 0, 0, 0]);
}
