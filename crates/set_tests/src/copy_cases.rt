// What a replica answers: bytes or names with the number of their last change, or no content.
#[derive(Clone, Copy)]
pub enum Says {
    Bytes(u64),
    Names(u64),
    Done,
    Gone,
    Fault,
    Unfit,
}

use Says::{Bytes, Done, Fault, Gone, Names, Unfit};

// What a copy needs, with masks for replicas: a fetch from one of a file; a replacement on some of a file with its last
// change; a clear that goes to some and names some; or its end, with who is held, current, lost and out by a fault.
#[derive(Clone, Copy, PartialEq)]
pub enum Needs {
    Fetch(u8, u64),
    Replace(u8, u64, u64),
    Clear(u8, u8),
    Other,
    Wait,
    Ends(u8, u8, u8, u8),
}

use Needs::{Clear, Ends, Fetch, Replace, Wait};

// A copy of the data of files 2, 3 and so on, by masks; what it needs first; who answers what, and what is needed then;
// and the records at its end: file, source, sink, last change.
pub struct Case {
    pub files: u64,
    pub sources: u8,
    pub sinks: u8,
    pub held: u8,
    pub first: Needs,
    pub turns: &'static [(u8, Says, Needs)],
    pub records: &'static [(u64, u8, u8, u64)],
}

pub const CASES: [Case; 15] = [
    // a lone replica has nobody to copy to
    Case {
        files: 1,
        sources: 0b1,
        sinks: 0,
        held: 0b1,
        first: Ends(0b1, 0, 0, 0),
        turns: &[],
        records: &[],
    },
    // two sound replicas, one sink
    Case {
        files: 1,
        sources: 0b011,
        sinks: 0b100,
        held: 0b111,
        first: Fetch(0b001, 2),
        turns: &[
            (0, Bytes(4), Replace(0b100, 2, 4)),
            (2, Done, Clear(0b111, 0b111)),
            (1, Done, Wait),
            (0, Done, Wait),
            (2, Done, Ends(0b111, 0b100, 0, 0)),
        ],
        records: &[(2, 0, 2, 4)],
    },
    // the first source is lost, the clear names it all the same
    Case {
        files: 1,
        sources: 0b011,
        sinks: 0b100,
        held: 0b111,
        first: Fetch(0b001, 2),
        turns: &[
            (0, Gone, Fetch(0b010, 2)),
            (1, Bytes(4), Replace(0b100, 2, 4)),
            (2, Done, Clear(0b110, 0b111)),
            (1, Done, Wait),
            (2, Done, Ends(0b110, 0b100, 0b001, 0)),
        ],
        records: &[(2, 1, 2, 4)],
    },
    // both sources are lost
    Case {
        files: 1,
        sources: 0b011,
        sinks: 0b100,
        held: 0b111,
        first: Fetch(0b001, 2),
        turns: &[
            (0, Gone, Fetch(0b010, 2)),
            (1, Fault, Ends(0b100, 0, 0b001, 0b010)),
        ],
        records: &[],
    },
    // names are no content of a file's data, and a Done without a content is none either
    Case {
        files: 1,
        sources: 0b011,
        sinks: 0b100,
        held: 0b111,
        first: Fetch(0b001, 2),
        turns: &[
            (0, Names(4), Fetch(0b010, 2)),
            (1, Done, Ends(0b100, 0, 0b011, 0)),
        ],
        records: &[],
    },
    // the lone sink is lost
    Case {
        files: 1,
        sources: 0b011,
        sinks: 0b100,
        held: 0b111,
        first: Fetch(0b001, 2),
        turns: &[
            (0, Bytes(4), Replace(0b100, 2, 4)),
            (2, Fault, Ends(0b011, 0, 0, 0b100)),
        ],
        records: &[],
    },
    // a content confirms no replacement
    Case {
        files: 1,
        sources: 0b011,
        sinks: 0b100,
        held: 0b111,
        first: Fetch(0b001, 2),
        turns: &[
            (0, Bytes(4), Replace(0b100, 2, 4)),
            (2, Bytes(4), Ends(0b011, 0, 0b100, 0)),
        ],
        records: &[],
    },
    // the sink is lost at the clear: it has the copy
    Case {
        files: 1,
        sources: 0b011,
        sinks: 0b100,
        held: 0b111,
        first: Fetch(0b001, 2),
        turns: &[
            (0, Bytes(4), Replace(0b100, 2, 4)),
            (2, Done, Clear(0b111, 0b111)),
            (2, Gone, Wait),
            (1, Fault, Wait),
            (0, Done, Ends(0b001, 0b100, 0b100, 0b010)),
        ],
        records: &[(2, 0, 2, 4)],
    },
    // one of two sinks is lost: the other is cleared alone
    Case {
        files: 1,
        sources: 0b001,
        sinks: 0b110,
        held: 0b111,
        first: Fetch(0b001, 2),
        turns: &[
            (0, Bytes(7), Replace(0b110, 2, 7)),
            (2, Gone, Wait),
            (1, Done, Clear(0b011, 0b011)),
            (0, Done, Wait),
            (1, Done, Ends(0b011, 0b010, 0b100, 0)),
        ],
        records: &[(2, 0, 1, 7)],
    },
    // two cells: each is fetched by itself, and one clear is for both
    Case {
        files: 2,
        sources: 0b001,
        sinks: 0b110,
        held: 0b111,
        first: Fetch(0b001, 2),
        turns: &[
            (0, Bytes(4), Replace(0b110, 2, 4)),
            (1, Done, Wait),
            (2, Done, Fetch(0b001, 3)),
            (0, Bytes(9), Replace(0b110, 3, 9)),
            (2, Done, Wait),
            (1, Done, Clear(0b111, 0b111)),
            (0, Done, Wait),
            (1, Done, Wait),
            (2, Done, Ends(0b111, 0b110, 0, 0)),
        ],
        records: &[(2, 0, 1, 4), (2, 0, 2, 4), (3, 0, 1, 9), (3, 0, 2, 9)],
    },
    // the source is lost before the second of two cells: nothing is cleared
    Case {
        files: 2,
        sources: 0b001,
        sinks: 0b110,
        held: 0b111,
        first: Fetch(0b001, 2),
        turns: &[
            (0, Bytes(4), Replace(0b110, 2, 4)),
            (1, Done, Wait),
            (2, Done, Fetch(0b001, 3)),
            (0, Unfit, Ends(0b110, 0, 0b001, 0)),
        ],
        records: &[],
    },
    // the sink is lost at the second of two cells
    Case {
        files: 2,
        sources: 0b011,
        sinks: 0b100,
        held: 0b111,
        first: Fetch(0b001, 2),
        turns: &[
            (0, Bytes(4), Replace(0b100, 2, 4)),
            (2, Done, Fetch(0b001, 3)),
            (0, Bytes(5), Replace(0b100, 3, 5)),
            (2, Gone, Ends(0b011, 0, 0b100, 0)),
        ],
        records: &[],
    },
    // five replicas and two cells: the source changes, one sink is out by a fault
    Case {
        files: 2,
        sources: 0b00011,
        sinks: 0b11100,
        held: 0b11111,
        first: Fetch(0b00001, 2),
        turns: &[
            (0, Bytes(4), Replace(0b11100, 2, 4)),
            (4, Done, Wait),
            (3, Fault, Wait),
            (2, Done, Fetch(0b00001, 3)),
            (0, Gone, Fetch(0b00010, 3)),
            (1, Bytes(9), Replace(0b10100, 3, 9)),
            (2, Done, Wait),
            (4, Done, Clear(0b10110, 0b10111)),
            (1, Done, Wait),
            (4, Done, Wait),
            (2, Done, Ends(0b10110, 0b10100, 0b00001, 0b01000)),
        ],
        records: &[(2, 0, 2, 4), (2, 0, 4, 4), (3, 1, 2, 9), (3, 1, 4, 9)],
    },
    // a source whose lock is lost is not asked, and is named in the clear
    Case {
        files: 1,
        sources: 0b00111,
        sinks: 0b01000,
        held: 0b11110,
        first: Fetch(0b00010, 2),
        turns: &[
            (1, Bytes(4), Replace(0b01000, 2, 4)),
            (3, Done, Clear(0b11110, 0b01111)),
            (4, Done, Wait),
            (2, Done, Wait),
            (1, Done, Wait),
            (3, Done, Ends(0b11110, 0b01000, 0, 0)),
        ],
        records: &[(2, 1, 3, 4)],
    },
    // an answer after the end asks for nothing
    Case {
        files: 1,
        sources: 0b1,
        sinks: 0b10,
        held: 0b11,
        first: Fetch(0b1, 2),
        turns: &[(0, Gone, Ends(0b10, 0, 0b1, 0)), (1, Done, Wait)],
        records: &[],
    },
];
