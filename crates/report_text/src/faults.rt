use fop_types::{Cell, Seq};

/// Why a set could not serve: lost quorum, split brain, or bricks that answered a fault. A lost brick
/// has the number of its last connection when it was found to be out, and a fault the place in its
/// brick's journal, counted from 1, of the request that failed.
#[derive(Drop)]
pub enum ReportIo {
    Quorum {
        set: Seq<u8>,
        lost: Seq<(Seq<u8>, u32)>,
    },
    Split {
        set: Seq<u8>,
        rows: Seq<ReportRow>,
    },
    Fault {
        set: Seq<u8>,
        faults: Seq<(Seq<u8>, u64)>,
        lost: Seq<(Seq<u8>, u32)>,
    },
}

/// What a brick showed of a cell in split brain: whether its copy is there, the marks that no post has
/// lowered, a counter of accusations for each replica of its set, one to five, and the number of the
/// last change in its copy.
#[derive(Drop)]
pub struct ReportRow {
    pub cell: Cell,
    pub brick: Seq<u8>,
    pub present: bool,
    pub dirty: u32,
    pub pending: Seq<u32>,
    pub last: u64,
}
