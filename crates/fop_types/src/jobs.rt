use crate::answers::IoError;
use crate::causes::SkipCause;
use crate::cells::{Cell, Gfid};
use crate::contents::{Content, Mask};
use crate::copy_jobs::CopyRecord;
use crate::history::Entry;
use crate::lists::Seq;
use crate::store_ops::StoreOp;

/// A set of replicas in a plan. `number` is its place among the plan's sets, counted from 0; `bricks` are the
/// script's numbers of its bricks by replica, and `clients` the names of their client volumes; `q` is the
/// quorum, more than half of the replicas.
#[derive(Drop, PartialEq, Eq)]
pub struct SetPlan {
    pub number: u8,
    pub name: Seq<u8>,
    pub bricks: Seq<u8>,
    pub clients: Seq<Seq<u8>>,
    pub q: u8,
}

/// What a set is asked to do at once. `Read` fetches the contents of cells, `dir` where they are a directory's;
/// `Change` makes one change, with the entry of the history that is its effect, if it has one; `Birth` makes a
/// directory's copy; `Open` opens a descriptor on every live brick; `Index` lists the cells of every live brick;
/// `Heal` brings one cell's copies together. `fd` is the number of a descriptor, or 0.
#[derive(Drop, PartialEq, Eq)]
pub enum Job {
    Read {
        cells: Seq<Cell>,
        fd: u32,
        dir: bool,
    },
    Change {
        cells: Seq<Cell>,
        fd: u32,
        op: StoreOp,
        effect: Option<Entry>,
    },
    Birth {
        cells: Seq<Cell>,
        op: StoreOp,
    },
    Open {
        fd: u32,
        gfid: Gfid,
    },
    Index,
    Heal(Cell),
}

/// The answer of a set. `Contents` has one content for each cell of a read, `None` for a directory of which the
/// set has no copy, and the place: the length of the history when the locks were granted. `Decided` has the number
/// of the entry that a change with an effect made. `Listed` has the cells by rising cell, each once, the
/// replicas that listed theirs, and why they are fewer than the quorum, where they are.
#[derive(Drop, PartialEq, Eq)]
pub enum SetReply {
    Contents(Seq<Option<Content>>, u32),
    Decided(Option<u32>),
    Opened,
    Listed {
        cells: Seq<Cell>,
        answered: Mask,
        short: Option<IoError>,
    },
    Healed(Seq<CopyRecord>),
    Skipped(SkipCause),
    Io(IoError),
}
