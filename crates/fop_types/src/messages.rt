use crate::cells::{Cell, Gfid};
use crate::contents::{Content, Mask, Row};
use crate::lists::Seq;
use crate::store_ops::StoreOp;

/// The procedures of a brick, in the order of their numbers on the wire, from 1.
#[derive(Clone, Copy, PartialEq, Eq)]
pub enum Proc {
    Lock,
    Unlock,
    Mark,
    Op,
    Post,
    Fetch,
    Replace,
    Clear,
    Settle,
    Index,
    Open,
    Release,
}

/// A request to a brick. `call` is the number of the call for which a lock is asked, 0 for internal
/// calls; `fd` is 0 or the number of a descriptor, 256 * session + FD + 1; `change` is the number of a
/// change of the set.
#[derive(Drop, PartialEq, Eq)]
pub enum BrickReq {
    Lock {
        call: u32,
        shared: bool,
        cells: Seq<Cell>,
    },
    Unlock {
        call: u32,
    },
    Mark {
        change: u64,
        cells: Seq<Cell>,
    },
    Op {
        change: u64,
        fd: u32,
        op: StoreOp,
    },
    Post {
        change: u64,
        cells: Seq<Cell>,
        mask: Mask,
    },
    Fetch {
        fd: u32,
        cell: Cell,
    },
    Replace {
        cell: Cell,
        last: u64,
        content: Content,
    },
    Clear {
        cells: Seq<Cell>,
        mask: Mask,
    },
    Settle {
        cells: Seq<Cell>,
        mask: Mask,
    },
    Index,
    Open {
        fd: u32,
        gfid: Gfid,
    },
    Release {
        fd: u32,
    },
}

/// What comes with a request's Done: nothing, a row for each cell of a lock, a content with its last
/// change, or the cells of an index.
#[derive(Drop, PartialEq, Eq)]
pub enum DoneArm {
    Nothing,
    Rows(Seq<Row>),
    Content(Content, u64),
    Cells(Seq<Cell>),
}

/// The answer of a brick to a request. `Gone`: the request's graph was not connected, or its lock was
/// dropped with the connection. `Fault`: a control made the brick fail this request. `Unfit`: the op does
/// not fit the store, the cell is not present, or the answer would hold a list that is too long to be
/// sent. `BadFd`: the descriptor was not opened on this connection.
#[derive(Drop, PartialEq, Eq)]
pub enum BrickRep {
    Done(DoneArm),
    Gone,
    Fault,
    Unfit,
    BadFd,
}

/// One input of a brick: a request with the number of its wind, or a control.
#[derive(Drop, PartialEq, Eq)]
pub enum Input {
    Request {
        wind: u64,
        graph: u32,
        req: BrickReq,
    },
    Down {
        serve: u32,
    },
    Up,
    Connect {
        graph: u32,
        version: u32,
    },
    Disconnect {
        graph: u32,
    },
    FaultAt {
        proc: Proc,
        number: u32,
    },
}

/// What an output says. `place` is the offset in the input's bytes at which they are no message.
#[derive(Drop, PartialEq, Eq)]
pub enum OutKind {
    Reply { wind: u64, rep: BrickRep },
    Closed,
    Opened,
    Connected { graph: u32, version: u32 },
    Malformed { place: u32 },
}

/// One output of a brick. `taken` is the number of inputs up to the one that caused it.
#[derive(Drop, PartialEq, Eq)]
pub struct Output {
    pub taken: u64,
    pub kind: OutKind,
}
