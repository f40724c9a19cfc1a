use crate::cells::Gfid;
use crate::contents::{Attr, Item, Span};
use crate::data::Data;
use crate::lists::Seq;

/// An alteration of a brick's cells. Each names the cells that it alters; `AddName` and `MakeCopy`
/// also give birth to cells.
#[derive(Drop, PartialEq, Eq)]
pub enum StoreOp {
    Write {
        gfid: Gfid,
        offset: u32,
        bytes: Data,
    },
    Truncate {
        gfid: Gfid,
        size: u32,
    },
    SetMode {
        gfid: Gfid,
        mode: u16,
    },
    SetAttr {
        gfid: Gfid,
        attr: Attr,
    },
    DelAttr {
        gfid: Gfid,
        name: Seq<u8>,
    },
    AddName {
        parent: Gfid,
        item: Item,
        mode: u16,
        span: Option<Span>,
    },
    DropName {
        parent: Gfid,
        name: Seq<u8>,
    },
    DropDir {
        parent: Gfid,
        name: Seq<u8>,
        gfid: Gfid,
    },
    Move {
        parent: Gfid,
        name: Seq<u8>,
        target: Gfid,
        new_name: Seq<u8>,
    },
    MakeCopy {
        gfid: Gfid,
        span: Option<Span>,
    },
}
