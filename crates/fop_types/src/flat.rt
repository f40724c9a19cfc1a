use crate::answers::Answer;
use crate::cells::{Gfid, Kind};
use crate::contents::{Attr, Item};
use crate::data::Data;
use crate::lists::Seq;

/// An object of the flat file system: a file with its bytes, or a directory with its names by rising
/// bytes. `removed` is true of a directory whose name is gone; it stays, and so does its gfid.
#[derive(Drop, PartialEq, Eq)]
pub enum FlatObject {
    File {
        bytes: Data,
        mode: u16,
        attrs: Seq<Attr>,
    },
    Directory {
        names: Seq<Item>,
        mode: u16,
        attrs: Seq<Attr>,
        removed: bool,
    },
}

/// An operation on the flat file system, on objects that are named by gfid. `drawn` is the gfid of the object to
/// be made; offsets, sizes and counts are in bytes.
#[derive(Drop)]
pub enum FlatOp {
    Lookup {
        parent: Gfid,
        name: Seq<u8>,
    },
    Mkdir {
        parent: Gfid,
        name: Seq<u8>,
        mode: u16,
        drawn: Gfid,
    },
    Rmdir {
        parent: Gfid,
        name: Seq<u8>,
    },
    Create {
        parent: Gfid,
        name: Seq<u8>,
        mode: u16,
        drawn: Gfid,
    },
    Unlink {
        parent: Gfid,
        name: Seq<u8>,
    },
    Rename {
        parent: Gfid,
        name: Seq<u8>,
        target: Gfid,
        new_name: Seq<u8>,
    },
    Open {
        gfid: Gfid,
    },
    Stat {
        gfid: Gfid,
    },
    List {
        gfid: Gfid,
    },
    Chmod {
        gfid: Gfid,
        mode: u16,
    },
    Truncate {
        gfid: Gfid,
        size: u32,
    },
    SetAttr {
        gfid: Gfid,
        attr: Attr,
    },
    GetAttr {
        gfid: Gfid,
        name: Seq<u8>,
    },
    DelAttr {
        gfid: Gfid,
        name: Seq<u8>,
    },
    Read {
        gfid: Gfid,
        offset: u32,
        count: u32,
    },
    Write {
        gfid: Gfid,
        offset: u32,
        bytes: Data,
    },
}

/// The answer of the flat file system: what a lookup found, or what a call answers.
#[derive(Drop, PartialEq, Eq)]
pub enum FlatAnswer {
    Found { gfid: Gfid, kind: Kind },
    Call(Answer),
}
