use crate::cells::{Gfid, Kind};
use crate::contents::Attr;
use crate::data::Data;
use crate::lists::Seq;

/// An object that a fop names: its gfid, its kind, and the number of the set that a lookup or a descriptor
/// gave for it.
#[derive(Clone, Copy, PartialEq, Eq)]
pub struct Object {
    pub gfid: Gfid,
    pub kind: Kind,
    pub set: u8,
}

/// An open descriptor that a new graph opens again: its number on the bricks, 256 * session + FD + 1, its
/// file, and the set that has the file.
#[derive(Clone, Copy, PartialEq, Eq)]
pub struct OpenFd {
    pub fd: u32,
    pub gfid: Gfid,
    pub set: u8,
}

/// A file operation that a call sends down a graph: one lookup for each component of a path, and then the
/// call's last fop. `fd` is the number of a descriptor on the bricks, 256 * session + FD + 1; `drawn` is the
/// gfid that the call drew; `target` of a rename is the new parent. `Migrate` opens descriptors in a new graph,
/// in their order. `Heal` looks at all cells; its `count` is the number of mkdir and create calls of the
/// script, at most 4,096, which bounds the cells of a set.
#[derive(Drop)]
pub enum Fop {
    Lookup {
        parent: Object,
        name: Seq<u8>,
    },
    Mkdir {
        parent: Object,
        name: Seq<u8>,
        mode: u16,
        drawn: Gfid,
    },
    Rmdir {
        parent: Object,
        name: Seq<u8>,
    },
    Create {
        fd: u32,
        parent: Object,
        name: Seq<u8>,
        mode: u16,
        drawn: Gfid,
    },
    Unlink {
        parent: Object,
        name: Seq<u8>,
    },
    Rename {
        parent: Object,
        name: Seq<u8>,
        target: Object,
        new_name: Seq<u8>,
    },
    Open {
        fd: u32,
        object: Object,
    },
    Stat {
        object: Object,
    },
    List {
        object: Object,
    },
    Chmod {
        object: Object,
        mode: u16,
    },
    Truncate {
        object: Object,
        size: u32,
    },
    SetAttr {
        object: Object,
        attr: Attr,
    },
    GetAttr {
        object: Object,
        name: Seq<u8>,
    },
    DelAttr {
        object: Object,
        name: Seq<u8>,
    },
    Read {
        fd: u32,
        object: Object,
        offset: u32,
        count: u32,
    },
    Write {
        fd: u32,
        object: Object,
        offset: u32,
        bytes: Data,
    },
    Migrate {
        fds: Seq<OpenFd>,
    },
    Heal {
        count: u32,
    },
}
