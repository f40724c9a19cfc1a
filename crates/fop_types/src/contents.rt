use crate::cells::{Gfid, Kind};
use crate::data::Data;
use crate::lists::Seq;

/// A range of hashes, both ends within it: the part of the hash space that a directory's copy on one
/// set has.
#[derive(Clone, Copy, PartialEq, Eq)]
pub struct Span {
    pub first: u32,
    pub last: u32,
}

/// One name of a directory. `target` is empty but for a link, where it is the name of a set.
#[derive(Drop, PartialEq, Eq)]
pub struct Item {
    pub name: Seq<u8>,
    pub gfid: Gfid,
    pub kind: Kind,
    pub target: Seq<u8>,
}

/// An extended attribute.
#[derive(Drop, PartialEq, Eq)]
pub struct Attr {
    pub name: Seq<u8>,
    pub value: Seq<u8>,
}

/// What a cell holds, by its aspect: a file's bytes; mode, attributes by rising name and, for a
/// directory, the copy's range; a directory's names by rising bytes.
#[derive(Drop, PartialEq, Eq)]
pub enum Content {
    Bytes(Data),
    Meta {
        mode: u16,
        attrs: Seq<Attr>,
        span: Option<Span>,
    },
    Names {
        removed: bool,
        items: Seq<Item>,
    },
}

/// What a brick keeps beside its copy of a cell: whether the copy is there, the count of marks that no
/// post has lowered, a counter of accusations for each replica, and the number of the last change in
/// the copy.
#[derive(Clone, Copy, PartialEq, Eq)]
pub struct Row {
    pub present: bool,
    pub dirty: u32,
    pub pending: [u32; 5],
    pub last: u64,
}

/// A set of replicas: bit k is replica k. At most five replicas, so below 32.
#[derive(Clone, Copy, PartialEq, Eq)]
pub struct Mask(pub u8);
