use crate::set_names::SetNames;
use fop_types::{Gfid, IoError, Kind, Seq};

/// What a lookup found: a file or directory of the name, with the number of the set that shows it; no set that
/// shows one; or the I/O error of a set that could not be read.
#[derive(Drop, PartialEq, Eq)]
pub enum Found {
    Item { set: u8, gfid: Gfid, kind: Kind },
    Absent,
    Io(IoError),
}

/// How a lookup goes on: the names of the directory on a set are asked for, or it is done.
#[derive(Drop, PartialEq, Eq)]
pub enum Next {
    Ask(u8),
    Done(Found),
}

/// What is left of a lookup: the directory, the name, the names of the sets, the set to which the name belongs, and
/// whether that set showed a link of the name.
#[derive(Drop)]
pub struct Ended {
    pub parent: Gfid,
    pub name: Seq<u8>,
    pub names: SetNames,
    pub hashed: u8,
    pub has_link: bool,
}
