use crate::contents::Attr;
use crate::data::Data;
use crate::lists::Seq;

/// A path as its components; the root's has none.
#[derive(Drop, PartialEq, Eq)]
pub struct Path {
    pub parts: Seq<Seq<u8>>,
}

/// A call of an application on the mount, with what the words of its line give. `fd` is the session's own
/// number of a descriptor, 0 to 255; a mode is at most 511; sizes, counts and offsets are in bytes. The
/// calls follow POSIX.1-2017.
#[derive(Drop, PartialEq, Eq)]
pub enum Call {
    Mkdir { path: Path, mode: u16 },
    Rmdir { path: Path },
    Create { fd: u8, path: Path, mode: u16 },
    Unlink { path: Path },
    Rename { path: Path, target: Path },
    Open { fd: u8, path: Path },
    Stat { path: Path },
    List { path: Path },
    Chmod { path: Path, mode: u16 },
    Truncate { path: Path, size: u32 },
    SetAttr { path: Path, attr: Attr },
    GetAttr { path: Path, name: Seq<u8> },
    DelAttr { path: Path, name: Seq<u8> },
    Read { fd: u8, count: u32 },
    Write { fd: u8, bytes: Data },
    Seek { fd: u8, offset: u32 },
    Close { fd: u8 },
}
