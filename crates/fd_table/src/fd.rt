use fop_types::Gfid;

/// Names a descriptor: its session, and its number in that session. Keys are ordered by session and then
/// by number.
#[derive(Clone, Copy, PartialEq, Eq, PartialOrd, Ord)]
pub struct FdKey {
    pub session: u8,
    pub fd: u8,
}

/// An open descriptor: its file, the number of the set that has the file, and the offset in bytes of the
/// next read or write.
#[derive(Clone, Copy)]
pub struct Fd {
    pub gfid: Gfid,
    pub set: u8,
    pub offset: u32,
}

/// The answer to an open: done, the number is open already, or out of memory. Only `Opened` changed the
/// table.
#[derive(Clone, Copy)]
pub enum FdOpen {
    Opened,
    InUse,
    Mem,
}
