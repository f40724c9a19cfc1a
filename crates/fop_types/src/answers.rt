ghost use Rattle.std.specs.Prelude.{◌≡◌};
ghost use Rattle.fop_types.specs.Errors.{number_of, name_of};

use crate::cells::{Cell, Gfid, Kind};
use crate::contents::{Item, Row};
use crate::lists::Seq;

/// The row of one cell that one brick showed with a granted lock.
#[derive(Clone, Copy, PartialEq, Eq)]
pub struct SplitRow {
    pub cell: Cell,
    pub brick: u8,
    pub row: Row,
}

/// Why a set could not serve: lost quorum, split brain, or bricks that answered a fault. A lost pair
/// names a brick and the number of its last connection when it was found to be out, 0 if it had none;
/// a fault pair names a brick and the place in its journal, counted from 1, of the failed request.
#[derive(Drop, PartialEq, Eq)]
pub enum IoError {
    Quorum {
        set: u8,
        lost: Seq<(u8, u32)>,
    },
    Split {
        set: u8,
        rows: Seq<SplitRow>,
    },
    Fault {
        set: u8,
        faults: Seq<(u8, u64)>,
        lost: Seq<(u8, u32)>,
    },
}

/// The errors of POSIX.1-2017 that a call may answer; `number` gives Linux's number.
#[derive(Clone, Copy, PartialEq, Eq)]
pub enum AppError {
    Enoent,
    Ebadf,
    Ebusy,
    Eexist,
    Enotdir,
    Eisdir,
    Einval,
    Efbig,
    Enametoolong,
    Enotempty,
    Enodata,
    Eopnotsupp,
}

impl AppError {
    /// Linux's number of the error.
    pub fn number(self) -> u8
        ensures { result ≡ number_of self }
    {
        match self {
            AppError::Enoent => 2,
            AppError::Ebadf => 9,
            AppError::Ebusy => 16,
            AppError::Eexist => 17,
            AppError::Enotdir => 20,
            AppError::Eisdir => 21,
            AppError::Einval => 22,
            AppError::Efbig => 27,
            AppError::Enametoolong => 36,
            AppError::Enotempty => 39,
            AppError::Enodata => 61,
            AppError::Eopnotsupp => 95,
        }
    }

    /// POSIX's name of the error, in upper case letters.
    pub fn name(self) -> &'static str
        ensures { result.now ≡ name_of self }
    {
        match self {
            AppError::Enoent => "ENOENT",
            AppError::Ebadf => "EBADF",
            AppError::Ebusy => "EBUSY",
            AppError::Eexist => "EEXIST",
            AppError::Enotdir => "ENOTDIR",
            AppError::Eisdir => "EISDIR",
            AppError::Einval => "EINVAL",
            AppError::Efbig => "EFBIG",
            AppError::Enametoolong => "ENAMETOOLONG",
            AppError::Enotempty => "ENOTEMPTY",
            AppError::Enodata => "ENODATA",
            AppError::Eopnotsupp => "EOPNOTSUPP",
        }
    }
}

/// The answer of a call.
#[derive(Drop, PartialEq, Eq)]
pub enum Answer {
    Done,
    Count(u32),
    Bytes(Seq<u8>),
    Stat { kind: Kind, mode: u16, size: u32 },
    List(Seq<Item>),
    App(AppError),
    Io(IoError),
}

/// The answer of one file operation. `Found` answers a lookup that found its name and a create that is
/// done, and `Call` all else.
#[derive(Drop, PartialEq, Eq)]
pub enum FopAnswer {
    Found { set: u8, gfid: Gfid, kind: Kind },
    Call(Answer),
}
