//! Fops by their words.

use crate::text::{cut, digit};
use fop_types::{Attr, Data, Fop, Gfid, Kind, Object, OpenFd, Seq};
use std::alloc::{AllocError, Global};

// The gfid of each file, which create draws, and that of a directory, which mkdir draws.
const FILE: Gfid = Gfid { hi: 0, lo: 2 };

const DIRECTORY: Gfid = Gfid { hi: 0, lo: 8 };

// The root, two directories, and a file by the number of its set: the gfid, the kind and the set of each.
const OBJECTS: [(&[u8], u64, Kind, u8); 6] = [
    (b"/", 1, Kind::Dir, 0),
    (b"d", 8, Kind::Dir, 0),
    (b"e", 9, Kind::Dir, 0),
    (b"f0", 2, Kind::File, 0),
    (b"f1", 2, Kind::File, 1),
    (b"f2", 2, Kind::File, 2),
];

// Any other word is `f0`.
fn object(word: &[u8]) -> Object {
    for (name, lo, kind, set) in &OBJECTS {
        if word == *name {
            return Object {
                gfid: Gfid { hi: 0, lo: *lo },
                kind: *kind,
                set: *set,
            };
        }
    }
    Object {
        gfid: FILE,
        kind: Kind::File,
        set: 0,
    }
}

// A name; `long` has more bytes than a name may have.
fn name(alloc: Global, word: &[u8]) -> Result<Seq<u8>, AllocError> {
    if word == b"long".as_slice() {
        Seq::from_bytes(alloc, &[b'x'; 256])
    } else {
        Seq::from_bytes(alloc, word)
    }
}

fn migrate(alloc: Global, count: u8) -> Result<Fop, AllocError> {
    let mut fds = Seq::new(alloc);
    for set in 0..count {
        fds.push(OpenFd {
            fd: 1,
            gfid: FILE,
            set,
        })?;
    }
    Ok(Fop::Migrate { fds })
}

fn rename(alloc: Global, words: &[u8]) -> Result<Fop, AllocError> {
    let (parent, rest) = cut(words, b' ');
    let (from, rest) = cut(rest, b' ');
    let (target, to) = cut(rest, b' ');
    Ok(Fop::Rename {
        parent: object(parent),
        name: name(alloc, from)?,
        target: object(target),
        new_name: name(alloc, to)?,
    })
}

// The operations of the rows.
#[derive(Clone, Copy)]
enum Op {
    Rename,
    Migrate,
    Heal,
    Mkdir,
    Create,
    Unlink,
    Rmdir,
    GetAttr,
    DelAttr,
    Truncate,
    TruncateFar,
    SetAttr,
    Write,
    WriteFar,
    WriteNone,
    Chmod,
    Open,
    Stat,
    List,
    Read,
    ReadFar,
    Lookup,
}

// The words of all but the last.
const OPS: [(&[u8], Op); 21] = [
    (b"rename", Op::Rename),
    (b"migrate", Op::Migrate),
    (b"heal", Op::Heal),
    (b"mkdir", Op::Mkdir),
    (b"create", Op::Create),
    (b"unlink", Op::Unlink),
    (b"rmdir", Op::Rmdir),
    (b"getattr", Op::GetAttr),
    (b"delattr", Op::DelAttr),
    (b"truncate", Op::Truncate),
    (b"truncate-far", Op::TruncateFar),
    (b"setattr", Op::SetAttr),
    (b"write", Op::Write),
    (b"write-far", Op::WriteFar),
    (b"write-none", Op::WriteNone),
    (b"chmod", Op::Chmod),
    (b"open", Op::Open),
    (b"stat", Op::Stat),
    (b"list", Op::List),
    (b"read", Op::Read),
    (b"read-far", Op::ReadFar),
];

fn op_of(word: &[u8]) -> Op {
    for (name, op) in &OPS {
        if word == *name {
            return *op;
        }
    }
    Op::Lookup
}

// A fop on the name of a directory, or on an attribute of an object.
fn on_name(op: Op, object: Object, name: Seq<u8>) -> Fop {
    let parent = object;
    match op {
        Op::Mkdir => Fop::Mkdir {
            parent,
            name,
            mode: 0o755,
            drawn: DIRECTORY,
        },
        Op::Create => Fop::Create {
            fd: 1,
            parent,
            name,
            mode: 0o644,
            drawn: FILE,
        },
        Op::Unlink => Fop::Unlink { parent, name },
        Op::Rmdir => Fop::Rmdir { parent, name },
        Op::GetAttr => Fop::GetAttr { object, name },
        Op::DelAttr => Fop::DelAttr { object, name },
        _ => Fop::Lookup { parent, name },
    }
}

fn read(object: Object, offset: u32) -> Fop {
    Fop::Read {
        fd: 1,
        object,
        offset,
        count: 3,
    }
}

fn write(alloc: Global, object: Object, offset: u32, bytes: &[u8]) -> Result<Fop, AllocError> {
    let bytes = Data::from_vec(Vec::from_slice(alloc, bytes)?);
    Ok(Fop::Write {
        fd: 1,
        object,
        offset,
        bytes,
    })
}

fn set_attr(alloc: Global, object: Object) -> Result<Fop, AllocError> {
    let name = Seq::from_bytes(alloc, b"user.a")?;
    let value = Seq::from_bytes(alloc, b"w")?;
    Ok(Fop::SetAttr {
        object,
        attr: Attr { name, value },
    })
}

// A fop on an object. Bytes are read up to the end of the file and beyond; `far` are ends beyond the greatest length of
// a file.
fn on_object(alloc: Global, op: Op, object: Object) -> Result<Fop, AllocError> {
    match op {
        Op::Open => Ok(Fop::Open { fd: 1, object }),
        Op::Stat => Ok(Fop::Stat { object }),
        Op::List => Ok(Fop::List { object }),
        Op::Read => Ok(read(object, 1)),
        Op::ReadFar => Ok(read(object, 5)),
        Op::Truncate => Ok(Fop::Truncate {
            object,
            size: 65536,
        }),
        Op::TruncateFar => Ok(Fop::Truncate {
            object,
            size: 65537,
        }),
        Op::SetAttr => set_attr(alloc, object),
        Op::Write => write(alloc, object, 65535, b"x"),
        Op::WriteFar => write(alloc, object, 65536, b"x"),
        Op::WriteNone => write(alloc, object, 65536, b""),
        _ => Ok(Fop::Chmod {
            object,
            mode: 0o600,
        }),
    }
}

fn of_object(alloc: Global, op: Op, words: &[u8]) -> Result<Fop, AllocError> {
    let (first, rest) = cut(words, b' ');
    let object = object(first);
    if rest.is_empty() {
        on_object(alloc, op, object)
    } else {
        Ok(on_name(op, object, name(alloc, rest)?))
    }
}

/// A fop by its words: the operation, its object or directory, and a name. A rename has two directories with names; a
/// migration has the number of its descriptors, each on the next set.
pub(crate) fn fop(alloc: Global, words: &[u8]) -> Result<Fop, AllocError> {
    let (word, rest) = cut(words, b' ');
    let op = op_of(word);
    match op {
        Op::Rename => rename(alloc, rest),
        Op::Migrate => migrate(alloc, digit(rest)),
        Op::Heal => Ok(Fop::Heal { count: 1 }),
        _ => of_object(alloc, op, rest),
    }
}
