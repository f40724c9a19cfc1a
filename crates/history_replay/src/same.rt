//! Whether two values are the same.
ghost use Rattle.std.specs.Prelude.{◌≡◌, true};

use fop_types::{Answer, AppError, Attr, Call, Item, Kind, Path, Seq};
use script_lang::CallLine;

/// Whether two byte strings are the same.
pub(crate) fn same_bytes(one: &[u8], other: &[u8]) -> bool
    ensures { result ≡ true → one.now ≡ other.now }
{
    one == other
}

fn same_names(one: &[Seq<u8>], other: &[Seq<u8>]) -> bool
    ensures { result ≡ true → one.now ≡ other.now }
{
    if one.len() != other.len() {
        return false;
    }
    for index in 0..one.len() {
        if !same_bytes(one[index].as_slice(), other[index].as_slice()) {
            return false;
        }
    }
    true
}

fn same_path(one: &Path, other: &Path) -> bool
    ensures { result ≡ true → one.now ≡ other.now }
{
    same_names(one.parts.as_slice(), other.parts.as_slice())
}

fn same_attr(one: &Attr, other: &Attr) -> bool
    ensures { result ≡ true → one.now ≡ other.now }
{
    same_bytes(one.name.as_slice(), other.name.as_slice())
        && same_bytes(one.value.as_slice(), other.value.as_slice())
}

// Whether two calls of a descriptor are the same.
fn same_fd_call(one: &Call, other: &Call) -> bool
    ensures { result ≡ true → one.now ≡ other.now }
{
    match one {
        Call::Read { fd, count } => match other {
            Call::Read { fd: f, count: c } => *fd == *f && *count == *c,
            _ => false
        },
        Call::Write { fd, bytes } => match other {
            Call::Write { fd: f, bytes: b } => *fd == *f
                && same_bytes(bytes.as_slice(), b.as_slice()),
            _ => false
        },
        Call::Seek { fd, offset } => match other {
            Call::Seek { fd: f, offset: o } => *fd == *f && *offset == *o,
            _ => false
        },
        Call::Close { fd } => match other {
            Call::Close { fd: f } => *fd == *f,
            _ => false
        },
        _ => false,
    }
}

// Whether two calls of a file are the same, by its path or its descriptor.
fn same_file_call(one: &Call, other: &Call) -> bool
    ensures { result ≡ true → one.now ≡ other.now }
{
    match one {
        Call::Open { fd, path } => match other {
            Call::Open { fd: f, path: p } => *fd == *f && same_path(path, p),
            _ => false
        },
        Call::Stat { path } => match other {
            Call::Stat { path: p } => same_path(path, p),
            _ => false
        },
        Call::List { path } => match other {
            Call::List { path: p } => same_path(path, p),
            _ => false
        },
        Call::Chmod { path, mode } => match other {
            Call::Chmod { path: p, mode: m } => same_path(path, p) && *mode == *m,
            _ => false
        },
        Call::Truncate { path, size } => match other {
            Call::Truncate { path: p, size: s } => same_path(path, p) && *size == *s,
            _ => false
        },
        Call::SetAttr { path, attr } => match other {
            Call::SetAttr { path: p, attr: a } => same_path(path, p) && same_attr(attr, a),
            _ => false
        },
        Call::GetAttr { path, name } => match other {
            Call::GetAttr { path: p, name: n } => same_path(path, p)
                && same_bytes(name.as_slice(), n.as_slice()),
            _ => false
        },
        Call::DelAttr { path, name } => match other {
            Call::DelAttr { path: p, name: n } => same_path(path, p)
                && same_bytes(name.as_slice(), n.as_slice()),
            _ => false
        },
        _ => same_fd_call(one, other),
    }
}

fn same_call(one: &Call, other: &Call) -> bool
    ensures { result ≡ true → one.now ≡ other.now }
{
    match one {
        Call::Mkdir { path, mode } => match other {
            Call::Mkdir { path: p, mode: m } => same_path(path, p) && *mode == *m,
            _ => false
        },
        Call::Rmdir { path } => match other {
            Call::Rmdir { path: p } => same_path(path, p),
            _ => false
        },
        Call::Create { fd, path, mode } => match other {
            Call::Create {
                fd: f,
                path: p,
                mode: m,
            } => *fd == *f && (same_path(path, p) && *mode == *m),
            _ => false
        },
        Call::Unlink { path } => match other {
            Call::Unlink { path: p } => same_path(path, p),
            _ => false
        },
        Call::Rename { path, target } => match other {
            Call::Rename { path: p, target: t } => same_path(path, p) && same_path(target, t),
            _ => false
        },
        _ => same_file_call(one, other),
    }
}

/// Whether two lines are the same.
pub(crate) fn same_line(one: &CallLine, other: &CallLine) -> bool
    ensures { result ≡ true → one.now ≡ other.now }
{
    one.line == other.line && (one.session == other.session && same_call(&one.call, &other.call))
}

/// Whether two kinds are the same.
pub(crate) fn same_kind(one: Kind, other: Kind) -> bool
    ensures { result ≡ true → one ≡ other }
{
    one == other
}

fn same_error(one: AppError, other: AppError) -> bool
    ensures { result ≡ true → one ≡ other }
{
    one == other
}

fn same_item(one: &Item, other: &Item) -> bool
    ensures { result ≡ true → one.now ≡ other.now }
{
    same_bytes(one.name.as_slice(), other.name.as_slice())
        && (one.gfid == other.gfid
            && (same_kind(one.kind, other.kind)
                && same_bytes(one.target.as_slice(), other.target.as_slice())))
}

fn same_items(one: &[Item], other: &[Item]) -> bool
    ensures { result ≡ true → one.now ≡ other.now }
{
    if one.len() != other.len() {
        return false;
    }
    for index in 0..one.len() {
        if !same_item(&one[index], &other[index]) {
            return false;
        }
    }
    true
}

fn same_stat(kind: Kind, mode: u16, size: u32, other: &Answer) -> bool
    ensures { result ≡ true → Answer.Stat kind mode size ≡ other.now }
{
    match other {
        Answer::Stat {
            kind: k,
            mode: m,
            size: s,
        } => same_kind(kind, *k) && (mode == *m && size == *s),
        _ => false,
    }
}

/// Whether two answers are the same. I/O errors are not compared.
pub(crate) fn same_answer(one: &Answer, other: &Answer) -> bool
    ensures { result ≡ true → one.now ≡ other.now }
{
    match one {
        Answer::Done => match other {
            Answer::Done => true,
            _ => false,
        },
        Answer::Count(count) => match other {
            Answer::Count(n) => *count == *n,
            _ => false,
        },
        Answer::Bytes(bytes) => match other {
            Answer::Bytes(b) => same_bytes(bytes.as_slice(), b.as_slice()),
            _ => false,
        },
        Answer::Stat { kind, mode, size } => same_stat(*kind, *mode, *size, other),
        Answer::List(items) => match other {
            Answer::List(i) => same_items(items.as_slice(), i.as_slice()),
            _ => false,
        },
        Answer::App(error) => match other {
            Answer::App(e) => same_error(*error, *e),
            _ => false,
        },
        Answer::Io(_) => false,
    }
}
