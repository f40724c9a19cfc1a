ghost use Rattle.std.specs.Prelude.{◌≤◌};

use flat_fs::FlatMount;
use fop_types::{Answer, Attr, Call, Data, Item, Kind, Path, Seq};
use std::alloc::{AllocError, Global};

// The text up to a mark, and what follows the mark.
fn cut<'a>(text: &'a [u8], mark: u8) -> (&'a [u8], &'a [u8]) {
    for i in 0..text.len() {
        if text[i] == mark {
            return (&text[..i], &text[i + 1..]);
        }
    }
    (text, &[])
}

// A number in a base of at most ten; what is no number counts as it comes.
fn number(word: &[u8], base: u32) -> u32 {
    let mut n: u32 = 0;
    for digit in word {
        n = n.wrapping_mul(base).wrapping_add((*digit & 15) as u32);
    }
    n
}

fn decimal(word: &[u8]) -> u32 {
    number(word, 10)
}

fn mode(word: &[u8]) -> u16 {
    (number(word, 8) & 511) as u16
}

fn small(word: &[u8]) -> u8 {
    (number(word, 10) & 255) as u8
}

// `N*C` as N bytes C, at most 131,071; any other word as it is.
fn bytes(alloc: Global, word: &[u8]) -> Result<Seq<u8>, AllocError> {
    let mut all = Vec::new(alloc);
    let (count, byte) = cut(word, b'*');
    put_bytes(&mut all, word, count, byte.first())?;
    Ok(Seq::from_vec(all))
}

fn put_bytes(
    all: &mut Vec<u8>,
    word: &[u8],
    count: &[u8],
    byte: Option<&u8>,
) -> Result<(), AllocError> {
    match byte {
        Some(byte) => all.resize((decimal(count) & 131071) as usize, *byte),
        None => all.extend_from_slice(word),
    }
}

// `/` alone has no components.
fn path(alloc: Global, word: &[u8]) -> Result<Path, AllocError> {
    let (_, mut rest) = cut(word, b'/');
    let mut parts = Seq::new(alloc);
    for _ in 0..8 {
        if rest.is_empty() {
            break;
        }
        let (part, more) = cut(rest, b'/');
        parts.push(bytes(alloc, part)?)?;
        rest = more;
    }
    Ok(Path { parts })
}

fn attr(alloc: Global, name: &[u8], value: &[u8]) -> Result<Attr, AllocError> {
    let name = bytes(alloc, name)?;
    let value = bytes(alloc, value)?;
    Ok(Attr { name, value })
}

// What a call does.
#[derive(Clone, Copy)]
enum Verb {
    Create,
    Open,
    Read,
    Write,
    Seek,
    Close,
    Mkdir,
    Rmdir,
    Unlink,
    Rename,
    Stat,
    List,
    Chmod,
    Truncate,
    SetAttr,
    GetAttr,
    DelAttr,
}

// The words of all but the last.
const VERBS: [(&[u8], Verb); 16] = [
    (b"create", Verb::Create),
    (b"open", Verb::Open),
    (b"read", Verb::Read),
    (b"write", Verb::Write),
    (b"seek", Verb::Seek),
    (b"close", Verb::Close),
    (b"mkdir", Verb::Mkdir),
    (b"rmdir", Verb::Rmdir),
    (b"unlink", Verb::Unlink),
    (b"rename", Verb::Rename),
    (b"stat", Verb::Stat),
    (b"list", Verb::List),
    (b"chmod", Verb::Chmod),
    (b"truncate", Verb::Truncate),
    (b"setattr", Verb::SetAttr),
    (b"getattr", Verb::GetAttr),
];

fn verb_of(word: &[u8]) -> Verb {
    for (name, verb) in &VERBS {
        if word == *name {
            return *verb;
        }
    }
    Verb::DelAttr
}

fn create_call(alloc: Global, fd: u8, word: &[u8], mode: u16) -> Result<Call, AllocError> {
    let path = path(alloc, word)?;
    Ok(Call::Create { fd, path, mode })
}

fn open_call(alloc: Global, fd: u8, word: &[u8]) -> Result<Call, AllocError> {
    let path = path(alloc, word)?;
    Ok(Call::Open { fd, path })
}

fn write_call(alloc: Global, fd: u8, word: &[u8]) -> Result<Call, AllocError> {
    let bytes = Data::from_vec(bytes(alloc, word)?.into_vec());
    Ok(Call::Write { fd, bytes })
}

fn rename(alloc: Global, path: Path, word: &[u8]) -> Result<Call, AllocError> {
    let target = self::path(alloc, word)?;
    Ok(Call::Rename { path, target })
}

fn set_attr(alloc: Global, path: Path, name: &[u8], value: &[u8]) -> Result<Call, AllocError> {
    let attr = attr(alloc, name, value)?;
    Ok(Call::SetAttr { path, attr })
}

fn get_attr(alloc: Global, path: Path, word: &[u8]) -> Result<Call, AllocError> {
    let name = bytes(alloc, word)?;
    Ok(Call::GetAttr { path, name })
}

fn del_attr(alloc: Global, path: Path, word: &[u8]) -> Result<Call, AllocError> {
    let name = bytes(alloc, word)?;
    Ok(Call::DelAttr { path, name })
}

// A call on a path, from its words.
fn on_path(
    alloc: Global,
    verb: Verb,
    path: Path,
    second: &[u8],
    third: &[u8],
) -> Result<Call, AllocError> {
    match verb {
        Verb::Mkdir => Ok(Call::Mkdir {
            path,
            mode: mode(second),
        }),
        Verb::Rmdir => Ok(Call::Rmdir { path }),
        Verb::Unlink => Ok(Call::Unlink { path }),
        Verb::Rename => rename(alloc, path, second),
        Verb::Stat => Ok(Call::Stat { path }),
        Verb::List => Ok(Call::List { path }),
        Verb::Chmod => Ok(Call::Chmod {
            path,
            mode: mode(second),
        }),
        Verb::Truncate => Ok(Call::Truncate {
            path,
            size: decimal(second),
        }),
        Verb::SetAttr => set_attr(alloc, path, second, third),
        Verb::GetAttr => get_attr(alloc, path, second),
        _ => del_attr(alloc, path, second),
    }
}

fn path_call(
    alloc: Global,
    verb: Verb,
    first: &[u8],
    second: &[u8],
    third: &[u8],
) -> Result<Call, AllocError> {
    let path = path(alloc, first)?;
    on_path(alloc, verb, path, second, third)
}

// A call by its words.
fn call(alloc: Global, line: &[u8]) -> Result<Call, AllocError> {
    let (call, rest) = cut(line, b' ');
    let (first, rest) = cut(rest, b' ');
    let (second, third) = cut(rest, b' ');
    let verb = verb_of(call);
    let fd = small(first);
    match verb {
        Verb::Create => create_call(alloc, fd, second, mode(third)),
        Verb::Open => open_call(alloc, fd, second),
        Verb::Read => Ok(Call::Read {
            fd,
            count: decimal(second),
        }),
        Verb::Write => write_call(alloc, fd, second),
        Verb::Seek => Ok(Call::Seek {
            fd,
            offset: decimal(second),
        }),
        Verb::Close => Ok(Call::Close { fd }),
        _ => path_call(alloc, verb, first, second, third),
    }
}

fn kind_name(kind: Kind) -> &'static [u8] {
    match kind {
        Kind::File => b"file",
        Kind::Dir => b"dir",
        Kind::Link => b"link",
    }
}

// Three octal digits of a mode, between commas.
fn push_mode(text: &mut Vec<u8>, mode: u16) -> Result<(), AllocError> {
    let digits = [
        b',',
        b'0' + ((mode >> 6) & 7) as u8,
        b'0' + ((mode >> 3) & 7) as u8,
        b'0' + (mode & 7) as u8,
        b',',
    ];
    text.extend_from_slice(&digits)
}

fn push_number(alloc: Global, text: &mut Vec<u8>, number: u32) -> Result<(), AllocError> {
    text.extend_from_slice(number.to_string(alloc)?.as_bytes())
}

// A name, with `/` behind a directory's.
fn push_item(text: &mut Vec<u8>, item: &Item) -> Result<(), AllocError> {
    let end: &[u8] = if item.kind == Kind::Dir { b"/ " } else { b" " };
    text.extend_from_slice(item.name.as_slice())?;
    text.extend_from_slice(end)
}

// The names in their order.
fn push_items(text: &mut Vec<u8>, items: &[Item]) -> Result<(), AllocError> {
    text.extend_from_slice(b"[")?;
    for item in items {
        push_item(text, item)?;
    }
    text.extend_from_slice(b"]")
}

fn push_quoted(text: &mut Vec<u8>, bytes: &[u8]) -> Result<(), AllocError> {
    text.extend_from_slice(b"'")?;
    text.extend_from_slice(bytes)?;
    text.extend_from_slice(b"'")
}

fn push_stat(
    alloc: Global,
    text: &mut Vec<u8>,
    kind: Kind,
    mode: u16,
    size: u32,
) -> Result<(), AllocError> {
    text.extend_from_slice(kind_name(kind))?;
    push_mode(text, mode)?;
    push_number(alloc, text, size)
}

// An answer as text: `ok`, a count, the bytes in quotes; kind, mode and size; the names; an error's name.
fn push_answer(alloc: Global, text: &mut Vec<u8>, answer: &Answer) -> Result<(), AllocError> {
    match answer {
        Answer::Done => text.extend_from_slice(b"ok"),
        Answer::Count(count) => push_number(alloc, text, *count),
        Answer::Bytes(bytes) => push_quoted(text, bytes.as_slice()),
        Answer::Stat { kind, mode, size } => push_stat(alloc, text, *kind, *mode, *size),
        Answer::List(items) => push_items(text, items.as_slice()),
        Answer::App(error) => text.extend_from_slice(error.name().as_bytes()),
        Answer::Io(_) => text.extend_from_slice(b"EIO"),
    }
}

// Puts the answer to a call of a session behind the text, with a space.
fn take_call(
    alloc: Global,
    mount: &mut FlatMount,
    session: u8,
    line: &[u8],
    text: &mut Vec<u8>,
) -> Result<(), AllocError> {
    let call = call(alloc, line)?;
    let answer = mount.call(alloc, session, &call);
    drop(call);
    let answer = answer?;
    let pushed = push_answer(alloc, text, &answer);
    drop(answer);
    pushed?;
    text.extend_from_slice(b" ")
}

// Takes a line of a session: a call, or the session of the lines from here on, which it gives.
fn take_line(
    alloc: Global,
    mount: &mut FlatMount,
    session: u8,
    line: &[u8],
    text: &mut Vec<u8>,
) -> Result<u8, AllocError> {
    let (mark, number) = cut(line, b' ');
    if mark == b"@".as_slice() {
        return Ok(small(number));
    }
    take_call(alloc, mount, session, line, text)?;
    Ok(session)
}

fn take_lines(
    alloc: Global,
    mount: &mut FlatMount,
    script: &[u8],
    text: &mut Vec<u8>,
) -> Result<(), AllocError> {
    let mut session: u8 = 0;
    let mut rest = script;
    for _ in 0..64 {
        if rest.is_empty() {
            break;
        }
        let (line, more) = cut(rest, b';');
        rest = more;
        session = take_line(alloc, mount, session, line, text)?;
    }
    Ok(())
}

// The answers to a script of at most 64 lines on a new file system, each with a space behind it.
fn answers(alloc: Global, script: &[u8]) -> Result<Vec<u8>, AllocError> {
    let mut text = Vec::new(alloc);
    let mut mount = FlatMount::new(alloc)?;
    take_lines(alloc, &mut mount, script, &mut text)?;
    Ok(text)
}

fn is_answered(alloc: Global, script: &[u8], want: &[u8]) -> Result<bool, AllocError> {
    let found = answers(alloc, script)?;
    Ok(found.as_slice() == want)
}

/// Whether each script of at most 64 lines is answered so on a new file system, with a space behind each answer.
pub(crate) fn are_answered(alloc: Global, cases: &[(&'static [u8], &'static [u8])]) -> bool {
    for (script, want) in cases {
        if !matches!(is_answered(alloc, script, want), Ok(true)) {
            return false;
        }
    }
    true
}
