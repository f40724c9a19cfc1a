//! The replies of sets by words.

use crate::text::{cut, digit};
use fop_types::{
    Aspect, Attr, Cell, Content, Data, Gfid, IoError, Item, Kind, Mask, Seq, SetReply, SkipCause,
    Span,
};
use std::alloc::{AllocError, Global};

fn contents(alloc: Global, content: Option<Content>, place: u32) -> Result<SetReply, AllocError> {
    let mut all = Seq::new(alloc);
    all.push(content)?;
    Ok(SetReply::Contents(all, place))
}

// ---- metadata and bytes

fn meta(alloc: Global, span: Option<Span>) -> Result<Content, AllocError> {
    let mut attrs = Seq::new(alloc);
    attrs.push(Attr {
        name: Seq::from_bytes(alloc, b"user.a")?,
        value: Seq::from_bytes(alloc, b"v")?,
    })?;
    Ok(Content::Meta {
        mode: 0o644,
        attrs,
        span,
    })
}

fn shown_meta(alloc: Global, span: Option<Span>, place: u32) -> Result<SetReply, AllocError> {
    contents(alloc, Some(meta(alloc, span)?), place)
}

fn bytes_content(alloc: Global, bytes: &[u8]) -> Result<Content, AllocError> {
    let bytes = Vec::from_slice(alloc, bytes)?;
    Ok(Content::Bytes(Data::from_vec(bytes)))
}

fn shown_bytes(alloc: Global, place: u32) -> Result<SetReply, AllocError> {
    contents(alloc, Some(bytes_content(alloc, b"hello")?), place)
}

fn bytes_and_meta(alloc: Global, bytes: &[u8], place: u32) -> Result<SetReply, AllocError> {
    let mut all = Seq::new(alloc);
    all.push(Some(bytes_content(alloc, bytes)?))?;
    all.push(Some(meta(alloc, None)?))?;
    Ok(SetReply::Contents(all, place))
}

const LOW: Span = Span {
    first: 0,
    last: 0x7fff_ffff,
};

const HIGH: Span = Span {
    first: 0x8000_0000,
    last: 0xffff_ffff,
};

// ---- names

fn kind_of(word: &[u8]) -> Kind {
    if word == b"file".as_slice() {
        Kind::File
    } else if word == b"dir".as_slice() {
        Kind::Dir
    } else {
        Kind::Link
    }
}

// `NAME:KIND`, with gfid 2, or `NAME:KIND:GFID`; the kind of a link is the name of its set.
fn item(alloc: Global, word: &[u8]) -> Result<Item, AllocError> {
    let (name, rest) = cut(word, b':');
    let (kind, gfid) = cut(rest, b':');
    let lo = if gfid.is_empty() { 2 } else { digit(gfid) };
    Ok(Item {
        name: Seq::from_bytes(alloc, name)?,
        gfid: Gfid {
            hi: 0,
            lo: lo as u64,
        },
        kind: kind_of(kind),
        target: Seq::from_bytes(alloc, kind)?,
    })
}

fn names(
    alloc: Global,
    removed: bool,
    items: Seq<Item>,
    place: u32,
) -> Result<SetReply, AllocError> {
    contents(alloc, Some(Content::Names { removed, items }), place)
}

// Names with `+` between them, at most four.
fn named(alloc: Global, words: &[u8], place: u32) -> Result<SetReply, AllocError> {
    let mut items = Seq::new(alloc);
    let mut rest = words;
    for _ in 0..4 {
        if rest.is_empty() {
            break;
        }
        let (word, more) = cut(rest, b'+');
        items.push(item(alloc, word)?)?;
        rest = more;
    }
    names(alloc, false, items, place)
}

// ---- cells and errors

// The data cells of so many files.
fn listed(alloc: Global, count: u64, short: Option<IoError>) -> Result<SetReply, AllocError> {
    let mut cells = Seq::new(alloc);
    for lo in 0..count {
        cells.push(Cell {
            gfid: Gfid { hi: 0, lo },
            aspect: Aspect::Data,
        })?;
    }
    Ok(SetReply::Listed {
        cells,
        answered: Mask(1),
        short,
    })
}

fn quorum(alloc: Global, set: u8) -> IoError {
    IoError::Quorum {
        set,
        lost: Seq::new(alloc),
    }
}

fn split(alloc: Global, set: u8) -> IoError {
    IoError::Split {
        set,
        rows: Seq::new(alloc),
    }
}

fn fault(alloc: Global, set: u8) -> IoError {
    IoError::Fault {
        set,
        faults: Seq::new(alloc),
        lost: Seq::new(alloc),
    }
}

// ---- all

// The words of replies, but for numbers and names.
#[derive(Clone, Copy)]
enum Word {
    Done,
    Opened,
    Healed,
    Skipped,
    Io,
    Split,
    Fault,
    Cells,
    FiveCells,
    Short,
    NoNames,
    Removed,
    Low,
    High,
    Meta,
    Bytes,
    Both,
    Empty,
    Absent,
}

const WORDS: [(&[u8], Word); 19] = [
    (b"ok", Word::Done),
    (b"opened", Word::Opened),
    (b"healed", Word::Healed),
    (b"skipped", Word::Skipped),
    (b"io", Word::Io),
    (b"split", Word::Split),
    (b"fault", Word::Fault),
    (b"cells", Word::Cells),
    (b"cells-5", Word::FiveCells),
    (b"short", Word::Short),
    (b"none", Word::NoNames),
    (b"removed", Word::Removed),
    (b"low", Word::Low),
    (b"high", Word::High),
    (b"meta", Word::Meta),
    (b"bytes", Word::Bytes),
    (b"both", Word::Both),
    (b"empty", Word::Empty),
    (b"absent", Word::Absent),
];

fn replied(alloc: Global, set: u8, word: Word, place: u32) -> Result<SetReply, AllocError> {
    match word {
        Word::Done => Ok(SetReply::Decided(None)),
        Word::Opened => Ok(SetReply::Opened),
        Word::Healed => Ok(SetReply::Healed(Seq::new(alloc))),
        Word::Skipped => Ok(SetReply::Skipped(SkipCause::Split)),
        Word::Io => Ok(SetReply::Io(quorum(alloc, set))),
        Word::Split => Ok(SetReply::Io(split(alloc, set))),
        Word::Fault => Ok(SetReply::Io(fault(alloc, set))),
        Word::Cells => listed(alloc, 1, None),
        Word::FiveCells => listed(alloc, 5, None),
        Word::Short => listed(alloc, 1, Some(quorum(alloc, set))),
        Word::NoNames => names(alloc, false, Seq::new(alloc), place),
        Word::Removed => names(alloc, true, Seq::new(alloc), place),
        Word::Low => shown_meta(alloc, Some(LOW), place),
        Word::High => shown_meta(alloc, Some(HIGH), place),
        Word::Meta => shown_meta(alloc, None, place),
        Word::Bytes => shown_bytes(alloc, place),
        Word::Both => bytes_and_meta(alloc, b"hello", place),
        Word::Empty => bytes_and_meta(alloc, b"", place),
        Word::Absent => contents(alloc, None, place),
    }
}

// The place of what a read shows: behind `@`, or by the number of the set.
fn place_of(set: u8, word: &[u8]) -> u32 {
    if word.is_empty() {
        set as u32 + 7
    } else {
        digit(word) as u32
    }
}

/// The reply of a set by its word: a number is that of an entry of the history; names are shown as `NAME:KIND`.
pub(crate) fn reply(alloc: Global, set: u8, gives: &[u8]) -> Result<SetReply, AllocError> {
    let (word, place) = cut(gives, b'@');
    let place = place_of(set, place);
    for (name, known) in &WORDS {
        if word == *name {
            return replied(alloc, set, *known, place);
        }
    }
    if word.len() == 1 {
        return Ok(SetReply::Decided(Some(digit(word) as u32)));
    }
    named(alloc, word, place)
}
