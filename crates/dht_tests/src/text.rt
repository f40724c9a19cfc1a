//! Parts of words, and numbers as text.

use fop_types::{Aspect, Cell, Kind, Span};
use std::alloc::{AllocError, Global};

/// The text up to a mark, and what follows the mark.
pub(crate) fn cut<'a>(text: &'a [u8], mark: u8) -> (&'a [u8], &'a [u8]) {
    for i in 0..text.len() {
        if text[i] == mark {
            return (&text[..i], &text[i + 1..]);
        }
    }
    (text, &[])
}

/// A number below ten by its digit.
pub(crate) fn digit(word: &[u8]) -> u8 {
    match word.first() {
        Some(digit) => *digit & 15,
        None => 0,
    }
}

pub(crate) fn push_number(
    alloc: Global,
    text: &mut Vec<u8>,
    number: u64,
) -> Result<(), AllocError> {
    text.extend_from_slice(number.to_string(alloc)?.as_bytes())
}

/// A text, and another one behind it.
pub(crate) fn push_both(text: &mut Vec<u8>, one: &[u8], other: &[u8]) -> Result<(), AllocError> {
    text.extend_from_slice(one)?;
    text.extend_from_slice(other)
}

/// A number behind a text.
pub(crate) fn push_headed(
    alloc: Global,
    text: &mut Vec<u8>,
    head: &[u8],
    number: u64,
) -> Result<(), AllocError> {
    text.extend_from_slice(head)?;
    push_number(alloc, text, number)
}

/// A number behind a comma.
pub(crate) fn push_next(alloc: Global, text: &mut Vec<u8>, number: u64) -> Result<(), AllocError> {
    push_headed(alloc, text, b",", number)
}

/// The three octal digits of a mode, behind a comma.
pub(crate) fn push_mode(text: &mut Vec<u8>, mode: u16) -> Result<(), AllocError> {
    let digits = [
        b',',
        b'0' + ((mode >> 6) & 7) as u8,
        b'0' + ((mode >> 3) & 7) as u8,
        b'0' + (mode & 7) as u8,
    ];
    text.extend_from_slice(&digits)
}

/// Both ends of a range behind a comma, where there is one.
pub(crate) fn push_span(
    alloc: Global,
    text: &mut Vec<u8>,
    span: Option<Span>,
) -> Result<(), AllocError> {
    let Some(span) = span else {
        return Ok(());
    };
    push_next(alloc, text, span.first as u64)?;
    push_headed(alloc, text, b"-", span.last as u64)
}

pub(crate) fn kind_word(kind: Kind) -> &'static [u8] {
    match kind {
        Kind::File => b"file",
        Kind::Dir => b"dir",
        Kind::Link => b"link",
    }
}

fn letter(aspect: Aspect) -> &'static [u8] {
    match aspect {
        Aspect::Data => b"d",
        Aspect::Meta => b"m",
        Aspect::Entry => b"e",
    }
}

/// A cell by its gfid and the letter of its aspect.
pub(crate) fn push_cell(alloc: Global, text: &mut Vec<u8>, cell: Cell) -> Result<(), AllocError> {
    push_number(alloc, text, cell.gfid.lo)?;
    text.extend_from_slice(letter(cell.aspect))
}

/// Cells behind `[`, with `+` between them.
pub(crate) fn push_cells(
    alloc: Global,
    text: &mut Vec<u8>,
    cells: &[Cell],
) -> Result<(), AllocError> {
    let mut mark = b"[";
    for cell in cells {
        text.extend_from_slice(mark)?;
        push_cell(alloc, text, *cell)?;
        mark = b"+";
    }
    Ok(())
}

/// A descriptor behind a comma, where there is one.
pub(crate) fn push_fd(alloc: Global, text: &mut Vec<u8>, fd: u32) -> Result<(), AllocError> {
    if fd == 0 {
        return Ok(());
    }
    push_headed(alloc, text, b",fd", fd as u64)
}
