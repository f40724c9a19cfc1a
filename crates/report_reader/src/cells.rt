//! The form of cells.
ghost use Rattle.std.specs.Prelude.{◌≡◌, ◌≤◌, ◌<◌, ◌+◌, length, drop, true};
ghost use Rattle.std.specs.List.{list_all};
ghost use Rattle.xl_base.specs.Words.{is_hex_digit, hex_value};
ghost use Rattle.report_reader.specs.code.Forms.{aspect_of, cell_of, gfid_of, hex_after, is_gfid};

use fop_types::{Aspect, Cell, Gfid};
use volfile::{is_same, len_to};

/// What is behind the byte at `end`, and nothing where there is none.
pub(crate) fn behind(bytes: &[u8], end: usize) -> &[u8]
    ensures { result.now ≡ drop (end + 1) bytes.now }
{
    if end < bytes.len() {
        &bytes[end + 1..]
    } else {
        &[]
    }
}

fn are_hex_digits(word: &[u8]) -> bool
    ensures { result ≡ list_all is_hex_digit word.now }
{
    word.iter().all(|b| (b'0' <= *b && *b <= b'9') || (b'a' <= *b && *b <= b'f'))
}

fn digit_value(digit: u8) -> u8
    requires { is_hex_digit digit ≡ true }
    ensures value { result ≡ hex_value digit }
    ensures small { result < 16 }
{
    if digit <= b'9' {
        digit - b'0'
    } else {
        digit - b'a' + 10
    }
}

// The number that at most 16 digits write.
fn hex_number(digits: &[u8]) -> u64
    requires few { length digits.now ≤ 16 }
    requires digits { list_all is_hex_digit digits.now ≡ true }
    ensures { result ≡ hex_after 0 digits.now }
{
    let mut number: u64 = 0;
    for digit in digits {
        number = number * 16 + digit_value(*digit) as u64;
    }
    number
}

fn is_gfid(digits: &[u8]) -> bool
    ensures { result ≡ is_gfid digits.now }
{
    digits.len() == 32 && are_hex_digits(digits)
}

fn gfid(digits: &[u8]) -> Gfid
    requires { is_gfid digits.now ≡ true }
    ensures { result ≡ gfid_of digits.now }
{
    Gfid {
        hi: hex_number(&digits[..16]),
        lo: hex_number(&digits[16..]),
    }
}

fn aspect_of(word: &[u8]) -> Option<Aspect>
    ensures { result ≡ aspect_of word.now }
{
    if is_same(word, b"data") {
        Some(Aspect::Data)
    } else if is_same(word, b"metadata") {
        Some(Aspect::Meta)
    } else if is_same(word, b"entry") {
        Some(Aspect::Entry)
    } else {
        None
    }
}

/// A cell.
pub(crate) fn cell_of(word: &[u8]) -> Option<Cell>
    ensures { result ≡ cell_of word.now }
{
    let end = len_to(b'/', word);
    let Some(aspect) = aspect_of(behind(word, end)) else {
        return None;
    };
    let digits = &word[..end];
    if !is_gfid(digits) {
        return None;
    }
    Some(Cell {
        gfid: gfid(digits),
        aspect,
    })
}
