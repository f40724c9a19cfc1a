ghost use Rattle.std.specs.Prelude.{◌≡◌, ◌==◌, ◌≤◌, length, drop, ◌+◌, Some, IfOk};
ghost use Rattle.std.specs.List.{list_all};
ghost use Rattle.xl_base.specs.Words.{hex_of as hex_at};
ghost use Rattle.volfile.specs.TextLines.{is_text, is_visible};
ghost use Rattle.script_lang.specs.WordForms.{at_most, attr_at, begins, copies_of, data_at, only_byte, proc_at, repeated_at, visible_bytes};

use crate::numbers::number_of;
use fop_types::{Proc, Seq};
use std::alloc::{AllocError, Global};
use volfile::len_to;
use xl_base::hex;

pub(crate) fn is_word(word: &[u8], text: &[u8]) -> bool
    ensures { result ≡ is_text word.now text.now }
{
    word == text
}

pub(crate) fn begins_with(word: &[u8], text: &[u8]) -> bool
    ensures { result ≡ begins word.now text.now }
{
    word.starts_with(text)
}

// The data that a word writes, of at most `limit` bytes.
pub(crate) fn data_of(alloc: Global, limit: u32, word: &[u8]) -> Result<Option<Seq<u8>>, AllocError>
    ensures { IfOk result (λ found. found ≡ data_at limit word.now) }
{
    let rest = behind(word, 1);
    if begins_with(word, b"t:") {
        return visible_of(alloc, limit, rest);
    }
    if begins_with(word, b"x:") {
        return hexadecimal_of(alloc, limit, rest);
    }
    if begins_with(word, b"z:") {
        return copies(alloc, number_of(0, limit, rest), Some(0));
    }
    if begins_with(word, b"r:") {
        return repeated_of(alloc, limit, rest);
    }
    Ok(None)
}

fn visible_of(alloc: Global, limit: u32, bytes: &[u8]) -> Result<Option<Seq<u8>>, AllocError>
    ensures { IfOk result (λ found. found ≡ at_most limit (visible_bytes bytes.now)) }
{
    if are_visible(bytes) && bytes.len() <= limit as usize {
        Ok(Some(Seq::from_bytes(alloc, bytes)?))
    } else {
        Ok(None)
    }
}

fn are_visible(bytes: &[u8]) -> bool
    ensures { result ≡ list_all is_visible bytes.now }
{
    bytes.iter().all(|b| 33 <= *b && *b <= 126)
}

fn hexadecimal_of(alloc: Global, limit: u32, digits: &[u8]) -> Result<Option<Seq<u8>>, AllocError>
    ensures { IfOk result (λ found. found ≡ at_most limit (hex_at digits.now)) }
{
    match hex(alloc, digits)? {
        Some(bytes) => {
            if bytes.len() <= limit as usize {
                Ok(Some(Seq::from_vec(bytes)))
            } else {
                Ok(None)
            }
        }
        None => Ok(None),
    }
}

fn repeated_of(alloc: Global, limit: u32, rest: &[u8]) -> Result<Option<Seq<u8>>, AllocError>
    ensures { IfOk result (λ found. found ≡ repeated_at limit rest.now) }
{
    let end = len_to(b':', rest);
    let byte = byte_of(alloc, behind(rest, end))?;
    copies(alloc, number_of(0, limit, &rest[..end]), byte)
}

// What is behind the byte at `end`, and nothing where there is none.
fn behind(bytes: &[u8], end: usize) -> &[u8]
    ensures { result.now ≡ drop (end + 1) bytes.now }
{
    if end < bytes.len() {
        &bytes[end + 1..]
    } else {
        &[]
    }
}

// The byte that two hexadecimal digits write.
fn byte_of(alloc: Global, digits: &[u8]) -> Result<Option<u8>, AllocError>
    ensures { IfOk result (λ byte. byte ≡ only_byte (hex_at digits.now)) }
{
    match hex(alloc, digits)? {
        Some(bytes) => Ok(only(bytes.as_slice())),
        None => Ok(None),
    }
}

fn only(bytes: &[u8]) -> Option<u8>
    ensures { result ≡ only_byte (Some bytes.now) }
{
    match bytes {
        [byte] => Some(*byte),
        _ => None,
    }
}

fn copies(
    alloc: Global,
    count: Option<u32>,
    byte: Option<u8>,
) -> Result<Option<Seq<u8>>, AllocError>
    ensures { IfOk result (λ found. found ≡ copies_of count byte) }
{
    match count {
        Some(n) => match byte {
            Some(byte) => Ok(Some(Seq::from_vec(Vec::from_elem(alloc, byte, n as usize)?))),
            None => Ok(None),
        },
        None => Ok(None),
    }
}

// The name of an attribute.
pub(crate) fn attr_of(alloc: Global, word: &[u8]) -> Result<Option<Seq<u8>>, AllocError>
    ensures { IfOk result (λ found. found ≡ attr_at word.now) }
{
    if begins_with(word, b"user.") && 6 <= word.len() && word.len() <= 64 {
        Ok(Some(Seq::from_bytes(alloc, word)?))
    } else {
        Ok(None)
    }
}

// The procedure of the name.
pub(crate) fn proc_of(word: &[u8]) -> Option<Proc>
    ensures { result ≡ proc_at word.now }
{
    if is_word(word, b"lock") {
        Some(Proc::Lock)
    } else if is_word(word, b"unlock") {
        Some(Proc::Unlock)
    } else if is_word(word, b"mark") {
        Some(Proc::Mark)
    } else if is_word(word, b"op") {
        Some(Proc::Op)
    } else if is_word(word, b"post") {
        Some(Proc::Post)
    } else if is_word(word, b"fetch") {
        Some(Proc::Fetch)
    } else if is_word(word, b"replace") {
        Some(Proc::Replace)
    } else if is_word(word, b"clear") {
        Some(Proc::Clear)
    } else if is_word(word, b"settle") {
        Some(Proc::Settle)
    } else if is_word(word, b"index") {
        Some(Proc::Index)
    } else if is_word(word, b"open") {
        Some(Proc::Open)
    } else if is_word(word, b"release") {
        Some(Proc::Release)
    } else {
        None
    }
}
