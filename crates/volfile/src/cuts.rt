ghost use Rattle.std.specs.Prelude.{map, ◌≡◌, ◌+◌, ◌<◌, ◌≤◌, ◌==◌, ◌∷◌, ◌++◌, length, drop, IfOk, OnOk};
ghost use Rattle.volfile.specs.TextLines.{front_len, is_blank as is_blank_byte, line_after as number_after, lines_of, with_word, words_of};

use std::alloc::{AllocError, Global};

/// The number of the line after the one with this number, or before all lines, where it is 0. It stays
/// at 4294967295.
pub fn line_after(number: u32) -> u32
    ensures { result ≡ number_after number }
{
    if number < 4294967295 {
        number + 1
    } else {
        number
    }
}

/// How many bytes are before the first `stop`: all of them where there is none.
pub fn len_to(stop: u8, bytes: &[u8]) -> usize
    ensures len { result ≡ front_len (λ b. b == stop) bytes.now }
    ensures within { result ≤ length bytes.now }
{
    let mut at = 0;
    while at < bytes.len() {
        if bytes[at] == stop {
            return at;
        }
        at += 1;
    }
    at
}

/// The line that begins at the place `at` of a text, without its line feed. The next line begins one byte
/// behind it, if the text goes so far.
pub fn first_line(text: &[u8], at: usize) -> &[u8]
    requires { at < length text.now }
    ensures cut { lines_of (drop at text.now) ≡ result.now ∷ lines_of (drop (at + (length result.now + 1)) text.now) }
    ensures within { at + length result.now ≤ length text.now }
{
    let rest = &text[at..];
    let end = len_to(b'\n', rest);
    &rest[..end]
}

pub(crate) fn is_blank(byte: u8) -> bool
    ensures { result ≡ is_blank_byte byte }
{
    byte == b' ' || byte == b'\t' || byte == b'\r'
}

// How many bytes are before the first blank.
fn len_to_blank(bytes: &[u8]) -> usize
    ensures len { result ≡ front_len is_blank_byte bytes.now }
    ensures within { result ≤ length bytes.now }
{
    let mut at = 0;
    while at < bytes.len() {
        if is_blank(bytes[at]) {
            return at;
        }
        at += 1;
    }
    at
}

// What is at the place before the next blank: a word, or nothing.
fn first_part(line: &[u8], at: usize) -> &[u8]
    requires { at < length line.now }
    ensures cut { words_of (drop at line.now) ≡ with_word result.now (words_of (drop (at + (length result.now + 1)) line.now)) }
    ensures within { at + length result.now ≤ length line.now }
{
    let rest = &line[at..];
    let end = len_to_blank(rest);
    &rest[..end]
}

// Adds the words of a line.
pub(crate) fn add_words<'a>(found: &mut Vec<&'a [u8]>, line: &'a [u8]) -> Result<(), AllocError>
    ensures { OnOk result (map (λ w. w.now) found.new.items ≡ map (λ w. w.now) found.old.items ++ words_of line.now) }
{
    let mut at = 0;
    while at < line.len() {
        let word = first_part(line, at);
        if !word.is_empty() {
            found.push(word)?;
        }
        at += word.len() + 1;
    }
    Ok(())
}

/// The words of a line: what spaces, tabs and carriage returns separate. It takes time of the order of
/// the line's length and copies no byte.
///
/// # Errors
/// Out of memory.
pub fn words(alloc: Global, line: &[u8]) -> Result<Vec<&[u8]>, AllocError>
    ensures { IfOk result (λ found. map (λ w. w.now) found.items ≡ words_of line.now) }
{
    let mut found = Vec::new(alloc);
    add_words(&mut found, line)?;
    Ok(found)
}
