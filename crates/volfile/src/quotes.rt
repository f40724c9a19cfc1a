ghost use Rattle.std.specs.Prelude.{map, ◌≡◌, ◌&&◌, ◌++◌, ◌∷◌, Some, None, IfOk, OnOk};
ghost use Rattle.std.specs.Bool.{MatchBool};
ghost use Rattle.std.specs.Option.{MatchOption, option_map};
ghost use Rattle.volfile.specs.TextLines.{words_of};
ghost use Rattle.volfile.specs.VolfileText.{begins_blank as is_blank_at_front, ends_blank as is_blank_at_end, is_option_and_key as are_option_and_key, words_said as said_words};

use crate::cuts::{add_words, is_blank, len_to, words};
use crate::forms::is_same;
use std::alloc::{AllocError, Global};

// The words of a line without its comment, the quoted text among them, and `None` where a quote is
// where it may not be.
pub(crate) fn words_said(alloc: Global, said: &[u8]) -> Result<Option<Vec<&[u8]>>, AllocError>
    ensures { IfOk result (λ found. option_map (λ ws. map (λ w. w.now) ws.items) found ≡ said_words said.now) }
{
    let opening = len_to(b'"', said);
    let before = &said[..opening];
    let mut found = words(alloc, before)?;
    if opening == said.len() {
        return Ok(Some(found));
    }
    let rest = &said[opening + 1..];
    let closing = len_to(b'"', rest);
    if closing == rest.len() {
        return Ok(None);
    }
    let text = &rest[..closing];
    let behind = &rest[closing + 1..];
    if len_to(b'"', behind) < behind.len() {
        return Ok(None);
    }
    if !may_stand(found.as_slice(), before, behind) {
        return Ok(None);
    }
    add_text(&mut found, text, behind)?;
    Ok(Some(found))
}

// Adds the quoted text, and the words behind it.
fn add_text<'a>(
    found: &mut Vec<&'a [u8]>,
    text: &'a [u8],
    behind: &'a [u8],
) -> Result<(), AllocError>
    ensures { OnOk result (map (λ w. w.now) found.new.items ≡ map (λ w. w.now) found.old.items ++ text.now ∷ words_of behind.now) }
{
    found.push(text)?;
    add_words(found, behind)?;
    Ok(())
}

// Whether a quoted text may be behind the words found, which `before` has, and before `behind`.
fn may_stand(found: &[&[u8]], before: &[u8], behind: &[u8]) -> bool
    ensures { result ≡ (are_option_and_key (map (λ w. w.now) found.now) && is_blank_at_end before.now && is_blank_at_front behind.now) }
{
    is_option_and_key(found) && ends_blank(before) && begins_blank(behind)
}

fn is_option_and_key(found: &[&[u8]]) -> bool
    ensures { result ≡ are_option_and_key (map (λ w. w.now) found.now) }
{
    match found {
        [word, _] => is_same(word, b"option"),
        _ => false,
    }
}

fn ends_blank(line: &[u8]) -> bool
    ensures { result ≡ is_blank_at_end line.now }
{
    let size = line.len();
    if size == 0 {
        return true;
    }
    is_blank(line[size - 1])
}

fn begins_blank(line: &[u8]) -> bool
    ensures { result ≡ is_blank_at_front line.now }
{
    line.is_empty() || is_blank(line[0])
}
