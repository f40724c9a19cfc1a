ghost use Rattle.std.specs.Prelude.{◌≡◌, ◌<◌, ◌≤◌, ◌+◌, ◌∷◌, length, drop, IfOk};
ghost use Rattle.std.specs.List.{list_all};
ghost use Rattle.volfile.specs.TextLines.{front_len, parts_between};
ghost use Rattle.fop_types.specs.Bounds.{is_component as is_component_word, is_name_byte};
ghost use Rattle.script_lang.specs.WordForms.{is_slash, path_at};

use crate::words::{begins_with, is_word};
use fop_types::{Path, Seq};
use std::alloc::{AllocError, Global};
use volfile::len_to;

// The path that a word writes, in one pass over its bytes and one over its components.
pub(crate) fn path_of(alloc: Global, word: &[u8]) -> Result<Option<Path>, AllocError>
    ensures { IfOk result (λ found. found ≡ path_at word.now) }
{
    if is_word(word, b"/") {
        return Ok(Some(Path {
            parts: Seq::new(alloc),
        }));
    }
    if !begins_with(word, b"/") {
        return Ok(None);
    }
    let parts = parts_of(alloc, &word[1..])?;
    if are_components(parts.as_slice()) {
        Ok(Some(Path { parts }))
    } else {
        Ok(None)
    }
}

// The parts between the slashes.
fn parts_of(alloc: Global, joined: &[u8]) -> Result<Seq<Seq<u8>>, AllocError>
    ensures { IfOk result (λ parts. parts ≡ parts_between is_slash joined.now) }
{
    let mut parts = Seq::new(alloc);
    let mut at = 0;
    loop {
        let rest = &joined[at..];
        let end = len_to(b'/', rest);
        parts.push(Seq::from_bytes(alloc, &rest[..end])?)?;
        if end == rest.len() {
            return Ok(parts);
        }
        at += end + 1;
    }
}

fn are_components(parts: &[Seq<u8>]) -> bool
    ensures { result ≡ list_all is_component_word parts.now }
{
    parts.iter().all(|part| is_component(part.as_slice()))
}

fn is_component(part: &[u8]) -> bool
    ensures { result ≡ is_component_word part.now }
{
    1 <= part.len() && are_component_bytes(part) && !(is_word(part, b".") || is_word(part, b".."))
}

fn are_component_bytes(part: &[u8]) -> bool
    ensures { result ≡ list_all is_name_byte part.now }
{
    part.iter().all(|b| 33 <= *b && *b <= 126 && *b != b'/')
}
