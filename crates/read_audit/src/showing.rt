//! What a content shows: a part of a file's bytes, its size, an object's mode, and the value of an attribute.
ghost use Rattle.std.specs.Prelude.{◌≡◌, true};
ghost use Rattle.fop_types.specs.FileBytes.{read_from};
ghost use Rattle.read_audit.specs.Showing.{HasPart, HasSize, HasMode, HasValue, HasAttribute};

use contents::find_attr;
use fop_types::{Attr, Content};

// ---- bytes

// The bytes from an offset on, at most so many: none at or past the end.
fn part_of(whole: &[u8], offset: usize, count: usize) -> &[u8]
    ensures { result.now ≡ read_from whole.now offset count }
{
    if offset >= whole.len() {
        return &[];
    }
    let rest = &whole[offset..];
    let few = count.min(rest.len());
    &rest[..few]
}

fn is_part(whole: &[u8], offset: usize, count: usize, bytes: &[u8]) -> bool
    ensures { result ≡ true → bytes.now ≡ read_from whole.now offset count }
{
    bytes == part_of(whole, offset, count)
}

/// Whether a content is that of a file of which the bytes are those from an offset on, at most so many.
pub(crate) fn has_part(content: &Content, offset: usize, count: usize, bytes: &[u8]) -> bool
    ensures { result ≡ true → HasPart offset count bytes.now content.now }
{
    match content {
        Content::Bytes(whole) => is_part(whole.as_slice(), offset, count, bytes),
        _ => false,
    }
}

/// Whether a content is that of a file of so many bytes.
pub(crate) fn has_size(content: &Content, size: u32) -> bool
    ensures { result ≡ true → HasSize size content.now }
{
    match content {
        Content::Bytes(whole) => whole.len() == size as usize,
        _ => false,
    }
}

// ---- metadata

/// Whether a content is metadata with this mode.
pub(crate) fn has_mode(content: &Content, mode: u16) -> bool
    ensures { result ≡ true → HasMode mode content.now }
{
    match content {
        Content::Meta { mode: own, .. } => *own == mode,
        _ => false,
    }
}

fn is_value(attr: &Attr, value: &[u8]) -> bool
    ensures { result ≡ true → value.now ≡ attr.now.value }
{
    value == attr.value.as_slice()
}

fn has_value(attrs: &[Attr], name: &[u8], value: &[u8]) -> bool
    ensures { result ≡ true → HasValue attrs.now name.now value.now }
{
    match find_attr(attrs, name) {
        Some(attr) => is_value(attr, value),
        None => false,
    }
}

/// Whether a content is metadata in which the attribute of a name has this value.
pub(crate) fn has_attribute(content: &Content, name: &[u8], value: &[u8]) -> bool
    ensures { result ≡ true → HasAttribute name.now value.now content.now }
{
    match content {
        Content::Meta { attrs, .. } => has_value(attrs.as_slice(), name, value),
        _ => false,
    }
}
