//! The words of which there are a few, and the names of items.
ghost use Rattle.std.specs.Prelude.{◌≡◌};
ghost use Rattle.std.specs.List.{list_all};
ghost use Rattle.fop_types.specs.Bounds.{is_component, is_name_byte};
ghost use Rattle.report_reader.specs.code.Forms.{cause_of, is_item_name, kind_of, named, numbered, presence_of};

use fop_types::{AppError, Kind, SkipCause};
use volfile::is_same;

/// The kind of a file or a directory.
pub(crate) fn kind_of(word: &[u8]) -> Option<Kind>
    ensures { result ≡ kind_of word.now }
{
    if is_same(word, b"file") {
        Some(Kind::File)
    } else if is_same(word, b"dir") {
        Some(Kind::Dir)
    } else {
        None
    }
}

/// Whether a word is the name of a directory's item: a component of a path, of at most 255 bytes.
pub(crate) fn is_item_name(name: &[u8]) -> bool
    ensures { result ≡ is_item_name name.now }
{
    is_component(name) && name.len() <= 255
}

fn is_component(name: &[u8]) -> bool
    ensures { result ≡ is_component name.now }
{
    1 <= name.len() && are_component_bytes(name) && !(is_same(name, b".") || is_same(name, b".."))
}

fn are_component_bytes(name: &[u8]) -> bool
    ensures { result ≡ list_all is_name_byte name.now }
{
    name.iter().all(|b| 33 <= *b && *b <= 126 && *b != b'/')
}

/// Whether a copy was there.
pub(crate) fn presence_of(word: &[u8]) -> Option<bool>
    ensures { result ≡ presence_of word.now }
{
    if is_same(word, b"1") {
        Some(true)
    } else if is_same(word, b"0") {
        Some(false)
    } else {
        None
    }
}

/// Why a cell was skipped.
pub(crate) fn cause_of(word: &[u8]) -> Option<SkipCause>
    ensures { result ≡ cause_of word.now }
{
    if is_same(word, b"majority") {
        Some(SkipCause::Majority)
    } else if is_same(word, b"unsettled") {
        Some(SkipCause::Unsettled)
    } else if is_same(word, b"split") {
        Some(SkipCause::Split)
    } else {
        None
    }
}

fn numbered(number: u32) -> Option<AppError>
    ensures { result ≡ numbered number }
{
    match number {
        2 => Some(AppError::Enoent),
        9 => Some(AppError::Ebadf),
        16 => Some(AppError::Ebusy),
        17 => Some(AppError::Eexist),
        20 => Some(AppError::Enotdir),
        21 => Some(AppError::Eisdir),
        22 => Some(AppError::Einval),
        27 => Some(AppError::Efbig),
        36 => Some(AppError::Enametoolong),
        39 => Some(AppError::Enotempty),
        61 => Some(AppError::Enodata),
        95 => Some(AppError::Eopnotsupp),
        _ => None,
    }
}

/// The error with this number and this name.
pub(crate) fn error_of(number: u32, name: &[u8]) -> Option<AppError>
    ensures { result ≡ named (numbered number) name.now }
{
    let Some(error) = numbered(number) else {
        return None;
    };
    if is_same(name, error.name().as_bytes()) {
        Some(error)
    } else {
        None
    }
}
