//! The answers that a report shows.
ghost use Rattle.std.specs.Prelude.{◌≡◌, ◌∷◌, [], true, IfOk, map};
ghost use Rattle.history_replay.specs.Reports.{shown_item, Shows, ShowsItems, is_io_shown, is_silent as is_silent_of};

use crate::same::{same_bytes, same_kind};
use fop_types::{Answer, Gfid, IoError, Item, Kind, Seq};
use report_text::{ReportAnswer, ReportCall};
use std::alloc::{AllocError, Global};

fn is_io_answer(answer: &ReportAnswer) -> bool
    ensures { result ≡ is_io_shown answer.now }
{
    match answer {
        ReportAnswer::Io(_) => true,
        _ => false,
    }
}

/// Whether a call is answered by an I/O error and has no place.
pub(crate) fn is_silent(call: &ReportCall) -> bool
    ensures { result ≡ is_silent_of call.now }
{
    is_io_answer(&call.answer) && call.places.is_empty()
}

fn is_item(shown: &(Seq<u8>, Kind), item: &Item) -> bool
    ensures { result ≡ true → shown.now ≡ shown_item item.now }
{
    same_bytes(shown.0.as_slice(), item.name.as_slice()) && same_kind(shown.1, item.kind)
}

fn are_items(shown: &[(Seq<u8>, Kind)], items: &[Item]) -> bool
    ensures { result ≡ true → shown.now ≡ map shown_item items.now }
{
    if shown.len() != items.len() {
        return false;
    }
    for index in 0..shown.len() {
        if !is_item(&shown[index], &items[index]) {
            return false;
        }
    }
    true
}

fn is_list(shown: &[(Seq<u8>, Kind)], list: &Answer) -> bool
    ensures { result ≡ true → ShowsItems shown.now list.now }
{
    match list {
        Answer::List(items) => are_items(shown, items.as_slice()),
        _ => false,
    }
}

fn is_empty_list(list: &Answer) -> bool
    ensures { result ≡ true → list.now ≡ Answer.List [] }
{
    match list {
        Answer::List(items) => items.is_empty(),
        _ => false,
    }
}

/// Whether a report's answer shows this list.
pub(crate) fn shows_list(shown: &ReportAnswer, list: &Answer) -> bool
    ensures { result ≡ true → Shows shown.now list.now }
{
    match shown {
        ReportAnswer::List(items) => is_list(items.as_slice(), list),
        ReportAnswer::Count(count) => *count == 0 && is_empty_list(list),
        _ => false,
    }
}

// Items with the names and kinds that are shown.
fn items_shown(alloc: Global, shown: &[(Seq<u8>, Kind)]) -> Result<Seq<Item>, AllocError>
    ensures { IfOk result (λ items. shown.now ≡ map shown_item items) }
{
    let mut items = Vec::new(alloc);
    for item in shown {
        let name = item.0.copy(alloc)?;
        items.push(Item {
            name,
            gfid: Gfid { hi: 0, lo: 0 },
            kind: item.1,
            target: Seq::new(alloc),
        })?;
    }
    Ok(Seq::from_vec(items))
}

/// An answer that a report's answer shows. The items of a list have no gfid.
///
/// # Errors
/// Out of memory.
pub(crate) fn answer_shown(alloc: Global, shown: &ReportAnswer) -> Result<Answer, AllocError>
    ensures { IfOk result (λ answer. Shows shown.now answer) }
{
    match shown {
        ReportAnswer::Done => Ok(Answer::Done),
        ReportAnswer::Count(count) => Ok(Answer::Count(*count)),
        ReportAnswer::Bytes(bytes) => Ok(Answer::Bytes(bytes.copy(alloc)?)),
        ReportAnswer::Stat { kind, mode, size } => Ok(Answer::Stat {
            kind: *kind,
            mode: *mode,
            size: *size,
        }),
        ReportAnswer::List(items) => Ok(Answer::List(items_shown(alloc, items.as_slice())?)),
        ReportAnswer::App(error) => Ok(Answer::App(*error)),
        ReportAnswer::Io(_) => Ok(Answer::Io(IoError::Split {
            set: 0,
            rows: Seq::new(alloc),
        })),
    }
}
