//! The answers of calls.
ghost use Rattle.std.specs.Prelude.{◌≡◌};
ghost use Rattle.report_reader.specs.code.Readers.{ReadsAll, each_word};
ghost use Rattle.report_reader.specs.code.Forms.{item_of, unit_of};
ghost use Rattle.report_reader.specs.code.AnswerForms.{answer_by, answer_of, bytes_made, counted, error_of, error_with, is_hex_word, items_made, plain_of, stat_of, success_of};
ghost use Rattle.xl_base.specs.Words.{hex_of};

use crate::bad::Bad;
use crate::faults::{input_output, quorum};
use crate::fields::{mode, unit};
use crate::forms::{error_of, kind_of};
use crate::lists::items;
use crate::numbers::unit_of;
use crate::words::{Words, end, next, word};
use fop_types::{Kind, Seq};
use report_text::ReportAnswer;
use std::alloc::Global;
use volfile::is_same;
use xl_base::hex;

// What follows the number and the name of an error.
fn error_with(alloc: Global, number: u32, name: &[u8], words: Words) -> Result<ReportAnswer, Bad>
    ensures { ReadsAll (error_with number name.now) words.entry result }
{
    if number == 107 && is_same(name, b"ENOTCONN") {
        let io = quorum(alloc, words)?;
        return Ok(ReportAnswer::Io(io));
    }
    if number == 5 && is_same(name, b"EIO") {
        let io = input_output(alloc, words)?;
        return Ok(ReportAnswer::Io(io));
    }
    let Some(error) = error_of(number, name) else {
        return Err(Bad::Line);
    };
    end(words)?;
    Ok(ReportAnswer::App(error))
}

fn error(alloc: Global, words: Words) -> Result<ReportAnswer, Bad>
    ensures { ReadsAll error_of words.entry result }
{
    let (number, words) = unit(words)?;
    let (name, words) = word(words)?;
    error_with(alloc, number, name, words)
}

fn stat(kind: Kind, words: Words) -> Result<ReportAnswer, Bad>
    ensures { ReadsAll (stat_of kind) words.entry result }
{
    let (mode, words) = mode(words)?;
    let (size, words) = unit(words)?;
    end(words)?;
    Ok(ReportAnswer::Stat { kind, mode, size })
}

fn is_hex_word(word: &[u8]) -> bool
    ensures { result ≡ is_hex_word word.now }
{
    word.starts_with(b"x:")
}

fn bytes(alloc: Global, digits: &[u8], words: Words) -> Result<ReportAnswer, Bad>
    ensures { ReadsAll (bytes_made (hex_of digits.now)) words.entry result }
{
    let Some(bytes) = hex(alloc, digits)? else {
        return Err(Bad::Line);
    };
    end(words)?;
    Ok(ReportAnswer::Bytes(Seq::from_vec(bytes)))
}

fn list(alloc: Global, count: u32, words: Words) -> Result<ReportAnswer, Bad>
    ensures { ReadsAll (λ ws. items_made count (each_word item_of ws)) words.entry result }
{
    let items = items(alloc, words)?;
    if items.len() == count as usize {
        Ok(ReportAnswer::List(items))
    } else {
        Err(Bad::Line)
    }
}

// A count, or a list of so many items where there are some.
fn counted(alloc: Global, count: &[u8], words: Words) -> Result<ReportAnswer, Bad>
    ensures { ReadsAll (counted (unit_of count.now)) words.entry result }
{
    let Some(count) = unit_of(count) else {
        return Err(Bad::Line);
    };
    match next(words) {
        None => Ok(ReportAnswer::Count(count)),
        Some(_) => list(alloc, count, words),
    }
}

fn plain(alloc: Global, word: &[u8], words: Words) -> Result<ReportAnswer, Bad>
    ensures { ReadsAll (plain_of word.now) words.entry result }
{
    if is_hex_word(word) {
        return bytes(alloc, &word[2..], words);
    }
    counted(alloc, word, words)
}

// What follows `ok`.
fn success(alloc: Global, words: Words) -> Result<ReportAnswer, Bad>
    ensures { ReadsAll success_of words.entry result }
{
    let Some((word, rest)) = next(words) else {
        return Ok(ReportAnswer::Done);
    };
    match kind_of(word) {
        Some(kind) => stat(kind, rest),
        None => plain(alloc, word, rest),
    }
}

fn answer_by(alloc: Global, word: &[u8], words: Words) -> Result<ReportAnswer, Bad>
    ensures { ReadsAll (answer_by word.now) words.entry result }
{
    if is_same(word, b"ok") {
        return success(alloc, words);
    }
    if is_same(word, b"error") {
        return error(alloc, words);
    }
    Err(Bad::Line)
}

/// An answer, up to the end of the line.
pub(crate) fn answer(alloc: Global, words: Words) -> Result<ReportAnswer, Bad>
    ensures { ReadsAll answer_of words.entry result }
{
    let (word, words) = word(words)?;
    answer_by(alloc, word, words)
}
