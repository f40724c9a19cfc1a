//! The next word of a line, as a value of its form.
ghost use Rattle.std.specs.Prelude.{◌≡◌};
ghost use Rattle.xl_base.specs.Words.{decimal_of};
ghost use Rattle.report_reader.specs.code.Readers.{Reads, form_at};
ghost use Rattle.report_reader.specs.code.Forms.{cause_of, cell_of, counters_of, name_at, octal_of, part_of, places_of, presence_of, unit_of};
ghost use Rattle.report_reader.specs.code.LineForms.{next_number};

use crate::bad::Bad;
use crate::cells::cell_of;
use crate::forms::{cause_of, presence_of};
use crate::numbers::{counters, octal_of, part_of, places, unit_of};
use crate::words::{Words, word};
use fop_types::{Cell, Seq, SkipCause};
use std::alloc::Global;
use volfile::is_name;
use xl_base::decimal;

/// A number below 2^32.
pub(crate) fn unit(words: Words) -> Result<(u32, Words), Bad>
    ensures { Reads (form_at unit_of) words.entry result }
{
    let (found, rest) = word(words)?;
    match unit_of(found) {
        Some(number) => Ok((number, rest)),
        None => Err(Bad::Line),
    }
}

fn next_number(count: usize, word: &[u8]) -> Option<u32>
    ensures { result ≡ next_number count word.now }
{
    match unit_of(word) {
        Some(number) => {
            if number == 0 {
                None
            } else if (number - 1) as usize == count {
                Some(number)
            } else {
                None
            }
        }
        None => None,
    }
}

/// The number after so many.
pub(crate) fn number(words: Words, count: usize) -> Result<(u32, Words), Bad>
    ensures { Reads (form_at (next_number count)) words.entry result }
{
    let (found, rest) = word(words)?;
    match next_number(count, found) {
        Some(number) => Ok((number, rest)),
        None => Err(Bad::Line),
    }
}

/// A number below 256.
pub(crate) fn part(words: Words) -> Result<(u8, Words), Bad>
    ensures { Reads (form_at part_of) words.entry result }
{
    let (found, rest) = word(words)?;
    match part_of(found) {
        Some(number) => Ok((number, rest)),
        None => Err(Bad::Line),
    }
}

/// A number below 2^64.
pub(crate) fn hyper(words: Words) -> Result<(u64, Words), Bad>
    ensures { Reads (form_at decimal_of) words.entry result }
{
    let (found, rest) = word(words)?;
    match decimal(found) {
        Some(number) => Ok((number, rest)),
        None => Err(Bad::Line),
    }
}

/// A mode.
pub(crate) fn mode(words: Words) -> Result<(u16, Words), Bad>
    ensures { Reads (form_at octal_of) words.entry result }
{
    let (found, rest) = word(words)?;
    match octal_of(found) {
        Some(mode) => Ok((mode, rest)),
        None => Err(Bad::Line),
    }
}

/// The places of a call.
pub(crate) fn places_in(alloc: Global, words: Words) -> Result<(Seq<u32>, Words), Bad>
    ensures { Reads (form_at places_of) words.entry result }
{
    let (found, rest) = word(words)?;
    let places = places(alloc, found)?;
    Ok((places, rest))
}

/// The counters of a row.
pub(crate) fn counters_in(alloc: Global, words: Words) -> Result<(Seq<u32>, Words), Bad>
    ensures { Reads (form_at counters_of) words.entry result }
{
    let (found, rest) = word(words)?;
    let counters = counters(alloc, found)?;
    Ok((counters, rest))
}

/// A name.
pub(crate) fn name(alloc: Global, words: Words) -> Result<(Seq<u8>, Words), Bad>
    ensures { Reads (form_at name_at) words.entry result }
{
    let (found, rest) = word(words)?;
    if !is_name(found) {
        return Err(Bad::Line);
    }
    let name = Seq::from_bytes(alloc, found)?;
    Ok((name, rest))
}

/// A cell.
pub(crate) fn cell(words: Words) -> Result<(Cell, Words), Bad>
    ensures { Reads (form_at cell_of) words.entry result }
{
    let (found, rest) = word(words)?;
    match cell_of(found) {
        Some(cell) => Ok((cell, rest)),
        None => Err(Bad::Line),
    }
}

/// Whether a copy was there.
pub(crate) fn presence(words: Words) -> Result<(bool, Words), Bad>
    ensures { Reads (form_at presence_of) words.entry result }
{
    let (found, rest) = word(words)?;
    match presence_of(found) {
        Some(present) => Ok((present, rest)),
        None => Err(Bad::Line),
    }
}

/// Why a cell was skipped.
pub(crate) fn cause(words: Words) -> Result<(SkipCause, Words), Bad>
    ensures { Reads (form_at cause_of) words.entry result }
{
    let (found, rest) = word(words)?;
    match cause_of(found) {
        Some(cause) => Ok((cause, rest)),
        None => Err(Bad::Line),
    }
}
