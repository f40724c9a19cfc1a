//! The forms of numbers. Each function gives what a word of its form says, and `None` or `Line` where it has not the form.
ghost use Rattle.std.specs.Prelude.{◌≡◌};
ghost use Rattle.std.specs.List.{list_all};
ghost use Rattle.report_reader.specs.code.Readers.{IsForm};
ghost use Rattle.report_reader.specs.code.Forms.{counters_of, has_octal_form, is_octal, numbers_of, octal_after, octal_of, part_of, places_of, sixteen_bits, unit_of};

use crate::bad::Bad;
use crate::lists::push;
use crate::words::{next, parts};
use fop_types::Seq;
use std::alloc::Global;
use volfile::is_same;
use xl_base::decimal;

/// A number below 2^32.
pub(crate) fn unit_of(word: &[u8]) -> Option<u32>
    ensures { result ≡ unit_of word.now }
{
    match decimal(word) {
        Some(n) => { if n < 4294967296 { Some(n as u32) } else { None } }
        None => None,
    }
}

/// A number below 256.
pub(crate) fn part_of(word: &[u8]) -> Option<u8>
    ensures { result ≡ part_of word.now }
{
    match decimal(word) {
        Some(n) => { if n < 256 { Some(n as u8) } else { None } }
        None => None,
    }
}

/// A number below 65,536 in octal digits, without zeros before it.
pub(crate) fn octal_of(word: &[u8]) -> Option<u16>
    ensures { result ≡ octal_of word.now }
{
    if has_octal_form(word) {
        octal(word)
    } else {
        None
    }
}

fn has_octal_form(word: &[u8]) -> bool
    ensures { result ≡ has_octal_form word.now }
{
    1 <= word.len() && are_octal(word) && (word.len() == 1 || word[0] != b'0')
}

fn are_octal(word: &[u8]) -> bool
    ensures { result ≡ list_all is_octal word.now }
{
    word.iter().all(|b| b'0' <= *b && *b <= b'7')
}

// The number that the digits write, where it is below 65,536.
fn octal(digits: &[u8]) -> Option<u16>
    ensures { result ≡ sixteen_bits (octal_after 0 digits.now) }
{
    let mut value: u32 = 0;
    for digit in digits {
        value = value * 8 + digit.saturating_sub(b'0') as u32;
        if value >= 65536 {
            return None;
        }
    }
    Some(value as u16)
}

/// The numbers of a word, with a comma between each two.
#[tactic(auto, using(crate::proofs::Loops::items_start, crate::proofs::Loops::items_step, crate::proofs::Loops::items_none, crate::proofs::Loops::items_end))]
pub(crate) fn numbers(alloc: Global, word: &[u8]) -> Result<Seq<u32>, Bad>
    ensures { IsForm result (numbers_of word.now) }
{
    let mut all = Seq::new(alloc);
    let mut rest = parts(word, b',');
    while let Some((part, behind)) = next(rest) {
        let Some(number) = unit_of(part) else {
            return Err(Bad::Line);
        };
        push(&mut all, number)?;
        rest = behind;
    }
    Ok(all)
}

/// The places of a call.
pub(crate) fn places(alloc: Global, word: &[u8]) -> Result<Seq<u32>, Bad>
    ensures { IsForm result (places_of word.now) }
{
    if is_same(word, b"-") {
        return Ok(Seq::new(alloc));
    }
    numbers(alloc, word)
}

/// The counters of a row: one to five.
pub(crate) fn counters(alloc: Global, word: &[u8]) -> Result<Seq<u32>, Bad>
    ensures { IsForm result (counters_of word.now) }
{
    let all = numbers(alloc, word)?;
    if all.len() <= 5 {
        Ok(all)
    } else {
        Err(Bad::Line)
    }
}
