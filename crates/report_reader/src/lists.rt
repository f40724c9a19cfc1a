//! Lists up to the end of a line.
ghost use Rattle.std.specs.Prelude.{◌≡◌, ◌++◌, ◌∷◌, [], OnOk};
ghost use Rattle.report_reader.specs.code.Readers.{IsForm, ReadsAll, each_word};
ghost use Rattle.report_reader.specs.code.Forms.{failed_of, item_of, lost_of};

use crate::bad::Bad;
use crate::cells::behind;
use crate::forms::{is_item_name, kind_of};
use crate::numbers::unit_of;
use crate::words::{Words, next};
use fop_types::{Kind, Seq};
use std::alloc::{AllocError, Global};
use volfile::{is_name, len_to};
use xl_base::decimal;

/// Adds an item to a list.
pub(crate) fn push<T: Drop>(list: &mut Seq<T>, item: T) -> Result<(), AllocError>
    ensures { OnOk result (list.new ≡ list.old ++ item ∷ []) }
{
    list.push(item)?;
    Ok(())
}

// NAME/KIND: an item of a list.
fn item(alloc: Global, word: &[u8]) -> Result<(Seq<u8>, Kind), Bad>
    ensures { IsForm result (item_of word.now) }
{
    let end = len_to(b'/', word);
    let Some(kind) = kind_of(behind(word, end)) else {
        return Err(Bad::Line);
    };
    let name = &word[..end];
    if !is_item_name(name) {
        return Err(Bad::Line);
    }
    let name = Seq::from_bytes(alloc, name)?;
    Ok((name, kind))
}

/// BRICK:PLACE: a brick's name with a number below 2^64.
pub(crate) fn failed(alloc: Global, word: &[u8]) -> Result<(Seq<u8>, u64), Bad>
    ensures { IsForm result (failed_of word.now) }
{
    let end = len_to(b':', word);
    let Some(number) = decimal(behind(word, end)) else {
        return Err(Bad::Line);
    };
    let name = &word[..end];
    if !is_name(name) {
        return Err(Bad::Line);
    }
    let name = Seq::from_bytes(alloc, name)?;
    Ok((name, number))
}

// BRICK:CONN: a brick's name with a number below 2^32.
fn lost_one(alloc: Global, word: &[u8]) -> Result<(Seq<u8>, u32), Bad>
    ensures { IsForm result (lost_of word.now) }
{
    let end = len_to(b':', word);
    let Some(number) = unit_of(behind(word, end)) else {
        return Err(Bad::Line);
    };
    let name = &word[..end];
    if !is_name(name) {
        return Err(Bad::Line);
    }
    let name = Seq::from_bytes(alloc, name)?;
    Ok((name, number))
}

/// The items of a list.
#[tactic(auto, using(crate::proofs::Loops::each_start, crate::proofs::Loops::each_step, crate::proofs::Loops::each_none, crate::proofs::Loops::each_end))]
pub(crate) fn items(alloc: Global, words: Words) -> Result<Seq<(Seq<u8>, Kind)>, Bad>
    ensures { ReadsAll (each_word item_of) words.entry result }
{
    let mut all = Seq::new(alloc);
    let mut rest = words;
    while let Some((word, behind)) = next(rest) {
        let one = item(alloc, word)?;
        push(&mut all, one)?;
        rest = behind;
    }
    Ok(all)
}

/// Bricks that are out.
#[tactic(auto, using(crate::proofs::Loops::each_start, crate::proofs::Loops::each_step, crate::proofs::Loops::each_none, crate::proofs::Loops::each_end))]
pub(crate) fn lost(alloc: Global, words: Words) -> Result<Seq<(Seq<u8>, u32)>, Bad>
    ensures { ReadsAll (each_word lost_of) words.entry result }
{
    let mut all = Seq::new(alloc);
    let mut rest = words;
    while let Some((word, behind)) = next(rest) {
        let one = lost_one(alloc, word)?;
        push(&mut all, one)?;
        rest = behind;
    }
    Ok(all)
}
