//! I/O errors.
ghost use Rattle.std.specs.Prelude.{[]};
ghost use Rattle.report_reader.specs.code.Readers.{Gives, Reads, ReadsAll, left};
ghost use Rattle.report_reader.specs.code.AnswerForms.{counts_at, failures_of, fault_of, input_output_by, input_output_of, losses_of, quorum_of, row_at, rows_of, split_of};

use crate::bad::Bad;
use crate::fields::{cell, counters_in, hyper, name, presence, unit};
use crate::lists::{failed, lost, push};
use crate::words::{Words, expect, next, word};
use fop_types::{Cell, Seq};
use report_text::{ReportIo, ReportRow};
use std::alloc::Global;
use volfile::is_same;

/// quorum SET lost BRICK:CONN ..
pub(crate) fn quorum(alloc: Global, words: Words) -> Result<ReportIo, Bad>
    ensures { ReadsAll quorum_of words.entry result }
{
    let words = expect(words, b"quorum")?;
    let (set, words) = name(alloc, words)?;
    let words = expect(words, b"lost")?;
    let lost = lost(alloc, words)?;
    Ok(ReportIo::Quorum { set, lost })
}

// PRESENT DIRTY PENDING LAST of a cell on a brick.
fn counts(
    alloc: Global,
    cell: Cell,
    brick: Seq<u8>,
    words: Words,
) -> Result<(ReportRow, Words), Bad>
    ensures { Reads (counts_at cell brick) words.entry result }
{
    let (present, words) = presence(words)?;
    let (dirty, words) = unit(words)?;
    let (pending, words) = counters_in(alloc, words)?;
    let (last, words) = hyper(words)?;
    Ok((
        ReportRow {
            cell,
            brick,
            present,
            dirty,
            pending,
            last,
        },
        words,
    ))
}

// row CELL BRICK PRESENT DIRTY PENDING LAST
fn row(alloc: Global, words: Words) -> Result<(ReportRow, Words), Bad>
    ensures { Reads row_at words.entry result }
{
    let words = expect(words, b"row")?;
    let (cell, words) = cell(words)?;
    let (brick, words) = name(alloc, words)?;
    let (row, words) = counts(alloc, cell, brick, words)?;
    Ok((row, words))
}

#[tactic(auto, using(crate::proofs::FaultLaws::rows_start, crate::proofs::FaultLaws::rows_step, crate::proofs::FaultLaws::rows_none, crate::proofs::FaultLaws::rows_end, crate::proofs::FaultLaws::row_shorter))]
fn rows(alloc: Global, words: Words) -> Result<Seq<ReportRow>, Bad>
    ensures { ReadsAll rows_of words.entry result }
{
    let mut all = Seq::new(alloc);
    let mut rest = words;
    while let Some((first, _)) = next(rest) {
        let (one, behind) = row(alloc, rest)?;
        push(&mut all, one)?;
        rest = behind;
    }
    Ok(all)
}

fn split(alloc: Global, words: Words) -> Result<ReportIo, Bad>
    ensures { ReadsAll split_of words.entry result }
{
    let (set, words) = name(alloc, words)?;
    let rows = rows(alloc, words)?;
    Ok(ReportIo::Split { set, rows })
}

// The faults of bricks, and the bricks that are out.
#[derive(Drop)]
struct BrickFailures {
    faults: Seq<(Seq<u8>, u64)>,
    lost: Seq<(Seq<u8>, u32)>,
}

// The bricks behind `lost`: one or more.
fn losses(alloc: Global, words: Words) -> Result<Seq<(Seq<u8>, u32)>, Bad>
    ensures { Gives (λ lost. ([], lost)) result (losses_of (left words.entry)) }
{
    let Some(_) = next(words) else {
        return Err(Bad::Line);
    };
    let lost = lost(alloc, words)?;
    Ok(lost)
}

#[tactic(auto, using(crate::proofs::Loops::fault_start, crate::proofs::Loops::fault_next, crate::proofs::Loops::fault_none, crate::proofs::Loops::fault_lost, crate::proofs::Loops::fault_lost_none, crate::proofs::Loops::fault_end))]
fn failures(alloc: Global, words: Words) -> Result<BrickFailures, Bad>
    ensures { Gives (λ x. (x.faults, x.lost)) result (failures_of (left words.entry)) }
{
    let mut faults = Seq::new(alloc);
    let mut rest = words;
    while let Some((word, behind)) = next(rest) {
        if is_same(word, b"lost") {
            let lost = losses(alloc, behind)?;
            return Ok(BrickFailures { faults, lost });
        }
        let one = failed(alloc, word)?;
        push(&mut faults, one)?;
        rest = behind;
    }
    Ok(BrickFailures {
        faults,
        lost: Seq::new(alloc),
    })
}

fn fault(alloc: Global, words: Words) -> Result<ReportIo, Bad>
    ensures { ReadsAll fault_of words.entry result }
{
    let (set, words) = name(alloc, words)?;
    let words = expect(words, b"fault")?;
    let all = failures(alloc, words)?;
    Ok(ReportIo::Fault {
        set,
        faults: all.faults,
        lost: all.lost,
    })
}

fn input_output_by(alloc: Global, kind: &[u8], words: Words) -> Result<ReportIo, Bad>
    ensures { ReadsAll (input_output_by kind.now) words.entry result }
{
    if is_same(kind, b"split") {
        return split(alloc, words);
    }
    if is_same(kind, b"fault") {
        return fault(alloc, words);
    }
    Err(Bad::Line)
}

/// What follows `error 5 EIO`: split brain, or faults.
pub(crate) fn input_output(alloc: Global, words: Words) -> Result<ReportIo, Bad>
    ensures { ReadsAll input_output_of words.entry result }
{
    let (kind, words) = word(words)?;
    input_output_by(alloc, kind, words)
}
