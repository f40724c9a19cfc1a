//! The lines of a report, behind their first word.
ghost use Rattle.std.specs.Prelude.{◌≡◌};
ghost use Rattle.report_reader.specs.code.Readers.{Reads, ReadsAll, form_at};
ghost use Rattle.report_reader.specs.code.LineForms.{call_end, call_of, drained_of, entry_of, graph_end, graph_of, heal_of, history_of, skip_of};

use crate::answers::answer;
use crate::bad::Bad;
use crate::fields::{cause, cell, name, number, part, places_in, unit};
use crate::words::{Words, end, expect, word};
use fop_types::{Cell, Seq, SkipCause};
use report_text::{ReportCall, ReportGraph};
use std::alloc::Global;
use volfile::is_same;

// places P ANSWER
fn call_end(
    alloc: Global,
    number: u32,
    session: Seq<u8>,
    line: u32,
    words: Words,
) -> Result<ReportCall, Bad>
    ensures { ReadsAll (call_end number session line) words.entry result }
{
    let words = expect(words, b"places")?;
    let (places, words) = places_in(alloc, words)?;
    let answer = answer(alloc, words)?;
    Ok(ReportCall {
        call: number,
        session,
        line,
        places,
        answer,
    })
}

/// C session NAME line L places P ANSWER
pub(crate) fn call(alloc: Global, count: usize, words: Words) -> Result<ReportCall, Bad>
    ensures { ReadsAll (call_of count) words.entry result }
{
    let (number, words) = number(words, count)?;
    let words = expect(words, b"session")?;
    let (session, words) = name(alloc, words)?;
    let words = expect(words, b"line")?;
    let (line, words) = unit(words)?;
    call_end(alloc, number, session, line, words)
}

/// N
pub(crate) fn history(words: Words) -> Result<u32, Bad>
    ensures { ReadsAll history_of words.entry result }
{
    let (count, words) = unit(words)?;
    end(words)?;
    Ok(count)
}

/// I call C part K
pub(crate) fn entry(count: usize, words: Words) -> Result<(u32, u8), Bad>
    ensures { ReadsAll (entry_of count) words.entry result }
{
    let (_, words) = number(words, count)?;
    let words = expect(words, b"call")?;
    let (call, words) = unit(words)?;
    let words = expect(words, b"part")?;
    let (part, words) = part(words)?;
    end(words)?;
    Ok((call, part))
}

/// CELL from BRICK to BRICK
pub(crate) fn heal(alloc: Global, words: Words) -> Result<(Cell, Seq<u8>, Seq<u8>), Bad>
    ensures { ReadsAll heal_of words.entry result }
{
    let (cell, words) = cell(words)?;
    let words = expect(words, b"from")?;
    let (source, words) = name(alloc, words)?;
    let words = expect(words, b"to")?;
    let (sink, words) = name(alloc, words)?;
    end(words)?;
    Ok((cell, source, sink))
}

/// CELL majority|unsettled|split
pub(crate) fn skip(words: Words) -> Result<(Cell, SkipCause), Bad>
    ensures { ReadsAll skip_of words.entry result }
{
    let (cell, words) = cell(words)?;
    let (cause, words) = cause(words)?;
    end(words)?;
    Ok((cell, cause))
}

fn drained_of(opened: u32, closed: u32, word: &[u8]) -> Option<bool>
    ensures { result ≡ drained_of opened closed word.now }
{
    if opened == closed {
        if is_same(word, b"drained") {
            Some(true)
        } else {
            None
        }
    } else if is_same(word, b"open") {
        Some(false)
    } else {
        None
    }
}

fn drained(words: Words, opened: u32, closed: u32) -> Result<(bool, Words), Bad>
    ensures { Reads (form_at (drained_of opened closed)) words.entry result }
{
    let (found, rest) = word(words)?;
    match drained_of(opened, closed, found) {
        Some(drained) => Ok((drained, rest)),
        None => Err(Bad::Line),
    }
}

// ended B drained|open
fn graph_end(graph: u32, name: Seq<u8>, opened: u32, words: Words) -> Result<ReportGraph, Bad>
    ensures { ReadsAll (graph_end graph name opened) words.entry result }
{
    let words = expect(words, b"ended")?;
    let (ended, words) = unit(words)?;
    let (_, words) = drained(words, opened, ended)?;
    end(words)?;
    Ok(ReportGraph {
        graph,
        name,
        opened,
        ended,
    })
}

/// G NAME winds A ended B drained|open
pub(crate) fn graph(alloc: Global, count: usize, words: Words) -> Result<ReportGraph, Bad>
    ensures { ReadsAll (graph_of count) words.entry result }
{
    let (number, words) = number(words, count)?;
    let (name, words) = name(alloc, words)?;
    let words = expect(words, b"winds")?;
    let (opened, words) = unit(words)?;
    graph_end(number, name, opened, words)
}
