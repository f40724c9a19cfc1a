//! The report so far, and what each line does to it.
ghost use Rattle.std.specs.Prelude.{◌≡◌};
ghost use Rattle.report_reader.specs.code.Readers.{Gives, left};
ghost use Rattle.report_reader.specs.code.LineForms.{call_read, call_read_by, entries_left, entry_read, head_read, heal_read, late_read, late_read_by, line_read, may_heal, may_skip, nothing_read, report_of, skip_read, text_ended_by, words_read};

use crate::bad::{Bad, ReportError};
use crate::lines::{call, entry, graph, heal, history, skip};
use crate::lists::push;
use crate::words::{Words, end, expect, parts, word};
use fop_types::{Cell, Seq, SkipCause};
use report_text::{Report, ReportCall, ReportGraph};
use std::alloc::Global;
use volfile::is_same;

/// What may come next: the first line; calls, or the history; so many entries; copies, skips, graphs, each with what may
/// come after them; or nothing.
#[derive(Clone, Copy)]
pub(crate) enum Part {
    Head,
    Calls,
    Entries(u32),
    Heals,
    Skips,
    Graphs,
    Done,
}

/// The report so far. After an `Err` nothing is known of it.
#[derive(Drop)]
pub(crate) struct Draft {
    part: Part,
    calls: Seq<ReportCall>,
    history: Seq<(u32, u8)>,
    heals: Seq<(Cell, Seq<u8>, Seq<u8>)>,
    skips: Seq<(Cell, SkipCause)>,
    graphs: Seq<ReportGraph>,
}

fn entries_left(count: u32) -> Part
    ensures { result ≡ entries_left count }
{
    if count == 0 {
        Part::Heals
    } else {
        Part::Entries(count)
    }
}

fn may_heal(part: Part) -> bool
    ensures { result ≡ may_heal part }
{
    match part {
        Part::Heals => true,
        _ => false,
    }
}

fn may_skip(part: Part) -> bool
    ensures { result ≡ may_skip part }
{
    match part {
        Part::Heals => true,
        Part::Skips => true,
        _ => false,
    }
}

impl Draft {
    pub(crate) fn new(alloc: Global) -> Draft
        ensures { result ≡ nothing_read }
    {
        Draft {
            part: Part::Head,
            calls: Seq::new(alloc),
            history: Seq::new(alloc),
            heals: Seq::new(alloc),
            skips: Seq::new(alloc),
            graphs: Seq::new(alloc),
        }
    }

    fn head(&mut self, words: Words) -> Result<(), Bad>
        ensures { Gives (λ _. self.new) result (head_read self.old (left words.entry)) }
    {
        let words = expect(words, b"report")?;
        let words = expect(words, b"1")?;
        end(words)?;
        self.part = Part::Calls;
        Ok(())
    }

    fn call_by(&mut self, alloc: Global, first: &[u8], words: Words) -> Result<(), Bad>
        ensures { Gives (λ _. self.new) result (call_read_by self.old first.now (left words.entry)) }
    {
        if is_same(first, b"call") {
            let one = call(alloc, self.calls.len(), words)?;
            push(&mut self.calls, one)?;
            return Ok(());
        }
        if is_same(first, b"history") {
            let count = history(words)?;
            self.part = entries_left(count);
            return Ok(());
        }
        Err(Bad::Line)
    }

    fn call(&mut self, alloc: Global, words: Words) -> Result<(), Bad>
        ensures { Gives (λ _. self.new) result (call_read self.old (left words.entry)) }
    {
        let (first, words) = word(words)?;
        self.call_by(alloc, first, words)?;
        Ok(())
    }

    // One of the `count` entries that are still to come.
    fn entry(&mut self, count: u32, words: Words) -> Result<(), Bad>
        ensures { Gives (λ _. self.new) result (entry_read self.old count (left words.entry)) }
    {
        let words = expect(words, b"entry")?;
        let one = entry(self.history.len(), words)?;
        push(&mut self.history, one)?;
        self.part = entries_left(count.saturating_sub(1));
        Ok(())
    }

    // A line behind the history. No line of an earlier part comes after one of a later.
    fn late_by(&mut self, alloc: Global, first: &[u8], words: Words) -> Result<(), Bad>
        ensures { Gives (λ _. self.new) result (late_read_by self.old first.now (left words.entry)) }
    {
        if is_same(first, b"heal") {
            return self.heal(alloc, words);
        }
        if is_same(first, b"skip") {
            return self.skip(words);
        }
        if is_same(first, b"graph") {
            let one = graph(alloc, self.graphs.len(), words)?;
            push(&mut self.graphs, one)?;
            self.part = Part::Graphs;
            return Ok(());
        }
        if is_same(first, b"end") {
            end(words)?;
            self.part = Part::Done;
            return Ok(());
        }
        Err(Bad::Line)
    }

    fn heal(&mut self, alloc: Global, words: Words) -> Result<(), Bad>
        ensures { Gives (λ _. self.new) result (heal_read self.old (left words.entry)) }
    {
        if !may_heal(self.part) {
            return Err(Bad::Line);
        }
        let one = heal(alloc, words)?;
        push(&mut self.heals, one)?;
        Ok(())
    }

    fn skip(&mut self, words: Words) -> Result<(), Bad>
        ensures { Gives (λ _. self.new) result (skip_read self.old (left words.entry)) }
    {
        if !may_skip(self.part) {
            return Err(Bad::Line);
        }
        let one = skip(words)?;
        push(&mut self.skips, one)?;
        self.part = Part::Skips;
        Ok(())
    }

    fn late(&mut self, alloc: Global, words: Words) -> Result<(), Bad>
        ensures { Gives (λ _. self.new) result (late_read self.old (left words.entry)) }
    {
        let (first, words) = word(words)?;
        self.late_by(alloc, first, words)?;
        Ok(())
    }

    fn words(&mut self, alloc: Global, words: Words) -> Result<(), Bad>
        ensures { Gives (λ _. self.new) result (words_read self.old (left words.entry)) }
    {
        match self.part {
            Part::Head => self.head(words),
            Part::Calls => self.call(alloc, words),
            Part::Entries(count) => self.entry(count, words),
            Part::Heals => self.late(alloc, words),
            Part::Skips => self.late(alloc, words),
            Part::Graphs => self.late(alloc, words),
            Part::Done => Err(Bad::Line),
        }
    }

    /// Reads a line, given without its line feed.
    #[tactic(auto, unfolding(crate::specs::code::LineForms::line_read))]
    pub(crate) fn line(&mut self, alloc: Global, line: &[u8]) -> Result<(), Bad>
        ensures { Gives (λ _. self.new) result (line_read self.old line.now) }
    {
        let words = parts(line, b' ');
        self.words(alloc, words)
    }

    /// The report, where the text ends at the line with this number.
    pub(crate) fn end(self, number: u32) -> Result<Report, ReportError>
        ensures { result ≡ text_ended_by self.part self number }
    {
        match self.part {
            Part::Done => Ok(self.into_report()),
            _ => Err(ReportError::At { line: number }),
        }
    }

    fn into_report(self) -> Report
        ensures { result ≡ report_of self }
    {
        Report {
            calls: self.calls,
            history: self.history,
            heals: self.heals,
            skips: self.skips,
            graphs: self.graphs,
        }
    }
}
