//! The report of a log.
ghost use Rattle.std.specs.Prelude.{◌≡◌, ◌≤◌, ◌<◌, ◌+◌, length, map, slice_get, option_copied, IfOk};
ghost use Rattle.run_report.specs.Reports.{shown_item, shown_list, shown_answer, shown_call, shown_calls, reply_to, shown_entry, shown_heal, report_of as report_of_log, AreFewWinds};
ghost use Rattle.mount_log.specs.Graphs.{volfiles_of as volfiles_in};
ghost use Rattle.run_report.specs.Numbers.{AreByNumber, noted};

use crate::errors::report_io;
use crate::graph_lines::{graph_lines, volfiles_of};
use crate::names::Names;
use fop_types::{Answer, Cell, CopyRecord, Entry, Item, Kind, Seq, SkipCause};
use graph_build::Plan;
use mount_log::{Log, ReplyLine};
use report_text::{Report, ReportAnswer, ReportCall};
use script_lang::Script;
use std::alloc::{AllocError, Global};

fn items(alloc: Global, items: &[Item]) -> Result<Seq<(Seq<u8>, Kind)>, AllocError>
    ensures { IfOk result (λ list. list ≡ map shown_item items.now) }
{
    let mut shown = Seq::new(alloc);
    for item in items {
        let name = item.name.copy(alloc)?;
        shown.push((name, item.kind))?;
    }
    Ok(shown)
}

fn list(items: Seq<(Seq<u8>, Kind)>) -> ReportAnswer
    ensures { result ≡ shown_list items }
{
    if items.is_empty() {
        ReportAnswer::Count(0)
    } else {
        ReportAnswer::List(items)
    }
}

fn answer(alloc: Global, names: &Names, answer: &Answer) -> Result<ReportAnswer, AllocError>
    ensures { IfOk result (λ shown. shown ≡ shown_answer names.now answer.now) }
{
    match answer {
        Answer::Done => Ok(ReportAnswer::Done),
        Answer::Count(count) => Ok(ReportAnswer::Count(*count)),
        Answer::Bytes(bytes) => Ok(ReportAnswer::Bytes(bytes.copy(alloc)?)),
        Answer::Stat { kind, mode, size } => Ok(ReportAnswer::Stat {
            kind: *kind,
            mode: *mode,
            size: *size,
        }),
        Answer::List(listed) => {
            let shown = items(alloc, listed.as_slice())?;
            Ok(list(shown))
        }
        Answer::App(error) => Ok(ReportAnswer::App(*error)),
        Answer::Io(error) => Ok(ReportAnswer::Io(report_io(alloc, names, error)?)),
    }
}

fn call(alloc: Global, names: &Names, reply: &ReplyLine) -> Result<ReportCall, AllocError>
    ensures { IfOk result (λ shown. shown ≡ shown_call names.now reply.now) }
{
    let session = names.session(alloc, reply.session)?;
    let places = reply.places.copy(alloc)?;
    let answer = answer(alloc, names, &reply.answer)?;
    Ok(ReportCall {
        call: reply.call,
        session,
        line: reply.line,
        places,
        answer,
    })
}

// Where the first reply to each of so many calls is in the log, by the calls' numbers, from 1.
fn by_number(alloc: Global, replies: &[ReplyLine]) -> Result<Vec<Option<usize>>, AllocError>
    ensures { IfOk result (λ places. AreByNumber (length replies.now) replies.now places.items) }
{
    let mut places = Vec::with_capacity(alloc, replies.len())?;
    for _ in replies {
        places.push(None)?;
    }
    for at in 0..replies.len() {
        note(&mut places, replies[at].call, at);
    }
    Ok(places)
}

// A reply's place is noted, if it is the first to its call.
fn note(places: &mut Vec<Option<usize>>, call: u32, at: usize)
    ensures { places.new.items ≡ noted places.old.items call at }
{
    if call == 0 {
        return;
    }
    let index = call as usize - 1;
    if index >= places.len() {
        return;
    }
    match places[index] {
        Some(_) => {}
        None => places[index] = Some(at),
    }
}

fn reply_at(replies: &[ReplyLine], at: usize) -> Option<&ReplyLine>
    ensures { option_copied result ≡ slice_get replies.now at }
{
    replies.get(at)
}

// The reply at an index, from 0, by the numbers of the calls.
fn nth_reply<'a>(
    replies: &'a [ReplyLine],
    places: &[Option<usize>],
    index: usize,
) -> Option<&'a ReplyLine>
    requires places { AreByNumber (length replies.now) replies.now places.now }
    requires within { index < length places.now }
    ensures { option_copied result ≡ reply_to (index + 1) replies.now }
{
    match places[index] {
        Some(at) => reply_at(replies, at),
        None => None,
    }
}

// The calls by rising number.
fn calls(alloc: Global, names: &Names, replies: &[ReplyLine]) -> Result<Seq<ReportCall>, AllocError>
    ensures { IfOk result (λ calls. calls ≡ shown_calls names.now replies.now) }
{
    let places = by_number(alloc, replies)?;
    let mut shown = Seq::new(alloc);
    for index in 0..places.len() {
        let Some(reply) = nth_reply(replies, places.as_slice(), index) else {
            continue;
        };
        let one = call(alloc, names, reply)?;
        shown.push(one)?;
    }
    Ok(shown)
}

fn history(alloc: Global, entries: &[Entry]) -> Result<Seq<(u32, u8)>, AllocError>
    ensures { IfOk result (λ list. list ≡ map shown_entry entries.now) }
{
    let mut shown = Seq::new(alloc);
    for entry in entries {
        shown.push((entry.call, entry.part))?;
    }
    Ok(shown)
}

fn heals(
    alloc: Global,
    names: &Names,
    copies: &[CopyRecord],
) -> Result<Seq<(Cell, Seq<u8>, Seq<u8>)>, AllocError>
    ensures { IfOk result (λ list. list ≡ map (shown_heal names.now) copies.now) }
{
    let mut shown = Seq::new(alloc);
    for copy in copies {
        let source = names.brick(alloc, copy.source)?;
        let sink = names.brick(alloc, copy.sink)?;
        shown.push((copy.cell, source, sink))?;
    }
    Ok(shown)
}

fn skips(alloc: Global, skipped: &[(Cell, SkipCause)]) -> Result<Seq<(Cell, SkipCause)>, AllocError>
    ensures { IfOk result (λ list. list ≡ skipped.now) }
{
    let mut shown = Seq::new(alloc);
    for skip in skipped {
        shown.push(*skip)?;
    }
    Ok(shown)
}

/// The report of the log of a run, with the script's names in place of numbers.
///
/// # Errors
/// Out of memory.
pub fn report_of(
    alloc: Global,
    script: &Script,
    plans: &[Plan],
    log: &Log,
) -> Result<Report, AllocError>
    requires winds { AreFewWinds log.now.winds }
    requires few { length (volfiles_in script.now log.now) ≤ 4294967294 }
    ensures { IfOk result (λ report. report ≡ report_of_log script.now plans.now log.now) }
{
    let volfiles = volfiles_of(alloc, script, log)?;
    let graphs = graph_lines(alloc, script, volfiles.as_slice(), log.winds.as_slice())?;
    let names = Names {
        script,
        plans,
        volfiles,
    };
    let calls = calls(alloc, &names, log.replies.as_slice())?;
    let history = history(alloc, log.history.as_slice())?;
    let heals = heals(alloc, &names, log.copies.as_slice())?;
    let skips = skips(alloc, log.skips.as_slice())?;
    Ok(Report {
        calls,
        history,
        heals,
        skips,
        graphs,
    })
}
