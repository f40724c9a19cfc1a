//! A script with the report of a run behind it, which is judged.
ghost use Rattle.std.specs.Prelude.{◌≡◌, ◌≤◌, ℕ, ◌++◌, Ok, Err, codes, length, take, IfOk, OnOk, IfErr, IsErrOf};
ghost use Rattle.std.specs.Fmt.{decimal};
ghost use Rattle.report_reader.specs.Readings.{IsRefusedAt};
ghost use Rattle.report_reader.specs.declared.bad.ReportError.TheVariants.{At};
ghost use Rattle.script_commands.specs.Plans.{accepted};
ghost use Rattle.script_commands.specs.Replays.{verdict_text, status_of as status_by, HasNoReport, IsReportAt, IsSaying, IsVerdictOn, IsVerdictOnText};
ghost use Rattle.script_commands.specs.declared.readings.NotRead.TheVariants as not_read;
ghost use Rattle.script_commands.specs.declared.refusals.Refusal.{Refusal};

use crate::plans::{Accepted, accept};
use crate::readings::NotRead;
use crate::refusals::Refusal;
use history_replay::{Verdict, judge};
use report_reader::{ReportError, read};
use report_text::Report;
use script_lang::{Script, ScriptKind};
use std::alloc::{AllocError, Global};
use volfile::{first_line, is_same};

// The bytes of a script, at most.
const SCRIPT_LIMIT: usize = 2097152;

/// What comes of a replay: the line and the status of a verdict; or why there is none: no line of so many is `report 1`, the
/// script is refused, or a line that no report has; or out of memory.
#[derive(Drop)]
pub enum Replayed {
    Says(Vec<u8>, u8),
    NoReport(u32),
    Refused(Refusal),
    BadReport(u32),
    Mem,
}

// Where the report begins: how many lines are before it, and its first byte.
#[derive(Clone, Copy)]
struct Found {
    lines: u32,
    at: usize,
}

// Where the report begins, or how many lines the text has.
fn find_report(text: &[u8]) -> Result<Found, u32>
    requires { length text.now ≤ 4294967295 }
    ensures found { IfOk result (λ found. IsReportAt text.now found.at found.lines) }
    ensures within { IfOk result (λ found. found.at ≤ length text.now) }
    ensures none { IfErr result (λ lines. HasNoReport text.now lines) }
{
    let mut lines: u32 = 0;
    let mut at = 0;
    while at < text.len() {
        let line = first_line(text, at);
        if is_same(line, b"report 1") {
            return Ok(Found { lines, at });
        }
        lines += 1;
        at += line.len() + 1;
    }
    Err(lines)
}

// What the bytes before a report are accepted as.
fn accept_before(alloc: Global, bytes: &[u8]) -> Result<Accepted, NotRead>
    ensures accepted { IfOk result (λ read. accepted bytes.now ≡ Ok read) }
    ensures refused { (refusal : Refusal) → IsErrOf result (not_read.Refused refusal) → accepted bytes.now ≡ Err refusal }
{
    if bytes.len() > SCRIPT_LIMIT {
        return Err(NotRead::Refused(Refusal::OfScript {
            line: 0,
            kind: ScriptKind::TooLong,
        }));
    }
    accept(alloc, bytes)
}

// unlawful WORD N
fn put_unlawful(
    alloc: Global,
    text: &mut Vec<u8>,
    word: &[u8],
    number: u32,
) -> Result<(), AllocError>
    ensures { OnOk result (text.new.items ≡ text.old.items ++ codes "unlawful " ++ word.now ++ decimal number ++ codes "\n") }
{
    text.extend_from_slice(b"unlawful ")?;
    text.extend_from_slice(word)?;
    text.extend_from_slice(number.to_string(alloc)?.as_bytes())?;
    text.extend_from_slice(b"\n")?;
    Ok(())
}

fn put_verdict(alloc: Global, text: &mut Vec<u8>, verdict: Verdict) -> Result<(), AllocError>
    ensures { OnOk result (text.new.items ≡ text.old.items ++ verdict_text verdict) }
{
    match verdict {
        Verdict::Lawful => text.extend_from_slice(b"lawful\n"),
        Verdict::Entry(number) => put_unlawful(alloc, text, b"entry ", number),
        Verdict::Call(number) => put_unlawful(alloc, text, b"call ", number),
    }
}

fn verdict_line(alloc: Global, verdict: Verdict) -> Result<Vec<u8>, AllocError>
    ensures { IfOk result (λ text. text.items ≡ verdict_text verdict) }
{
    let mut text = Vec::new(alloc);
    let done = put_verdict(alloc, &mut text, verdict);
    done.and(Ok(text))
}

fn status_of(verdict: Verdict) -> u8
    ensures { result ≡ status_by verdict }
{
    match verdict {
        Verdict::Lawful => 0,
        _ => 6,
    }
}

// The line and the status of the verdict on a report of a script.
fn judged(alloc: Global, script: &Script, report: &Report) -> Result<(Vec<u8>, u8), AllocError>
    ensures { IfOk result (λ said. IsVerdictOn script.now report.now said.0.items said.1) }
{
    let verdict = judge(alloc, script, report)?;
    let line = verdict_line(alloc, verdict)?;
    Ok((line, status_of(verdict)))
}

// The same of the bytes behind a script.
fn judged_text(alloc: Global, script: &Script, bytes: &[u8]) -> Result<(Vec<u8>, u8), ReportError>
    ensures judged { IfOk result (λ said. IsVerdictOnText script.now bytes.now said.0.items said.1) }
    ensures refused { (line : ℕ) → IsErrOf result (At line) → IsRefusedAt line bytes.now }
{
    match read(alloc, bytes) {
        Ok(report) => {
            let said = judged(alloc, script, &report);
            drop(report);
            match said {
                Ok(said) => Ok(said),
                Err(_) => Err(ReportError::Mem),
            }
        }
        Err(error) => Err(error),
    }
}

// What is said of a text of which the script is accepted.
fn said_of(alloc: Global, read: &Accepted, text: &[u8], found: Found) -> Replayed
    requires few { length text.now ≤ 4294967295 }
    requires report { IsReportAt text.now found.at found.lines }
    requires within { found.at ≤ length text.now }
    requires script { accepted (take found.at text.now) ≡ Ok read.now }
    ensures { IsSaying text.now result }
{
    match judged_text(alloc, &read.script, &text[found.at..]) {
        Ok((line, status)) => Replayed::Says(line, status),
        Err(ReportError::At { line }) => Replayed::BadReport(found.lines + line),
        Err(ReportError::Mem) => Replayed::Mem,
    }
}

/// Judges a text: a script, and behind it the report from the first line on that is `report 1`.
pub fn replay(alloc: Global, text: &[u8]) -> Replayed
    requires { length text.now ≤ 4294967295 }
    ensures { IsSaying text.now result }
{
    let found = match find_report(text) {
        Ok(found) => found,
        Err(lines) => return Replayed::NoReport(lines),
    };
    match accept_before(alloc, &text[..found.at]) {
        Ok(read) => {
            let said = said_of(alloc, &read, text, found);
            drop(read);
            said
        }
        Err(NotRead::Refused(refusal)) => Replayed::Refused(refusal),
        Err(_) => Replayed::Mem,
    }
}
