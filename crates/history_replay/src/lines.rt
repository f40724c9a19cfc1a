//! The lines of the script that a report's calls are.
ghost use Rattle.std.specs.Prelude.{◌≡◌, true, length, take, drop, map, IfOk};
ghost use Rattle.history_replay.specs.Reports.{IsCallOf, AreCallsOf, AreInPhases, AreTheseLines, of_session, submission_of};

use crate::lookups::behind;
use crate::same::{same_bytes, same_line};
use report_text::ReportCall;
use script_lang::{CallLine, Phase, Script};
use std::alloc::{AllocError, Global};
use std::marker::Model;
use submitted_calls::Submitted;

/// The line of a call.
#[derive(Drop)]
pub(crate) struct Named<'a> {
    pub line: &'a CallLine,
}

impl<'a> Model for Named<'a> {
    ghost use Rattle.script_lang.specs.declared.scripts.CallLine.{CallLine as Line};

    ghost Value = { Line };

    ghost view = { λ n. n.line.now };
}

/// Whether a call of a report is this line's.
pub(crate) fn is_call_of(script: &Script, number: usize, line: &CallLine, call: &ReportCall) -> bool
    ensures { result ≡ true → IsCallOf script.now number line.now call.now }
{
    if call.call as usize != number || call.line != line.line {
        return false;
    }
    match script.sessions.as_slice().get(line.session as usize) {
        Some(name) => same_bytes(name.as_slice(), call.session.as_slice()),
        None => false,
    }
}

#[tactic(auto, using(crate::proofs::Lining::calls_next, crate::proofs::Lining::calls_all))]
fn are_calls_of(script: &Script, lines: &[Named], calls: &[ReportCall]) -> bool
    ensures { result ≡ true → AreCallsOf script.now 1 lines.now calls.now }
{
    if lines.len() != calls.len() {
        return false;
    }
    for at in 0..lines.len() {
        let named = &lines[at];
        if !is_call_of(script, at + 1, named.line, &calls[at]) {
            return false;
        }
    }
    true
}

// The lines of a session.
#[tactic(auto, using(crate::proofs::Lining::session_kept, crate::proofs::Lining::session_skipped))]
fn named_of<'a>(
    alloc: Global,
    lines: &[Named<'a>],
    session: u8,
) -> Result<Vec<Named<'a>>, AllocError>
    ensures { IfOk result (λ v. v.items ≡ of_session session lines.now) }
{
    let mut found = Vec::new(alloc);
    for named in lines {
        if named.line.session == session {
            found.push(Named { line: named.line })?;
        }
    }
    Ok(found)
}

// The calls of a session.
#[tactic(auto, using(crate::proofs::Lining::session_kept, crate::proofs::Lining::session_skipped))]
fn calls_of<'a>(
    alloc: Global,
    calls: &'a [CallLine],
    session: u8,
) -> Result<Vec<Named<'a>>, AllocError>
    ensures { IfOk result (λ v. v.items ≡ of_session session calls.now) }
{
    let mut found = Vec::new(alloc);
    for line in calls {
        if line.session == session {
            found.push(Named { line })?;
        }
    }
    Ok(found)
}

// Whether two lists of lines are the same.
fn same_lines(one: &[Named], other: &[Named]) -> bool
    ensures { result ≡ true → one.now ≡ other.now }
{
    if one.len() != other.len() {
        return false;
    }
    for at in 0..one.len() {
        let (first, second) = (&one[at], &other[at]);
        if !same_line(first.line, second.line) {
            return false;
        }
    }
    true
}

// Whether the calls of a session are those of the phase, in their order.
fn is_same_session(
    alloc: Global,
    lines: &[Named],
    phase: &[CallLine],
    session: u8,
) -> Result<bool, AllocError>
    ensures { IfOk result (λ same. same ≡ true → of_session session lines.now ≡ of_session session phase.now) }
{
    let one = named_of(alloc, lines, session)?;
    let other = calls_of(alloc, phase, session)?;
    let same = same_lines(one.as_slice(), other.as_slice());
    drop(one);
    drop(other);
    Ok(same)
}

// Whether the calls of each session are those of the phase, in their order.
fn are_lines(alloc: Global, lines: &[Named], phase: &[CallLine]) -> Result<bool, AllocError>
    ensures { IfOk result (λ same. same ≡ true → AreTheseLines lines.now phase.now) }
{
    for session in 0..256usize {
        if !is_same_session(alloc, lines, phase, session as u8)? {
            return Ok(false);
        }
    }
    Ok(true)
}

// The first lines, so many of them.
fn first_lines<'b, 'a>(lines: &'b [Named<'a>], count: usize) -> &'b [Named<'a>]
    ensures { result.now ≡ take count lines.now }
{
    if count <= lines.len() {
        &lines[..count]
    } else {
        lines
    }
}

// The lines behind those of a phase.
fn behind_phase<'b, 'a>(lines: &'b [Named<'a>], phase: &Phase) -> &'b [Named<'a>]
    ensures { result.now ≡ drop (length phase.now.calls) lines.now }
{
    behind(lines, phase.calls.len())
}

// Whether the first lines are those of a phase.
#[tactic(auto, using(crate::proofs::Lining::begins))]
fn begin_with(alloc: Global, lines: &[Named], phase: &Phase) -> Result<bool, AllocError>
    ensures { IfOk result (λ same. same ≡ true → AreTheseLines (take (length phase.now.calls) lines.now) phase.now.calls) }
{
    let first = first_lines(lines, phase.calls.len());
    Ok(are_lines(alloc, first, phase.calls.as_slice())?)
}

// Whether lines are those of the phases, one phase after another.
#[tactic(auto, using(crate::proofs::Lining::phases_next, crate::proofs::Lining::phases_all))]
fn are_in_phases(alloc: Global, lines: &[Named], phases: &[Phase]) -> Result<bool, AllocError>
    ensures { IfOk result (λ same. same ≡ true → AreInPhases lines.now phases.now) }
{
    let mut rest = lines;
    for phase in phases {
        if !begin_with(alloc, rest, phase)? {
            return Ok(false);
        }
        rest = behind_phase(rest, phase);
    }
    Ok(rest.is_empty())
}

/// Whether these are the lines of calls.
///
/// # Errors
/// Out of memory.
pub(crate) fn are_the_lines(
    alloc: Global,
    script: &Script,
    calls: &[ReportCall],
    lines: &[Named],
) -> Result<bool, AllocError>
    ensures calls { IfOk result (λ same. same ≡ true → AreCallsOf script.now 1 lines.now calls.now) }
    ensures phases { IfOk result (λ same. same ≡ true → AreInPhases lines.now script.now.phases) }
{
    if !are_calls_of(script, lines, calls) {
        return Ok(false);
    }
    Ok(are_in_phases(alloc, lines, script.phases.as_slice())?)
}

/// The calls of lines.
///
/// # Errors
/// Out of memory.
pub(crate) fn submissions<'a>(
    alloc: Global,
    lines: &[Named<'a>],
) -> Result<Vec<Submitted<'a>>, AllocError>
    ensures { IfOk result (λ v. v.items ≡ map submission_of lines.now) }
{
    let mut calls = Vec::new(alloc);
    for named in lines {
        let line = named.line;
        calls.push(Submitted {
            session: line.session,
            call: &line.call,
        })?;
    }
    Ok(calls)
}
