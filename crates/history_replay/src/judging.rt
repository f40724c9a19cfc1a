//! The verdict on a report.
ghost use Rattle.std.specs.Prelude.{◌≡◌, true, None, length, map, replicate, get_or, slice_set, IfOk, MatchOption};
ghost use Rattle.history_replay.specs.Reports.{AreShown, with_answers, last_or as last_or_of, since_from, entry_shown, Shows, IsAnswerShown, AreAnswersShown, IsReplyShown, IsLawfulFor, IsLawfulReport};
ghost use Rattle.history_replay.specs.code.Shown.{replied, IsLawfulWithReplies, IsLawfulOf};
ghost use Rattle.history_replay.specs.Traces.{IsLawfulTrace};
ghost use Rattle.history_replay.specs.declared.judging.Verdict.TheVariants as verdict;

use crate::assigned::assign;
use crate::filled::filled;
use crate::finding::{Walked, find};
use crate::findings::Findings;
use crate::lawful::is_borne;
use crate::lines::{Named, are_the_lines, submissions};
use crate::reading::number;
use crate::shown::{answer_shown, is_silent, shows_list};
use crate::trace::{Replied, Trace};
use fop_types::{Answer, Call, Entry, Path, Seq};
use report_text::{Report, ReportCall};
use script_lang::{CallLine, Script};
use std::alloc::{AllocError, Global};
use std::mem;
use submitted_calls::Submitted;

/// What a judge says: the report is lawful; or the number of the first entry that is no change of the flat file system; or,
/// where all are, that of the first call that is not answered as it answers.
#[derive(Clone, Copy)]
pub enum Verdict {
    Lawful,
    Entry(u32),
    Call(u32),
}

// The answer that a call shows, `None` where it says nothing of the file system.
fn answer_of(alloc: Global, call: &ReportCall) -> Result<Option<Answer>, AllocError>
    ensures { IfOk result (λ a. IsAnswerShown call.now a) }
{
    if is_silent(call) {
        return Ok(None);
    }
    Ok(Some(answer_shown(alloc, &call.answer)?))
}

#[tactic(auto, using(crate::proofs::Showing::answers_next))]
fn answers_shown(alloc: Global, calls: &[ReportCall]) -> Result<Vec<Option<Answer>>, AllocError>
    ensures { IfOk result (λ v. AreAnswersShown calls.now v.items) }
{
    let mut answers = Vec::new(alloc);
    for call in calls {
        answers.push(answer_of(alloc, call)?)?;
    }
    Ok(answers)
}

// The reply with an answer.
fn reply_of<'a>(call: &'a ReportCall, answer: &'a Option<Answer>) -> Option<Replied<'a>>
    requires { IsAnswerShown call.now answer.now }
    ensures { IsReplyShown call.now result }
{
    match answer {
        None => None,
        Some(answer) => Some(Replied {
            call: call.call,
            places: call.places.as_slice(),
            answer,
        }),
    }
}

// The replies with these answers.
#[tactic(auto, using(crate::proofs::Showing::shown_at, crate::proofs::Showing::replies_next, crate::proofs::Showing::replies_same))]
fn replies_shown<'a>(
    alloc: Global,
    calls: &'a [ReportCall],
    answers: &'a Vec<Option<Answer>>,
) -> Result<Vec<Replied<'a>>, AllocError>
    requires { AreAnswersShown calls.now answers.now.items }
    ensures { IfOk result (λ v. AreShown (with_answers calls.now) v.items) }
{
    let mut replies = Vec::new(alloc);
    for at in 0..calls.len() {
        match reply_of(&calls[at], &answers[at]) {
            None => {}
            Some(reply) => replies.push(reply)?,
        }
    }
    Ok(replies)
}

// Whether a call shows a list, if one was found.
fn shows_found(call: &ReportCall, list: &Option<Answer>) -> bool
    ensures { result ≡ true → MatchOption list.now ⊥ (Shows call.now.answer) }
{
    match list {
        None => false,
        Some(list) => shows_list(&call.answer, list),
    }
}

// Puts a list that was found in the place of the answer of a call that shows it.
fn put_list(call: &ReportCall, answer: &mut Option<Answer>, list: &mut Option<Answer>)
    requires { IsAnswerShown call.now answer.old }
    ensures { IsAnswerShown call.now answer.new }
{
    if answer.is_some() && shows_found(call, list) {
        mem::swap(answer, list);
    }
}

#[tactic(auto, using(crate::proofs::Showing::shown_at, crate::proofs::Showing::shown_set))]
fn fill(
    calls: &[ReportCall],
    answers: &mut Vec<Option<Answer>>,
    at: usize,
    list: &mut Option<Answer>,
)
    requires { AreAnswersShown calls.now answers.old.items }
    ensures { AreAnswersShown calls.now answers.new.items }
{
    if at < calls.len() && at < answers.len() {
        put_list(&calls[at], &mut answers[at], list);
    }
}

fn fill_lists(
    calls: &[ReportCall],
    answers: &mut Vec<Option<Answer>>,
    lists: &mut Vec<Option<Answer>>,
)
    requires { AreAnswersShown calls.now answers.old.items }
    ensures { AreAnswersShown calls.now answers.new.items }
{
    for at in 0..lists.len() {
        if let Some(list) = lists.get_mut(at) {
            fill(calls, answers, at, list);
        }
    }
}

fn history_of(alloc: Global, entries: &[(u32, u8)]) -> Result<Vec<Entry>, AllocError>
    ensures { IfOk result (λ v. v.items ≡ map entry_shown entries.now) }
{
    let mut history = Vec::new(alloc);
    for entry in entries {
        history.push(Entry {
            call: entry.0,
            part: entry.1,
        })?;
    }
    Ok(history)
}

fn last_or(before: u32, places: &[u32]) -> u32
    ensures { result ≡ last_or_of before places.now }
{
    let mut last = before;
    for place in places {
        last = *place;
    }
    last
}

// The last place that a session has reached, before its call with these places.
fn reach(reached: &mut Vec<u32>, session: u8, places: &[u32]) -> u32
    requires { length reached.old.items ≡ 256 }
    ensures before { result ≡ get_or reached.old.items session 0 }
    ensures after { reached.new.items ≡ slice_set reached.old.items session (last_or_of (get_or reached.old.items session 0) places.now) }
{
    let session = session as usize;
    let before = reached[session];
    reached[session] = last_or(before, places);
    before
}

// The last place of each session so far, before each call.
#[tactic(auto, using(crate::proofs::Showing::since_next, crate::proofs::Showing::since_all))]
fn since_of(alloc: Global, lines: &[Named], calls: &[ReportCall]) -> Result<Vec<u32>, AllocError>
    requires { length lines.now ≡ length calls.now }
    ensures { IfOk result (λ v. v.items ≡ since_from (replicate 256 0) (map (λ l. l.session) lines.now) (map (λ c. c.places) calls.now)) }
{
    let mut reached = filled(alloc, 256, 0)?;
    let mut since = Vec::new(alloc);
    for at in 0..lines.len() {
        let named = &lines[at];
        let session = named.line.session;
        since.push(reach(&mut reached, session, calls[at].places.as_slice()))?;
    }
    Ok(since)
}

// The least number of calls whose replies are not all lawful, where those of so many are not.
fn first_unlawful(
    alloc: Global,
    trace: &Trace,
    f: &Findings,
    count: usize,
) -> Result<u32, AllocError> {
    let mut low = 0;
    let mut high = count;
    for _ in 0..64 {
        let between = high.saturating_sub(low);
        if between <= 1 {
            return Ok(number(high));
        }
        let middle = low.saturating_add(between / 2);
        if is_borne(alloc, trace, f, middle)? {
            low = middle;
        } else {
            high = middle;
        }
    }
    Ok(number(high))
}

// The first call that is not answered lawfully, at most the one of this number, which is not.
fn first_before(
    alloc: Global,
    trace: &Trace,
    f: &Findings,
    fails: usize,
) -> Result<u32, AllocError> {
    let count = fails.saturating_sub(1);
    if is_borne(alloc, trace, f, count)? {
        return Ok(number(fails));
    }
    Ok(first_unlawful(alloc, trace, f, count)?)
}

fn verdict_of(
    alloc: Global,
    trace: &Trace,
    f: &Findings,
    fails: Option<usize>,
) -> Result<Verdict, AllocError>
    ensures { IfOk result (λ v. v ≡ verdict.Lawful → (fails ≡ None) × IsLawfulTrace trace.now) }
{
    match fails {
        Some(number) => Ok(Verdict::Call(first_before(alloc, trace, f, number)?)),
        None => {
            let count = trace.calls.len();
            if !is_borne(alloc, trace, f, count)? {
                return Ok(Verdict::Call(first_unlawful(alloc, trace, f, count)?));
            }
            Ok(Verdict::Lawful)
        }
    }
}

// The trace with these replies.
fn with_replies<'a>(base: &Trace<'a>, replies: &'a [Replied<'a>]) -> Trace<'a>
    ensures { result ≡ replied base.now replies.now }
{
    Trace {
        calls: base.calls,
        replies,
        history: base.history,
        submitted: base.submitted,
        since: base.since,
        until: base.until,
    }
}

// What is found in a trace with the replies that show these answers.
fn walk(
    alloc: Global,
    shown: &[ReportCall],
    answers: &Vec<Option<Answer>>,
    base: &Trace,
) -> Result<Result<Walked, u32>, AllocError>
    requires { AreAnswersShown shown.now answers.now.items }
{
    let replies = replies_shown(alloc, shown, answers)?;
    let trace = with_replies(base, replies.as_slice());
    let found = find(alloc, &trace);
    drop(replies);
    found
}

// The verdict on a trace with the replies that show these answers.
#[tactic(auto, using(crate::proofs::Showing::lawful_with))]
fn judge_replies(
    alloc: Global,
    shown: &[ReportCall],
    answers: &Vec<Option<Answer>>,
    base: &Trace,
    f: &Findings,
    fails: Option<usize>,
) -> Result<Verdict, AllocError>
    requires { AreAnswersShown shown.now answers.now.items }
    ensures { IfOk result (λ v. v ≡ verdict.Lawful → (fails ≡ None) × IsLawfulWithReplies shown.now base.now) }
{
    let replies = replies_shown(alloc, shown, answers)?;
    let trace = with_replies(base, replies.as_slice());
    let found = verdict_of(alloc, &trace, f, fails)?;
    Ok(found)
}

// The verdict with what was found, whose lists are put in the places of the answers that show them.
fn judge_walked(
    alloc: Global,
    shown: &[ReportCall],
    answers: &mut Vec<Option<Answer>>,
    base: &Trace,
    walked: &mut Walked,
    fails: Option<usize>,
) -> Result<Verdict, AllocError>
    requires { AreAnswersShown shown.now answers.old.items }
    ensures { IfOk result (λ v. v ≡ verdict.Lawful → (fails ≡ None) × IsLawfulWithReplies shown.now base.now) }
{
    fill_lists(shown, answers, &mut walked.lists);
    judge_replies(alloc, shown, answers, base, &walked.findings, fails)
}

fn judge_answers(
    alloc: Global,
    shown: &[ReportCall],
    answers: &mut Vec<Option<Answer>>,
    base: &Trace,
    fails: Option<usize>,
) -> Result<Verdict, AllocError>
    requires { AreAnswersShown shown.now answers.old.items }
    ensures { IfOk result (λ v. v ≡ verdict.Lawful → (fails ≡ None) × IsLawfulWithReplies shown.now base.now) }
{
    match walk(alloc, shown, answers, base)? {
        Ok(mut walked) => {
            let found = judge_walked(alloc, shown, answers, base, &mut walked, fails);
            drop(walked);
            found
        }
        Err(entry) => Ok(Verdict::Entry(entry)),
    }
}

// The verdict on a trace with the replies that calls show.
fn judge_base(
    alloc: Global,
    shown: &[ReportCall],
    base: &Trace,
    fails: Option<usize>,
) -> Result<Verdict, AllocError>
    ensures { IfOk result (λ v. v ≡ verdict.Lawful → (fails ≡ None) × IsLawfulWithReplies shown.now base.now) }
{
    let mut answers = answers_shown(alloc, shown)?;
    let found = judge_answers(alloc, shown, &mut answers, base, fails);
    drop(answers);
    found
}

// The verdict on the trace of these calls and this history, with the bounds that a report shows.
#[tactic(auto, using(crate::proofs::Showing::lawful_for))]
fn judge_bounds(
    alloc: Global,
    shown: &[ReportCall],
    lines: &[Named],
    calls: &[Submitted],
    history: &[Entry],
    fails: Option<usize>,
) -> Result<Verdict, AllocError>
    requires { length lines.now ≡ length shown.now }
    ensures { IfOk result (λ v. v ≡ verdict.Lawful → (fails ≡ None) × IsLawfulOf lines.now shown.now calls.now history.now) }
{
    let Ok(many) = u32::try_from(history.len()) else {
        return Ok(Verdict::Entry(u32::MAX));
    };
    let submitted = filled(alloc, lines.len(), 0)?;
    let since = since_of(alloc, lines, shown)?;
    let until = filled(alloc, lines.len(), many)?;
    let base = Trace {
        calls,
        replies: &[],
        history,
        submitted: submitted.as_slice(),
        since: since.as_slice(),
        until: until.as_slice(),
    };
    let found = judge_base(alloc, shown, &base, fails)?;
    Ok(found)
}

// The verdict on the trace that calls and entries show, with what is found in it.
#[tactic(auto, using(crate::proofs::Showing::lawful_from))]
fn judge_lines(
    alloc: Global,
    shown: &[ReportCall],
    entries: &[(u32, u8)],
    lines: &[Named],
    fails: Option<usize>,
) -> Result<Verdict, AllocError>
    requires { length lines.now ≡ length shown.now }
    ensures { IfOk result (λ v. v ≡ verdict.Lawful → (fails ≡ None) × IsLawfulFor lines.now shown.now entries.now) }
{
    let calls = submissions(alloc, lines)?;
    let history = history_of(alloc, entries)?;
    let found = judge_bounds(
        alloc,
        shown,
        lines,
        calls.as_slice(),
        history.as_slice(),
        fails,
    )?;
    Ok(found)
}

// The number of the first call that is not in its turn. Where the lines are those of the calls there is none.
fn first_failing(fails: Option<usize>, are_lines: bool, count: usize) -> Option<usize>
    ensures { result ≡ None → are_lines ≡ true }
{
    match fails {
        Some(number) => Some(number),
        None => {
            if are_lines {
                None
            } else {
                Some(count.saturating_add(1))
            }
        }
    }
}

// The verdict on a report whose calls have these lines, of which the call of this number fails.
#[tactic(auto, using(crate::proofs::Showing::lawful_report))]
fn judge_assigned(
    alloc: Global,
    script: &Script,
    report: &Report,
    lines: &[Named],
    fails: Option<usize>,
) -> Result<Verdict, AllocError>
    ensures { IfOk result (λ v. v ≡ verdict.Lawful → IsLawfulReport script.now report.now) }
{
    let calls = report.calls.as_slice();
    if lines.len() != calls.len() {
        return Ok(Verdict::Call(0));
    }
    let are_lines = are_the_lines(alloc, script, calls, lines)?;
    let fails = first_failing(fails, are_lines, lines.len());
    Ok(judge_lines(alloc, calls, report.history.as_slice(), lines, fails)?)
}

// The verdict on a report, with an idle line for the calls whose number no line has.
fn judge_calls(
    alloc: Global,
    script: &Script,
    report: &Report,
    idle: &CallLine,
) -> Result<Verdict, AllocError>
    ensures { IfOk result (λ v. v ≡ verdict.Lawful → IsLawfulReport script.now report.now) }
{
    let assigned = assign(alloc, script, report.calls.as_slice(), idle)?;
    let found = judge_assigned(
        alloc,
        script,
        report,
        assigned.lines.as_slice(),
        assigned.fails,
    );
    drop(assigned);
    found
}

fn idle_line(alloc: Global) -> CallLine {
    CallLine {
        line: 0,
        session: 255,
        call: Call::Stat {
            path: Path {
                parts: Seq::new(alloc),
            },
        },
    }
}

/// Judges a report of a script.
///
/// # Errors
/// Out of memory.
pub fn judge(alloc: Global, script: &Script, report: &Report) -> Result<Verdict, AllocError>
    ensures lawful { IfOk result (λ v. v ≡ verdict.Lawful → IsLawfulReport script.now report.now) }
{
    let idle = idle_line(alloc);
    let found = judge_calls(alloc, script, report, &idle);
    drop(idle);
    found
}
