//! Whether each control that was carried out by an event was so in its moment.
ghost use Rattle.std.specs.Prelude.{◌≡◌, ◌≤◌, ◌<◌, ◌+◌, ◌-◌, ◌⊎◌, ◌↔◌, IsTrue, ℕ, Some, None, true, false, length, option_copied, slice_get};
ghost use Rattle.script_lang.specs.declared.scripts.ControlLine.{ControlLine as Line};
ghost use Rattle.script_lang.specs.declared.scripts.Phase.{Phase as Part};
ghost use Rattle.run_audit.specs.declared.run_notes.Carried.{Carried as Done};
ghost use Rattle.script_lang.specs.declared.scripts.When.TheVariants as moment;
ghost use Rattle.mount_log.specs.Controls.{control_at, NamesRequest, IsRequestOf, HasNotCome, IsFollowing, HasCome, IsFirstLeft, IsTimely};
ghost use Rattle.mount_log.specs.Phases.{HasNothingElse};
ghost use Rattle.mount_log.specs.Submissions.{count_below};
ghost use Rattle.run_audit.specs.Controlled.{AreNoted, ArePhasesCarried, AreTables};
ghost use Rattle.run_audit.specs.Counting.{AreNumbers, DoAllRise};
ghost use Rattle.run_audit.specs.Noted.{ended_at, carried_at, noted_for, begun, course_of, event_in, among, IsWithin};
ghost use Rattle.run_audit.specs.declared.run_notes.ControlAt.{ControlAt as Place};
ghost use Rattle.run_audit.specs.Timed.{IsOther, IsAfter, IsRequestPlace, IsRequestNoted, AreRequestsNoted, AreEarlier, IsHowTimely, ArePhaseTimely, AreAllTimely};

use crate::acts::number_of;
use crate::carried::{SentTables, begun_in, carried_of, is_in_phase, is_nth, number_at};
use crate::numbers::Numbers;
use crate::run_notes::{Carried, ControlAt, RunNotes, control_of, phase_at};
use crate::settled::{are_as_many, is_settled};
use fop_types::Proc;
use mount_log::by_place::line_at;
use mount_log::requests::is_request_of;
use mount_log::{Log, SentLine};
use script_lang::{ControlLine, Script, When};

// ---- the request that a control names

// Whether the line at a place is this request of its procedure to the brick in the phase.
fn is_request(
    log: &Log,
    tables: &SentTables,
    notes: &RunNotes,
    phase: usize,
    place: usize,
    brick: u8,
    proc: Proc,
    count: u32,
    line: &SentLine,
) -> bool
    requires there { slice_get log.now.sent place ≡ Some line.now }
    requires tables { AreTables notes.now.ended log.now tables.now }
    ensures sound { result ≡ true → IsRequestOf log.now (begun notes.now.ended (length log.now.events) phase) place brick proc count line.now }
    ensures complete { line.now.event ≤ ended_at notes.now.ended (length log.now.events) phase → IsRequestOf log.now (begun notes.now.ended (length log.now.events) phase) place brick proc count line.now → result ≡ true }
{
    if line.brick != brick || !is_request_of(line.bytes.as_slice(), proc) {
        return false;
    }
    if !is_in_phase(log, notes, phase, line.event) {
        return false;
    }
    is_nth(tables, place, count)
}

// Whether the line at a place is counted as another request.
fn is_other(tables: &SentTables, place: usize, count: u32) -> bool
    ensures { IsTrue result ↔ IsOther tables.now.nth.items place count }
{
    match tables.nth.as_slice().get(place) {
        Some(n) => *n != count as u64,
        None => false,
    }
}

// Whether the line at a place, if it was sent before an event of the phase, is not this request.
fn is_no_request(
    log: &Log,
    tables: &SentTables,
    notes: &RunNotes,
    phase: usize,
    number: u64,
    place: usize,
    brick: u8,
    proc: Proc,
    count: u32,
    line: &SentLine,
) -> bool
    requires there { slice_get log.now.sent place ≡ Some line.now }
    requires tables { AreTables notes.now.ended log.now tables.now }
    requires within { IsWithin notes.now.ended (length log.now.events) phase number }
    ensures { IsTrue result ↔ (IsRequestOf log.now (begun notes.now.ended (length log.now.events) phase) place brick proc count line.now → number ≤ line.now.event) }
{
    if line.event >= number {
        return true;
    }
    if line.brick != brick || line.event <= begun_in(log, notes, phase) {
        return true;
    }
    if !is_request_of(line.bytes.as_slice(), proc) {
        return true;
    }
    is_other(tables, place, count)
}

// Whether this request was not sent in the phase before an event.
fn has_not_come(
    log: &Log,
    tables: &SentTables,
    notes: &RunNotes,
    phase: usize,
    number: u64,
    brick: u8,
    proc: Proc,
    count: u32,
) -> bool
    requires tables { AreTables notes.now.ended log.now tables.now }
    requires within { IsWithin notes.now.ended (length log.now.events) phase number }
    ensures { IsTrue result ↔ HasNotCome log.now (begun notes.now.ended (length log.now.events) phase) number brick proc count }
{
    for k in 0..log.sent.len() {
        let Some(line) = line_at(log, k) else {
            return false;
        };
        if !is_no_request(
            log, tables, notes, phase, number, k, brick, proc, count, line,
        ) {
            return false;
        }
    }
    true
}

// ---- between a request and its control

fn is_after(control: &ControlLine) -> bool
    ensures { IsTrue result ↔ IsAfter control.now }
{
    match control.when {
        When::After(_, _, _) => true,
        _ => false,
    }
}

// Whether a control that follows a request, of the phase, is carried out in the event.
fn is_following(
    script: &Script,
    notes: &RunNotes,
    last: u64,
    phase: usize,
    number: u64,
    at: ControlAt,
) -> bool
    ensures sound { result ≡ true → IsFollowing script.now (course_of notes.now last) phase number }
    ensures complete { (c : Line) → at.phase ≡ phase → carried_at notes.now.carried at.phase at.at ≡ number → control_at script.now at.phase at.at ≡ Some c → IsAfter c → result ≡ true }
{
    if at.phase != phase {
        return false;
    }
    if number_of(notes, at) != number {
        return false;
    }
    match control_of(script, at) {
        Some(control) => is_after(control),
        None => false,
    }
}

fn noted_at(notes: &RunNotes, number: u64) -> ControlAt
    ensures { (at : Place) → noted_for notes.now number None ≡ Some at → result ≡ at }
{
    match notes
        .by_event
        .as_slice()
        .get(number.saturating_sub(1) as usize)
    {
        Some(at) => *at,
        None => ControlAt { phase: 0, at: 0 },
    }
}

// Whether in each event between two of them such a control is carried out.
fn are_following(
    script: &Script,
    notes: &RunNotes,
    last: u64,
    phase: usize,
    since: u64,
    number: u64,
) -> bool
    ensures sound { result ≡ true → (m : ℕ) → since < m → m < number → IsFollowing script.now (course_of notes.now last) phase m }
    ensures complete { AreNoted script.now notes.now → ((m : ℕ) → since < m → m < number → IsFollowing script.now (course_of notes.now last) phase m) → result ≡ true }
{
    for m in since..number {
        if m == since {
            continue;
        }
        if !is_following(script, notes, last, phase, m, noted_at(notes, m)) {
            return false;
        }
    }
    true
}

// Whether this request, which the line at a place is, was sent in the phase before an event, and what is between are controls
// that follow requests.
fn has_come(
    script: &Script,
    log: &Log,
    tables: &SentTables,
    notes: &RunNotes,
    phase: usize,
    number: u64,
    place: usize,
    brick: u8,
    proc: Proc,
    count: u32,
) -> bool
    requires tables { AreTables notes.now.ended log.now tables.now }
    ensures sound { result ≡ true → HasCome script.now log.now (course_of notes.now (length log.now.events)) phase number brick proc count }
    ensures complete { AreNoted script.now notes.now → IsWithin notes.now.ended (length log.now.events) phase number → IsRequestPlace script.now log.now (course_of notes.now (length log.now.events)) phase number brick proc count (Some place) → result ≡ true }
{
    let Some(line) = line_at(log, place) else {
        return false;
    };
    if line.event >= number {
        return false;
    }
    if !is_request(log, tables, notes, phase, place, brick, proc, count, line) {
        return false;
    }
    are_following(
        script,
        notes,
        log.events.len() as u64,
        phase,
        line.event,
        number,
    )
}

// ---- what is left

fn is_now(control: &ControlLine) -> bool
    ensures { IsTrue result ↔ (control.now.when ≡ moment.Now) }
{
    match control.when {
        When::Now => true,
        _ => false,
    }
}

// Whether a control at a place, if it is before another or has no condition, was carried out before an event.
fn is_earlier(control: &ControlLine, j: usize, at: usize, event: u64, number: u64) -> bool
    ensures { IsTrue result ↔ ((j < at) ⊎ (control.now.when ≡ moment.Now) → event < number) }
{
    if event < number {
        return true;
    }
    j >= at && !is_now(control)
}

// Whether each control of a phase that is before a place, or has no condition, was carried out before an event.
fn are_earlier(controls: &[ControlLine], carried: &[Carried], at: usize, number: u64) -> bool
    ensures { IsTrue result ↔ AreEarlier controls.now carried.now at number (length controls.now) }
{
    for j in 0..controls.len() {
        let Some(control) = controls.get(j) else {
            return false;
        };
        if !is_earlier(control, j, at, number_at(carried, j), number) {
            return false;
        }
    }
    true
}

// Whether before an event nothing else is left of the phase, and of its controls those before a place and those without a
// condition were carried out.
fn is_first_left(
    script: &Script,
    log: &Log,
    numbers: &Numbers,
    notes: &RunNotes,
    phase: usize,
    at: usize,
    number: u64,
) -> bool
    requires numbers { AreNumbers log.now numbers.now }
    requires rise { DoAllRise numbers.now }
    ensures sound { result ≡ true → IsFirstLeft script.now log.now (course_of notes.now (length log.now.events)) phase at number }
    ensures complete { 1 ≤ number → phase < length script.now.phases → IsFirstLeft script.now log.now (course_of notes.now (length log.now.events)) phase at number → result ≡ true }
{
    if number == 0 {
        return false;
    }
    if !is_settled(script, numbers, phase, number - 1) {
        return false;
    }
    let Some(here) = phase_at(script, phase) else {
        return false;
    };
    let _ = log;
    are_earlier(
        here.controls.as_slice(),
        carried_of(notes, phase),
        at,
        number,
    )
}

// ---- the moment of a control

// Whether each heal and switch before an event was answered before.
fn is_next(numbers: &Numbers, number: u64) -> bool
    requires { DoAllRise numbers.now }
    ensures sound { result ≡ true → count_below number numbers.now.internal ≡ count_below number numbers.now.answered }
    ensures complete { 1 ≤ number → count_below number numbers.now.internal ≡ count_below number numbers.now.answered → result ≡ true }
{
    if number == 0 {
        return false;
    }
    are_as_many(
        numbers.internal.as_slice(),
        numbers.answered.as_slice(),
        number - 1,
    )
}

// Whether the request was not sent before an event of the phase, and nothing else is left.
fn is_left(
    script: &Script,
    log: &Log,
    tables: &SentTables,
    numbers: &Numbers,
    notes: &RunNotes,
    phase: usize,
    at: usize,
    number: u64,
    brick: u8,
    proc: Proc,
    count: u32,
) -> bool
    requires tables { AreTables notes.now.ended log.now tables.now }
    requires numbers { AreNumbers log.now numbers.now }
    requires rise { DoAllRise numbers.now }
    requires within { IsWithin notes.now.ended (length log.now.events) phase number }
    ensures not_come { result ≡ true → HasNotCome log.now (begun notes.now.ended (length log.now.events) phase) number brick proc count }
    ensures first { result ≡ true → IsFirstLeft script.now log.now (course_of notes.now (length log.now.events)) phase at number }
    ensures complete { phase < length script.now.phases → HasNotCome log.now (begun notes.now.ended (length log.now.events) phase) number brick proc count → IsFirstLeft script.now log.now (course_of notes.now (length log.now.events)) phase at number → result ≡ true }
{
    if !has_not_come(log, tables, notes, phase, number, brick, proc, count) {
        return false;
    }
    is_first_left(script, log, numbers, notes, phase, at, number)
}

// Whether an event of the phase is the moment of a control that follows a request, which the line at a place is, if it has come.
fn is_after_moment(
    script: &Script,
    log: &Log,
    tables: &SentTables,
    numbers: &Numbers,
    notes: &RunNotes,
    phase: usize,
    at: usize,
    number: u64,
    place: Option<usize>,
    brick: u8,
    proc: Proc,
    count: u32,
) -> bool
    requires tables { AreTables notes.now.ended log.now tables.now }
    requires numbers { AreNumbers log.now numbers.now }
    requires rise { DoAllRise numbers.now }
    requires within { IsWithin notes.now.ended (length log.now.events) phase number }
    ensures sound { result ≡ true → (c : Line) → c.when ≡ moment.After brick proc count → IsTimely script.now log.now (course_of notes.now (length log.now.events)) phase at number c }
    ensures complete { AreNoted script.now notes.now → phase < length script.now.phases → IsRequestPlace script.now log.now (course_of notes.now (length log.now.events)) phase number brick proc count place → (c : Line) → c.when ≡ moment.After brick proc count → IsTimely script.now log.now (course_of notes.now (length log.now.events)) phase at number c → result ≡ true }
{
    match place {
        Some(place) => has_come(
            script, log, tables, notes, phase, number, place, brick, proc, count,
        ),
        None => is_left(
            script, log, tables, numbers, notes, phase, at, number, brick, proc, count,
        ),
    }
}

// Whether an event of the phase is the moment of a control.
fn is_moment(
    script: &Script,
    log: &Log,
    tables: &SentTables,
    numbers: &Numbers,
    notes: &RunNotes,
    phase: usize,
    at: usize,
    number: u64,
    place: Option<usize>,
    control: &ControlLine,
) -> bool
    requires tables { AreTables notes.now.ended log.now tables.now }
    requires numbers { AreNumbers log.now numbers.now }
    requires rise { DoAllRise numbers.now }
    requires within { IsWithin notes.now.ended (length log.now.events) phase number }
    ensures sound { result ≡ true → IsTimely script.now log.now (course_of notes.now (length log.now.events)) phase at number control.now }
    ensures complete { AreNoted script.now notes.now → phase < length script.now.phases → IsRequestNoted script.now log.now (course_of notes.now (length log.now.events)) phase number control.now place → IsTimely script.now log.now (course_of notes.now (length log.now.events)) phase at number control.now → result ≡ true }
{
    match control.when {
        When::Now => is_next(numbers, number),
        When::Before(brick, proc, count) => is_left(
            script, log, tables, numbers, notes, phase, at, number, brick, proc, count,
        ),
        When::After(brick, proc, count) => is_after_moment(
            script, log, tables, numbers, notes, phase, at, number, place, brick, proc, count,
        ),
    }
}

// Whether a control that was carried out by an event was so in its moment.
fn is_timely(
    script: &Script,
    log: &Log,
    tables: &SentTables,
    numbers: &Numbers,
    notes: &RunNotes,
    phase: usize,
    at: usize,
    control: &ControlLine,
    how: Carried,
) -> bool
    requires tables { AreTables notes.now.ended log.now tables.now }
    requires numbers { AreNumbers log.now numbers.now }
    requires rise { DoAllRise numbers.now }
    ensures sound { result ≡ true → how.sent ≡ None → IsTimely script.now log.now (course_of notes.now (length log.now.events)) phase at how.event control.now }
    ensures complete { AreNoted script.now notes.now → phase < length script.now.phases → IsWithin notes.now.ended (length log.now.events) phase how.event → (how.sent ≡ None → IsRequestNoted script.now log.now (course_of notes.now (length log.now.events)) phase how.event control.now how.request) → (how.sent ≡ None → IsTimely script.now log.now (course_of notes.now (length log.now.events)) phase at how.event control.now) → result ≡ true }
{
    if how.sent.is_some() {
        return true;
    }
    if !is_in_phase(log, notes, phase, how.event) {
        return false;
    }
    is_moment(
        script,
        log,
        tables,
        numbers,
        notes,
        phase,
        at,
        how.event,
        how.request,
        control,
    )
}

fn is_how_timely(
    script: &Script,
    log: &Log,
    tables: &SentTables,
    numbers: &Numbers,
    notes: &RunNotes,
    phase: usize,
    at: usize,
    control: &ControlLine,
    carried: &[Carried],
) -> bool
    requires tables { AreTables notes.now.ended log.now tables.now }
    requires numbers { AreNumbers log.now numbers.now }
    requires rise { DoAllRise numbers.now }
    ensures sound { result ≡ true → IsHowTimely script.now log.now notes.now phase at control.now (slice_get carried.now at) }
    ensures complete { (how : Done) → slice_get carried.now at ≡ Some how → AreNoted script.now notes.now → phase < length script.now.phases → IsWithin notes.now.ended (length log.now.events) phase how.event → (how.sent ≡ None → IsRequestNoted script.now log.now (course_of notes.now (length log.now.events)) phase how.event control.now how.request) → IsHowTimely script.now log.now notes.now phase at control.now (Some how) → result ≡ true }
{
    match carried.get(at) {
        Some(how) => is_timely(
            script, log, tables, numbers, notes, phase, at, control, *how,
        ),
        None => false,
    }
}

fn is_phase_timely(
    script: &Script,
    log: &Log,
    tables: &SentTables,
    numbers: &Numbers,
    notes: &RunNotes,
    phase: usize,
    controls: &[ControlLine],
) -> bool
    requires tables { AreTables notes.now.ended log.now tables.now }
    requires numbers { AreNumbers log.now numbers.now }
    requires rise { DoAllRise numbers.now }
    ensures sound { result ≡ true → ArePhaseTimely script.now log.now notes.now phase controls.now }
    ensures complete { (here : Part) → slice_get script.now.phases phase ≡ Some here → here.controls ≡ controls.now → ArePhasesCarried script.now log.now tables.now notes.now → AreRequestsNoted script.now log.now notes.now → ArePhaseTimely script.now log.now notes.now phase controls.now → result ≡ true }
{
    let carried = carried_of(notes, phase);
    for at in 0..controls.len() {
        let Some(control) = controls.get(at) else {
            return false;
        };
        if !is_how_timely(
            script, log, tables, numbers, notes, phase, at, control, carried,
        ) {
            return false;
        }
    }
    true
}

/// Whether each control that was carried out by an event was so in its moment.
pub fn are_timely(
    script: &Script,
    log: &Log,
    tables: &SentTables,
    numbers: &Numbers,
    notes: &RunNotes,
) -> bool
    requires tables { AreTables notes.now.ended log.now tables.now }
    requires numbers { AreNumbers log.now numbers.now }
    requires rise { DoAllRise numbers.now }
    ensures sound { result ≡ true → AreAllTimely script.now log.now notes.now }
    ensures complete { ArePhasesCarried script.now log.now tables.now notes.now → AreRequestsNoted script.now log.now notes.now → AreAllTimely script.now log.now notes.now → result ≡ true }
{
    for k in 0..script.phases.len() {
        let Some(phase) = phase_at(script, k) else {
            return false;
        };
        if !is_phase_timely(
            script,
            log,
            tables,
            numbers,
            notes,
            k,
            phase.controls.as_slice(),
        ) {
            return false;
        }
    }
    true
}
