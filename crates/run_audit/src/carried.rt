//! Whether each control was carried out where the notes of a run say.
ghost use Rattle.std.specs.Prelude.{◌≡◌, ◌≤◌, ◌↔◌, IsTrue, true, None, Some, IfOk, IfSome, IfNone, length, option_copied, slice_get};
ghost use Rattle.fop_types.specs.declared.messages.Input.TheVariants as input;
ghost use Rattle.script_lang.specs.declared.scripts.When.TheVariants as moment;
ghost use Rattle.mount_log.specs.Events.{IsEvent};
ghost use Rattle.mount_log.specs.declared.logs.HubEvent.TheVariants as logged;
ghost use Rattle.run_audit.specs.Noted.{event_in, among, noted_for, begun, IsWithin};
ghost use Rattle.run_audit.specs.Controlled.{IsActionInput, Says, SendsAction, IsRequestTo, IsRequestAt, IsSentAt, GoesBefore, IsSentFor, IsSentControl, IsCarriedSo, IsArmed, IsNotedArm, IsArmNoted, IsControlCarried, AreControlsCarried, Passes, AreFromOne, AreInTurn, IsPhaseCarried, ArePhasesCarried};

use crate::in_line::are_in_line;
use crate::phase_ends::{begun_of, is_within};
use crate::run_notes::{Carried, ControlAt, RunNotes, phase_at};
use fop_types::{Input, Proc};
use log_audit::armed_lines::ArmedLines;
use mount_log::by_number::event_at;
use mount_log::by_place::line_at;
use mount_log::requests::is_request_of;
use mount_log::{HubEvent, Log, SentLine};
use script_lang::{Action, ControlLine, Script, When};
use std::alloc::{AllocError, Global};
use wire_messages::{Message, input_of};

/// Of each line that was sent, the lines that can be armed which begin there, and, if it is a request, which one it is of its
/// procedure in its phase.
#[derive(Drop)]
pub struct SentTables {
    pub armed: Vec<ArmedLines>,
    pub nth: Vec<u64>,
}

/// Whether two actions are the same.
pub fn is_same(one: Action, other: Action) -> bool
    ensures { IsTrue result ↔ (one ≡ other) }
{
    match (one, other) {
        (Action::Down(a, s), Action::Down(b, t)) => a == b && s == t,
        (Action::Up(a), Action::Up(b)) => a == b,
        (Action::Cut(a), Action::Cut(b)) => a == b,
        (Action::Fault(a, p, m), Action::Fault(b, q, n)) => a == b && p == q && m == n,
        (Action::Heal, Action::Heal) => true,
        (Action::Switch(a), Action::Switch(b)) => a == b,
        _ => false,
    }
}

// ---- by an event

fn acts(event: &HubEvent, action: Action) -> bool
    ensures { IsTrue result ↔ (event.now ≡ logged.Act action) }
{
    match event {
        HubEvent::Act(a) => is_same(*a, action),
        _ => false,
    }
}

/// Whether the event of this number carries out an action.
pub fn is_act(log: &Log, number: u64, action: Action) -> bool
    ensures { IsTrue result ↔ IsEvent log.now number (logged.Act action) }
{
    match event_at(log, number) {
        Some(event) => acts(event, action),
        None => false,
    }
}

// ---- before a request

fn is_down(found: &Input, serve: u32) -> bool
    ensures { IsTrue result ↔ (found.now ≡ input.Down serve) }
{
    match found {
        Input::Down { serve: number } => *number == serve,
        _ => false,
    }
}

fn is_fault(found: &Input, proc: Proc, number: u32) -> bool
    ensures { IsTrue result ↔ (found.now ≡ input.FaultAt proc number) }
{
    match found {
        Input::FaultAt {
            proc: which,
            number: nth,
        } => *which == proc && *nth == number,
        _ => false,
    }
}

fn is_action_input(found: &Input, action: Action) -> bool
    ensures { IsTrue result ↔ IsActionInput action found.now }
{
    match action {
        Action::Down(_, serve) => is_down(found, serve),
        Action::Fault(_, proc, number) => is_fault(found, proc, number),
        _ => false,
    }
}

fn says(message: &Message<Input>, action: Action) -> bool
    ensures { IsTrue result ↔ Says action message.now }
{
    match message {
        Message::Whole(found) => is_action_input(found, action),
        Message::Wrong { place: _ } => false,
    }
}

// Whether bytes are the input of an action.
fn sends_action(alloc: Global, bytes: &[u8], action: Action) -> Result<bool, AllocError>
    ensures { IfOk result (λ yes. IsTrue yes ↔ SendsAction action bytes.now) }
{
    let message = input_of(alloc, bytes)?;
    let yes = says(&message, action);
    drop(message);
    Ok(yes)
}

fn is_to(line: &SentLine, number: u64, brick: u8) -> bool
    ensures event { result ≡ true → line.now.event ≡ number }
    ensures brick { result ≡ true → line.now.brick ≡ brick }
    ensures complete { line.now.event ≡ number → line.now.brick ≡ brick → result ≡ true }
{
    line.event == number && line.brick == brick
}

fn is_request_to(line: &SentLine, number: u64, brick: u8, proc: Proc) -> bool
    ensures { IsTrue result ↔ IsRequestTo number brick proc line.now }
{
    is_to(line, number, brick) && is_request_of(line.bytes.as_slice(), proc)
}

// Whether the line at a place is a request of a procedure, sent to the brick in the event.
fn is_request_at(log: &Log, at: usize, number: u64, brick: u8, proc: Proc) -> bool
    ensures { IsTrue result ↔ IsRequestAt log.now.sent at number brick proc }
{
    match line_at(log, at) {
        Some(line) => is_request_to(line, number, brick, proc),
        None => false,
    }
}

// Whether the line at a place sends the brick an action's input in the event.
fn is_sent_at(
    alloc: Global,
    log: &Log,
    at: usize,
    number: u64,
    brick: u8,
    action: Action,
) -> Result<bool, AllocError>
    ensures { IfOk result (λ yes. IsTrue yes ↔ IsSentAt log.now.sent at number brick action) }
{
    let Some(line) = line_at(log, at) else {
        return Ok(false);
    };
    if !is_to(line, number, brick) {
        return Ok(false);
    }
    let yes = sends_action(alloc, line.bytes.as_slice(), action)?;
    Ok(yes)
}

/// Whether a request is this one of its procedure in its phase.
pub fn is_nth(tables: &SentTables, at: usize, count: u32) -> bool
    ensures { IsTrue result ↔ (slice_get tables.now.nth.items at ≡ Some count) }
{
    match tables.nth.as_slice().get(at) {
        Some(n) => *n == count as u64,
        None => false,
    }
}

// Where the armed lines stop that the line at a place begins.
fn stop_of(tables: &SentTables, at: usize) -> Option<&ArmedLines>
    ensures { option_copied result ≡ slice_get tables.now.armed.items at }
{
    tables.armed.as_slice().get(at)
}

// Whether the armed lines that begin at a place stop at the request.
fn goes_before(
    log: &Log,
    tables: &SentTables,
    at: usize,
    number: u64,
    brick: u8,
    proc: Proc,
    count: u32,
) -> bool
    ensures { IsTrue result ↔ GoesBefore log.now.sent tables.now at number brick proc count }
{
    let Some(lines) = stop_of(tables, at) else {
        return false;
    };
    if lines.stop <= at || !is_nth(tables, lines.stop, count) {
        return false;
    }
    is_request_at(log, lines.stop, number, brick, proc)
}

// Whether the line at a place sends the brick an action's input in the event, directly before a request.
fn is_sent_before(
    alloc: Global,
    log: &Log,
    tables: &SentTables,
    at: usize,
    number: u64,
    brick: u8,
    proc: Proc,
    count: u32,
    action: Action,
) -> Result<bool, AllocError>
    ensures { IfOk result (λ yes. IsTrue yes ↔ IsSentFor log.now.sent tables.now at number brick proc count action) }
{
    if !goes_before(log, tables, at, number, brick, proc, count) {
        return Ok(false);
    }
    let yes = is_sent_at(alloc, log, at, number, brick, action)?;
    Ok(yes)
}

fn is_sent_control(
    alloc: Global,
    log: &Log,
    tables: &SentTables,
    control: &ControlLine,
    number: u64,
    at: usize,
) -> Result<bool, AllocError>
    ensures { IfOk result (λ yes. IsTrue yes ↔ IsSentControl log.now.sent tables.now at number control.now) }
{
    let When::Before(brick, proc, count) = control.when else {
        return Ok(false);
    };
    let yes = is_sent_before(
        alloc,
        log,
        tables,
        at,
        number,
        brick,
        proc,
        count,
        control.action,
    )?;
    Ok(yes)
}

// ---- the controls of a phase

fn is_carried(
    alloc: Global,
    log: &Log,
    tables: &SentTables,
    control: &ControlLine,
    how: Carried,
) -> Result<bool, AllocError>
    ensures { IfOk result (λ yes. IsTrue yes ↔ IsCarriedSo log.now tables.now how.event how.sent control.now) }
{
    match how.sent {
        Some(at) => is_sent_control(alloc, log, tables, control, how.event, at),
        None => Ok(is_act(log, how.event, control.action)),
    }
}

// The control that is noted for an event.
fn noted_at(notes: &RunNotes, number: u64) -> Option<ControlAt>
    ensures { result ≡ noted_for notes.now number None }
{
    let at = number.saturating_sub(1) as usize;
    notes.by_event.as_slice().get(at).copied()
}

// The control that is noted for how another was carried out.
fn noted(notes: &RunNotes, how: Carried) -> Option<ControlAt>
    ensures { result ≡ noted_for notes.now how.event how.sent }
{
    match how.sent {
        Some(place) => notes.by_line.as_slice().get(place).copied(),
        None => noted_at(notes, how.event),
    }
}

// Whether how a control was carried out is noted for it, and so for no other.
fn is_its_own(notes: &RunNotes, phase: usize, at: usize, how: Carried) -> bool
    ensures { IsTrue result ↔ (noted_for notes.now how.event how.sent ≡ Some (record { phase = phase; at = at })) }
{
    match noted(notes, how) {
        Some(found) => found.phase == phase && found.at == at,
        None => false,
    }
}

fn arms(event: &HubEvent, brick: u8, proc: Proc, count: u32, action: Action) -> bool
    ensures { IsTrue result ↔ (event.now ≡ logged.Arm brick proc count action) }
{
    match event {
        HubEvent::Arm(at, which, nth, what) => {
            *at == brick && *which == proc && *nth == count && is_same(*what, action)
        }
        _ => false,
    }
}

fn is_noted_arm(notes: &RunNotes, phase: usize, at: usize, number: u64) -> bool
    ensures { IsTrue result ↔ IsNotedArm notes.now phase at number }
{
    match noted_at(notes, number) {
        Some(found) => found.phase == phase && found.at == at,
        None => false,
    }
}

// Whether the event that arms a control, if it goes before a request, is noted for it, and so for no other.
fn is_own_arm(notes: &RunNotes, phase: usize, at: usize, control: &ControlLine, number: u64) -> bool
    ensures { IsTrue result ↔ IsArmNoted notes.now phase at number control.now }
{
    match control.when {
        When::Before(_, _, _) => is_noted_arm(notes, phase, at, number),
        _ => true,
    }
}

fn is_arm(log: &Log, number: u64, brick: u8, proc: Proc, count: u32, action: Action) -> bool
    ensures { IsTrue result ↔ IsEvent log.now number (logged.Arm brick proc count action) }
{
    match event_at(log, number) {
        Some(event) => arms(event, brick, proc, count, action),
        None => false,
    }
}

// Whether a control that goes before a request was armed behind an event, before it was carried out.
fn is_armed(log: &Log, control: &ControlLine, how: Carried, since: u64) -> bool
    ensures { IsTrue result ↔ IsArmed log.now how.armed control.now since how.event }
{
    let When::Before(brick, proc, count) = control.when else {
        return true;
    };
    if how.armed <= since || how.armed >= how.event {
        return false;
    }
    is_arm(log, how.armed, brick, proc, count, control.action)
}

/// Whether an event is one of a phase.
pub fn is_in_phase(log: &Log, notes: &RunNotes, phase: usize, number: u64) -> bool
    ensures { IsTrue result ↔ IsWithin notes.now.ended (length log.now.events) phase number }
{
    is_within(
        notes.ended.as_slice(),
        log.events.len() as u64,
        phase,
        number,
    )
}

/// The last event before a phase.
pub fn begun_in(log: &Log, notes: &RunNotes, phase: usize) -> u64
    ensures { result ≡ begun notes.now.ended (length log.now.events) phase }
{
    begun_of(notes.ended.as_slice(), log.events.len() as u64, phase)
}

// Whether a control was carried out within its phase, by what no other was, and armed before, if it goes before a request.
fn is_control_carried(
    alloc: Global,
    log: &Log,
    tables: &SentTables,
    notes: &RunNotes,
    phase: usize,
    at: usize,
    control: &ControlLine,
    how: Carried,
) -> Result<bool, AllocError>
    ensures { IfOk result (λ yes. IsTrue yes ↔ IsControlCarried log.now tables.now notes.now phase at control.now how) }
{
    if !is_in_phase(log, notes, phase, how.event) || !is_its_own(notes, phase, at, how) {
        return Ok(false);
    }
    if !is_armed(log, control, how, begun_in(log, notes, phase))
        || !is_own_arm(notes, phase, at, control, how.armed)
    {
        return Ok(false);
    }
    let yes = is_carried(alloc, log, tables, control, how)?;
    Ok(yes)
}

fn are_controls_carried(
    alloc: Global,
    log: &Log,
    tables: &SentTables,
    notes: &RunNotes,
    phase: usize,
    controls: &[ControlLine],
    carried: &[Carried],
) -> Result<bool, AllocError>
    ensures { IfOk result (λ yes. IsTrue yes ↔ AreControlsCarried log.now tables.now notes.now phase controls.now carried.now) }
{
    for at in 0..controls.len() {
        let Some(control) = controls.get(at) else {
            return Ok(false);
        };
        let Some(how) = carried.get(at) else {
            return Ok(false);
        };
        if !is_control_carried(alloc, log, tables, notes, phase, at, control, *how)? {
            return Ok(false);
        }
    }
    Ok(true)
}

// ---- the controls without a condition

/// The event of the control at a place, 0 where there is none.
pub fn number_at(carried: &[Carried], at: usize) -> u64
    ensures { result ≡ event_in (slice_get carried.now at) }
{
    match carried.get(at) {
        Some(how) => how.event,
        None => 0,
    }
}

// The last event of controls without a condition, with one control more; `None` where that is one and does not come later.
fn last_with(control: &ControlLine, number: u64, last: u64) -> Option<u64>
    ensures some { IfSome result (λ next. Passes control.now number last next) }
    ensures none { IfNone result ((control.now.when ≡ moment.Now) × (number ≤ last)) }
{
    match control.when {
        When::Now => { if last < number { Some(number) } else { None } }
        _ => Some(last),
    }
}

// Whether the controls without a condition were carried out in their order.
fn are_in_turn(controls: &[ControlLine], carried: &[Carried]) -> bool
    ensures sound { result ≡ true → AreInTurn controls.now carried.now }
    ensures complete { AreFromOne controls.now carried.now → AreInTurn controls.now carried.now → result ≡ true }
{
    let mut last = 0u64;
    for at in 0..controls.len() {
        let Some(control) = controls.get(at) else {
            return false;
        };
        let Some(next) = last_with(control, number_at(carried, at), last) else {
            return false;
        };
        last = next;
    }
    true
}

// ---- all phases

/// How the controls of a phase were carried out.
pub fn carried_of(notes: &RunNotes, phase: usize) -> &[Carried]
    ensures { result.now ≡ among (slice_get notes.now.carried phase) }
{
    match notes.carried.as_slice().get(phase) {
        Some(carried) => carried.as_slice(),
        None => &[],
    }
}

fn is_phase_carried(
    alloc: Global,
    log: &Log,
    tables: &SentTables,
    notes: &RunNotes,
    phase: usize,
    controls: &[ControlLine],
) -> Result<bool, AllocError>
    ensures { IfOk result (λ yes. IsTrue yes ↔ IsPhaseCarried log.now tables.now notes.now phase controls.now) }
{
    let carried = carried_of(notes, phase);
    if !are_in_turn(controls, carried) {
        return Ok(false);
    }
    if !are_in_line(controls, carried) {
        return Ok(false);
    }
    let yes = are_controls_carried(alloc, log, tables, notes, phase, controls, carried)?;
    Ok(yes)
}

/// Whether each control of each phase was carried out, within its phase, by what no other was; armed before, if it goes before
/// a request; and those without a condition in their order.
///
/// # Errors
/// Out of memory.
pub fn phases_are_carried(
    alloc: Global,
    script: &Script,
    log: &Log,
    tables: &SentTables,
    notes: &RunNotes,
) -> Result<bool, AllocError>
    ensures { IfOk result (λ yes. IsTrue yes ↔ ArePhasesCarried script.now log.now tables.now notes.now) }
{
    for k in 0..script.phases.len() {
        let Some(phase) = phase_at(script, k) else {
            return Ok(false);
        };
        if !is_phase_carried(alloc, log, tables, notes, k, phase.controls.as_slice())? {
            return Ok(false);
        }
    }
    Ok(true)
}
