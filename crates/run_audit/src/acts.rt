//! Whether each action of a log is that of a control, and what is armed is a control.
ghost use Rattle.std.specs.Prelude.{◌≡◌, ◌≤◌, ◌↔◌, IsTrue, true, None, Some, length, slice_get, option_copied};
ghost use Rattle.script_lang.specs.declared.scripts.ControlLine.{ControlLine as Line};
ghost use Rattle.script_lang.specs.declared.scripts.When.TheVariants as moment;
ghost use Rattle.mount_log.specs.Controls.{control_at, IsCarriedAt, IsControlBefore};
ghost use Rattle.run_audit.specs.Noted.{how_at, carried_at, sent_at, armed_at, noted_for, course_of};
ghost use Rattle.run_audit.specs.Controlled.{AreNoted, IsOfControl, AreOfControls};

use crate::carried::is_same;
use crate::run_notes::{Carried, ControlAt, RunNotes, control_of};
use fop_types::Proc;
use mount_log::by_place::event_at;
use mount_log::{HubEvent, Log};
use script_lang::{Action, ControlLine, Script, When};

// How the control at a place was carried out.
fn how_of(notes: &RunNotes, at: ControlAt) -> Option<&Carried>
    ensures { option_copied result ≡ how_at notes.now.carried at.phase at.at }
{
    match notes.carried.as_slice().get(at.phase) {
        Some(carried) => carried.as_slice().get(at.at),
        None => None,
    }
}

/// The event in which the control at a place was carried out, 0 where there is none.
pub fn number_of(notes: &RunNotes, at: ControlAt) -> u64
    ensures { result ≡ carried_at notes.now.carried at.phase at.at }
{
    match how_of(notes, at) {
        Some(how) => how.event,
        None => 0,
    }
}

/// The place of the line that carried out the control at a place, if one did.
pub fn sent_of(notes: &RunNotes, at: ControlAt) -> Option<usize>
    ensures { result ≡ sent_at notes.now.carried at.phase at.at }
{
    match how_of(notes, at) {
        Some(how) => how.sent,
        None => None,
    }
}

fn armed_of(notes: &RunNotes, at: ControlAt) -> u64
    ensures { result ≡ armed_at notes.now.carried at.phase at.at }
{
    match how_of(notes, at) {
        Some(how) => how.armed,
        None => 0,
    }
}

// Whether the control at a place has the action, and was carried out by the event.
fn is_carried_at(
    script: &Script,
    notes: &RunNotes,
    last: u64,
    at: ControlAt,
    number: u64,
    action: Action,
) -> bool
    ensures sound { result ≡ true → IsCarriedAt script.now (course_of notes.now last) number action }
    ensures complete { (c : Line) → control_at script.now at.phase at.at ≡ Some c → carried_at notes.now.carried at.phase at.at ≡ number → sent_at notes.now.carried at.phase at.at ≡ None → c.action ≡ action → result ≡ true }
{
    if number_of(notes, at) != number || sent_of(notes, at).is_some() {
        return false;
    }
    match control_of(script, at) {
        Some(control) => is_same(control.action, action),
        None => false,
    }
}

fn is_before(when: When, brick: u8, proc: Proc, count: u32) -> bool
    ensures { IsTrue result ↔ (when ≡ moment.Before brick proc count) }
{
    match when {
        When::Before(at, which, nth) => at == brick && which == proc && nth == count,
        _ => false,
    }
}

fn is_control(control: &ControlLine, brick: u8, proc: Proc, count: u32, action: Action) -> bool
    ensures when { result ≡ true → control.now.when ≡ moment.Before brick proc count }
    ensures action { result ≡ true → control.now.action ≡ action }
    ensures complete { control.now.when ≡ moment.Before brick proc count → control.now.action ≡ action → result ≡ true }
{
    is_before(control.when, brick, proc, count) && is_same(control.action, action)
}

// Whether the control at a place has the action, to be carried out before the request, and was armed in the event.
fn is_control_before(
    script: &Script,
    notes: &RunNotes,
    last: u64,
    at: ControlAt,
    number: u64,
    brick: u8,
    proc: Proc,
    count: u32,
    action: Action,
) -> bool
    ensures sound { result ≡ true → IsControlBefore script.now (course_of notes.now last) number brick proc count action }
    ensures complete { (c : Line) → control_at script.now at.phase at.at ≡ Some c → armed_at notes.now.carried at.phase at.at ≡ number → c.when ≡ moment.Before brick proc count → c.action ≡ action → result ≡ true }
{
    match control_of(script, at) {
        Some(control) => {
            is_control(control, brick, proc, count, action) && armed_of(notes, at) == number
        }
        None => false,
    }
}

fn is_of_control(
    script: &Script,
    notes: &RunNotes,
    last: u64,
    at: ControlAt,
    number: u64,
    event: &HubEvent,
) -> bool
    ensures sound { result ≡ true → IsOfControl script.now notes.now last number event.now }
    ensures complete { AreNoted script.now notes.now → 1 ≤ number → noted_for notes.now number None ≡ Some at → IsOfControl script.now notes.now last number event.now → result ≡ true }
{
    match event {
        HubEvent::Act(action) => is_carried_at(script, notes, last, at, number, *action),
        HubEvent::Arm(brick, proc, count, action) => {
            is_control_before(
                script, notes, last, at, number, *brick, *proc, *count, *action,
            )
        }
        _ => true,
    }
}

/// Whether each action of the log is that of a control which is carried out there, and what is armed are controls. Of an event,
/// it looks at the control that is noted for it.
pub fn acts_are_of_controls(script: &Script, log: &Log, notes: &RunNotes) -> bool
    ensures sound { result ≡ true → AreOfControls script.now notes.now log.now }
    ensures complete { AreNoted script.now notes.now → length log.now.events ≤ length notes.now.by_event → AreOfControls script.now notes.now log.now → result ≡ true }
{
    let last = log.events.len() as u64;
    for k in 0..log.events.len() {
        let Some(event) = event_at(log, k) else {
            return false;
        };
        let Some(at) = notes.by_event.as_slice().get(k) else {
            return false;
        };
        if !is_of_control(script, notes, last, *at, k as u64 + 1, event) {
            return false;
        }
    }
    true
}
