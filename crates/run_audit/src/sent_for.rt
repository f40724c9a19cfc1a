//! Whether each Down and FaultAt was sent for an action's event, or as an armed control.
ghost use Rattle.std.specs.Prelude.{◌≡◌, ◌<◌, ◌↔◌, IsTrue, true, Some, length, slice_get, IfOk, IfSome};
ghost use Rattle.mount_log.specs.declared.logs.SentLine.{SentLine as Line};
ghost use Rattle.script_lang.specs.declared.scripts.Action.{Action as Act};
ghost use Rattle.script_lang.specs.declared.scripts.ControlLine.{ControlLine as Control};
ghost use Rattle.mount_log.specs.Arms.{action_for};
ghost use Rattle.mount_log.specs.Controls.{control_at, IsSentFor};
ghost use Rattle.run_audit.specs.Noted.{sent_at, course_of};
ghost use Rattle.run_audit.specs.Controlled.{AreNoted};
ghost use Rattle.run_audit.specs.declared.run_notes.ControlAt.{ControlAt as Place};
ghost use Rattle.run_audit.specs.SentFor.{HasControl, HasAction, IsActionOf, IsFirst, IsLineSentFor, AreSentFor};

use crate::acts::sent_of;
use crate::carried::is_act;
use crate::run_notes::{ControlAt, RunNotes, control_of};
use fop_types::Input;
use mount_log::by_place::line_at;
use mount_log::{Log, SentLine};
use script_lang::{Action, Script};
use std::alloc::{AllocError, Global};
use wire_messages::{Message, input_of, messages_read_back};

fn action_for(brick: u8, input: &Input) -> Option<Action>
    ensures { result ≡ action_for brick input.now }
{
    match input {
        Input::Down { serve } => Some(Action::Down(brick, *serve)),
        Input::FaultAt { proc, number } => Some(Action::Fault(brick, *proc, *number)),
        _ => None,
    }
}

// The length of the longest input that can be armed, in bytes.
const LONGEST: usize = 12;

// The action by which bytes are sent to a brick, if they can be armed.
fn action_in(alloc: Global, brick: u8, bytes: &[u8]) -> Result<Option<Action>, AllocError>
    ensures has { IfOk result (λ found. HasAction brick bytes.now found) }
    ensures is { IfOk result (λ found. IfSome found (λ action. IsActionOf brick bytes.now action)) }
{
    messages_read_back();
    if bytes.len() > LONGEST {
        return Ok(None);
    }
    match input_of(alloc, bytes)? {
        Message::Whole(input) => {
            let found = action_for(brick, &input);
            drop(input);
            Ok(found)
        }
        Message::Wrong { place: _ } => Ok(None),
    }
}

// Whether a line is the first of its event.
fn is_first(log: &Log, k: usize, number: u64) -> bool
    ensures sound { result ≡ true → IsFirst log.now.sent k number }
    ensures complete { k < length log.now.sent → IsFirst log.now.sent k number → result ≡ true }
{
    if k == 0 {
        return true;
    }
    match line_at(log, k - 1) {
        Some(before) => before.event < number,
        None => false,
    }
}

fn has_control(script: &Script, at: ControlAt) -> bool
    ensures sound { result ≡ true → HasControl script.now at.phase at.at }
    ensures complete { (c : Control) → control_at script.now at.phase at.at ≡ Some c → result ≡ true }
{
    match control_of(script, at) {
        Some(_) => true,
        None => false,
    }
}

// Whether the control at a place was carried out by the line.
fn is_control_line(script: &Script, log: &Log, notes: &RunNotes, at: ControlAt, k: usize) -> bool
    ensures sound { result ≡ true → (line : Line) (a : Act) → IsSentFor script.now log.now (course_of notes.now (length log.now.events)) k line a }
    ensures complete { (c : Control) → control_at script.now at.phase at.at ≡ Some c → sent_at notes.now.carried at.phase at.at ≡ Some k → result ≡ true }
{
    let _ = log;
    match sent_of(notes, at) {
        Some(place) => place == k && has_control(script, at),
        None => false,
    }
}

// The control that is noted for a line.
fn noted_for(notes: &RunNotes, k: usize) -> ControlAt
    ensures { (at : Place) → slice_get notes.now.by_line k ≡ Some at → result ≡ at }
{
    match notes.by_line.as_slice().get(k) {
        Some(at) => *at,
        None => ControlAt { phase: 0, at: 0 },
    }
}

// Whether a line that sends an action's input was sent for it.
fn has_cause(
    script: &Script,
    log: &Log,
    notes: &RunNotes,
    k: usize,
    line: &SentLine,
    action: Action,
) -> bool
    ensures sound { result ≡ true → IsSentFor script.now log.now (course_of notes.now (length log.now.events)) k line.now action }
    ensures complete { AreNoted script.now notes.now → k < length log.now.sent → IsSentFor script.now log.now (course_of notes.now (length log.now.events)) k line.now action → result ≡ true }
{
    if is_act(log, line.event, action) && is_first(log, k, line.event) {
        return true;
    }
    is_control_line(script, log, notes, noted_for(notes, k), k)
}

fn is_sent_for(
    alloc: Global,
    script: &Script,
    log: &Log,
    notes: &RunNotes,
    k: usize,
    line: &SentLine,
) -> Result<bool, AllocError>
    ensures sound { IfOk result (λ yes. yes ≡ true → IsLineSentFor script.now log.now (course_of notes.now (length log.now.events)) k line.now) }
    ensures complete { IfOk result (λ yes. AreNoted script.now notes.now → k < length log.now.sent → IsLineSentFor script.now log.now (course_of notes.now (length log.now.events)) k line.now → yes ≡ true) }
{
    let found = action_in(alloc, line.brick, line.bytes.as_slice())?;
    match found {
        Some(action) => Ok(has_cause(script, log, notes, k, line, action)),
        None => Ok(true),
    }
}

/// Whether each Down and FaultAt was sent for an action's event, as its first line, or as an armed control.
///
/// # Errors
/// Out of memory.
pub fn lines_are_sent_for(
    alloc: Global,
    script: &Script,
    log: &Log,
    notes: &RunNotes,
) -> Result<bool, AllocError>
    ensures sound { IfOk result (λ yes. yes ≡ true → AreSentFor script.now log.now (course_of notes.now (length log.now.events))) }
    ensures complete { IfOk result (λ yes. AreNoted script.now notes.now → AreSentFor script.now log.now (course_of notes.now (length log.now.events)) → yes ≡ true) }
{
    for k in 0..log.sent.len() {
        let Some(line) = line_at(log, k) else {
            return Ok(false);
        };
        if !is_sent_for(alloc, script, log, notes, k, line)? {
            return Ok(false);
        }
    }
    Ok(true)
}
