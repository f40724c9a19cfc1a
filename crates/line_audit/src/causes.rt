//! Whether each input that has a brick go down or up was sent for a cause.
ghost use Rattle.std.specs.Prelude.{◌≡◌, ◌<◌, ◌↔◌, IsTrue, Some, true, is_some, slice_get, IfOk};
ghost use Rattle.script_lang.specs.declared.scripts.Action.TheVariants as action;
ghost use Rattle.mount_log.specs.declared.logs.HubEvent.TheVariants as logged;
ghost use Rattle.mount_log.specs.Connects.{IsForDown};
ghost use Rattle.mount_log.specs.Follows.{IsEvent};
ghost use Rattle.mount_log.specs.Procedures.{proc_in};
ghost use Rattle.fop_types.specs.declared.messages.Input.TheVariants as input;
ghost use Rattle.wire_xdr.specs.WireText.{input_text};
ghost use Rattle.wire_messages.specs.Messages.{input_in};
ghost use Rattle.wire_messages.specs.declared.messages.Message.TheVariants.{Whole};
ghost use Rattle.log_audit.specs.Armed.{IsArmable, AreArmedFrom, IsAmong};
ghost use Rattle.line_audit.specs.Caused.{IsBeforeRequest, IsDownAt, IsInputCaused, IsInputCausedAt, IsCaused, IsCausedAt, AreCaused, AreCausedAt};

use fop_types::Input;
use log_audit::armed_lines::{ArmedLines, armed_at, none_armed};
use mount_log::by_number::event_at;
use mount_log::by_place::line_at;
use mount_log::requests::is_request;
use mount_log::{HubEvent, Log, SentLine};
use script_lang::Action;
use std::alloc::{AllocError, Global};
use wire_messages::{Message, input_of, messages_read_back};

// ---- up

fn is_up(a: &Action, brick: u8) -> bool
    ensures { IsTrue result ↔ (a.now ≡ action.Up brick) }
{
    match a {
        Action::Up(at) => *at == brick,
        _ => false,
    }
}

fn acts_up(event: &HubEvent, brick: u8) -> bool
    ensures { IsTrue result ↔ (event.now ≡ logged.Act (action.Up brick)) }
{
    match event {
        HubEvent::Act(a) => is_up(a, brick),
        _ => false,
    }
}

fn is_up_caused(log: &Log, line: &SentLine) -> bool
    ensures { IsTrue result ↔ IsEvent log.now line.now.event (logged.Act (action.Up line.now.brick)) }
{
    match event_at(log, line.event) {
        Some(event) => acts_up(event, line.brick),
        None => false,
    }
}

// ---- down

fn is_down(a: &Action, brick: u8, serve: u32) -> bool
    ensures { IsTrue result ↔ (a.now ≡ action.Down brick serve) }
{
    match a {
        Action::Down(at, number) => *at == brick && *number == serve,
        _ => false,
    }
}

fn acts_down(event: &HubEvent, brick: u8, serve: u32) -> bool
    ensures { IsTrue result ↔ (event.now ≡ logged.Act (action.Down brick serve)) }
{
    match event {
        HubEvent::Act(a) => is_down(a, brick, serve),
        _ => false,
    }
}

fn is_act_of_down(log: &Log, line: &SentLine, serve: u32) -> bool
    ensures { IsTrue result ↔ IsEvent log.now line.now.event (logged.Act (action.Down line.now.brick serve)) }
{
    match event_at(log, line.event) {
        Some(event) => acts_down(event, line.brick, serve),
        None => false,
    }
}

fn is_request_line(line: &SentLine) -> bool
    ensures { result ≡ is_some (proc_in line.now.bytes) }
{
    is_request(line.bytes.as_slice())
}

// Whether two lines were sent to the same brick in the same event.
fn are_together(a: &SentLine, b: &SentLine) -> bool
    ensures brick { result ≡ true → a.now.brick ≡ b.now.brick }
    ensures event { result ≡ true → a.now.event ≡ b.now.event }
    ensures complete { a.now.brick ≡ b.now.brick → a.now.event ≡ b.now.event → result ≡ true }
{
    a.brick == b.brick && a.event == b.event
}

// Whether the line at a place behind another is a request to the same brick in the same event.
fn is_before_request(log: &Log, k: usize, next: usize, line: &SentLine) -> bool
    ensures { IsTrue result ↔ IsBeforeRequest log.now.sent k next line.now }
{
    if next <= k {
        return false;
    }
    match line_at(log, next) {
        Some(request) => are_together(request, line) && is_request_line(request),
        None => false,
    }
}

// The armed lines that the line at a place is among, behind those that the line before was.
fn armed_by(
    alloc: Global,
    log: &Log,
    at: usize,
    before: ArmedLines,
) -> Result<ArmedLines, AllocError>
    requires { AreArmedFrom log.now.sent at before }
    ensures sound { IfOk result (λ armed. AreArmedFrom log.now.sent at armed) }
    ensures complete { IfOk result (λ armed. IsAmong log.now.sent at armed) }
{
    armed_at(alloc, log.sent.as_slice(), at, before)
}

// The armed lines that it is among are given.
fn is_down_caused(log: &Log, k: usize, line: &SentLine, serve: u32, armed: ArmedLines) -> bool
    requires there { slice_get log.now.sent k ≡ Some line.now }
    requires bytes { line.now.bytes ≡ input_text (input.Down serve) }
    requires armed { AreArmedFrom log.now.sent k armed }
    ensures sound { result ≡ true → IsForDown log.now line.now serve }
    ensures acted { IsEvent log.now line.now.event (logged.Act (action.Down line.now.brick serve)) → result ≡ true }
    ensures armed { IsBeforeRequest log.now.sent k armed.stop line.now → result ≡ true }
    ensures complete { k < armed.stop → IsDownAt log.now k line.now serve → result ≡ true }
{
    if is_act_of_down(log, line, serve) {
        return true;
    }
    is_before_request(log, k, armed.stop, line)
}

// ---- all

fn is_input_caused(log: &Log, k: usize, line: &SentLine, input: &Input, armed: ArmedLines) -> bool
    requires there { slice_get log.now.sent k ≡ Some line.now }
    requires bytes { line.now.bytes ≡ input_text input.now }
    requires armed { AreArmedFrom log.now.sent k armed }
    ensures sound { result ≡ true → IsInputCaused log.now line.now input.now }
    ensures complete { (IsArmable (Whole input.now) → k < armed.stop) → IsInputCausedAt log.now k line.now input.now → result ≡ true }
{
    match input {
        Input::Up => is_up_caused(log, line),
        Input::Down { serve } => is_down_caused(log, k, line, *serve, armed),
        _ => true,
    }
}

// The length of a Down; an Up is shorter.
const LONGEST: usize = 8;

fn is_caused(
    alloc: Global,
    log: &Log,
    k: usize,
    line: &SentLine,
    armed: ArmedLines,
) -> Result<bool, AllocError>
    requires there { slice_get log.now.sent k ≡ Some line.now }
    requires armed { AreArmedFrom log.now.sent k armed }
    ensures sound { IfOk result (λ yes. yes ≡ true → IsCaused log.now line.now (input_in line.now.bytes)) }
    ensures complete { IfOk result (λ yes. IsAmong log.now.sent k armed → IsCausedAt log.now k line.now (input_in line.now.bytes) → yes ≡ true) }
{
    messages_read_back();
    if line.bytes.len() > LONGEST {
        return Ok(true);
    }
    match input_of(alloc, line.bytes.as_slice())? {
        Message::Whole(input) => {
            let yes = is_input_caused(log, k, line, &input, armed);
            drop(input);
            Ok(yes)
        }
        Message::Wrong { place: _ } => Ok(true),
    }
}

/// Whether each line that was sent has its cause, as far as it has a brick go down or up.
///
/// # Errors
/// Out of memory.
pub fn lines_are_caused(alloc: Global, log: &Log) -> Result<bool, AllocError>
    ensures sound { IfOk result (λ yes. yes ≡ true → AreCaused log.now) }
    ensures complete { IfOk result (λ yes. AreCausedAt log.now → yes ≡ true) }
{
    let mut armed = none_armed();
    for k in 0..log.sent.len() {
        let Some(line) = line_at(log, k) else {
            return Ok(false);
        };
        armed = armed_by(alloc, log, k, armed)?;
        if !is_caused(alloc, log, k, line, armed)? {
            return Ok(false);
        }
    }
    Ok(true)
}
