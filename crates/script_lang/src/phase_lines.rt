ghost use Rattle.std.specs.Prelude.{◌≡◌, ◌<◌, [], map, IfOk, OnOk};
ghost use Rattle.script_lang.specs.code.Readings.{Leaves};
ghost use Rattle.script_lang.specs.code.Sessions.{HasNumber, TakesCalls};
ghost use Rattle.script_lang.specs.StatementText.{call_placed, call_read, call_said, control_added, control_read, is_great_action, new_phase, phases_read, phases_with, with_call as call_put};
ghost use Rattle.script_lang.specs.declared.drafts.Reading.TheVariants.{InScript};

use crate::calls::call_of;
use crate::controls::control_of;
use crate::drafts::{Draft, Part};
use crate::errors::ScriptKind;
use crate::fd_calls::Said;
use crate::scripts::{Action, CallLine, ControlLine, Phase, When};
use crate::statements::Refused;
use fop_types::{Call, Seq};
use std::alloc::{AllocError, Global};
use std::mem;
use volfile::is_name;

// Ends the phase that is read, if there is one, and begins the next.
pub(crate) fn with_phase(alloc: Global, draft: &mut Draft) -> Refused
    ensures { IfOk result (λ no. Leaves (new_phase draft.old) no (InScript draft.new)) }
{
    end_phase(alloc, draft)?;
    if draft.phases.len() >= 4096 {
        return Ok(Some(ScriptKind::TooMany));
    }
    draft.part = Part::Phases;
    draft.is_great = false;
    Ok(None)
}

// Puts the phase that is read, if there is one, behind those that have ended.
pub(crate) fn end_phase(alloc: Global, draft: &mut Draft) -> Result<(), AllocError>
    ensures { OnOk result (draft.new ≡ record draft.old { phases = phases_read draft.old; calls = []; controls = [] }) }
{
    let calls = mem::replace(&mut draft.calls, Seq::new(alloc));
    let controls = mem::replace(&mut draft.controls, Seq::new(alloc));
    put_phase(draft.part, &mut draft.phases, calls, controls)?;
    Ok(())
}

fn put_phase(
    part: Part,
    phases: &mut Seq<Phase>,
    calls: Seq<CallLine>,
    controls: Seq<ControlLine>,
) -> Result<(), AllocError>
    ensures { OnOk result (phases.new ≡ phases_with part phases.old calls controls) }
{
    match part {
        Part::Bricks => Ok(()),
        Part::Volfiles => Ok(()),
        Part::Start => Ok(()),
        Part::Phases => {
            phases.push(Phase { calls, controls })?;
            Ok(())
        }
    }
}

// What follows `do`.
pub(crate) fn add_call(alloc: Global, draft: &mut Draft, number: u32, words: &[&[u8]]) -> Refused
    ensures { IfOk result (λ no. Leaves (call_read draft.old number (map (λ w. w.now) words.now)) no (InScript draft.new)) }
{
    match words {
        [] => Ok(Some(ScriptKind::WordCount)),
        [_session] => Ok(Some(ScriptKind::WordCount)),
        [session, word, rest @ ..] => {
            let said = call_of(alloc, word, rest)?;
            with_said(alloc, draft, number, session, said)
        }
    }
}

fn with_said(alloc: Global, draft: &mut Draft, number: u32, session: &[u8], said: Said) -> Refused
    ensures { IfOk result (λ no. Leaves (call_said draft.old number session.now said) no (InScript draft.new)) }
{
    match said {
        Ok(call) => {
            let place = draft.sessions.place(session);
            match session_refusal(draft, session, place) {
                None => {
                    with_call(alloc, draft, number, session, place, call)?;
                    Ok(None)
                }
                Some(kind) => {
                    drop(call);
                    Ok(Some(kind))
                }
            }
        }
        Err(kind) => Ok(Some(kind)),
    }
}

// Why the session of this name and place takes no call, if it takes none.
fn session_refusal(draft: &Draft, name: &[u8], place: Option<u8>) -> Option<ScriptKind>
    ensures { TakesCalls draft.now name.now place result }
{
    if !is_name(name) {
        return Some(ScriptKind::BadWord);
    }
    if draft.call_count >= 4096 {
        return Some(ScriptKind::TooMany);
    }
    match place {
        Some(_session) => None,
        None => {
            if draft.sessions.len() >= 64 {
                return Some(ScriptKind::TooMany);
            }
            None
        }
    }
}

// A call of the session that has this place, or of the next one.
fn with_call(
    alloc: Global,
    draft: &mut Draft,
    number: u32,
    name: &[u8],
    place: Option<u8>,
    call: Call,
) -> Result<(), AllocError>
    requires count { draft.old.call_count < 4096 }
    requires session { HasNumber draft.old place }
    ensures { OnOk result (draft.new ≡ call_placed draft.old number name.now place call) }
{
    match place {
        Some(session) => put_call(draft, number, session, call),
        None => {
            let session = draft.sessions.len() as u8;
            put_call(draft, number, session, call)?;
            draft.sessions.push(Seq::from_bytes(alloc, name)?)?;
            Ok(())
        }
    }
}

fn put_call(draft: &mut Draft, number: u32, session: u8, call: Call) -> Result<(), AllocError>
    requires { draft.old.call_count < 4096 }
    ensures { OnOk result (draft.new ≡ call_put draft.old number session call) }
{
    draft.calls.push(CallLine {
        line: number,
        session,
        call,
    })?;
    draft.call_count += 1;
    Ok(())
}

// What follows `control`.
pub(crate) fn add_control(draft: &mut Draft, number: u32, words: &[&[u8]]) -> Refused
    ensures { IfOk result (λ no. Leaves (control_read draft.old number (map (λ w. w.now) words.now)) no (InScript draft.new)) }
{
    let said = control_of(&draft.bricks, &draft.volfiles, words);
    with_control(draft, number, said)
}

fn with_control(draft: &mut Draft, number: u32, said: Result<(When, Action), ScriptKind>) -> Refused
    ensures { IfOk result (λ no. Leaves (control_added draft.old number said) no (InScript draft.new)) }
{
    match said {
        Ok((when, action)) => {
            let is_great = action.is_great();
            if is_great && draft.is_great {
                return Ok(Some(ScriptKind::TwoGreat));
            }
            draft.is_great = draft.is_great || is_great;
            draft.controls.push(ControlLine {
                line: number,
                when,
                action,
            })?;
            Ok(None)
        }
        Err(kind) => Ok(Some(kind)),
    }
}

impl Action {
    // Whether it is a heal or a switch, of which a phase has at most one.
    fn is_great(self) -> bool
        ensures { result ≡ is_great_action self }
    {
        match self {
            Action::Down(_, _) => false,
            Action::Up(_) => false,
            Action::Cut(_) => false,
            Action::Fault(_, _, _) => false,
            Action::Heal => true,
            Action::Switch(_) => true,
        }
    }
}
