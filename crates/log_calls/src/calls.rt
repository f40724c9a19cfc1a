//! The calls of a log, and the events that submit them.
ghost use Rattle.std.specs.Prelude.{◌≡◌, [], true, length, map, option_copied, slice_get, IfOk, IfSome};
ghost use Rattle.script_lang.specs.Accepted.{IsAccepted};
ghost use Rattle.mount_log.specs.Lines.{line_of};
ghost use Rattle.mount_log.specs.Submissions.{submissions_from};
ghost use Rattle.log_calls.specs.Events.{Submits, submit_events, submitter as submitter_of};
ghost use Rattle.log_calls.specs.Gathering.{Gathers};

use mount_log::{HubEvent, LineAt, lines_of_sessions, take_line};
use script_lang::{CallLine, Phase, Script};
use std::alloc::{AllocError, Global};
use std::collections::VecDeque;
use submitted_calls::Submitted;

/// The calls that the events of a log submit, by their numbers, and the number of the event that submits each.
#[derive(Drop)]
pub struct Calls<'a> {
    pub calls: Vec<Submitted<'a>>,
    pub events: Vec<u64>,
}

fn phase_at(script: &Script, phase: u32) -> Option<&Phase>
    ensures { option_copied result ≡ slice_get script.now.phases phase }
{
    script.phases.as_slice().get(phase as usize)
}

fn call_in(phase: &Phase, index: u32) -> Option<&CallLine>
    ensures { option_copied result ≡ slice_get phase.now.calls index }
{
    phase.calls.as_slice().get(index as usize)
}

fn line_at(script: &Script, at: LineAt) -> Option<&CallLine>
    ensures { option_copied result ≡ line_of script.now at }
{
    match phase_at(script, at.phase) {
        Some(phase) => call_in(phase, at.index),
        None => None,
    }
}

// The next call of a session, `None` where it has no line left.
fn next_call<'a>(
    script: &'a Script,
    queues: &mut Vec<VecDeque<LineAt>>,
    session: u8,
) -> Option<Submitted<'a>>
    ensures { IfSome result (λ s. Submits script.now (map (λ q. q.items) queues.old.items) session s (map (λ q. q.items) queues.new.items)) }
{
    let Some(at) = take_line(queues, session) else {
        return None;
    };
    match line_at(script, at) {
        None => None,
        Some(line) => Some(Submitted {
            session,
            call: &line.call,
        }),
    }
}

// The session that submits a call in an event, if one does.
fn submitter(event: &HubEvent) -> Option<u8>
    ensures { result ≡ submitter_of event.now }
{
    match event {
        HubEvent::Submit { session, .. } => Some(*session),
        _ => None,
    }
}

// What was gathered from events: the calls with the numbers of their events, and the lines that sessions have left.
#[derive(Drop)]
pub(crate) struct Gathered<'a> {
    pub queues: Vec<VecDeque<LineAt>>,
    pub calls: Vec<Submitted<'a>>,
    pub numbers: Vec<u64>,
}

impl<'a> Gathered<'a> {
    // Gathers the call that an event of this number submits, if it does. It is false where the session has no line left.
    fn gather(
        &mut self,
        script: &'a Script,
        number: u64,
        event: &HubEvent,
    ) -> Result<bool, AllocError>
        ensures { IfOk result (λ did. did ≡ true → Gathers script.now (submitter_of event.now) number self.old self.new) }
    {
        let Some(session) = submitter(event) else {
            return Ok(true);
        };
        let Some(call) = next_call(script, &mut self.queues, session) else {
            return Ok(false);
        };
        self.calls.push(call)?;
        self.numbers.push(number)?;
        Ok(true)
    }
}

/// The calls that events submit, each the next line of its session. `None` where one submits no line of the script.
///
/// # Errors
/// Out of memory.
#[tactic(auto, using(crate::proofs::Calling::gathered_none, crate::proofs::Calling::calls_all, crate::proofs::Calling::numbers_all))]
pub fn calls_in<'a>(
    alloc: Global,
    script: &'a Script,
    events: &[HubEvent],
) -> Result<Option<Calls<'a>>, AllocError>
    requires { IsAccepted script.now }
    ensures calls { IfOk result (λ o. IfSome o (λ c. c.calls.items ≡ submissions_from script.now [] events.now)) }
    ensures events { IfOk result (λ o. IfSome o (λ c. c.events.items ≡ submit_events 0 events.now)) }
    ensures long { IfOk result (λ o. IfSome o (λ c. length c.events.items ≡ length c.calls.items)) }
{
    let mut gathered = Gathered {
        queues: lines_of_sessions(alloc, script)?,
        calls: Vec::new(alloc),
        numbers: Vec::new(alloc),
    };
    for at in 0..events.len() {
        if !gathered.gather(script, at as u64 + 1, &events[at])? {
            return Ok(None);
        }
    }
    Ok(Some(Calls {
        calls: gathered.calls,
        events: gathered.numbers,
    }))
}
