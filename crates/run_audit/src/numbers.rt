//! The numbers of the events in which something was done, in order.
ghost use Rattle.std.specs.Prelude.{◌≡◌, ◌++◌, ◌∷◌, ◌↔◌, IsTrue, ℕ, List, map, IfOk, OnOk, if◌then◌else◌};
ghost use Rattle.mount_log.specs.Phases.{is_internal, begins_internal, internal_from, has_output, is_owed, owed_in, arrived_from, opened_in, ended_in};
ghost use Rattle.wire_messages.specs.Messages.{input_in};
ghost use Rattle.mount_log.specs.Heads.{heads_of};
ghost use Rattle.run_audit.specs.Counting.{does_rise, due_from, is_due_head, with_answers, AreNumbers, DoAllRise};

use fop_types::{Input, Seq};
use mount_log::heads::{Head, Said};
use mount_log::{HubEvent, Log, ReplyLine, SentLine, WindLine};
use script_lang::Action;
use std::alloc::{AllocError, Global};
use wire_messages::{Message, input_of};

/// The numbers of events of a log: of its replies; of heals and switches, and of their answers; of what was sent that has an
/// output, and of the arrivals of such outputs; of the winds that were opened, and of those that ended.
#[derive(Drop)]
pub struct Numbers {
    pub replied: Seq<u64>,
    pub internal: Seq<u64>,
    pub answered: Seq<u64>,
    pub owed: Seq<u64>,
    pub arrived: Seq<u64>,
    pub opened: Seq<u64>,
    pub ended: Seq<u64>,
}

impl Numbers {
    // The answers of heals and switches are known, and nothing else.
    fn new(alloc: Global, answered: Seq<u64>) -> Numbers
        ensures { result ≡ with_answers answered }
    {
        Numbers {
            replied: Seq::new(alloc),
            internal: Seq::new(alloc),
            answered,
            owed: Seq::new(alloc),
            arrived: Seq::new(alloc),
            opened: Seq::new(alloc),
            ended: Seq::new(alloc),
        }
    }

    // Adds all others.
    fn note(&mut self, alloc: Global, log: &Log, heads: &[Head]) -> Result<(), AllocError>
        requires none { self.old ≡ with_answers log.now.answered }
        requires heads { heads.now ≡ heads_of log.now.events }
        ensures { OnOk result (AreNumbers log.now self.new) }
    {
        add_replied(&mut self.replied, log.replies.as_slice())?;
        add_internal(&mut self.internal, log.events.as_slice())?;
        add_owed(alloc, &mut self.owed, log.sent.as_slice())?;
        add_arrivals(&mut self.arrived, log, heads)?;
        add_opened(&mut self.opened, log.winds.as_slice())?;
        add_ended(&mut self.ended, log.winds.as_slice())?;
        Ok(())
    }
}

// Puts a number behind others, if it is to be there.
fn push_if(numbers: &mut Seq<u64>, yes: bool, number: u64) -> Result<(), AllocError>
    ensures { OnOk result ((rest : List ℕ) → numbers.new ++ rest ≡ numbers.old ++ (if yes then number ∷ rest else rest)) }
{
    if !yes {
        return Ok(());
    }
    numbers.push(number)?;
    Ok(())
}

fn add_replied(numbers: &mut Seq<u64>, replies: &[ReplyLine]) -> Result<(), AllocError>
    ensures { OnOk result (numbers.new ≡ numbers.old ++ map (λ r. r.event) replies.now) }
{
    for reply in replies {
        numbers.push(reply.event)?;
    }
    Ok(())
}

// ---- heals and switches

fn is_internal(a: &Action) -> bool
    ensures { result ≡ is_internal a.now }
{
    match a {
        Action::Heal => true,
        Action::Switch(_) => true,
        _ => false,
    }
}

fn begins_internal(event: &HubEvent) -> bool
    ensures { result ≡ begins_internal event.now }
{
    match event {
        HubEvent::Act(a) => is_internal(a),
        _ => false,
    }
}

fn add_internal(numbers: &mut Seq<u64>, events: &[HubEvent]) -> Result<(), AllocError>
    ensures { OnOk result (numbers.new ≡ numbers.old ++ internal_from 1 events.now) }
{
    for k in 0..events.len() {
        push_if(numbers, begins_internal(&events[k]), k as u64 + 1)?;
    }
    Ok(())
}

// ---- outputs

fn has_output(input: &Input) -> bool
    ensures { result ≡ has_output input.now }
{
    match input {
        Input::Request { .. } => true,
        Input::Down { .. } => true,
        Input::Up => true,
        _ => false,
    }
}

fn is_owed(alloc: Global, line: &SentLine) -> Result<bool, AllocError>
    ensures { IfOk result (λ yes. yes ≡ is_owed (input_in line.now.bytes)) }
{
    match input_of(alloc, line.bytes.as_slice())? {
        Message::Whole(input) => {
            let owed = has_output(&input);
            drop(input);
            Ok(owed)
        }
        Message::Wrong { place: _ } => Ok(false),
    }
}

fn add_owed(alloc: Global, numbers: &mut Seq<u64>, sent: &[SentLine]) -> Result<(), AllocError>
    ensures { OnOk result (numbers.new ≡ numbers.old ++ owed_in sent.now) }
{
    for line in sent {
        let owed = is_owed(alloc, line)?;
        push_if(numbers, owed, line.event)?;
    }
    Ok(())
}

fn is_due(said: Said) -> bool
    ensures { result ≡ is_due_head said }
{
    match said {
        Said::Other => false,
        _ => true,
    }
}

fn add_due(numbers: &mut Seq<u64>, heads: &[Head]) -> Result<(), AllocError>
    ensures { OnOk result (numbers.new ≡ numbers.old ++ due_from 1 heads.now) }
{
    for k in 0..heads.len() {
        push_if(numbers, is_due(heads[k].said), k as u64 + 1)?;
    }
    Ok(())
}

// Adds the events in which such outputs arrived, where these are the heads of what arrives in the log's events.
fn add_arrivals(numbers: &mut Seq<u64>, log: &Log, heads: &[Head]) -> Result<(), AllocError>
    requires { heads.now ≡ heads_of log.now.events }
    ensures { OnOk result (numbers.new ≡ numbers.old ++ arrived_from 1 log.now.events) }
{
    let _ = log;
    add_due(numbers, heads)?;
    Ok(())
}

// ---- winds

fn add_opened(numbers: &mut Seq<u64>, winds: &[WindLine]) -> Result<(), AllocError>
    ensures { OnOk result (numbers.new ≡ numbers.old ++ opened_in winds.now) }
{
    for line in winds {
        push_if(numbers, line.opened, line.event)?;
    }
    Ok(())
}

fn add_ended(numbers: &mut Seq<u64>, winds: &[WindLine]) -> Result<(), AllocError>
    ensures { OnOk result (numbers.new ≡ numbers.old ++ ended_in winds.now) }
{
    for line in winds {
        push_if(numbers, !line.opened, line.event)?;
    }
    Ok(())
}

// ---- all

/// The numbers of the events of a log, whose arrivals have these heads.
///
/// # Errors
/// Out of memory.
pub fn numbers_of(alloc: Global, log: &Log, heads: &[Head]) -> Result<Numbers, AllocError>
    requires { heads.now ≡ heads_of log.now.events }
    ensures { IfOk result (λ numbers. AreNumbers log.now numbers) }
{
    let answered = log.answered.copy(alloc)?;
    let mut numbers = Numbers::new(alloc, answered);
    let done = numbers.note(alloc, log, heads);
    done.and(Ok(numbers))
}

fn do_not_fall(numbers: &[u64]) -> bool
    ensures { result ≡ does_rise 0 numbers.now }
{
    let mut floor = 0u64;
    for number in numbers {
        if floor > *number {
            return false;
        }
        floor = *number;
    }
    true
}

/// Whether the numbers of each kind do not fall.
pub fn do_all_rise(numbers: &Numbers) -> bool
    ensures { IsTrue result ↔ DoAllRise numbers.now }
{
    do_not_fall(numbers.replied.as_slice())
        && do_not_fall(numbers.internal.as_slice())
        && do_not_fall(numbers.answered.as_slice())
        && do_not_fall(numbers.owed.as_slice())
        && do_not_fall(numbers.arrived.as_slice())
        && do_not_fall(numbers.opened.as_slice())
        && do_not_fall(numbers.ended.as_slice())
}
