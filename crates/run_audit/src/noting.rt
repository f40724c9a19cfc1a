//! Notes of a run, from its script and its log.

use crate::phase_notes::{InPhase, NO_CONTROL};
use crate::run_notes::{ControlAt, RunNotes};
use fop_types::Seq;
use mount_log::{HubEvent, Log};
use script_lang::Script;
use std::alloc::{AllocError, Global};
use std::mem;

/// What was found so far: the notes, the phase, and how many of the lines and the replies were passed.
#[derive(Drop)]
pub struct Noting {
    notes: RunNotes,
    now: InPhase,
    sent: usize,
    replied: usize,
}

impl Noting {
    // The phase ends with an event.
    fn end(&mut self, alloc: Global, number: u64) -> Result<(), AllocError> {
        let carried = self.now.leave(alloc);
        self.notes.carried.push(Seq::from_vec(carried))?;
        self.notes.ended.push(number)?;
        Ok(())
    }

    fn next_phase(
        &mut self,
        alloc: Global,
        script: &Script,
        number: u64,
    ) -> Result<(), AllocError> {
        self.end(alloc, number)?;
        self.now.begin(alloc, script)
    }

    fn has_next(&self, script: &Script) -> bool {
        self.now.phase.saturating_add(1) < script.phases.len()
    }

    // Passes the replies that were given by an event.
    fn pass_replies(&mut self, log: &Log, number: u64) {
        for _ in self.replied..log.replies.len() {
            let Some(reply) = log.replies.as_slice().get(self.replied) else {
                return;
            };
            if reply.event > number {
                return;
            }
            self.replied = self.replied.saturating_add(1);
        }
    }

    // The phases that had nothing left after an event end with it.
    fn move_on(
        &mut self,
        alloc: Global,
        script: &Script,
        log: &Log,
        number: u64,
    ) -> Result<(), AllocError> {
        self.pass_replies(log, number);
        for _ in 0..script.phases.len() {
            if !self.has_next(script) || !self.now.is_done(self.replied) {
                return Ok(());
            }
            self.next_phase(alloc, script, number)?;
        }
        Ok(())
    }

    // The control that an event carries out or arms, behind those of earlier events.
    fn control_of(
        &mut self,
        alloc: Global,
        script: &Script,
        log: &Log,
        before: u64,
        event: &HubEvent,
    ) -> Result<ControlAt, AllocError> {
        match event {
            HubEvent::Submit { .. } => {
                self.move_on(alloc, script, log, before)?;
                Ok(NO_CONTROL)
            }
            HubEvent::Act(_) => {
                self.move_on(alloc, script, log, before)?;
                Ok(self.now.act(script, before.saturating_add(1)))
            }
            HubEvent::Arm(_, _, _, _) => {
                self.move_on(alloc, script, log, before)?;
                self.now.arm(script, before.saturating_add(1))
            }
            _ => Ok(NO_CONTROL),
        }
    }

    // Passes the lines that were sent by an event.
    fn pass_sent(&mut self, alloc: Global, log: &Log, number: u64) -> Result<(), AllocError> {
        for place in self.sent..log.sent.len() {
            let Some(line) = log.sent.as_slice().get(place) else {
                return Ok(());
            };
            if line.event > number {
                return Ok(());
            }
            self.sent = place.saturating_add(1);
            self.now.sent(alloc, line, place)?;
        }
        Ok(())
    }

    fn event(
        &mut self,
        alloc: Global,
        script: &Script,
        log: &Log,
        before: u64,
        event: &HubEvent,
    ) -> Result<(), AllocError> {
        let control = self.control_of(alloc, script, log, before, event)?;
        self.notes.by_event.push(control)?;
        self.pass_sent(alloc, log, before.saturating_add(1))
    }

    // The phases that are left end with the last event.
    fn finish(&mut self, alloc: Global, script: &Script, last: u64) -> Result<(), AllocError> {
        for _ in 0..script.phases.len() {
            if !self.has_next(script) {
                break;
            }
            self.next_phase(alloc, script, last)?;
        }
        let by_line = self.now.take_lines(alloc);
        self.notes.by_line = Seq::from_vec(by_line);
        self.end(alloc, last)
    }

    // All events, one after another.
    fn note_all(&mut self, alloc: Global, script: &Script, log: &Log) -> Result<(), AllocError> {
        self.now.begin(alloc, script)?;
        let events = log.events.as_slice();
        for k in 0..events.len() {
            self.event(alloc, script, log, k as u64, &events[k])?;
        }
        self.finish(alloc, script, events.len() as u64)
    }
}

fn no_notes(alloc: Global) -> RunNotes {
    RunNotes {
        carried: Seq::new(alloc),
        ended: Seq::new(alloc),
        by_event: Seq::new(alloc),
        by_line: Seq::new(alloc),
    }
}

/// The notes of a run, as far as its log shows them. A phase ends directly before the first event that submits a call of a
/// later one, or carries out or arms a control of a later one.
///
/// # Errors
/// Out of memory.
pub fn notes_of(alloc: Global, script: &Script, log: &Log) -> Result<RunNotes, AllocError> {
    let mut noting = Noting {
        notes: no_notes(alloc),
        now: InPhase::new(alloc),
        sent: 0,
        replied: 0,
    };
    let done = noting.note_all(alloc, script, log);
    let notes = mem::replace(&mut noting.notes, no_notes(alloc));
    drop(noting);
    done.and(Ok(notes))
}
