//! What an event moves, with what decides what is due; and how an event is closed.
ghost use Rattle.std.specs.Prelude.{ℕ, ◌≡◌, ◌==◌, ◌+◌, ◌∷◌, [], not, length, slice_get, IsSome, IsOk, IsErr, IsErrOf, OnOk, OnErr, IfErr};
ghost use Rattle.mount_log.specs.Logs.{with_lines};
ghost use Rattle.hub_tables.specs.Agendas.{new_agenda, with_phase, with_sends, outgoing, moved_on, next_agenda};
ghost use Rattle.hub_tables.specs.Sessions.{first_line};
ghost use Rattle.hub_calls.specs.Dues.{is_idle, ready_in};
ghost use Rattle.hub_calls.specs.EventNumbers.{AreOfEvent, IsCutOff, numbered, going_out, written_lines};
ghost use Rattle.hub_calls.specs.Live.{HasNoGraphs, volfiles_in};
ghost use Rattle.hub_calls.specs.Hubs.{AddsEvent, GoesOut, IsAfterStop, new_replies, new_sent, is_answered_in};

use crate::numbering::{UNNUMBERED, next_number};
use crate::parts::Parts;
use crate::planned::Planned;
use crate::writing::add_lines;
use hub_tables::Agenda;
use mount_log::{HubEvent, Log};
use std::alloc::{AllocError, Global};
use xlator_law::Stop;

/// The parts of a hub that events move, and the agenda, which decides what is due.
pub struct Engine {
    pub parts: Parts,
    pub agenda: Agenda,
}

impl Engine {
    /// The engine before anything has happened. It takes no memory.
    pub(crate) fn new(alloc: Global, on: &Planned) -> Engine
        ensures agenda { result.agenda ≡ new_agenda }
        ensures graphs { HasNoGraphs result.parts.graphs.live }
    {
        Engine {
            parts: Parts::new(alloc, on),
            agenda: Agenda::new(alloc),
        }
    }

    /// Ends the engine, with all that it has.
    pub(crate) fn discard(self) {
        let Engine { parts, agenda } = self;
        parts.discard();
        drop(agenda);
    }

    /// Whether no task is ready.
    pub(crate) fn is_idle(&self, on: &Planned) -> bool
        ensures { result ≡ is_idle (ready_in on.now.plans self.now.parts.graphs.nodes.tasks) }
    {
        if on.has_queues() {
            self.parts.graphs.nodes.tasks_len() == 0
        } else {
            true
        }
    }

    // What was sent goes out.
    fn send_out(&mut self, alloc: Global) -> Result<(), AllocError>
        ensures agenda { OnOk result (self.new.agenda ≡ with_sends self.old.agenda self.new.parts.turn.lines.sent) }
        ensures sent { OnOk result (self.new.parts.turn.lines.sent ≡ outgoing self.old.agenda.controls self.old.parts.turn.lines.sent) }
        ensures lines { OnOk result (self.new.parts ≡ record (self.old.parts) { turn = record (self.old.parts.turn) { lines = record (self.old.parts.turn.lines) { sent = self.new.parts.turn.lines.sent } } }) }
        ensures numbered { OnOk result ((n : ℕ) → AreOfEvent n self.old.parts.turn.lines → AreOfEvent n self.new.parts.turn.lines) }
    {
        let sends = self.parts.turn.take_sends(alloc);
        let sent = self.agenda.send_out(alloc, sends)?;
        self.parts.turn.put_sent(sent);
        Ok(())
    }

    /// Makes the first graph, and begins the first phase that has something left. What the graph sends is written to the log, with
    /// event number 0.
    ///
    /// # Errors
    /// Out of memory.
    #[tactic(auto, using(crate::proofs::Additions::adds_no_event, crate::proofs::Agendas::agenda_begun))]
    pub(crate) fn begin(
        &mut self,
        alloc: Global,
        on: &Planned,
        log: &mut Log,
    ) -> Result<(), AllocError>
        ensures first { OnOk result (HasNoGraphs self.old.parts.graphs.live → IsSome (slice_get on.now.plans on.now.script.start) → volfiles_in self.new.parts.graphs.live.graphs.entries ≡ (1, on.now.script.start) ∷ []) }
        ensures events { OnOk result (log.new.events ≡ log.old.events) }
        ensures numbered { OnOk result (AreOfEvent 0 log.old → AreOfEvent 0 log.new) }
        ensures agenda { OnOk result (self.new.agenda ≡ moved_on (first_line on.now.left) on.now.script.phases (is_idle (ready_in on.now.plans self.new.parts.graphs.nodes.tasks)) (length on.now.script.phases) (with_phase (first_line on.now.left) on.now.script.phases (with_sends self.old.agenda (new_sent log.old log.new)))) }
    {
        self.parts.make_graph(alloc, on, on.script().start)?;
        self.parts.turn.number_lines(alloc, UNNUMBERED)?;
        self.send_out(alloc)?;
        let idle = self.is_idle(on);
        self.agenda
            .begin(alloc, on.left(), on.script().phases.as_slice(), idle)?;
        let lines = self.parts.turn.take_lines(alloc);
        add_lines(alloc, log, lines)?;
        Ok(())
    }

    // Ends an event behind those of the log, of which all is done: its lines get its number, what it has sent goes out, and the phases
    // that have nothing left end.
    #[tactic(auto, using(crate::proofs::Agendas::goes_out))]
    fn end(&mut self, alloc: Global, on: &Planned, log: &Log) -> Result<(), AllocError>
        ensures lines { OnOk result (self.new.parts.turn.lines ≡ going_out self.old.agenda.controls (numbered (length log.now.events + 1) self.old.parts.turn.lines)) }
        ensures numbered { OnOk result (AreOfEvent (length log.now.events + 1) self.new.parts.turn.lines) }
        ensures out { OnOk result (GoesOut self.old.agenda.controls self.new.parts.turn.lines.sent) }
        ensures agenda { OnOk result (self.new.agenda ≡ next_agenda (first_line on.now.left) on.now.script.phases (is_idle (ready_in on.now.plans self.new.parts.graphs.nodes.tasks)) self.new.parts.turn.lines.replies self.new.parts.turn.lines.sent (not (length self.new.parts.turn.lines.answered == 0)) self.old.agenda) }
    {
        let number = next_number(log)?;
        self.parts.turn.number_lines(alloc, number)?;
        self.send_out(alloc)?;
        let idle = self.is_idle(on);
        let answered = !self.parts.turn.lines.answered.is_empty();
        self.agenda.end(
            alloc,
            on.left(),
            on.script().phases.as_slice(),
            idle,
            self.parts.turn.lines.replies.as_slice(),
            answered,
        )
    }

    // Ends an event, and writes it to the log.
    #[tactic(auto, using(crate::proofs::Additions::adds_event, crate::proofs::Agendas::agenda_closed, crate::proofs::Agendas::out_closed))]
    fn write_event(
        &mut self,
        alloc: Global,
        on: &Planned,
        event: HubEvent,
        log: &mut Log,
    ) -> Result<(), AllocError>
        ensures lines { OnOk result (log.new ≡ with_lines log.old (written_lines self.old.agenda.controls log.old self.old.parts.turn.lines event)) }
        ensures event { OnOk result (AddsEvent log.old log.new event) }
        ensures agenda { OnOk result (self.new.agenda ≡ next_agenda (first_line on.now.left) on.now.script.phases (is_idle (ready_in on.now.plans self.new.parts.graphs.nodes.tasks)) (new_replies log.old log.new) (new_sent log.old log.new) (is_answered_in log.old log.new) self.old.agenda) }
        ensures out { OnOk result (GoesOut self.old.agenda.controls (new_sent log.old log.new)) }
        ensures err { OnErr result (log.new ≡ log.old) }
    {
        match self.end(alloc, on, log) {
            Ok(()) => self.parts.turn.write(alloc, event, log),
            Err(error) => {
                drop(event);
                Err(error)
            }
        }
    }

    /// Closes an event: it is finished where it was begun, and written to the log with its lines. After `Winds` the log has
    /// the winds of the event that was cut: just those that it had, where it has stopped before.
    ///
    /// # Errors
    /// As for `Hub::submit`.
    pub(crate) fn close(
        &mut self,
        alloc: Global,
        on: &Planned,
        done: Result<(), Stop>,
        event: HubEvent,
        log: &mut Log,
    ) -> Result<(), Stop>
        ensures event { OnOk result (AddsEvent log.old log.new event) }
        ensures agenda { OnOk result (self.new.agenda ≡ next_agenda (first_line on.now.left) on.now.script.phases (is_idle (ready_in on.now.plans self.new.parts.graphs.nodes.tasks)) (new_replies log.old log.new) (new_sent log.old log.new) (is_answered_in log.old log.new) self.old.agenda) }
        ensures out { OnOk result (GoesOut self.old.agenda.controls (new_sent log.old log.new)) }
        ensures stops { IfErr result (λ stop. IsAfterStop stop log.old log.new) }
        ensures written { IsErr done → IfErr result (λ stop. IsCutOff stop self.old.parts.turn.lines log.old log.new) }
        ensures winds { IsErr done → IfErr result (λ stop. stop ≡ Stop.Winds → IsErrOf done Stop.Winds) }
        ensures done { OnOk result (IsOk done) }
    {
        let finished = match done {
            Ok(()) => self.parts.finish_event(alloc, on),
            Err(stop) => Err(stop),
        };
        self.close_finished(alloc, on, finished, event, log)
    }

    /// Closes an event of which all is done, with just the lines that it has.
    ///
    /// # Errors
    /// As for `Hub::submit`.
    #[tactic(auto, using(crate::proofs::Additions::after_cut))]
    pub(crate) fn close_finished(
        &mut self,
        alloc: Global,
        on: &Planned,
        done: Result<(), Stop>,
        event: HubEvent,
        log: &mut Log,
    ) -> Result<(), Stop>
        ensures lines { OnOk result (log.new ≡ with_lines log.old (written_lines self.old.agenda.controls log.old self.old.parts.turn.lines event)) }
        ensures event { OnOk result (AddsEvent log.old log.new event) }
        ensures agenda { OnOk result (self.new.agenda ≡ next_agenda (first_line on.now.left) on.now.script.phases (is_idle (ready_in on.now.plans self.new.parts.graphs.nodes.tasks)) (new_replies log.old log.new) (new_sent log.old log.new) (is_answered_in log.old log.new) self.old.agenda) }
        ensures out { OnOk result (GoesOut self.old.agenda.controls (new_sent log.old log.new)) }
        ensures stops { IfErr result (λ stop. IsAfterStop stop log.old log.new) }
        ensures written { IfErr result (λ stop. IsCutOff stop self.old.parts.turn.lines log.old log.new) }
        ensures winds { IfErr result (λ stop. stop ≡ Stop.Winds → IsErrOf done Stop.Winds) }
        ensures done { OnOk result (IsOk done) }
    {
        match done {
            Ok(()) => match self.write_event(alloc, on, event, log) {
                Ok(()) => Ok(()),
                Err(_) => Err(Stop::Mem),
            },
            Err(stop) => {
                drop(event);
                Err(self.parts.turn.write_cut(alloc, stop, log))
            }
        }
    }
}
