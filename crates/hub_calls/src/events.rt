//! The events of a hub.
ghost use Rattle.std.specs.Prelude.{◌≡◌, ◌+◌, ◌&&◌, true, false, None, Some, is_some, length, OnOk, OnErr, IfOk, IfErr};
ghost use Rattle.hub_tables.specs.Agendas.{with_submission, with_output, with_action, with_arm};
ghost use Rattle.hub_tables.specs.Arming.{is_armable};
ghost use Rattle.hub_calls.specs.Dues.{is_idle, may_run, may_submit};
ghost use Rattle.hub_calls.specs.Hubs.{StaysStopped, is_of_brick as of_brick, ActsWhere, AddsEvent, AddsInput, AddsSubmission, ClosesWith, IsAfterStop, IsTurn, is_due_output};
ghost use Rattle.mount_log.specs.Connects.{control_input};
ghost use Rattle.mount_log.specs.Logs.{with_event};
ghost use Rattle.mount_log.specs.declared.logs.HubEvent.TheVariants as logged;

use crate::acting::{has_input, is_of_brick};
use crate::hub::Hub;
use bytes::Bytes;
use fop_types::Proc;
use hub_tables::{Turned, may_be_armed};
use mount_log::HubEvent;
use script_lang::Action;
use std::alloc::Global;
use std::collections::VecDeque;
use xlator_law::Stop;

impl Hub {
    /// Submits the next call of a session. It is false, with nothing changed, exactly where the session has a call
    /// without a reply, or no line left in the current phase.
    ///
    /// # Errors
    /// `Winds` where a further wind was needed and 4,294,967,295 were opened, and the winds of the event are in the log; else
    /// out of memory.
    #[tactic(auto, using(crate::proofs::Planning::left_submitted, crate::proofs::Planning::adds_submission, crate::proofs::Additions::after_same, crate::proofs::Agendas::submitted_agenda, crate::proofs::Additions::events_after, crate::proofs::Additions::events_cut))]
    pub fn submit(&mut self, alloc: Global, session: u8) -> Result<bool, Stop>
        ensures same { (self.new.script ≡ self.old.script) × (self.new.plans ≡ self.old.plans) }
        ensures unchanged { IfOk result (λ did. did ≡ false → self.new ≡ self.old) }
        ensures event { IfOk result (λ did. did ≡ true → AddsSubmission self.old.script self.old.log self.new.log session) }
        ensures did { IfOk result (λ did. did ≡ may_submit self.old.agenda self.old.script self.old.log session) }
        ensures agenda { IfOk result (λ did. did ≡ true → ClosesWith self.old.script self.old.log self.new.log self.new.tasks (with_submission self.old.agenda session) self.new.agenda) }
        ensures cut { IfErr result (λ stop. IsAfterStop stop self.old.log self.new.log) }
        ensures spent { StaysStopped self.old.stop self.old self.new result }
        ensures goes { OnOk result (self.new.stop ≡ None) }
        ensures stops { IfErr result (λ s. self.new.stop ≡ Some s) }
    {
        self.check()?;
        let ready = self.engine.agenda.submits();
        let Some((at, line)) = self.planned.next_of(ready, session) else {
            return Ok(false);
        };
        self.planned.take_line(session);
        self.engine.agenda.submit(session);
        self.engine.parts.turn.open(alloc, &self.log);
        let done = self
            .engine
            .parts
            .submitted(alloc, &self.planned, session, at);
        let event = HubEvent::Submit { session, line };
        match self
            .engine
            .close(alloc, &self.planned, done, event, &mut self.log)
        {
            Ok(()) => Ok(true),
            Err(stop) => {
                self.stop = Some(stop);
                Err(stop)
            }
        }
    }

    /// Takes the bytes of an output of a brick, which the script has.
    ///
    /// # Errors
    /// As for [`Hub::submit`].
    #[tactic(auto, using(crate::proofs::Additions::after_same))]
    pub fn arrive(&mut self, alloc: Global, brick: u8, output: Bytes) -> Result<(), Stop>
        ensures same { (self.new.script ≡ self.old.script) × (self.new.plans ≡ self.old.plans) }
        ensures event { OnOk result (AddsEvent self.old.log self.new.log (logged.Arrive brick output)) }
        ensures agenda { OnOk result (ClosesWith self.old.script self.old.log self.new.log self.new.tasks (with_output self.old.agenda (is_due_output output)) self.new.agenda) }
        ensures cut { IfErr result (λ stop. IsAfterStop stop self.old.log self.new.log) }
        ensures spent { StaysStopped self.old.stop self.old self.new result }
        ensures goes { OnOk result (self.new.stop ≡ None) }
        ensures stops { IfErr result (λ s. self.new.stop ≡ Some s) }
    {
        match self.check() {
            Ok(()) => {
                self.engine.parts.turn.open(alloc, &self.log);
                let done = self.arrived(alloc, brick, output.as_slice());
                let event = HubEvent::Arrive {
                    brick,
                    bytes: output,
                };
                self.close(alloc, done, event)
            }
            Err(stop) => {
                drop(output);
                Err(stop)
            }
        }
    }

    // What an output does before its event is closed.
    fn arrived(&mut self, alloc: Global, brick: u8, output: &[u8]) -> Result<(), Stop>
        ensures same { (self.new.script ≡ self.old.script) × (self.new.plans ≡ self.old.plans) × (self.new.log ≡ self.old.log) × (self.new.stop ≡ self.old.stop) }
        ensures agenda { OnOk result (self.new.agenda ≡ with_output self.old.agenda (is_due_output output.now)) }
    {
        match self
            .engine
            .parts
            .arrived(alloc, &self.planned, brick, output)
        {
            Ok(due) => {
                self.engine.agenda.take_output(due);
                Ok(())
            }
            Err(stop) => Err(stop),
        }
    }

    /// Runs a ready task of a graph: the frame of the io-threads node with this number whose turn it is goes on. It is
    /// false, with nothing changed, exactly where no such task is ready.
    ///
    /// # Errors
    /// As for [`Hub::submit`].
    #[tactic(auto, using(crate::proofs::Additions::after_same))]
    pub fn run(&mut self, alloc: Global, graph: u32, task: u32) -> Result<bool, Stop>
        ensures same { (self.new.script ≡ self.old.script) × (self.new.plans ≡ self.old.plans) }
        ensures unchanged { IfOk result (λ did. did ≡ false → self.new ≡ self.old) }
        ensures event { IfOk result (λ did. did ≡ true → AddsEvent self.old.log self.new.log (logged.Run graph task)) }
        ensures unspent { IfOk result (λ did. did ≡ true → self.old.spent ≡ false) }
        ensures did { IfOk result (λ did. did ≡ may_run self.old.tasks graph task) }
        ensures agenda { IfOk result (λ did. did ≡ true → ClosesWith self.old.script self.old.log self.new.log self.new.tasks self.old.agenda self.new.agenda) }
        ensures cut { IfErr result (λ stop. IsAfterStop stop self.old.log self.new.log) }
        ensures spent { StaysStopped self.old.stop self.old self.new result }
        ensures goes { OnOk result (self.new.stop ≡ None) }
        ensures stops { IfErr result (λ s. self.new.stop ≡ Some s) }
    {
        self.check()?;
        if !self.is_ready(graph, task) {
            return Ok(false);
        }
        self.run_ready(alloc, graph, task)?;
        Ok(true)
    }

    // Runs a task that is ready, in a hub that has not stopped.
    fn run_ready(&mut self, alloc: Global, graph: u32, task: u32) -> Result<(), Stop>
        requires { self.old.stop ≡ None }
        ensures same { (self.new.script ≡ self.old.script) × (self.new.plans ≡ self.old.plans) }
        ensures event { OnOk result (AddsEvent self.old.log self.new.log (logged.Run graph task)) }
        ensures unspent { OnOk result (self.old.spent ≡ false) }
        ensures agenda { OnOk result (ClosesWith self.old.script self.old.log self.new.log self.new.tasks self.old.agenda self.new.agenda) }
        ensures cut { IfErr result (λ stop. IsAfterStop stop self.old.log self.new.log) }
        ensures goes { OnOk result (self.new.stop ≡ None) }
        ensures stops { IfErr result (λ s. self.new.stop ≡ Some s) }
    {
        self.engine.parts.turn.open(alloc, &self.log);
        let done = self.engine.parts.run_task(alloc, graph, task);
        self.close(alloc, done, HubEvent::Run { graph, task })
    }

    /// Takes the first output that has arrived, else the first ready task. `Quiet` comes exactly where there is neither.
    /// The script has each brick that is named.
    ///
    /// # Errors
    /// As for [`Hub::submit`].
    #[tactic(auto, using(crate::proofs::Additions::after_same, crate::proofs::Additions::turn_takes, crate::proofs::Additions::turn_runs))]
    pub fn turn(
        &mut self,
        alloc: Global,
        arrived: &mut VecDeque<(u8, Bytes)>,
    ) -> Result<Turned, Stop>
        ensures same { (self.new.script ≡ self.old.script) × (self.new.plans ≡ self.old.plans) }
        ensures spent { StaysStopped self.old.stop self.old self.new result }
        ensures arrived { StaysStopped self.old.stop arrived.old arrived.new result }
        ensures event { IfOk result (λ turned. IsTurn turned arrived.old.items arrived.new.items self.old self.new) }
        ensures cut { IfErr result (λ stop. IsAfterStop stop self.old.log self.new.log) }
        ensures goes { OnOk result (self.new.stop ≡ None) }
        ensures stops { IfErr result (λ s. self.new.stop ≡ Some s) }
    {
        self.check()?;
        if let Some((brick, output)) = arrived.pop_front() {
            self.arrive(alloc, brick, output)?;
            return Ok(Turned::Did);
        }
        match self.ready_at(0) {
            Some((graph, task)) => {
                self.run_ready(alloc, graph, task)?;
                Ok(Turned::Did)
            }
            None => Ok(Turned::Quiet {
                ready: 0,
                arrived: 0,
            }),
        }
    }

    // Whether an action may be carried out.
    fn may_act(&self, action: Action) -> bool
        ensures { ActsWhere action (length self.now.script.bricks) self.now.agenda.internal result }
    {
        match action {
            Action::Heal => !self.engine.agenda.is_calling(),
            Action::Switch(volfile) => {
                !self.engine.agenda.is_calling()
                    && self
                        .engine
                        .parts
                        .graphs
                        .live
                        .may_follow(&self.planned, volfile)
            }
            Action::Down(_, _) => is_of_brick(self.script(), action),
            Action::Up(_) => is_of_brick(self.script(), action),
            Action::Cut(_) => is_of_brick(self.script(), action),
            Action::Fault(_, _, _) => is_of_brick(self.script(), action),
        }
    }

    /// Carries an action out, and with it the control that [`Hub::first`], [`Hub::due`] or [`Hub::rest`] gives, where it
    /// has the same action. It is false, with nothing changed, exactly where the action is not possible: its brick or
    /// volfile is not in the script, a fault is one of unlock or has the number 0, a heal or a switch finds an internal
    /// call without an answer, or a switch finds a plan that does not follow, or 4,294,967,294 graphs that were made. Of a
    /// switch the contract says only that no internal call is under way. For a Down, an Up and a fault just their input is sent,
    /// and where they run out of memory the log is as it was: none of them needs a wind.
    ///
    /// # Errors
    /// As for [`Hub::submit`].
    #[tactic(auto, using(crate::proofs::Additions::after_same, crate::proofs::ActionInputs::act_sends, crate::proofs::ActionInputs::no_input, crate::proofs::Additions::log_stays))]
    pub fn act(&mut self, alloc: Global, action: Action) -> Result<bool, Stop>
        ensures same { (self.new.script ≡ self.old.script) × (self.new.plans ≡ self.old.plans) }
        ensures unchanged { IfOk result (λ did. did ≡ false → self.new ≡ self.old) }
        ensures event { IfOk result (λ did. did ≡ true → AddsEvent self.old.log self.new.log (logged.Act action)) }
        ensures input { IfOk result (λ did. did ≡ true → AddsInput (length self.old.log.events + 1) (control_input action) (with_event self.old.log (logged.Act action)) self.new.log) }
        ensures agenda { IfOk result (λ did. did ≡ true → ClosesWith self.old.script self.old.log self.new.log self.new.tasks (with_action self.old.agenda action (is_idle self.old.tasks)) self.new.agenda) }
        ensures cut { IfErr result (λ stop. IsAfterStop stop self.old.log self.new.log) }
        ensures kept { is_some (control_input action) ≡ true → OnErr result (self.new.log ≡ self.old.log) }
        ensures did { IfOk result (λ did. ActsWhere action (length self.old.script.bricks) self.old.agenda.internal did) }
        ensures spent { StaysStopped self.old.stop self.old self.new result }
        ensures goes { OnOk result (self.new.stop ≡ None) }
        ensures stops { IfErr result (λ s. self.new.stop ≡ Some s) }
    {
        self.check()?;
        if !self.may_act(action) {
            return Ok(false);
        }
        let idle = self.engine.is_idle(&self.planned);
        self.engine.agenda.act(action, idle);
        self.engine.parts.turn.open(alloc, &self.log);
        let done = self.engine.parts.carry_out(alloc, &self.planned, action);
        if has_input(action) {
            self.close_finished(alloc, done, HubEvent::Act(action))?;
            return Ok(true);
        }
        self.close(alloc, done, HubEvent::Act(action))?;
        Ok(true)
    }

    /// Arms an action for a request that is sent to a brick in this phase: it is carried out directly before. Nothing is sent for the
    /// arming itself, which adds its event alone to the log; where it stops the log is as it was. It is false, with nothing changed,
    /// exactly where the action is no Down and no fault of that brick, the script has no such brick, or the fault is one of unlock or
    /// has the number 0.
    ///
    /// # Errors
    /// As for [`Hub::submit`].
    #[tactic(auto, using(crate::proofs::Additions::after_same, crate::proofs::Additions::log_stays))]
    pub fn arm(
        &mut self,
        alloc: Global,
        brick: u8,
        before: Proc,
        count: u32,
        action: Action,
    ) -> Result<bool, Stop>
        ensures same { (self.new.script ≡ self.old.script) × (self.new.plans ≡ self.old.plans) }
        ensures unchanged { IfOk result (λ did. did ≡ false → self.new ≡ self.old) }
        ensures event { IfOk result (λ did. did ≡ true → AddsEvent self.old.log self.new.log (logged.Arm brick before count action)) }
        ensures only { IfOk result (λ did. did ≡ true → self.new.log ≡ with_event self.old.log (logged.Arm brick before count action)) }
        ensures agenda { IfOk result (λ did. did ≡ true → ClosesWith self.old.script self.old.log self.new.log self.new.tasks (with_arm self.old.agenda brick before count action) self.new.agenda) }
        ensures cut { IfErr result (λ stop. IsAfterStop stop self.old.log self.new.log) }
        ensures kept { OnErr result (self.new.log ≡ self.old.log) }
        ensures armable { IfOk result (λ did. did ≡ (is_armable brick action && of_brick (length self.old.script.bricks) action)) }
        ensures spent { StaysStopped self.old.stop self.old self.new result }
        ensures goes { OnOk result (self.new.stop ≡ None) }
        ensures stops { IfErr result (λ s. self.new.stop ≡ Some s) }
    {
        self.check()?;
        if !may_be_armed(brick, action) || !is_of_brick(self.script(), action) {
            return Ok(false);
        }
        self.engine.parts.turn.open(alloc, &self.log);
        let done = self.armed(brick, before, count, action);
        let event = HubEvent::Arm(brick, before, count, action);
        self.close_finished(alloc, done, event)?;
        Ok(true)
    }

    // What an arming does before its event is closed.
    fn armed(&mut self, brick: u8, before: Proc, count: u32, action: Action) -> Result<(), Stop>
        ensures same { (self.new.script ≡ self.old.script) × (self.new.plans ≡ self.old.plans) × (self.new.log ≡ self.old.log) × (self.new.stop ≡ self.old.stop) }
        ensures lines { self.new.lines ≡ self.old.lines }
        ensures stops { IfErr result (λ stop. stop ≡ Stop.Mem) }
        ensures agenda { OnOk result (self.new.agenda ≡ with_arm self.old.agenda brick before count action) }
    {
        match self.engine.agenda.arm(brick, before, count, action) {
            Ok(()) => Ok(()),
            Err(_) => Err(Stop::Mem),
        }
    }
}
