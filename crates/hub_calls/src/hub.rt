ghost use Rattle.std.specs.Prelude.{◌≡◌, Some, None, [], ◌∷◌, IsOk, IsErr, IsErrOf, OnOk, IfOk, IfErr};
ghost use Rattle.hub_calls.specs.EventNumbers.{AreOfEvent, HaveEvents, IsCutOff, written_lines};
ghost use Rattle.hub_calls.specs.Hubs.{AddsEvent, ClosesWith, IsAfterStop, agenda_before};
ghost use Rattle.mount_log.specs.Logs.{is_submit, with_lines};
ghost use Rattle.mount_log.specs.Scripts.{IsScript};

use crate::engine::Engine;
use crate::planned::Planned;
use fop_types::Seq;
use graph_build::Plan;
use mount_log::{HubEvent, Log};
use script_lang::Script;
use std::alloc::{AllocError, Global};
use std::marker::Model;
use xlator_law::Stop;

/// The hub: it submits the calls of a script, sends their fops down the graphs, takes the outputs of the bricks, carries
/// out the script's controls, and keeps the log.
///
/// A call that stops has spent the hub: each later call that may change it answers the same, and changes nothing. Its log
/// ends with the last whole event; after `Winds` it also has the winds of the event that was cut.
///
/// A hub is not dropped: what it has left is taken out of it, by [`Hub::into_log`].
pub struct Hub {
    pub(crate) planned: Planned,
    pub(crate) engine: Engine,
    pub(crate) log: Log,
    pub(crate) stop: Option<Stop>,
}

impl Model for Hub {
    ghost use Rattle.std.specs.Prelude.{MatchOption};
    ghost use Rattle.hub_calls.specs.Dues.{ready_in};
    ghost use Rattle.hub_calls.specs.EventNumbers.{HaveEvents};
    ghost use Rattle.hub_calls.specs.Live.{volfiles_in};
    ghost use Rattle.hub_calls.specs.Hubs.{HubState};
    ghost use Rattle.hub_calls.specs.Plans.{AreLeft};

    ghost Value = { HubState };

    ghost view = { λ h. record {
      script = h.planned.script;
      plans = h.planned.plans;
      log = h.log;
      lines = h.engine.parts.turn.lines;
      agenda = h.engine.agenda;
      graphs = volfiles_in h.engine.parts.graphs.live.graphs.entries;
      tasks = ready_in h.planned.plans h.engine.parts.graphs.nodes.tasks;
      spent = h.engine.parts.graphs.nodes.spent;
      stop = h.stop;
    } };

    ghost invariant = { λ h. record {
      left : MatchOption h.stop (AreLeft h.planned.script h.log.events h.planned.left) (λ _. Unit {0});
      events : HaveEvents h.log;
    } };
}

impl Hub {
    /// The hub at the start of a script, which is one that `script_lang::parse` gives, with the plan of each of its
    /// volfiles in order. The first graph is made, and its bricks are sent a Connect, with event number 0. Leading phases
    /// that are empty have ended.
    ///
    /// # Errors
    /// Out of memory.
    #[tactic(auto, using(crate::proofs::Planning::left_before, crate::proofs::Agendas::begun_agenda))]
    pub fn new(alloc: Global, script: Script, plans: Seq<Plan>) -> Result<Hub, AllocError>
        requires { IsScript script plans }
        ensures start { IfOk result (λ h. h ≡ record { script = script; plans = plans; log = h.log; lines = h.lines; agenda = h.agenda; graphs = h.graphs; tasks = h.tasks; spent = h.spent; stop = None }) }
        ensures first { IfOk result (λ h. h.graphs ≡ (1, script.start) ∷ []) }
        ensures events { IfOk result (λ h. h.log.events ≡ []) }
        ensures numbered { IfOk result (λ h. AreOfEvent 0 h.log) }
        ensures agenda { IfOk result (λ h. h.agenda ≡ agenda_before script h.log h.tasks) }
    {
        let planned = Planned::new(alloc, script, plans)?;
        let mut log = Log::new(alloc);
        let mut engine = Engine::new(alloc, &planned);
        match engine.begin(alloc, &planned, &mut log) {
            Ok(()) => Ok(Hub {
                planned,
                engine,
                log,
                stop: None,
            }),
            Err(error) => {
                drop(planned);
                engine.discard();
                drop(log);
                Err(error)
            }
        }
    }

    pub(crate) fn check(&self) -> Result<(), Stop>
        ensures goes { OnOk result (self.now.stop ≡ None) }
        ensures stops { IfErr result (λ s. self.now.stop ≡ Some s) }
    {
        match self.stop {
            Some(stop) => Err(stop),
            None => Ok(()),
        }
    }

    /// Closes an event, which is no submission, of a hub that has not stopped. An event that was not done stops it.
    pub(crate) fn close(
        &mut self,
        alloc: Global,
        done: Result<(), Stop>,
        event: HubEvent,
    ) -> Result<(), Stop>
        requires goes { self.old.stop ≡ None }
        requires other { is_submit event ≡ 0 }
        ensures same { (self.new.script ≡ self.old.script) × (self.new.plans ≡ self.old.plans) }
        ensures event { OnOk result (AddsEvent self.old.log self.new.log event) }
        ensures agenda { OnOk result (ClosesWith self.old.script self.old.log self.new.log self.new.tasks self.old.agenda self.new.agenda) }
        ensures cut { IfErr result (λ stop. IsAfterStop stop self.old.log self.new.log) }
        ensures written { IsErr done → IfErr result (λ stop. IsCutOff stop self.old.lines self.old.log self.new.log) }
        ensures winds { IsErr done → IfErr result (λ stop. stop ≡ Stop.Winds → IsErrOf done Stop.Winds) }
        ensures goes { OnOk result (self.new.stop ≡ None) }
        ensures stops { IfErr result (λ s. self.new.stop ≡ Some s) }
        ensures done { OnOk result (IsOk done) }
    {
        let finished = match done {
            Ok(()) => self.engine.parts.finish_event(alloc, &self.planned),
            Err(stop) => Err(stop),
        };
        self.close_finished(alloc, finished, event)
    }

    /// Closes an event of which all is done: it is written to the log with just the lines that it has.
    #[tactic(auto, using(crate::proofs::Planning::still_left, crate::proofs::Agendas::closed_agenda, crate::proofs::Additions::events_after, crate::proofs::Additions::events_cut))]
    pub(crate) fn close_finished(
        &mut self,
        alloc: Global,
        done: Result<(), Stop>,
        event: HubEvent,
    ) -> Result<(), Stop>
        requires goes { self.old.stop ≡ None }
        requires other { is_submit event ≡ 0 }
        ensures same { (self.new.script ≡ self.old.script) × (self.new.plans ≡ self.old.plans) }
        ensures lines { OnOk result (self.new.log ≡ with_lines self.old.log (written_lines self.old.agenda.controls self.old.log self.old.lines event)) }
        ensures event { OnOk result (AddsEvent self.old.log self.new.log event) }
        ensures agenda { OnOk result (ClosesWith self.old.script self.old.log self.new.log self.new.tasks self.old.agenda self.new.agenda) }
        ensures cut { IfErr result (λ stop. IsAfterStop stop self.old.log self.new.log) }
        ensures written { IfErr result (λ stop. IsCutOff stop self.old.lines self.old.log self.new.log) }
        ensures winds { IfErr result (λ stop. stop ≡ Stop.Winds → IsErrOf done Stop.Winds) }
        ensures goes { OnOk result (self.new.stop ≡ None) }
        ensures stops { IfErr result (λ s. self.new.stop ≡ Some s) }
        ensures done { OnOk result (IsOk done) }
    {
        match self
            .engine
            .close_finished(alloc, &self.planned, done, event, &mut self.log)
        {
            Ok(()) => Ok(()),
            Err(stop) => {
                self.stop = Some(stop);
                Err(stop)
            }
        }
    }

    /// The log of the events so far. Each of its entries, copies and skips has its event.
    pub fn log(&self) -> &Log
        ensures log { result.now ≡ self.now.log }
        ensures events { HaveEvents result.now }
    {
        &self.log
    }

    /// The script that the hub runs.
    pub fn script(&self) -> &Script
        ensures { result.now ≡ self.now.script }
    {
        self.planned.script()
    }

    /// The plans of the script's volfiles.
    pub fn plans(&self) -> &[Plan]
        ensures { result.now ≡ self.now.plans }
    {
        self.planned.plans()
    }

    /// The script, the plans and the log.
    pub fn into_log(self) -> (Script, Seq<Plan>, Log)
        ensures { result ≡ (self.script, self.plans, self.log) }
    {
        let Hub {
            planned,
            engine,
            log,
            stop: _,
        } = self;
        engine.discard();
        let (script, plans) = planned.into_parts();
        (script, plans, log)
    }
}
