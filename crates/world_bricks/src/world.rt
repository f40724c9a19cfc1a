ghost use Rattle.std.specs.Prelude.{◌≡◌, [], None, Some, true, false, length, min, OnOk, IfOk, IfErr};
ghost use Rattle.hub_calls.specs.Hubs.{StaysStopped};
ghost use Rattle.mount_log.specs.Scripts.{IsScript};
ghost use Rattle.hub_tables.specs.Agendas.{plain_due};
ghost use Rattle.hub_tables.specs.PlanBricks.{has_queues};
ghost use Rattle.hub_tables.specs.SmallSets.{numbers, numbers_where};
ghost use Rattle.hub_calls.specs.Dues.{is_through};
ghost use Rattle.hub_calls.specs.Hubs.{agenda_before};
ghost use Rattle.world_bricks.specs.Choices.{run_of, chosen_event, picked};
ghost use Rattle.world_bricks.specs.Lines.{new_lines, with_sent, may_serve, may_arrive};
ghost use Rattle.world_bricks.specs.Runs.{IsRunOf};
ghost use Rattle.world_bricks.specs.Worlds.{Happens, HappensWhere, KeepsAgenda, MovesAgenda, IsReached};

use crate::enabled::{Choice, Enabled};
use crate::events::{Event, due_event, event_of};
use crate::lines::Lines;
use crate::parts::Parts;
use crate::schedule::Schedule;
use fop_types::Seq;
use graph_build::Plan;
use hub_calls::{Hub, Log, Rack};
use script_lang::Script;
use std::alloc::{AllocError, Global};
use std::marker::Model;
use xlator_law::Stop;

// The event of a ready task of a graph.
fn run_event(task: Option<(u32, u32)>) -> Option<Event>
    ensures { result ≡ run_of task }
{
    match task {
        Some((graph, task)) => Some(Event::Run(graph, task)),
        None => None,
    }
}

// The events of a run, at most.
const EVENTS: u64 = 18446744073709551615;

/// The hub with its bricks.
///
/// A call that stops has spent the world: each later call that may change it answers the same, and changes nothing. Its log
/// ends with the last whole event, and each brick's journal with the last input that it served.
///
/// A world is not dropped: what it has left is taken out of it, by [`World::into_parts`].
pub struct World {
    parts: Parts,
    stop: Option<Stop>,
}

impl Model for World {
    ghost use Rattle.world_bricks.specs.Worlds.{WorldState};

    ghost Value = { WorldState };

    ghost view = { λ w. record { script = w.parts.hub.script; plans = w.parts.hub.plans; log = w.parts.hub.log; agenda = w.parts.hub.agenda; tasks = w.parts.hub.tasks; lines = w.parts.lines; stop = w.stop } };
}

impl World {
    /// The world at the start of a script with the plans of its volfiles, as for [`hub_calls::Hub::new`].
    ///
    /// # Errors
    /// Out of memory.
    pub fn new(alloc: Global, script: Script, plans: Seq<Plan>) -> Result<World, AllocError>
        requires { IsScript script plans }
        ensures start { IfOk result (λ w. w ≡ record { script = script; plans = plans; log = w.log; agenda = w.agenda; tasks = w.tasks; lines = with_sent (new_lines script plans (length script.bricks)) w.log.sent; stop = None }) }
        ensures events { IfOk result (λ w. w.log.events ≡ []) }
        ensures agenda { IfOk result (λ w. w.agenda ≡ agenda_before script w.log w.tasks) }
    {
        let hub = Hub::new(alloc, script, plans)?;
        match Lines::new(alloc, hub.script(), hub.plans(), hub.log().sent.as_slice()) {
            Ok(lines) => Ok(World {
                parts: Parts { hub, lines },
                stop: None,
            }),
            Err(error) => {
                let (script, plans, log) = hub.into_log();
                drop(script);
                drop(plans);
                drop(log);
                Err(error)
            }
        }
    }

    /// Makes an event happen. It is false, with nothing changed, where the event is not enabled.
    ///
    /// # Errors
    /// As for [`hub_calls::Hub::submit`].
    pub fn apply(&mut self, alloc: Global, event: Event) -> Result<bool, Stop>
        ensures same { (self.new.script ≡ self.old.script) × (self.new.plans ≡ self.old.plans) }
        ensures happens { IfOk result (λ did. did ≡ true → Happens self.old.script event self.old.log self.old.lines self.new.log self.new.lines) }
        ensures unchanged { IfOk result (λ did. did ≡ false → self.new ≡ self.old) }
        ensures enabled { IfOk result (λ did. HappensWhere event self.old.script self.old.agenda self.old.tasks self.old.log self.old.lines did) }
        ensures moves { IfOk result (λ did. did ≡ true → MovesAgenda event self.old.script self.old.log self.old.lines self.old.agenda self.old.tasks self.new.log self.new.agenda self.new.tasks) }
        ensures keeps { KeepsAgenda event self.old.agenda self.old.tasks self.new.agenda self.new.tasks }
        ensures spent { StaysStopped self.old.stop self.old self.new result }
        ensures goes { OnOk result (self.new.stop ≡ None) }
        ensures stops { IfErr result (λ s. self.new.stop ≡ Some s) }
    {
        match self.stop {
            Some(stop) => Err(stop),
            None => match self.parts.happen(alloc, event) {
                Ok(did) => Ok(did),
                Err(stop) => {
                    self.stop = Some(stop);
                    Err(stop)
                }
            },
        }
    }

    fn enabled(&self) -> Enabled
        ensures submits { numbers result.submits ≡ self.now.agenda.progress.ready }
        ensures arriving { numbers result.arriving ≡ numbers_where (may_arrive self.now.lines) }
        ensures serving { numbers result.serving ≡ numbers_where (may_serve self.now.lines) }
        ensures tasks { result.tasks ≡ min (length self.now.tasks) 4294967295 }
        ensures plain { result.plain ≡ plain_due self.now.agenda }
    {
        Enabled {
            submits: self.parts.hub.submits(),
            arriving: self.parts.lines.arriving(),
            serving: self.parts.lines.serving(),
            tasks: self.parts.hub.ready_len(),
            plain: self.parts.hub.plain(),
        }
    }

    // One of the events that are enabled, by a value of the schedule.
    #[tactic(auto, using(crate::proofs::Picked::none_chosen, crate::proofs::Picked::event_chosen, crate::proofs::Picked::task_chosen))]
    fn choose(&self, value: u64) -> Option<Event>
        ensures { result ≡ chosen_event self.now.agenda self.now.tasks self.now.lines value }
    {
        let enabled = self.enabled();
        match enabled.chosen(value) {
            Some(Choice::Event(event)) => Some(event),
            Some(Choice::Task(at)) => run_event(self.parts.hub.ready_at(at)),
            None => None,
        }
    }

    /// The next event, by a value of the schedule: what goes before everything else; else one of the events that are
    /// enabled; else the first control that is left.
    #[tactic(auto, unfolding(crate::specs::Choices::picked))]
    pub fn pick(&self, value: u64) -> Option<Event>
        ensures none { has_queues self.now.plans ≡ false → self.now.tasks ≡ [] }
        ensures event { result ≡ picked self.now.agenda self.now.tasks self.now.lines value }
    {
        let _ = self.parts.hub.has_queues();
        match self.parts.hub.first() {
            Some(due) => Some(event_of(due)),
            None => match self.choose(value) {
                Some(event) => Some(event),
                None => due_event(self.parts.hub.rest()),
            },
        }
    }

    /// Runs the events of a seed's schedule until none is left, or 18,446,744,073,709,551,615 have happened.
    ///
    /// # Errors
    /// As for [`hub_calls::Hub::submit`].
    pub fn run(&mut self, alloc: Global, seed: u64) -> Result<(), Stop>
        ensures same { (self.new.script ≡ self.old.script) × (self.new.plans ≡ self.old.plans) }
        ensures reached { OnOk result (IsReached self.old.script self.old.log self.old.lines self.new.log self.new.lines) }
        ensures run { OnOk result (IsRunOf seed self.old self.new) }
        ensures spent { StaysStopped self.old.stop self.old self.new result }
        ensures goes { OnOk result (self.new.stop ≡ None) }
        ensures stops { IfErr result (λ s. self.new.stop ≡ Some s) }
    {
        match self.stop {
            Some(stop) => Err(stop),
            None => self.run_on(alloc, seed),
        }
    }

    // Runs the events of a seed's schedule where nothing has stopped.
    #[tactic(auto, using(crate::proofs::Running::begins, crate::proofs::Running::nothing_left, crate::proofs::Running::in_vain, crate::proofs::Running::all_happened))]
    fn run_on(&mut self, alloc: Global, seed: u64) -> Result<(), Stop>
        requires { self.old.stop ≡ None }
        ensures same { (self.new.script ≡ self.old.script) × (self.new.plans ≡ self.old.plans) }
        ensures reached { OnOk result (IsReached self.old.script self.old.log self.old.lines self.new.log self.new.lines) }
        ensures run { OnOk result (IsRunOf seed self.old self.new) }
        ensures goes { OnOk result (self.new.stop ≡ None) }
        ensures stops { IfErr result (λ s. self.new.stop ≡ Some s) }
    {
        let mut schedule = Schedule::new(seed);
        for _ in 0..EVENTS {
            let Some(event) = self.pick(schedule.draw()) else {
                return Ok(());
            };
            if !self.apply(alloc, event)? {
                return Ok(());
            }
        }
        Ok(())
    }

    /// Whether each call has its reply, each control was carried out, and nothing else is left.
    pub fn is_finished(&self) -> bool
        ensures { result ≡ is_through self.now.script self.now.agenda self.now.tasks }
    {
        self.parts.hub.is_finished()
    }

    /// The log of the events so far.
    pub fn log(&self) -> &Log
        ensures { result.now ≡ self.now.log }
    {
        self.parts.hub.log()
    }

    /// What the run has left, with nothing copied: the script, the plans, and the bricks with the log.
    pub fn into_parts(self) -> (Script, Seq<Plan>, Rack)
        ensures kept { (result.0 ≡ self.script) × (result.1 ≡ self.plans) }
        ensures rack { result.2 ≡ record { bricks = self.lines.bricks; log = self.log } }
    {
        let World { parts, stop: _ } = self;
        let Parts { hub, lines } = parts;
        let bricks = lines.into_bricks();
        let (script, plans, log) = hub.into_log();
        (script, plans, Rack { bricks, log })
    }
}
