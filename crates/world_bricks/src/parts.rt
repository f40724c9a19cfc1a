//! The hub with its bricks, as events move both.
ghost use Rattle.std.specs.Prelude.{◌≡◌, ◌&&◌, true, false, length, is_some, IfOk, OnOk};
ghost use Rattle.mount_log.specs.declared.logs.HubEvent.TheVariants as logged;
ghost use Rattle.hub_tables.specs.Arming.{is_armable};
ghost use Rattle.hub_tables.specs.Agendas.{with_submission, with_action, with_arm};
ghost use Rattle.hub_calls.specs.Dues.{is_idle, may_run, may_submit};
ghost use Rattle.hub_calls.specs.Hubs.{is_of_brick, ActsWhere, ClosesWith};
ghost use Rattle.world_bricks.specs.Lines.{with_sent, may_serve, next_output};
ghost use Rattle.world_bricks.specs.Worlds.{HubDoes, Submits, Arrives, Serves, Acts, Arms, Happens, HappensWhere, KeepsAgenda, MovesAgenda, with_next};

use crate::events::Event;
use crate::lines::Lines;
use fop_types::Proc;
use hub_calls::Hub;
use script_lang::Action;
use std::alloc::{AllocError, Global};
use xlator_law::Stop;

/// The hub, and the bricks with their lines.
pub struct Parts {
    pub(crate) hub: Hub,
    pub(crate) lines: Lines,
}

impl Parts {
    // Puts what the hub has sent into the bricks' lines.
    fn deliver(&mut self) -> Result<(), AllocError>
        ensures hub { self.new.hub ≡ self.old.hub }
        ensures sent { OnOk result (self.new.lines ≡ with_sent self.old.lines self.old.hub.log.sent) }
    {
        self.lines.deliver(self.hub.log().sent.as_slice())
    }

    fn submit(&mut self, alloc: Global, session: u8) -> Result<bool, Stop>
        ensures same { (self.new.hub.script ≡ self.old.hub.script) × (self.new.hub.plans ≡ self.old.hub.plans) }
        ensures happens { IfOk result (λ did. did ≡ true → Submits self.old.hub.script session self.old.hub.log self.old.lines self.new.hub.log self.new.lines) }
        ensures unchanged { IfOk result (λ did. did ≡ false → self.new ≡ self.old) }
        ensures may { IfOk result (λ did. did ≡ may_submit self.old.hub.agenda self.old.hub.script self.old.hub.log session) }
        ensures agenda { IfOk result (λ did. did ≡ true → ClosesWith self.old.hub.script self.old.hub.log self.new.hub.log self.new.hub.tasks (with_submission self.old.hub.agenda session) self.new.hub.agenda) }
    {
        let did = self.hub.submit(alloc, session)?;
        if !did {
            return Ok(false);
        }
        self.deliver()?;
        Ok(true)
    }

    // The next output of a brick arrives.
    fn arrive(&mut self, alloc: Global, brick: u8) -> Result<bool, Stop>
        ensures same { (self.new.hub.script ≡ self.old.hub.script) × (self.new.hub.plans ≡ self.old.hub.plans) }
        ensures happens { IfOk result (λ did. did ≡ true → Arrives brick self.old.hub.log self.old.lines self.new.hub.log self.new.lines) }
        ensures unchanged { IfOk result (λ did. did ≡ false → self.new ≡ self.old) }
        ensures there { IfOk result (λ did. did ≡ is_some (next_output self.old.lines brick)) }
        ensures agenda { IfOk result (λ did. did ≡ true → ClosesWith self.old.hub.script self.old.hub.log self.new.hub.log self.new.hub.tasks (with_next (next_output self.old.lines brick) self.old.hub.agenda) self.new.hub.agenda) }
    {
        let Some(output) = self.lines.take_output(brick)? else {
            return Ok(false);
        };
        self.hub.arrive(alloc, brick, output)?;
        self.deliver()?;
        Ok(true)
    }

    fn run(&mut self, alloc: Global, graph: u32, task: u32) -> Result<bool, Stop>
        ensures same { (self.new.hub.script ≡ self.old.hub.script) × (self.new.hub.plans ≡ self.old.hub.plans) }
        ensures happens { IfOk result (λ did. did ≡ true → HubDoes (logged.Run graph task) self.old.hub.log self.old.lines self.new.hub.log self.new.lines) }
        ensures unchanged { IfOk result (λ did. did ≡ false → self.new ≡ self.old) }
        ensures ready { IfOk result (λ did. did ≡ may_run self.old.hub.tasks graph task) }
        ensures agenda { IfOk result (λ did. did ≡ true → ClosesWith self.old.hub.script self.old.hub.log self.new.hub.log self.new.hub.tasks self.old.hub.agenda self.new.hub.agenda) }
    {
        let did = self.hub.run(alloc, graph, task)?;
        if !did {
            return Ok(false);
        }
        self.deliver()?;
        Ok(true)
    }

    fn act(&mut self, alloc: Global, action: Action) -> Result<bool, Stop>
        ensures same { (self.new.hub.script ≡ self.old.hub.script) × (self.new.hub.plans ≡ self.old.hub.plans) }
        ensures happens { IfOk result (λ did. did ≡ true → Acts action self.old.hub.log self.old.lines self.new.hub.log self.new.lines) }
        ensures unchanged { IfOk result (λ did. did ≡ false → self.new ≡ self.old) }
        ensures agenda { IfOk result (λ did. did ≡ true → ClosesWith self.old.hub.script self.old.hub.log self.new.hub.log self.new.hub.tasks (with_action self.old.hub.agenda action (is_idle self.old.hub.tasks)) self.new.hub.agenda) }
        ensures did { IfOk result (λ did. ActsWhere action (length self.old.hub.script.bricks) self.old.hub.agenda.internal did) }
    {
        let did = self.hub.act(alloc, action)?;
        if !did {
            return Ok(false);
        }
        self.deliver()?;
        Ok(true)
    }

    fn arm(
        &mut self,
        alloc: Global,
        brick: u8,
        before: Proc,
        count: u32,
        action: Action,
    ) -> Result<bool, Stop>
        ensures same { (self.new.hub.script ≡ self.old.hub.script) × (self.new.hub.plans ≡ self.old.hub.plans) }
        ensures happens { IfOk result (λ did. did ≡ true → Arms brick before count action self.old.hub.log self.old.lines self.new.hub.log self.new.lines) }
        ensures unchanged { IfOk result (λ did. did ≡ false → self.new ≡ self.old) }
        ensures agenda { IfOk result (λ did. did ≡ true → ClosesWith self.old.hub.script self.old.hub.log self.new.hub.log self.new.hub.tasks (with_arm self.old.hub.agenda brick before count action) self.new.hub.agenda) }
        ensures armable { IfOk result (λ did. did ≡ (is_armable brick action && is_of_brick (length self.old.hub.script.bricks) action)) }
    {
        let did = self.hub.arm(alloc, brick, before, count, action)?;
        if !did {
            return Ok(false);
        }
        self.deliver()?;
        Ok(true)
    }

    fn serve(&mut self, alloc: Global, brick: u8) -> Result<bool, Stop>
        ensures hub { self.new.hub ≡ self.old.hub }
        ensures there { IfOk result (λ did. did ≡ may_serve self.old.lines brick) }
        ensures serves { IfOk result (λ did. did ≡ true → Serves brick self.old.lines self.new.lines) }
        ensures unchanged { IfOk result (λ did. did ≡ false → self.new ≡ self.old) }
    {
        let did = self.lines.serve(alloc, brick)?;
        Ok(did)
    }

    /// Makes an event happen. It is false, with nothing changed, where the event is not enabled.
    ///
    /// # Errors
    /// As for [`hub_calls::Hub::submit`].
    pub(crate) fn happen(&mut self, alloc: Global, happening: Event) -> Result<bool, Stop>
        ensures same { (self.new.hub.script ≡ self.old.hub.script) × (self.new.hub.plans ≡ self.old.hub.plans) }
        ensures happens { IfOk result (λ did. did ≡ true → Happens self.old.hub.script happening self.old.hub.log self.old.lines self.new.hub.log self.new.lines) }
        ensures unchanged { IfOk result (λ did. did ≡ false → self.new ≡ self.old) }
        ensures enabled { IfOk result (λ did. HappensWhere happening self.old.hub.script self.old.hub.agenda self.old.hub.tasks self.old.hub.log self.old.lines did) }
        ensures moves { IfOk result (λ did. did ≡ true → MovesAgenda happening self.old.hub.script self.old.hub.log self.old.lines self.old.hub.agenda self.old.hub.tasks self.new.hub.log self.new.hub.agenda self.new.hub.tasks) }
        ensures keeps { KeepsAgenda happening self.old.hub.agenda self.old.hub.tasks self.new.hub.agenda self.new.hub.tasks }
    {
        match happening {
            Event::Submit(session) => self.submit(alloc, session),
            Event::Arrive(brick) => self.arrive(alloc, brick),
            Event::Serve(brick) => self.serve(alloc, brick),
            Event::Run(graph, task) => self.run(alloc, graph, task),
            Event::Act(action) => self.act(alloc, action),
            Event::Arm(brick, proc, count, action) => self.arm(alloc, brick, proc, count, action),
        }
    }
}
