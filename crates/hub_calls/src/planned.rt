//! The script that a hub runs, with the plans of its volfiles, and what is left of it.
ghost use Rattle.std.specs.Prelude.{◌≡◌, ◌&&◌, None, Some, is_some, [], IfSome, IfOk, slice_get};
ghost use Rattle.graph_nodes.specs.Plans.{IsPlan};
ghost use Rattle.mount_log.specs.Lines.{line_of, TakesLine};
ghost use Rattle.mount_log.specs.Submissions.{line_by};
ghost use Rattle.hub_tables.specs.PlanBricks.{has_queues as have_queues};
ghost use Rattle.hub_tables.specs.SmallSets.{has};
ghost use Rattle.mount_log.specs.declared.places.LineAt.{LineAt as Place};
ghost use Rattle.hub_tables.specs.Sessions.{first_line};
ghost use Rattle.hub_calls.specs.Plans.{AreLeft, IsNext};
ghost use Rattle.mount_log.specs.Scripts.{IsScript};

use fop_types::Seq;
use graph_build::Plan;
use hub_tables::{SessionLines, SmallSet, creations, has_queues};
use mount_log::LineAt;
use script_lang::{CallLine, Phase, Script};
use std::alloc::{AllocError, Global};
use std::marker::Model;

/// A script with the plan of each of its volfiles, in order, and the lines that its sessions have not submitted. Each plan
/// is one that `graph_build::build` gives.
#[derive(Drop)]
pub struct Planned {
    script: Script,
    plans: Seq<Plan>,
    left: SessionLines,
    queues: bool,
}

impl Model for Planned {
    ghost use Rattle.std.specs.Prelude.{◌≡◌};
    ghost use Rattle.std.specs.List.{AllByRecursion};
    ghost use Rattle.graph_nodes.specs.Plans.{IsPlan};
    ghost use Rattle.hub_tables.specs.PlanBricks.{has_queues};
    ghost use Rattle.hub_calls.specs.Plans.{PlannedScript};

    ghost Value = { PlannedScript };

    ghost view = { λ p. record { script = p.script; plans = p.plans; left = p.left } };

    ghost invariant = { λ p. record { each : AllByRecursion IsPlan p.plans; queues : p.queues ≡ has_queues p.plans } };
}

impl Planned {
    /// A script of which nothing was submitted.
    ///
    /// # Errors
    /// Out of memory.
    #[tactic(auto, using(crate::proofs::Planning::are_plans))]
    pub(crate) fn new(
        alloc: Global,
        script: Script,
        plans: Seq<Plan>,
    ) -> Result<Planned, AllocError>
        requires { IsScript script plans }
        ensures given { IfOk result (λ on. (on.script ≡ script) × (on.plans ≡ plans)) }
        ensures left { IfOk result (λ on. AreLeft script [] on.left) }
    {
        let queues = has_queues(plans.as_slice());
        match SessionLines::new(alloc, &script) {
            Ok(left) => Ok(Planned {
                script,
                plans,
                left,
                queues,
            }),
            Err(error) => {
                drop(script);
                drop(plans);
                Err(error)
            }
        }
    }

    pub(crate) fn script(&self) -> &Script
        ensures { result.now ≡ self.now.script }
    {
        &self.script
    }

    pub(crate) fn plans(&self) -> &[Plan]
        ensures { result.now ≡ self.now.plans }
    {
        self.plans.as_slice()
    }

    pub(crate) fn into_parts(self) -> (Script, Seq<Plan>)
        ensures { result ≡ (self.script, self.plans) }
    {
        let Planned {
            script,
            plans,
            left,
            ..
        } = self;
        drop(left);
        (script, plans)
    }

    /// The plan of a volfile.
    #[tactic(auto, using(crate::proofs::Planning::is_plan))]
    pub(crate) fn plan(&self, volfile: u8) -> Option<&Plan>
        ensures plan { IfSome result (λ plan. IsPlan plan.now) }
        ensures none { result ≡ None → slice_get self.now.plans volfile ≡ None }
    {
        self.plans.as_slice().get(volfile as usize)
    }

    /// How many sets the first graph has.
    pub(crate) fn root_sets(&self) -> u8 {
        match self.plan(self.script.start) {
            Some(plan) => plan.sets.len().min(255) as u8,
            None => 0,
        }
    }

    /// How many bricks there are, of which at most 255 can be named.
    pub(crate) fn bricks(&self) -> u8 {
        self.script.bricks.len().min(255) as u8
    }

    /// Whether one of the plans has an io-threads node, so that tasks may be ready.
    pub(crate) fn has_queues(&self) -> bool
        ensures { result ≡ have_queues self.now.plans }
    {
        self.queues
    }

    pub(crate) fn phase(&self, phase: u32) -> Option<&Phase>
        ensures found { IfSome result (λ found. slice_get self.now.script.phases phase ≡ Some found.now) }
        ensures none { result ≡ None → slice_get self.now.script.phases phase ≡ None }
    {
        self.script.phases.as_slice().get(phase as usize)
    }

    /// The line of a call.
    #[tactic(auto, using(crate::proofs::Planning::is_line))]
    pub(crate) fn line(&self, at: LineAt) -> Option<&CallLine>
        ensures line { IfSome result (λ line. line_of self.now.script at ≡ Some line.now) }
        ensures none { result ≡ None → line_of self.now.script at ≡ None }
    {
        match self.phase(at.phase) {
            Some(phase) => phase.calls.as_slice().get(at.index as usize),
            None => None,
        }
    }

    /// The lines that the sessions have left.
    pub(crate) fn left(&self) -> &SessionLines
        ensures { result.now ≡ self.now.left }
    {
        &self.left
    }

    /// The next line of a session, by its place and its number in the script.
    #[tactic(auto, using(crate::proofs::Planning::is_next, crate::proofs::Planning::is_there, crate::proofs::Planning::is_past, crate::proofs::Planning::is_gone))]
    pub(crate) fn next(&self, session: u8) -> Option<(LineAt, u32)>
        ensures next { IfSome result (λ next. IsNext self.now session next.0 next.1) }
        ensures there { is_some result ≡ is_some (line_by self.now.script (first_line self.now.left session)) }
    {
        let at = self.left.first(session)?;
        let line = self.line(at)?;
        Some((at, line.line))
    }

    /// The same, where the session is one of these.
    pub(crate) fn next_of(&self, ready: SmallSet, session: u8) -> Option<(LineAt, u32)>
        ensures next { IfSome result (λ next. IsNext self.now session next.0 next.1) }
        ensures there { is_some result ≡ (has ready session && is_some (line_by self.now.script (first_line self.now.left session))) }
    {
        if ready.has(session) {
            self.next(session)
        } else {
            None
        }
    }

    /// A session has its first line no more.
    pub(crate) fn take_line(&mut self, session: u8)
        ensures same { (self.new.script ≡ self.old.script) × (self.new.plans ≡ self.old.plans) }
        ensures taken { (at : Place) → first_line self.old.left session ≡ Some at → TakesLine self.old.left session at self.new.left }
    {
        self.left.take(session);
    }

    /// How many mkdir and create calls the script has.
    pub(crate) fn creations(&self) -> u32 {
        creations(&self.script)
    }
}
