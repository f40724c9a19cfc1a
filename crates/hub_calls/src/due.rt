//! What is due in a hub, and which calls have their replies.
ghost use Rattle.std.specs.Prelude.{◌≡◌, false, [], IfSome, Contains, min, length, slice_get};
ghost use Rattle.hub_tables.specs.PhaseControls.{act_by};
ghost use Rattle.hub_tables.specs.PlanBricks.{has_queues};
ghost use Rattle.hub_tables.specs.SmallSets.{numbers};
ghost use Rattle.hub_tables.specs.Agendas.{plain_due};
ghost use Rattle.hub_calls.specs.Dues.{due_first, due_rest, dues, is_through, may_run};

use crate::hub::Hub;
use hub_tables::{Due, SmallSet};
use mount_log::ReplyLine;
use script_lang::Action;

fn act_due(action: Option<Action>) -> Option<Due>
    ensures { result ≡ act_by action }
{
    match action {
        Some(action) => Some(Due::Act(action)),
        None => None,
    }
}

impl Hub {
    /// The sessions that may submit a call.
    pub fn submits(&self) -> SmallSet
        ensures { numbers result ≡ self.now.agenda.progress.ready }
    {
        self.engine.agenda.submits()
    }

    /// The next control without a condition, where the one before it is finished.
    pub fn plain(&self) -> Option<Action>
        ensures { result ≡ plain_due self.now.agenda }
    {
        self.engine.agenda.plain()
    }

    /// What goes before everything else: the first control of the phase that is to be armed, or else the first one whose
    /// request was sent.
    pub fn first(&self) -> Option<Due>
        ensures { result ≡ due_first self.now.agenda }
    {
        self.engine.agenda.first()
    }

    /// Whether one of the plans has an io-threads node. Where none has, no task is ready.
    pub fn has_queues(&self) -> bool
        ensures value { result ≡ has_queues self.now.plans }
        ensures none { result ≡ false → self.now.tasks ≡ [] }
    {
        self.planned.has_queues()
    }

    /// How many tasks are ready; 4,294,967,295 where they are more.
    pub fn ready_len(&self) -> u32
        ensures { result ≡ min (length self.now.tasks) 4294967295 }
    {
        if self.planned.has_queues() {
            self.engine.parts.graphs.nodes.tasks_len()
        } else {
            0
        }
    }

    /// The ready task of this place, from 0, by graph and then by task.
    pub fn ready_at(&self, at: u32) -> Option<(u32, u32)>
        ensures { result ≡ slice_get self.now.tasks at }
    {
        if self.planned.has_queues() {
            self.engine.parts.graphs.nodes.task_at(at)
        } else {
            None
        }
    }

    /// Whether a task of a graph is ready.
    pub(crate) fn is_ready(&self, graph: u32, task: u32) -> bool
        ensures { result ≡ may_run self.now.tasks graph task }
    {
        self.planned.has_queues() && self.engine.parts.graphs.nodes.is_ready(graph, task)
    }

    /// The item of this number, from 0, among the sessions that may submit, the ready tasks, and then the next control
    /// without a condition.
    #[tactic(auto, using(crate::proofs::Dues::of_submits, crate::proofs::Dues::of_tasks, crate::proofs::Dues::of_control, crate::proofs::Dues::past_dues))]
    pub fn due(&self, k: u32) -> Option<Due>
        ensures { result ≡ slice_get (dues self.now.agenda self.now.tasks) k }
    {
        let submits = self.submits();
        if let Some(session) = submits.nth(k) {
            return Some(Due::Submit(session));
        }
        let k = k.saturating_sub(submits.len());
        if let Some((graph, task)) = self.ready_at(k) {
            return Some(Due::Run(graph, task));
        }
        if k == self.ready_len() {
            act_due(self.plain())
        } else {
            None
        }
    }

    /// The first control that is left, where the phase has nothing else left.
    pub fn rest(&self) -> Option<Due>
        ensures { result ≡ due_rest self.now.agenda self.now.tasks }
    {
        let idle = self.engine.is_idle(&self.planned);
        act_due(self.engine.agenda.rest(idle))
    }

    /// Whether each call has its reply, each control was carried out, and nothing else is left.
    pub fn is_finished(&self) -> bool
        ensures { result ≡ is_through self.now.script self.now.agenda self.now.tasks }
    {
        let phases = self.script().phases.len();
        let idle = self.engine.is_idle(&self.planned);
        self.engine.agenda.is_over(phases, idle)
    }

    /// The reply of a call, by its number from 1.
    #[tactic(auto, using(crate::proofs::Finding::is_contained))]
    pub fn reply_of(&self, call: u32) -> Option<&ReplyLine>
        ensures { IfSome result (λ line. Contains self.now.log.replies line.now) }
    {
        let at = self.engine.parts.calls.reply_at(call)?;
        self.log().replies.as_slice().get(at)
    }
}
