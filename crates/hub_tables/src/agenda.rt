//! What decides what is due next.
ghost use Rattle.std.specs.Prelude.{◌≡◌, OnOk, length};
ghost use Rattle.hub_tables.specs.SmallSets.{numbers};
ghost use Rattle.hub_tables.specs.PhaseControls.{first_due, first_left};
ghost use Rattle.hub_tables.specs.Sessions.{first_line, behind};
ghost use Rattle.hub_tables.specs.Agendas.{new_agenda, is_quiet, plain_due, rest_due, is_over, with_submission, with_output, with_action, with_arm, with_replies, with_phase, has_ended, moved_on};

use crate::actions::{Due, is_great};
use crate::controls::Controls;
use crate::progress::Progress;
use crate::session_lines::SessionLines;
use crate::small_set::SmallSet;
use fop_types::Proc;
use mount_log::ReplyLine;
use script_lang::{Action, Phase};
use std::alloc::{AllocError, Global};
use std::marker::Model;

/// How far the sessions are; the controls of the phase; whether an internal call is under way; and how many requests, Downs
/// and Ups have no output so far. An event changes it as it begins, by what it is, and as it ends, by the lines that it adds
/// to the log.
#[derive(Drop)]
pub struct Agenda {
    pub(crate) progress: Progress,
    pub(crate) controls: Controls,
    pub(crate) internal: bool,
    pub(crate) owed: u64,
}

impl Model for Agenda {
    ghost use Rattle.hub_tables.specs.Agendas.{AgendaState};

    ghost Value = { AgendaState };

    ghost view = { λ a. record { progress = a.progress; controls = a.controls; internal = a.internal; owed = a.owed } };
}

impl Agenda {
    /// Before the first phase of a script has begun. It takes no memory.
    pub fn new(alloc: Global) -> Agenda
        ensures { result ≡ new_agenda }
    {
        Agenda {
            progress: Progress::new(),
            controls: Controls::new(alloc),
            internal: false,
            owed: 0,
        }
    }

    /// The sessions that may submit a call.
    pub fn submits(&self) -> SmallSet
        ensures { numbers result ≡ self.now.progress.ready }
    {
        self.progress.ready()
    }

    /// Whether an internal call is under way.
    pub fn is_calling(&self) -> bool
        ensures { result ≡ self.now.internal }
    {
        self.internal
    }

    /// Whether nothing is left but controls, where no task is ready.
    pub fn is_quiet(&self, idle: bool) -> bool
        ensures { result ≡ is_quiet self.now idle }
    {
        self.progress.is_answered() && !self.internal && self.owed == 0 && idle
    }

    /// What goes before everything else: the first control that is to be armed, or else the first one whose request was
    /// sent.
    pub fn first(&self) -> Option<Due>
        ensures { result ≡ first_due self.now.controls }
    {
        self.controls.first()
    }

    /// The next control without a condition, where the one before it is finished.
    pub fn plain(&self) -> Option<Action>
        ensures { result ≡ plain_due self.now }
    {
        if self.internal {
            None
        } else {
            self.controls.plain()
        }
    }

    /// The first control that is left, where nothing else is.
    pub fn rest(&self, idle: bool) -> Option<Action>
        ensures { result ≡ rest_due self.now idle }
    {
        if self.is_quiet(idle) {
            self.controls.rest()
        } else {
            None
        }
    }

    /// Whether each of so many phases has ended, and nothing is left.
    pub fn is_over(&self, phases: usize, idle: bool) -> bool
        ensures { result ≡ is_over self.now phases idle }
    {
        (self.progress.phase() as usize) >= phases && self.is_quiet(idle)
    }

    /// A session has submitted a call.
    pub fn submit(&mut self, session: u8)
        ensures { self.new ≡ with_submission self.old session }
    {
        self.progress.submit(session);
    }

    /// An output of a brick has arrived, of which it is said whether it was owed.
    pub fn take_output(&mut self, due: bool)
        ensures { self.new ≡ with_output self.old due }
    {
        self.owed = self.owed.saturating_sub(due as u64);
    }

    /// An action is carried out, and with it the control that is due and has this action.
    pub fn act(&mut self, action: Action, idle: bool)
        ensures { self.new ≡ with_action self.old action idle }
    {
        let rest = self.is_quiet(idle);
        let plain = !self.internal;
        if let Some(control) = self.controls.carried_by(action, plain, rest) {
            self.controls.carried(control);
        }
        self.internal = is_great(action) || self.internal;
    }

    /// An action is armed for a request.
    ///
    /// # Errors
    /// Out of memory.
    pub fn arm(
        &mut self,
        brick: u8,
        proc: Proc,
        count: u32,
        action: Action,
    ) -> Result<(), AllocError>
        ensures { OnOk result (self.new ≡ with_arm self.old brick proc count action) }
    {
        self.controls.arm(brick, proc, count, action)
    }

    // The current phase begins; behind the last one there are no controls.
    fn begin_phase(
        &mut self,
        alloc: Global,
        left: &SessionLines,
        phases: &[Phase],
    ) -> Result<(), AllocError>
        ensures { OnOk result (self.new ≡ with_phase (first_line left.now) phases.now self.old) }
    {
        match phases.get(self.progress.phase() as usize) {
            Some(phase) => {
                self.progress.begin(left, phase);
                self.controls = Controls::of(alloc, phase)?;
                Ok(())
            }
            None => {
                self.controls = Controls::new(alloc);
                Ok(())
            }
        }
    }

    fn has_ended(&self, phases: &[Phase], idle: bool) -> bool
        ensures { result ≡ has_ended phases.now idle self.now }
    {
        (self.progress.phase() as usize) < phases.len()
            && self.is_quiet(idle)
            && self.controls.is_empty()
    }

    fn leave_phase(&mut self)
        ensures { self.new ≡ record self.old { progress = behind self.old.progress } }
    {
        self.progress.leave();
    }

    // The phases that have nothing left end.
    #[tactic(auto, using(crate::proofs::PhasesLeft::one_ends))]
    fn move_on(
        &mut self,
        alloc: Global,
        left: &SessionLines,
        phases: &[Phase],
        idle: bool,
    ) -> Result<(), AllocError>
        ensures { OnOk result (self.new ≡ moved_on (first_line left.now) phases.now idle (length phases.now) self.old) }
    {
        for _ in 0..phases.len() {
            if !self.has_ended(phases, idle) {
                return Ok(());
            }
            self.leave_phase();
            self.begin_phase(alloc, left, phases)?;
        }
        Ok(())
    }

    /// Begins the first phase of a script that has something left.
    ///
    /// # Errors
    /// Out of memory.
    pub fn begin(
        &mut self,
        alloc: Global,
        left: &SessionLines,
        phases: &[Phase],
        idle: bool,
    ) -> Result<(), AllocError>
        ensures { OnOk result (self.new ≡ moved_on (first_line left.now) phases.now idle (length phases.now) (with_phase (first_line left.now) phases.now self.old)) }
    {
        self.begin_phase(alloc, left, phases)?;
        self.move_on(alloc, left, phases, idle)
    }

    /// Ends an event, by the replies that it has given and by whether the internal call was answered, with the lines that the
    /// sessions have left; what it has sent went out before. The phases that have nothing left end.
    ///
    /// # Errors
    /// Out of memory.
    pub fn end(
        &mut self,
        alloc: Global,
        left: &SessionLines,
        phases: &[Phase],
        idle: bool,
        replies: &[ReplyLine],
        answered: bool,
    ) -> Result<(), AllocError>
        ensures { OnOk result (self.new ≡ moved_on (first_line left.now) phases.now idle (length phases.now) (with_replies (first_line left.now) self.old replies.now answered)) }
    {
        self.progress.reply_all(left, replies);
        self.internal = !answered && self.internal;
        self.move_on(alloc, left, phases, idle)
    }
}
