//! Which sessions may submit.
ghost use Rattle.std.specs.Prelude.{◌≡◌, [], ◌==◌};
ghost use Rattle.hub_tables.specs.SmallSets.{numbers};
ghost use Rattle.hub_tables.specs.Sessions.{first_line, after_submission, after_reply, after_replies, begun, behind};

use crate::session_lines::SessionLines;
use crate::small_set::SmallSet;
use mount_log::ReplyLine;
use script_lang::Phase;
use std::marker::Model;

/// How far the sessions are: the current phase, which is the number of phases after the last one; the sessions that may
/// submit, which have no unanswered call and a line in the phase; and how many calls of the phase have no reply.
#[derive(Drop)]
pub struct Progress {
    phase: u32,
    ready: SmallSet,
    unanswered: u32,
}

impl Model for Progress {
    ghost use Rattle.hub_tables.specs.Sessions.{ProgressState};
    ghost use Rattle.hub_tables.specs.SmallSets.{numbers};

    ghost Value = { ProgressState };

    ghost view = { λ p. record { phase = p.phase; ready = numbers p.ready; unanswered = p.unanswered } };
}

impl Progress {
    /// The start of a script, before its first phase has begun.
    #[tactic(auto, using(crate::proofs::Numbers::no_number))]
    pub fn new() -> Progress
        ensures { result ≡ record { phase = 0; ready = []; unanswered = 0 } }
    {
        Progress {
            phase: 0,
            ready: SmallSet::new(),
            unanswered: 0,
        }
    }

    /// The current phase; the number of phases after the last one.
    pub fn phase(&self) -> u32
        ensures { result ≡ self.now.phase }
    {
        self.phase
    }

    /// The sessions that may submit a call.
    pub fn ready(&self) -> SmallSet
        ensures { numbers result ≡ self.now.ready }
    {
        self.ready
    }

    /// Whether each call of the phase has its reply.
    pub fn is_answered(&self) -> bool
        ensures { result ≡ (self.now.unanswered == 0) }
    {
        self.unanswered == 0
    }

    /// Begins the current phase, which has these calls, with the lines that the sessions have left. No call is unanswered.
    #[tactic(auto, using(crate::proofs::Numbers::numbers_are))]
    pub fn begin(&mut self, lines: &SessionLines, phase: &Phase)
        ensures { self.new ≡ begun (first_line lines.now) self.old phase.now }
    {
        self.unanswered = phase.calls.len().min(4294967295) as u32;
        self.ready = lines.of_phase(self.phase);
    }

    /// Leaves the current phase.
    #[tactic(auto, using(crate::proofs::Numbers::no_number))]
    pub fn leave(&mut self)
        ensures { self.new ≡ behind self.old }
    {
        self.phase = self.phase.saturating_add(1);
        self.ready = SmallSet::new();
    }

    /// A session has submitted a call.
    pub fn submit(&mut self, session: u8)
        ensures { self.new ≡ after_submission self.old session }
    {
        self.ready = self.ready.without(session);
    }

    // The call of a session has its reply, which has these lines left.
    fn replied(&mut self, lines: &SessionLines, session: u8)
        ensures { self.new ≡ after_reply (first_line lines.now) self.old session }
    {
        let has_more = lines.has(session, self.phase);
        self.unanswered = self.unanswered.saturating_sub(1);
        if !has_more {
            return;
        }
        self.ready = self.ready.with(session);
    }

    /// These replies were given.
    pub fn reply_all(&mut self, lines: &SessionLines, replies: &[ReplyLine])
        ensures { self.new ≡ after_replies (first_line lines.now) self.old replies.now }
    {
        for reply in replies {
            self.replied(lines, reply.session);
        }
    }
}
