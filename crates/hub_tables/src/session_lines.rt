//! The lines of the script that the sessions have left.
ghost use Rattle.std.specs.Prelude.{◌≡◌, ◌<◌, ℕ, None, Some, slice_get, IfOk};
ghost use Rattle.script_lang.specs.Accepted.{IsAccepted};
ghost use Rattle.mount_log.specs.Lines.{TakesLine, queue_of, places_from};
ghost use Rattle.mount_log.specs.declared.places.LineAt.{LineAt as Place};
ghost use Rattle.hub_tables.specs.SmallSets.{has};
ghost use Rattle.hub_tables.specs.Sessions.{first_line, has_line};

use crate::small_set::SmallSet;
use mount_log::{LineAt, lines_of_sessions, take_line};
use script_lang::Script;
use std::alloc::{AllocError, Global};
use std::collections::VecDeque;
use std::marker::Model;

/// The lines of each session that were not submitted, in their order in the script.
#[derive(Drop)]
pub struct SessionLines {
    lines: Vec<VecDeque<LineAt>>,
}

impl Model for SessionLines {
    ghost use Rattle.std.specs.Prelude.{List, map};
    ghost use Rattle.mount_log.specs.declared.places.LineAt.{LineAt};

    ghost Value = { List (List LineAt) };

    ghost view = { λ s. map (λ q. q.items) s.lines.items };
}

impl SessionLines {
    /// All lines of a script.
    ///
    /// # Errors
    /// Out of memory.
    pub fn new(alloc: Global, script: &Script) -> Result<SessionLines, AllocError>
        requires { IsAccepted script.now }
        ensures { IfOk result (λ lines. (session : ℕ) → queue_of lines session ≡ places_from session 0 script.now.phases) }
    {
        let lines = lines_of_sessions(alloc, script)?;
        Ok(SessionLines { lines })
    }

    /// The first line that a session has left.
    pub fn first(&self, session: u8) -> Option<LineAt>
        ensures { result ≡ first_line self.now session }
    {
        match self.lines.get(session as usize) {
            Some(lines) => match lines.front() {
                Some(at) => Some(*at),
                None => None,
            },
            None => None,
        }
    }

    /// Whether the first line that a session has left is one of this phase.
    pub fn has(&self, session: u8, phase: u32) -> bool
        ensures { result ≡ has_line self.now phase session }
    {
        match self.first(session) {
            Some(at) => at.phase == phase,
            None => false,
        }
    }

    /// The sessions whose first line left is one of this phase.
    #[tactic(auto, using(crate::proofs::Sessions::with_none, crate::proofs::Sessions::with_next, crate::proofs::Sessions::with_skipped, crate::proofs::Sessions::with_all))]
    pub fn of_phase(&self, phase: u32) -> SmallSet
        ensures { (session : ℕ) → session < 64 → has result session ≡ has_line self.now phase session }
    {
        let mut sessions = SmallSet::new();
        for session in 0..self.lines.len().min(64) as u8 {
            if !self.has(session, phase) {
                continue;
            }
            sessions = sessions.with(session);
        }
        sessions
    }

    /// A session has its first line no more, if it had one.
    pub fn take(&mut self, session: u8)
        ensures taken { (at : Place) → first_line self.old session ≡ Some at → TakesLine self.old session at self.new }
        ensures none { first_line self.old session ≡ None → self.new ≡ self.old }
    {
        take_line(&mut self.lines, session);
    }
}
