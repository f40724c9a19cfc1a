//! The sessions of a walk over the history.
use crate::cases::AnswerAt;
use crate::turns::Turns;
use flat_fs::Fds;
use fop_types::{Call, Gfid};
use std::alloc::{AllocError, Global};
use submitted_calls::Submitted;

/// A session: the turns of its calls, and its descriptors.
#[derive(Drop)]
pub(crate) struct Session {
    pub turns: Turns,
    pub fds: Fds,
}

impl Session {
    /// Passes a call, whose reply gives a descriptor of this file if it gives one.
    ///
    /// # Errors
    /// Out of memory.
    pub(crate) fn pass(
        &mut self,
        call: &Call,
        file: Gfid,
        reply: &Option<AnswerAt>,
    ) -> Result<(), AllocError> {
        self.turns.pass();
        match reply {
            None => Ok(()),
            Some(found) => self.fds.after_answer(call, file, found.answer),
        }
    }
}

// How many sessions there are, those below the last one that has a call.
fn session_count(calls: &[Submitted]) -> usize {
    let mut count: usize = 0;
    for call in calls {
        count = count.max(call.session as usize + 1);
    }
    count
}

fn add_sessions(
    alloc: Global,
    sessions: &mut Vec<Session>,
    count: usize,
) -> Result<(), AllocError> {
    for _ in 0..count {
        sessions.push(Session {
            turns: Turns::new(alloc),
            fds: Fds::new(alloc),
        })?;
    }
    Ok(())
}

// Puts a call to its session.
fn add_call(sessions: &mut Vec<Session>, session: u8, at: usize) -> Result<(), AllocError> {
    match sessions.get_mut(session as usize) {
        Some(session) => session.turns.add(at),
        None => Ok(()),
    }
}

fn add_calls(sessions: &mut Vec<Session>, calls: &[Submitted]) -> Result<(), AllocError> {
    for at in 0..calls.len() {
        let call = &calls[at];
        add_call(sessions, call.session, at)?;
    }
    Ok(())
}

/// Puts calls to their sessions.
///
/// # Errors
/// Out of memory.
pub(crate) fn begin_sessions(
    alloc: Global,
    sessions: &mut Vec<Session>,
    calls: &[Submitted],
) -> Result<(), AllocError> {
    add_sessions(alloc, sessions, session_count(calls))?;
    add_calls(sessions, calls)
}
