//! The calls of a walk over the history, and the files that they find.
use crate::asked::{Asked, asked_at};
use crate::findings::Findings;
use crate::known::{Known, Part};
use crate::looking::{list, look};
use crate::progress::makes;
use crate::reading::number_at;
use crate::sessions::Session;
use crate::trace::Trace;
use flat_fs::FlatFs;
use fop_types::Answer;
use std::alloc::{AllocError, Global};
use std::mem;
use submitted_calls::Submitted;

/// What is known of each call; the answers of those that list a directory; the calls whose rename was not yet possible, and
/// whose part 1 is in the history; and the files.
#[derive(Drop)]
pub(crate) struct Visits {
    pub known: Vec<Known>,
    pub lists: Vec<Option<Answer>>,
    pub watched: Vec<usize>,
    pub files: FlatFs,
}

fn add_lists(lists: &mut Vec<Option<Answer>>, count: usize) -> Result<(), AllocError> {
    for _ in 0..count {
        lists.push(None)?;
    }
    Ok(())
}

fn add_known(alloc: Global, known: &mut Vec<Known>, calls: &[Submitted]) -> Result<(), AllocError> {
    let mut lo: u64 = 1;
    for call in calls {
        lo = lo.saturating_add(makes(call.call));
        known.push(Known::new(alloc, lo))?;
    }
    Ok(())
}

// Watches a call whose part 1 is in the history.
fn watch_call(watched: &mut Vec<usize>, asked: &Asked) -> Result<(), AllocError> {
    if asked.has_first {
        watched.push(asked.at)?;
    }
    Ok(())
}

// The call that a session is at.
fn current<'a>(trace: &Trace<'a>, f: &Findings, session: &Session) -> Option<Asked<'a>> {
    match session.turns.current() {
        Some(at) => asked_at(trace, f, at),
        None => None,
    }
}

impl Visits {
    /// No call.
    pub(crate) fn new(alloc: Global, files: FlatFs) -> Visits {
        Visits {
            known: Vec::new(alloc),
            lists: Vec::new(alloc),
            watched: Vec::new(alloc),
            files,
        }
    }

    /// Puts calls, of which nothing is known.
    ///
    /// # Errors
    /// Out of memory.
    pub(crate) fn begin(&mut self, alloc: Global, calls: &[Submitted]) -> Result<(), AllocError> {
        add_known(alloc, &mut self.known, calls)?;
        add_lists(&mut self.lists, calls.len())
    }

    // Makes the lookups of a call that are at this place. It is false where the next one is at a later place.
    fn look(&mut self, alloc: Global, asked: &Asked, place: u32) -> Result<bool, AllocError> {
        match self.known.get_mut(asked.at) {
            Some(known) => look(alloc, &mut self.files, asked, &mut known.found, place),
            None => Ok(false),
        }
    }

    // Lists the directory of a call that does so at this place. It is false where it does at a later place.
    fn list(&mut self, alloc: Global, asked: &Asked, place: u32) -> Result<bool, AllocError> {
        let Some(kept) = self.lists.get_mut(asked.at) else {
            return Ok(false);
        };
        match self.known.get(asked.at) {
            Some(known) => list(
                alloc,
                &mut self.files,
                asked,
                known.found.as_slice(),
                kept,
                place,
            ),
            None => Ok(false),
        }
    }

    // Makes what a call does at this place. It is false where the call waits for a later one.
    fn look_and_list(
        &mut self,
        alloc: Global,
        asked: &Asked,
        place: u32,
    ) -> Result<bool, AllocError> {
        match self.look(alloc, asked, place) {
            Ok(true) => self.list(alloc, asked, place),
            other => other,
        }
    }

    // Keeps what the lookups of a call led to, and passes the call in its session.
    fn settle(
        &mut self,
        alloc: Global,
        asked: &Asked,
        session: &mut Session,
    ) -> Result<(), AllocError> {
        watch_call(&mut self.watched, asked)?;
        match self.known.get_mut(asked.at) {
            Some(known) => known.settle(alloc, asked, session),
            None => Ok(()),
        }
    }

    // Goes on with a call as far as this place. It is false where the call waits for a later one.
    fn visit(
        &mut self,
        alloc: Global,
        asked: &Asked,
        session: &mut Session,
        place: u32,
    ) -> Result<bool, AllocError> {
        if !self.look_and_list(alloc, asked, place)? {
            return Ok(false);
        }
        self.settle(alloc, asked, session)?;
        Ok(true)
    }

    // Goes on with the call that a session is at. It is false where none is left, or it waits for a later place.
    fn go_on(
        &mut self,
        alloc: Global,
        trace: &Trace,
        f: &Findings,
        session: &mut Session,
        place: u32,
    ) -> Result<bool, AllocError> {
        match current(trace, f, session) {
            Some(asked) => self.visit(alloc, &asked, session, place),
            None => Ok(false),
        }
    }

    /// Goes on with a session's calls as far as this place.
    ///
    /// # Errors
    /// Out of memory.
    pub(crate) fn advance(
        &mut self,
        alloc: Global,
        trace: &Trace,
        f: &Findings,
        session: &mut Session,
        place: u32,
    ) -> Result<(), AllocError> {
        for _ in 0..session.turns.len() {
            if !self.go_on(alloc, trace, f, session, place)? {
                return Ok(());
            }
        }
        Ok(())
    }

    // Whether the rename of a call is possible at this place, which is then kept.
    fn sees(&mut self, at: usize, submitted: u32, place: u32) -> bool {
        match self.known.get_mut(at) {
            Some(known) => known.sees(&self.files, submitted, place),
            None => false,
        }
    }

    // Those of these calls whose rename is still not possible at this place.
    fn still_watched(
        &mut self,
        alloc: Global,
        submitted: &[u32],
        watched: &[usize],
        place: u32,
    ) -> Result<Vec<usize>, AllocError> {
        let mut left = Vec::new(alloc);
        for at in watched {
            if !self.sees(*at, number_at(submitted, *at), place) {
                left.push(*at)?;
            }
        }
        Ok(left)
    }

    /// Looks at each rename that was not yet possible. `submitted` has lower bounds of the entries before each call's first one.
    ///
    /// # Errors
    /// Out of memory.
    pub(crate) fn watch(
        &mut self,
        alloc: Global,
        submitted: &[u32],
        place: u32,
    ) -> Result<(), AllocError> {
        let watched = mem::replace(&mut self.watched, Vec::new(alloc));
        let left = self.still_watched(alloc, submitted, watched.as_slice(), place);
        drop(watched);
        self.watched = left?;
        Ok(())
    }

    /// Makes the change of a part of a call. It is false where that is no change, or is not accepted.
    ///
    /// # Errors
    /// Out of memory.
    pub(crate) fn enter(
        &mut self,
        alloc: Global,
        at: usize,
        part: Part,
    ) -> Result<bool, AllocError> {
        match self.known.get_mut(at) {
            Some(known) => known.enter(alloc, &mut self.files, part),
            None => Ok(false),
        }
    }
}
