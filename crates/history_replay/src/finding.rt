//! What the lookups of a trace found, and where its renames were possible.
//!
//! The history is gone through once, from the first change to the last. Each session is at one of its calls, and waits there for
//! the place of the call's next lookup. Of this walk it is proved alone that it is safe: what it finds is checked.
use crate::findings::Findings;
use crate::indices::findings_of;
use crate::known::{Known, Part};
use crate::reading::{index_at, number, number_at};
use crate::sessions::{Session, begin_sessions};
use crate::trace::Trace;
use crate::visits::Visits;
use flat_fs::FlatFs;
use fop_types::{Answer, Entry, Gfid, Seq};
use std::alloc::{AllocError, Global};
use std::mem;

/// What was found, and the answers of the calls that list a directory, by the indices of the calls.
#[derive(Drop)]
pub(crate) struct Walked {
    pub findings: Findings,
    pub lists: Vec<Option<Answer>>,
}

// Where the replies and entries of the calls are, the sessions, and what their calls found so far.
#[derive(Drop)]
struct Walk {
    findings: Findings,
    sessions: Vec<Session>,
    visits: Visits,
}

// Whether the index of a call is this one.
fn is_at(indices: &[Option<u32>], at: usize, index: u32) -> bool {
    match index_at(indices, at) {
        Some(found) => found == index,
        None => false,
    }
}

// Whether the index of a call is before this one.
fn is_before(indices: &[Option<u32>], at: usize, index: u32) -> bool {
    match index_at(indices, at) {
        Some(found) => found < index,
        None => false,
    }
}

// The part of a call that an entry is. A rename's part 1 is before its part 2, if that is in the history.
fn part_of(f: &Findings, at: usize, index: u32, part: u8) -> Option<Part> {
    if part == 1 && is_at(f.first.as_slice(), at, index) {
        if is_before(f.last.as_slice(), at, index) {
            None
        } else {
            Some(Part::First)
        }
    } else if is_at(f.last.as_slice(), at, index) {
        Some(Part::Last)
    } else {
        None
    }
}

// The index of an entry's call, `None` where the entry is before the call's submission.
fn call_of(submitted: &[u32], index: u32, entry: Entry) -> Option<usize> {
    match entry.call.checked_sub(1) {
        Some(at) => {
            let at = at as usize;
            if number_at(submitted, at) <= index {
                Some(at)
            } else {
                None
            }
        }
        None => None,
    }
}

// Makes the change of an entry. It is false where the entry is no legal one.
fn enter(
    alloc: Global,
    submitted: &[u32],
    f: &Findings,
    visits: &mut Visits,
    index: u32,
    entry: Entry,
) -> Result<bool, AllocError> {
    match call_of(submitted, index, entry) {
        Some(at) => match part_of(f, at, index, entry.part) {
            Some(part) => visits.enter(alloc, at, part),
            None => Ok(false),
        },
        None => Ok(false),
    }
}

// Goes on with all sessions as far as this place.
fn advance_all(
    alloc: Global,
    trace: &Trace,
    f: &Findings,
    sessions: &mut Vec<Session>,
    visits: &mut Visits,
    place: u32,
) -> Result<(), AllocError> {
    for index in 0..sessions.len() {
        if let Some(session) = sessions.get_mut(index) {
            visits.advance(alloc, trace, f, session, place)?;
        }
    }
    Ok(())
}

fn taken<T>(alloc: Global, items: &mut Vec<T>) -> Seq<T> {
    Seq::from_vec(mem::replace(items, Vec::new(alloc)))
}

// The places where renames were possible, 0 where none was.
fn add_seen(seen: &mut Seq<u32>, known: &[Known]) -> Result<(), AllocError> {
    for known in known {
        seen.push(known.seen.unwrap_or(0))?;
    }
    Ok(())
}

// What the lookups of each call found.
fn add_found(
    alloc: Global,
    found: &mut Seq<Seq<Gfid>>,
    known: &mut Vec<Known>,
) -> Result<(), AllocError> {
    for at in 0..known.len() {
        if let Some(known) = known.get_mut(at) {
            found.push(taken(alloc, &mut known.found))?;
        }
    }
    Ok(())
}

// Keeps what was found.
fn note(alloc: Global, findings: &mut Findings, known: &mut Vec<Known>) -> Result<(), AllocError> {
    add_seen(&mut findings.seen, known.as_slice())?;
    add_found(alloc, &mut findings.found, known)
}

impl Walk {
    fn new(alloc: Global) -> Result<Walk, AllocError> {
        let files = FlatFs::new(alloc)?;
        Ok(Walk {
            findings: Findings::new(alloc),
            sessions: Vec::new(alloc),
            visits: Visits::new(alloc, files),
        })
    }

    // Nothing is known of the calls but their sessions, replies and entries.
    fn begin(&mut self, alloc: Global, trace: &Trace) -> Result<(), AllocError> {
        let findings = findings_of(alloc, trace)?;
        drop(mem::replace(&mut self.findings, findings));
        begin_sessions(alloc, &mut self.sessions, trace.calls)?;
        self.visits.begin(alloc, trace.calls)
    }

    fn visit(&mut self, alloc: Global, trace: &Trace, place: u32) -> Result<(), AllocError> {
        advance_all(
            alloc,
            trace,
            &self.findings,
            &mut self.sessions,
            &mut self.visits,
            place,
        )?;
        self.visits.watch(alloc, trace.submitted, place)
    }

    // Goes on with all sessions as far as an entry, and makes its change. It is false where the entry is no legal one, or its
    // number is above 4,294,967,295.
    fn turn(
        &mut self,
        alloc: Global,
        trace: &Trace,
        place: u32,
        entry: Entry,
    ) -> Result<bool, AllocError> {
        if place == u32::MAX {
            return Ok(false);
        }
        self.visit(alloc, trace, place)?;
        enter(
            alloc,
            trace.submitted,
            &self.findings,
            &mut self.visits,
            place,
            entry,
        )
    }

    // The number of the first entry that is not legal.
    fn first_illegal(&mut self, alloc: Global, trace: &Trace) -> Result<Option<u32>, AllocError> {
        let mut place: u32 = 0;
        for entry in trace.history {
            if !self.turn(alloc, trace, place, *entry)? {
                return Ok(Some(place.saturating_add(1)));
            }
            place = place.saturating_add(1);
        }
        Ok(None)
    }

    // What was found, at the end of the walk.
    fn walked(&mut self, alloc: Global) -> Result<Result<Walked, u32>, AllocError> {
        let done = note(alloc, &mut self.findings, &mut self.visits.known);
        let walked = Walked {
            findings: mem::replace(&mut self.findings, Findings::new(alloc)),
            lists: mem::replace(&mut self.visits.lists, Vec::new(alloc)),
        };
        done.and(Ok(Ok(walked)))
    }

    // Goes on to the end of the history.
    fn end(&mut self, alloc: Global, trace: &Trace) -> Result<Result<Walked, u32>, AllocError> {
        self.visit(alloc, trace, number(trace.history.len()))?;
        self.walked(alloc)
    }

    fn find(&mut self, alloc: Global, trace: &Trace) -> Result<Result<Walked, u32>, AllocError> {
        self.begin(alloc, trace)?;
        match self.first_illegal(alloc, trace)? {
            Some(entry) => Ok(Err(entry)),
            None => self.end(alloc, trace),
        }
    }
}

/// Walks over a history. An error is the number of the first entry that is not legal.
///
/// # Errors
/// Out of memory.
pub(crate) fn find(alloc: Global, trace: &Trace) -> Result<Result<Walked, u32>, AllocError> {
    let mut walk = Walk::new(alloc)?;
    let found = walk.find(alloc, trace);
    drop(walk);
    found
}
