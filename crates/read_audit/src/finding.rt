//! The search for the locks and the fetches of each call in what arrived. Nothing is said of what is found.

use crate::found::{FetchAt, Found, Grant, LockAt};
use brick_machine::Brick;
use change_audit::finding::{Opening, openings_of};
use change_audit::journals::{input_at, whole_input};
use fop_types::{BrickReq, Cell, Input, Proc, Seq};
use mount_log::heads::{Head, Said, head_at};
use mount_log::requests::is_request_of;
use mount_log::{HubEvent, Log};
use std::alloc::{AllocError, Global};
use std::collections::BTreeMap;

// A lock: its place in its brick's journal, its call and its cells.
#[derive(Drop)]
struct Locked {
    place: usize,
    call: u32,
    cells: Seq<Cell>,
}

// What the search goes by: the opening of each wind, and the locks in each brick's journal by wind, less those that were granted.
#[derive(Drop)]
struct Tables {
    openings: BTreeMap<u64, Opening>,
    locks: Vec<BTreeMap<u64, Locked>>,
}

// A Done that arrived in the event at a place: its brick, its wind, and the count of the input that it answers.
#[derive(Clone, Copy)]
struct Arrival {
    event: usize,
    brick: u8,
    wind: u64,
    taken: u64,
}

// ---- what was asked

fn locked_by(place: usize, req: BrickReq) -> Option<Locked> {
    match req {
        BrickReq::Lock { call, cells, .. } => Some(Locked { place, call, cells }),
        _ => None,
    }
}

// Notes the lock at a place in a journal.
fn note_asked(
    alloc: Global,
    locks: &mut BTreeMap<u64, Locked>,
    place: usize,
    input: &[u8],
) -> Result<(), AllocError> {
    let Some(Input::Request { wind, req, .. }) = whole_input(alloc, input)? else {
        return Ok(());
    };
    match locked_by(place, req) {
        Some(locked) => {
            locks.insert(wind, locked)?;
            Ok(())
        }
        None => Ok(()),
    }
}

// The locks in a brick's journal, by wind.
fn locks_in(alloc: Global, brick: &Brick) -> Result<BTreeMap<u64, Locked>, AllocError> {
    let mut locks = BTreeMap::new(alloc);
    let journal = brick.journal();
    for place in 0..journal.len() {
        let input = journal[place].as_slice();
        if is_request_of(input, Proc::Lock) {
            note_asked(alloc, &mut locks, place, input)?;
        }
    }
    Ok(locks)
}

fn locks_of(alloc: Global, bricks: &[Brick]) -> Result<Vec<BTreeMap<u64, Locked>>, AllocError> {
    let mut lists = Vec::new(alloc);
    for brick in bricks {
        lists.push(locks_in(alloc, brick)?)?;
    }
    Ok(lists)
}

fn fetched_by(req: &BrickReq) -> Option<Cell> {
    match req {
        BrickReq::Fetch { cell, .. } => Some(*cell),
        _ => None,
    }
}

fn fetched_in(alloc: Global, input: &[u8]) -> Result<Option<Cell>, AllocError> {
    match whole_input(alloc, input)? {
        Some(Input::Request { req, .. }) => Ok(fetched_by(&req)),
        _ => Ok(None),
    }
}

// ---- what arrived

// Where an output that is a reply says whether it is a Done: behind the number of inputs, a hyper; a unit for the kind of output;
// and the wind, a hyper.
const ANSWER: usize = 20;

const DONE: [u8; 4] = [0, 0, 0, 0];

fn is_done(output: &[u8]) -> bool {
    if output.len() < ANSWER + 4 {
        return false;
    }
    &output[ANSWER..ANSWER + 4] == DONE.as_slice()
}

fn reply_wind(head: Head) -> Option<u64> {
    match head.said {
        Said::Reply(wind) => Some(wind),
        _ => None,
    }
}

fn done_in(event: usize, at: &HubEvent, head: Head) -> Option<Arrival> {
    let wind = reply_wind(head)?;
    match at {
        HubEvent::Arrive { brick, bytes } => {
            if !is_done(bytes.as_slice()) {
                return None;
            }
            Some(Arrival {
                event,
                brick: *brick,
                wind,
                taken: head.taken,
            })
        }
        _ => None,
    }
}

// ---- what is noted

// The lock that an answer grants: the one of its wind that had no answer.
fn take_granted(tables: &mut Tables, at: Arrival) -> Option<Locked> {
    let locks = tables.locks.get_mut(at.brick as usize)?;
    locks.remove(&at.wind)
}

// Notes the lock that was granted.
fn note_lock(
    alloc: Global,
    found: &mut Found,
    at: Arrival,
    locked: Locked,
) -> Result<(), AllocError> {
    let Locked { place, call, cells } = locked;
    let lock = LockAt {
        grant: Grant {
            event: at.event,
            place,
        },
        brick: at.brick,
        cells,
    };
    found.add_lock(alloc, call, lock)
}

// Notes the fetch that was answered, on a wind that was opened so.
fn note_fetch(
    alloc: Global,
    found: &mut Found,
    opening: Opening,
    at: Arrival,
    input: &[u8],
) -> Result<(), AllocError> {
    let Some(cell) = fetched_in(alloc, input)? else {
        return Ok(());
    };
    let fetch = FetchAt {
        event: at.event,
        source: at.brick,
        opening: opening.place,
        cell,
    };
    found.add_fetch(alloc, opening.call, fetch)
}

// Notes what was answered, if it is a fetch.
fn note_answered(
    alloc: Global,
    found: &mut Found,
    tables: &Tables,
    at: Arrival,
    input: &[u8],
) -> Result<(), AllocError> {
    if !is_request_of(input, Proc::Fetch) {
        return Ok(());
    }
    match tables.openings.get(&at.wind).copied() {
        Some(opening) => note_fetch(alloc, found, opening, at, input),
        None => Ok(()),
    }
}

// Notes the lock or the fetch that was answered, if it is one.
fn note(
    alloc: Global,
    found: &mut Found,
    bricks: &[Brick],
    tables: &mut Tables,
    at: Arrival,
) -> Result<(), AllocError> {
    if let Some(locked) = take_granted(tables, at) {
        return note_lock(alloc, found, at, locked);
    }
    match input_at(bricks, at.brick, at.taken) {
        Some(input) => note_answered(alloc, found, tables, at, input),
        None => Ok(()),
    }
}

/// The locks that bricks have granted, and the fetches that they have answered.
///
/// # Errors
/// Out of memory.
pub(crate) fn find(
    alloc: Global,
    log: &Log,
    bricks: &[Brick],
    heads: &[Head],
) -> Result<Found, AllocError> {
    let mut tables = Tables {
        openings: openings_of(alloc, log.winds.as_slice())?,
        locks: locks_of(alloc, bricks)?,
    };
    let mut found = Found::new(alloc);
    let events = log.events.as_slice();
    for event in 0..events.len() {
        let Some(head) = head_at(heads, event) else {
            return Ok(found);
        };
        if let Some(at) = done_in(event, &events[event], head) {
            note(alloc, &mut found, bricks, &mut tables, at)?;
        }
    }
    Ok(found)
}
