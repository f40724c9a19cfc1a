//! Which bricks bear which changes, found in what arrived. Nothing is said of what is found, but of the openings of winds.
ghost use Rattle.std.specs.Prelude.{◌≡◌, [], IfOk, OnOk};
ghost use Rattle.change_audit.specs.Served.{AreOpenings};

use crate::acknowledged::mark_of;
use crate::answers::{Bearer, Served, done_in};
use crate::arrivals::hyper_at;
use crate::candidates::{BearerOf, Candidates, candidates_of};
use crate::journals::input_at;
use brick_machine::Brick;
use fop_types::Proc;
use mount_log::requests::request_proc;
use mount_log::{HubEvent, Log, WindLine};
use std::alloc::{AllocError, Global};
use std::collections::BTreeMap;
use std::mem;

// The op of a change at a brick.
#[derive(Clone, Copy, PartialEq, Eq, PartialOrd, Ord)]
struct OpAt {
    brick: u8,
    change: u64,
}

/// The opening of a wind: its call, and its place among the wind lines.
#[derive(Clone, Copy)]
pub struct Opening {
    pub call: u32,
    pub place: usize,
}

/// The opening of each wind that was opened.
///
/// # Errors
/// Out of memory.
pub fn openings_of(alloc: Global, winds: &[WindLine]) -> Result<BTreeMap<u64, Opening>, AllocError>
    ensures { IfOk result (λ table. AreOpenings winds.now table.entries) }
{
    let mut openings = BTreeMap::new(alloc);
    let done = note_openings(&mut openings, winds);
    done.and(Ok(openings))
}

#[tactic(auto, using(crate::proofs::Opening::no_openings, crate::proofs::Opening::openings_same, crate::proofs::Opening::openings_next, crate::proofs::Opening::all_openings))]
fn note_openings(
    openings: &mut BTreeMap<u64, Opening>,
    winds: &[WindLine],
) -> Result<(), AllocError>
    ensures { OnOk result (openings.old.entries ≡ [] → AreOpenings winds.now openings.new.entries) }
{
    for place in 0..winds.len() {
        let line = &winds[place];
        if line.opened {
            let call = line.call;
            openings.insert(line.wind.number(), Opening { call, place })?;
        }
    }
    Ok(())
}

/// A Done with nothing that arrived from a brick: its wind, and the count of the input that it answers.
#[derive(Clone, Copy)]
pub struct Confirmed {
    pub brick: u8,
    pub wind: u64,
    pub taken: u64,
}

// The length of the encoding of a Done with nothing, in bytes: the number of inputs, a hyper; a unit for the kind of output; the
// wind, a hyper; a unit each for the answer and what it is done with.
const DONE: usize = 28;

// Longer and shorter outputs are not decoded.
fn confirmed_by(alloc: Global, brick: u8, bytes: &[u8]) -> Result<Option<Confirmed>, AllocError> {
    if bytes.len() != DONE {
        return Ok(None);
    }
    match done_in(alloc, bytes)? {
        Some(done) => Ok(Some(Confirmed {
            brick,
            wind: done.wind,
            taken: done.taken,
        })),
        None => Ok(None),
    }
}

/// The Done with nothing that arrives in an event.
///
/// # Errors
/// Out of memory.
pub(crate) fn confirmed_in(
    alloc: Global,
    event: &HubEvent,
) -> Result<Option<Confirmed>, AllocError> {
    match event {
        HubEvent::Arrive { brick, bytes } => confirmed_by(alloc, *brick, bytes.as_slice()),
        _ => Ok(None),
    }
}

// What a request has to do with a change.
#[derive(Clone, Copy)]
enum Part {
    Op(u64),
    Post(u64),
}

// Where the change of an op or a post is in the encoding of its request: behind a unit for the kind of input; the wind, a hyper; a
// unit for the graph; and one for the procedure.
const CHANGE: usize = 20;

// The op or the post that bytes are, read without the rest.
fn part_in(bytes: &[u8]) -> Option<Part> {
    let proc = request_proc(bytes)?;
    let change = hyper_at(bytes, CHANGE)?;
    match proc {
        Proc::Op => Some(Part::Op(change)),
        Proc::Post => Some(Part::Post(change)),
        _ => None,
    }
}

// The search: the ops that wait for their posts, and the bearers found so far.
#[derive(Drop)]
struct Search {
    ops: BTreeMap<OpAt, Served>,
    found: BTreeMap<BearerOf, Bearer>,
}

// Whether what arrived in the event at a place did so by the event in which the call was answered well.
fn is_in_time(marks: &[Option<u64>], call: u32, event: usize) -> bool {
    match mark_of(marks, call) {
        Some(number) => (event as u64) < number,
        None => false,
    }
}

impl Search {
    // A post was answered: its brick bears the change, if it has answered the op before. An answer behind the call's reply bears
    // nothing: its wind had ended with its connection.
    fn post(
        &mut self,
        marks: &[Option<u64>],
        brick: u8,
        call: u32,
        change: u64,
        post: Served,
    ) -> Result<(), AllocError> {
        let Some(op) = self.ops.remove(&OpAt { brick, change }) else {
            return Ok(());
        };
        if !is_in_time(marks, call, post.event) {
            return Ok(());
        }
        let bearer = Bearer { brick, op, post };
        let key = BearerOf {
            call,
            change,
            brick,
        };
        self.found.insert(key, bearer)?;
        Ok(())
    }

    // An op or a post, whose wind was opened so, was answered in the event at a place.
    fn take(
        &mut self,
        marks: &[Option<u64>],
        event: usize,
        opened: Opening,
        done: Confirmed,
        part: Part,
    ) -> Result<(), AllocError> {
        let served = Served {
            taken: done.taken,
            event,
            opening: opened.place,
        };
        let brick = done.brick;
        match part {
            Part::Op(change) => {
                self.ops.insert(OpAt { brick, change }, served)?;
                Ok(())
            }
            Part::Post(change) => self.post(marks, brick, opened.call, change, served),
        }
    }

    fn read(
        &mut self,
        alloc: Global,
        bricks: &[Brick],
        openings: &BTreeMap<u64, Opening>,
        marks: &[Option<u64>],
        place: usize,
        event: &HubEvent,
    ) -> Result<(), AllocError> {
        let Some(done) = confirmed_in(alloc, event)? else {
            return Ok(());
        };
        let Some(part) = part_of(bricks, done) else {
            return Ok(());
        };
        match openings.get(&done.wind) {
            Some(opened) => self.take(marks, place, *opened, done, part),
            None => Ok(()),
        }
    }

    fn read_all(
        &mut self,
        alloc: Global,
        log: &Log,
        bricks: &[Brick],
        openings: &BTreeMap<u64, Opening>,
        marks: &[Option<u64>],
    ) -> Result<(), AllocError> {
        let events = log.events.as_slice();
        for place in 0..events.len() {
            self.read(alloc, bricks, openings, marks, place, &events[place])?;
        }
        Ok(())
    }
}

// What a request that was confirmed has to do with a change.
fn part_of(bricks: &[Brick], done: Confirmed) -> Option<Part> {
    let bytes = input_at(bricks, done.brick, done.taken)?;
    part_in(bytes)
}

fn bearers_of(
    alloc: Global,
    log: &Log,
    bricks: &[Brick],
    marks: &[Option<u64>],
) -> Result<BTreeMap<BearerOf, Bearer>, AllocError> {
    let openings = openings_of(alloc, log.winds.as_slice())?;
    let mut search = Search {
        ops: BTreeMap::new(alloc),
        found: BTreeMap::new(alloc),
    };
    let done = search.read_all(alloc, log, bricks, &openings, marks);
    drop(openings);
    let found = mem::replace(&mut search.found, BTreeMap::new(alloc));
    drop(search);
    done.and(Ok(found))
}

/// The changes that bricks bear of the calls that were answered well, by the marks of these calls.
///
/// # Errors
/// Out of memory.
pub(crate) fn find(
    alloc: Global,
    log: &Log,
    bricks: &[Brick],
    marks: &[Option<u64>],
) -> Result<Candidates, AllocError> {
    let found = bearers_of(alloc, log, bricks, marks)?;
    let candidates = candidates_of(alloc, &found);
    drop(found);
    candidates
}
