//! Which replacements were confirmed, found in what arrived. Nothing is said of what is found.

use crate::arrivals::written_output;
use crate::finding::{Confirmed, Opening, confirmed_in, openings_of};
use crate::journals::{input_at, whole_input};
use brick_machine::Brick;
use fop_types::{BrickRep, BrickReq, Cell, CopyRecord, DoneArm, Input, OutKind, Output, Proc};
use mount_log::by_place::event_at;
use mount_log::requests::is_request_of;
use mount_log::{HubEvent, Log};
use std::alloc::{AllocError, Global};
use std::collections::BTreeMap;

/// A replacement that a brick has confirmed, by the place of the event in which that arrived; the place of the event in which
/// the answer to its fetch arrived, and the call and the places of the openings of both winds.
#[derive(Clone, Copy)]
pub struct Found {
    pub call: u32,
    pub replaced: usize,
    pub fetched: usize,
    pub opening: usize,
    pub fetch_opening: usize,
}

// What replacements of one cell by one content of a source are known by.
#[derive(Clone, Copy, PartialEq, Eq, PartialOrd, Ord)]
struct Kind {
    cell: Cell,
    last: u64,
    source: u8,
    sink: u8,
}

/// The replacements by kind, each in the order of events, and how many of each kind were taken.
#[derive(Drop)]
pub struct Replacements {
    found: BTreeMap<Kind, Vec<Found>>,
    taken: BTreeMap<Kind, usize>,
}

// What a replacement carries, and from which brick, with the wind of the fetch.
#[derive(Clone, Copy)]
struct Origin {
    source: u8,
    wind: u64,
    last: u64,
}

// ---- what arrived

fn origin_by(source: u8, output: &Output) -> Option<Origin> {
    match &output.kind {
        OutKind::Reply { wind, rep } => origin_of(source, *wind, rep),
        _ => None,
    }
}

fn origin_of(source: u8, wind: u64, rep: &BrickRep) -> Option<Origin> {
    match rep {
        BrickRep::Done(arm) => origin_with(source, wind, arm),
        _ => None,
    }
}

fn origin_with(source: u8, wind: u64, arm: &DoneArm) -> Option<Origin> {
    match arm {
        DoneArm::Content(_, last) => Some(Origin {
            source,
            wind,
            last: *last,
        }),
        _ => None,
    }
}

fn origin_from(alloc: Global, source: u8, bytes: &[u8]) -> Result<Option<Origin>, AllocError> {
    match written_output(alloc, bytes)? {
        Some(output) => {
            let origin = origin_by(source, &output);
            drop(output);
            Ok(origin)
        }
        None => Ok(None),
    }
}

// Where the content comes from that arrived in an event.
fn origin_in(alloc: Global, event: &HubEvent) -> Result<Option<Origin>, AllocError> {
    match event {
        HubEvent::Arrive { brick, bytes } => origin_from(alloc, *brick, bytes.as_slice()),
        _ => Ok(None),
    }
}

fn origin_at(alloc: Global, log: &Log, event: usize) -> Result<Option<Origin>, AllocError> {
    match event_at(log, event) {
        Some(event) => origin_in(alloc, event),
        None => Ok(None),
    }
}

fn kind_of(cell: Cell, origin: Origin, sink: u8) -> Kind {
    Kind {
        cell,
        last: origin.last,
        source: origin.source,
        sink,
    }
}

// ---- what was confirmed

// The cell of the replacement that a brick has confirmed, if it was one.
fn replaced_cell(
    alloc: Global,
    bricks: &[Brick],
    done: Confirmed,
) -> Result<Option<Cell>, AllocError> {
    let Some(bytes) = input_at(bricks, done.brick, done.taken) else {
        return Ok(None);
    };
    if !is_request_of(bytes, Proc::Replace) {
        return Ok(None);
    }
    match whole_input(alloc, bytes)? {
        Some(input) => {
            let cell = cell_in(&input);
            drop(input);
            Ok(cell)
        }
        None => Ok(None),
    }
}

fn cell_in(input: &Input) -> Option<Cell> {
    match input {
        Input::Request { req, .. } => cell_of(req),
        _ => None,
    }
}

fn cell_of(req: &BrickReq) -> Option<Cell> {
    match req {
        BrickReq::Replace { cell, .. } => Some(*cell),
        _ => None,
    }
}

// The place of the event in which a wind was opened.
fn opened_in(log: &Log, opening: Opening) -> Option<usize> {
    let line = log.winds.as_slice().get(opening.place)?;
    let before = line.event.checked_sub(1)?;
    Some(before as usize)
}

fn list_of(alloc: Global, found: Found) -> Result<Vec<Found>, AllocError> {
    let mut list = Vec::new(alloc);
    list.push(found)?;
    Ok(list)
}

impl Replacements {
    fn add(&mut self, alloc: Global, kind: Kind, found: Found) -> Result<(), AllocError> {
        if let Some(list) = self.found.get_mut(&kind) {
            list.push(found)?;
            return Ok(());
        }
        let list = list_of(alloc, found)?;
        self.found.insert(kind, list)?;
        Ok(())
    }

    // A brick has confirmed, in the event at a place, the replacement of a cell.
    fn note(
        &mut self,
        alloc: Global,
        log: &Log,
        openings: &BTreeMap<u64, Opening>,
        replaced: usize,
        done: Confirmed,
        cell: Cell,
    ) -> Result<(), AllocError> {
        let Some(opening) = openings.get(&done.wind).copied() else {
            return Ok(());
        };
        let Some(fetched) = opened_in(log, opening) else {
            return Ok(());
        };
        let Some(origin) = origin_at(alloc, log, fetched)? else {
            return Ok(());
        };
        let Some(fetch) = openings.get(&origin.wind).copied() else {
            return Ok(());
        };
        let found = Found {
            call: opening.call,
            replaced,
            fetched,
            opening: opening.place,
            fetch_opening: fetch.place,
        };
        self.add(alloc, kind_of(cell, origin, done.brick), found)
    }

    fn read(
        &mut self,
        alloc: Global,
        log: &Log,
        bricks: &[Brick],
        openings: &BTreeMap<u64, Opening>,
        place: usize,
        event: &HubEvent,
    ) -> Result<(), AllocError> {
        let Some(done) = confirmed_in(alloc, event)? else {
            return Ok(());
        };
        let Some(cell) = replaced_cell(alloc, bricks, done)? else {
            return Ok(());
        };
        self.note(alloc, log, openings, place, done, cell)
    }

    fn read_all(
        &mut self,
        alloc: Global,
        log: &Log,
        bricks: &[Brick],
        openings: &BTreeMap<u64, Opening>,
    ) -> Result<(), AllocError> {
        let events = log.events.as_slice();
        for place in 0..events.len() {
            self.read(alloc, log, bricks, openings, place, &events[place])?;
        }
        Ok(())
    }

    fn find(&mut self, alloc: Global, log: &Log, bricks: &[Brick]) -> Result<(), AllocError> {
        if log.copies.is_empty() {
            return Ok(());
        }
        let openings = openings_of(alloc, log.winds.as_slice())?;
        let done = self.read_all(alloc, log, bricks, &openings);
        drop(openings);
        done
    }

    /// The next replacement that may make a copy.
    ///
    /// # Errors
    /// Out of memory.
    pub(crate) fn next(&mut self, copy: &CopyRecord) -> Result<Option<Found>, AllocError> {
        let kind = Kind {
            cell: copy.cell,
            last: copy.last,
            source: copy.source,
            sink: copy.sink,
        };
        let Some(list) = self.found.get(&kind) else {
            return Ok(None);
        };
        let at = match self.taken.get(&kind) {
            Some(taken) => *taken,
            None => 0,
        };
        let found = list.as_slice().get(at).copied();
        self.taken.insert(kind, at.saturating_add(1))?;
        Ok(found)
    }
}

/// The replacements that bricks have confirmed.
///
/// # Errors
/// Out of memory.
pub(crate) fn find_replacements(
    alloc: Global,
    log: &Log,
    bricks: &[Brick],
) -> Result<Replacements, AllocError> {
    let mut replacements = Replacements {
        found: BTreeMap::new(alloc),
        taken: BTreeMap::new(alloc),
    };
    let done = replacements.find(alloc, log, bricks);
    done.and(Ok(replacements))
}
