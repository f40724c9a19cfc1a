//! Notes of which lines of a log belong together.

use crate::tied_ends::EndedAt;
use crate::tied_requests::SentFor;
use fop_types::Input;
use mount_log::requests::request_proc;
use mount_log::{Log, SentLine, WindLine};
use std::alloc::{AllocError, Global};
use std::collections::BTreeMap;
use wire_messages::{Message, input_of};
use xlator_law::WindNo;

/// For each reply the place of the end of a wind of its call, and for each call that of its reply; for each line that was sent,
/// if it is a request, the place of its wind's opening and where that ends; and, by the place of the opening, where the request
/// is and the open before it.
#[derive(Drop)]
pub struct TieNotes {
    pub ends: Vec<usize>,
    pub replied: Vec<usize>,
    pub openings: Vec<usize>,
    pub ended: Vec<EndedAt>,
    pub sent_for: Vec<SentFor>,
}

// Where the last wind line is in which a wind of each call ended in each event; where each wind was opened and ended; and
// where each Disconnect was sent, by event, brick and graph.
#[derive(Drop)]
pub struct Winds {
    ends: BTreeMap<(u64, u32), usize>,
    openings: BTreeMap<u64, usize>,
    closings: BTreeMap<u64, usize>,
    disconnects: BTreeMap<Cut, usize>,
}

/// A Disconnect: its event, brick and graph.
#[derive(Clone, Copy, PartialEq, Eq, PartialOrd, Ord)]
pub struct Cut {
    pub event: u64,
    pub brick: u8,
    pub graph: u32,
}

fn winds_of(alloc: Global, log: &Log) -> Result<Winds, AllocError> {
    let mut winds = Winds {
        ends: BTreeMap::new(alloc),
        openings: BTreeMap::new(alloc),
        closings: BTreeMap::new(alloc),
        disconnects: BTreeMap::new(alloc),
    };
    let done = winds.note_all(alloc, log);
    done.and(Ok(winds))
}

impl Winds {
    fn note_all(&mut self, alloc: Global, log: &Log) -> Result<(), AllocError> {
        for place in 0..log.winds.len() {
            self.note(log, place)?;
        }
        for at in 0..log.sent.len() {
            self.note_disconnect(alloc, log, at)?;
        }
        Ok(())
    }

    fn note(&mut self, log: &Log, place: usize) -> Result<(), AllocError> {
        let Some(line) = log.winds.as_slice().get(place) else {
            return Ok(());
        };
        if line.opened {
            self.openings.insert(line.wind.number(), place)?;
            return Ok(());
        }
        self.ends.insert((line.event, line.call), place)?;
        self.closings.insert(line.wind.number(), place)?;
        Ok(())
    }

    fn note_disconnect(&mut self, alloc: Global, log: &Log, at: usize) -> Result<(), AllocError> {
        let Some(line) = log.sent.as_slice().get(at) else {
            return Ok(());
        };
        if let Some(graph) = disconnected_in(alloc, line)? {
            let cut = Cut {
                event: line.event,
                brick: line.brick,
                graph,
            };
            self.disconnects.insert(cut, at)?;
        }
        Ok(())
    }

    // Where the wind of this number ends, and the Disconnect of its graph in that event.
    fn ended(&self, log: &Log, brick: u8, number: u64) -> EndedAt {
        let end = match self.closings.get(&number) {
            Some(place) => *place,
            None => 0,
        };
        let disconnect = match log.winds.as_slice().get(end) {
            Some(line) => self.disconnect_of(line, brick),
            None => 0,
        };
        EndedAt { end, disconnect }
    }

    fn disconnect_of(&self, line: &WindLine, brick: u8) -> usize {
        let cut = Cut {
            event: line.event,
            brick,
            graph: line.graph,
        };
        match self.disconnects.get(&cut) {
            Some(at) => *at,
            None => 0,
        }
    }

    fn end_of(&self, event: u64, call: u32) -> usize {
        match self.ends.get(&(event, call)) {
            Some(place) => *place,
            None => 0,
        }
    }

    fn opening_of(&self, number: u64) -> Option<usize> {
        match self.openings.get(&number) {
            Some(place) => Some(*place),
            None => None,
        }
    }
}

fn graph_of(input: &Input) -> Option<u32> {
    match input {
        Input::Disconnect { graph } => Some(*graph),
        _ => None,
    }
}

fn graph_in(message: &Message<Input>) -> Option<u32> {
    match message {
        Message::Whole(input) => graph_of(input),
        Message::Wrong { place: _ } => None,
    }
}

// The graph of a Disconnect. Requests are not read.
fn disconnected_in(alloc: Global, line: &SentLine) -> Result<Option<u32>, AllocError> {
    if request_proc(line.bytes.as_slice()).is_some() {
        return Ok(None);
    }
    let message = input_of(alloc, line.bytes.as_slice())?;
    let graph = graph_in(&message);
    drop(message);
    Ok(graph)
}

// The number that a request has behind the four bytes of its kind.
fn wind_in(bytes: &[u8]) -> Option<u64> {
    if bytes.len() < 12 || request_proc(bytes).is_none() {
        return None;
    }
    Some(u64::from_be_bytes([
        bytes[4], bytes[5], bytes[6], bytes[7], bytes[8], bytes[9], bytes[10], bytes[11],
    ]))
}

// The number of a request's wind, and whether it is that of an open before the request.
fn number_in(line: &SentLine) -> Option<(u64, bool)> {
    let number = wind_in(line.bytes.as_slice())?;
    Some(request_number(number))
}

fn request_number(number: u64) -> (u64, bool) {
    match WindNo::of_number(number).request() {
        Some(wind) => (wind.number(), true),
        None => (number, false),
    }
}

impl TieNotes {
    // Notes that the line at a place was sent for the wind that was opened at another.
    fn note(&mut self, k: usize, place: usize, is_open: bool) {
        if let Some(sent_for) = self.sent_for.get_mut(place) {
            if is_open {
                sent_for.open = k;
            } else {
                sent_for.request = k;
            }
        }
    }

    fn add(&mut self, log: &Log, winds: &Winds, line: &SentLine) -> Result<(), AllocError> {
        match number_in(line) {
            Some((number, is_open)) => {
                let ended = winds.ended(log, line.brick, number);
                self.add_request(winds, number, is_open, ended)
            }
            None => self.push(0, NOT_ENDED),
        }
    }

    fn add_request(
        &mut self,
        winds: &Winds,
        number: u64,
        is_open: bool,
        ended: EndedAt,
    ) -> Result<(), AllocError> {
        let k = self.openings.len();
        let place = self.opening_of(winds, k, number, is_open);
        self.push(place, ended)
    }

    fn push(&mut self, opening: usize, ended: EndedAt) -> Result<(), AllocError> {
        self.openings.push(opening)?;
        self.ended.push(ended)?;
        Ok(())
    }

    fn opening_of(&mut self, winds: &Winds, k: usize, number: u64, is_open: bool) -> usize {
        match winds.opening_of(number) {
            Some(place) => {
                self.note(k, place, is_open);
                place
            }
            None => 0,
        }
    }

    fn note_winds(&mut self, log: &Log, winds: &Winds) -> Result<(), AllocError> {
        for reply in log.replies.as_slice() {
            self.ends.push(winds.end_of(reply.event, reply.call))?;
        }
        for _ in 0..log.winds.len() {
            self.sent_for.push(NOT_SENT)?;
        }
        Ok(())
    }

    fn note_all(&mut self, log: &Log, winds: &Winds) -> Result<(), AllocError> {
        note_replied(&mut self.replied, log)?;
        self.note_winds(log, winds)?;
        for line in log.sent.as_slice() {
            self.add(log, winds, line)?;
        }
        Ok(())
    }
}

const NOT_ENDED: EndedAt = EndedAt {
    end: 0,
    disconnect: 0,
};

const NOT_SENT: SentFor = SentFor {
    request: 0,
    open: 0,
};

// Notes where the reply of each call is.
fn note_replied(replied: &mut Vec<usize>, log: &Log) -> Result<(), AllocError> {
    for _ in 0..log.replies.len() {
        replied.push(0)?;
    }
    for k in 0..log.replies.len() {
        if let Some(reply) = log.replies.as_slice().get(k)
            && reply.call != 0
        {
            note_reply(replied, reply.call as usize - 1, k);
        }
    }
    Ok(())
}

fn note_reply(replied: &mut Vec<usize>, call: usize, k: usize) {
    if let Some(place) = replied.get_mut(call) {
        *place = k;
    }
}

/// The notes of a log.
///
/// # Errors
/// Out of memory.
pub fn tie_notes_of(alloc: Global, log: &Log) -> Result<TieNotes, AllocError> {
    let winds = winds_of(alloc, log)?;
    let mut notes = TieNotes {
        ends: Vec::new(alloc),
        replied: Vec::new(alloc),
        openings: Vec::new(alloc),
        ended: Vec::new(alloc),
        sent_for: Vec::new(alloc),
    };
    let done = notes.note_all(log, &winds);
    drop(winds);
    done.and(Ok(notes))
}
