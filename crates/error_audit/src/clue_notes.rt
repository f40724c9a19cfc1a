//! Notes where the evidence of I/O errors may be in a log. Nothing is promised of them: what they lead to is tested elsewhere.

use crate::brick_replies::ReplyAt;
use crate::evidence::{Clues, Found};
use crate::losses::{End, Sent};
use crate::wanted_winds::{Wound, wanted_calls, winds_of};
use fop_types::{BrickRep, BrickReq, Cell, DoneArm, Input, OutKind, Output};
use mount_log::{HubEvent, Log, SentLine};
use std::alloc::{AllocError, Global};
use std::collections::BTreeMap;
use wire_messages::{Message, input_of, output_of};

// How many bricks may have a number.
const BRICKS: usize = 256;

// ---- lists by number

// Adds an empty list for each of so many.
fn add_lists<T: Drop>(
    alloc: Global,
    lists: &mut Vec<Vec<T>>,
    many: usize,
) -> Result<(), AllocError> {
    for _ in 0..many {
        lists.push(Vec::new(alloc))?;
    }
    Ok(())
}

// Puts an item at the end of a list, if there is the list.
fn put<T: Drop>(lists: &mut Vec<Vec<T>>, number: usize, item: T) -> Result<(), AllocError> {
    match lists.get_mut(number) {
        Some(list) => {
            list.push(item)?;
            Ok(())
        }
        None => Ok(()),
    }
}

// ---- arrivals

fn tells(rep: &BrickRep) -> bool {
    match rep {
        BrickRep::Fault => true,
        BrickRep::Done(DoneArm::Rows(_)) => true,
        _ => false,
    }
}

fn note_reply(
    clues: &mut Clues,
    winds: &BTreeMap<u64, Wound>,
    place: usize,
    brick: u8,
    taken: u64,
    wind: u64,
) -> Result<(), AllocError> {
    let Some(wound) = winds.get(&wind) else {
        return Ok(());
    };
    let at = ReplyAt {
        event: place,
        wind: wound.place,
    };
    put(&mut clues.replies, wound.call, Found { brick, taken, at })
}

fn note_output(
    clues: &mut Clues,
    winds: &BTreeMap<u64, Wound>,
    place: usize,
    brick: u8,
    output: &Output,
) -> Result<(), AllocError> {
    match &output.kind {
        OutKind::Closed => {
            let end = End {
                event: (place as u64).saturating_add(1),
                by: None,
            };
            put(&mut clues.ends, brick as usize, end)
        }
        OutKind::Reply { wind, rep } => {
            if tells(rep) {
                return note_reply(clues, winds, place, brick, output.taken, *wind);
            }
            Ok(())
        }
        _ => Ok(()),
    }
}

fn note_arrival(
    alloc: Global,
    clues: &mut Clues,
    winds: &BTreeMap<u64, Wound>,
    place: usize,
    event: &HubEvent,
) -> Result<(), AllocError> {
    let HubEvent::Arrive { brick, bytes } = event else {
        return Ok(());
    };
    match output_of(alloc, bytes.as_slice())? {
        Message::Whole(output) => {
            let done = note_output(clues, winds, place, *brick, &output);
            drop(output);
            done
        }
        Message::Wrong { place: _ } => Ok(()),
    }
}

fn note_arrivals(
    alloc: Global,
    clues: &mut Clues,
    winds: &BTreeMap<u64, Wound>,
    events: &[HubEvent],
) -> Result<(), AllocError> {
    for place in 0..events.len() {
        note_arrival(alloc, clues, winds, place, &events[place])?;
    }
    Ok(())
}

fn list_of(alloc: Global, place: usize) -> Result<Vec<usize>, AllocError> {
    let mut places = Vec::new(alloc);
    places.push(place)?;
    Ok(places)
}

fn note_mark(
    alloc: Global,
    clues: &mut Clues,
    cells: &[Cell],
    place: usize,
) -> Result<(), AllocError> {
    let Some(cell) = cells.first() else {
        return Ok(());
    };
    if let Some(places) = clues.marks.get_mut(cell) {
        places.push(place)?;
        return Ok(());
    }
    let places = list_of(alloc, place)?;
    clues.marks.insert(*cell, places)?;
    Ok(())
}

fn note_request(
    alloc: Global,
    clues: &mut Clues,
    req: &BrickReq,
    place: usize,
) -> Result<(), AllocError> {
    match req {
        BrickReq::Mark { cells, .. } => note_mark(alloc, clues, cells.as_slice(), place),
        _ => Ok(()),
    }
}

fn note_input(
    alloc: Global,
    clues: &mut Clues,
    line: &SentLine,
    sent: &Input,
    place: usize,
) -> Result<(), AllocError> {
    match sent {
        Input::Disconnect { graph } => {
            let end = End {
                event: line.event,
                by: Some(Sent {
                    graph: *graph,
                    place,
                }),
            };
            put(&mut clues.ends, line.brick as usize, end)
        }
        Input::Request { req, .. } => note_request(alloc, clues, req, place),
        _ => Ok(()),
    }
}

fn note_line(
    alloc: Global,
    clues: &mut Clues,
    line: &SentLine,
    place: usize,
) -> Result<(), AllocError> {
    match input_of(alloc, line.bytes.as_slice())? {
        Message::Whole(sent) => {
            let done = note_input(alloc, clues, line, &sent, place);
            drop(sent);
            done
        }
        Message::Wrong { place: _ } => Ok(()),
    }
}

fn note_sent(alloc: Global, clues: &mut Clues, log: &Log) -> Result<(), AllocError> {
    let sent = log.sent.as_slice();
    for place in 0..sent.len() {
        note_line(alloc, clues, &sent[place], place)?;
    }
    Ok(())
}

/// Clues to the evidence of a log's I/O errors.
///
/// # Errors
/// Out of memory.
pub fn clues_of(alloc: Global, log: &Log) -> Result<Clues, AllocError> {
    let mut clues = Clues::new(alloc);
    let done = clues.find(alloc, log);
    done.and(Ok(clues))
}

impl Clues {
    fn find(&mut self, alloc: Global, log: &Log) -> Result<(), AllocError> {
        let wanted = wanted_calls(alloc, log.replies.as_slice())?;
        let done = self.find_wanted(alloc, log, wanted.as_slice());
        drop(wanted);
        done
    }

    // Replies are found of the calls of which they are wanted.
    fn find_wanted(&mut self, alloc: Global, log: &Log, wanted: &[bool]) -> Result<(), AllocError> {
        add_lists(alloc, &mut self.ends, BRICKS)?;
        add_lists(alloc, &mut self.replies, wanted.len())?;
        self.find_replies(alloc, log, wanted)?;
        note_sent(alloc, self, log)
    }

    fn find_replies(
        &mut self,
        alloc: Global,
        log: &Log,
        wanted: &[bool],
    ) -> Result<(), AllocError> {
        let winds = winds_of(alloc, log.winds.as_slice(), wanted)?;
        let done = note_arrivals(alloc, self, &winds, log.events.as_slice());
        drop(winds);
        done
    }
}
