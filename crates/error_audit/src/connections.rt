//! The connections that graphs opened to bricks.
ghost use Rattle.std.specs.Prelude.{◌≡◌, ◌++◌, ◌==◌, ◌≤◌, ◌<◌, [], map, length, option_copied, slice_get, IfOk, OnOk};
ghost use Rattle.wire_messages.specs.Messages.{input_in};
ghost use Rattle.error_audit.specs.Opened.{opened_by, opened_in, openings_of, is_opening, openings_to, openings_at, IsPut, AreByBrick};

use fop_types::Input;
use mount_log::SentLine;
use std::alloc::{AllocError, Global};
use wire_messages::{Message, input_of};

// How many bricks may have a number.
const BRICKS: usize = 256;

/// A connection that a graph opened to a brick, with the event in which its Connect was sent.
#[derive(Clone, Copy)]
pub struct Opening {
    pub graph: u32,
    pub brick: u8,
    pub event: u64,
}

fn push_input(openings: &mut Vec<Opening>, line: &SentLine, sent: &Input) -> Result<(), AllocError>
    ensures { OnOk result (openings.new.items ≡ openings.old.items ++ opened_by line.now sent.now) }
{
    match sent {
        Input::Connect { graph, version } => {
            if *version != 1 {
                return Ok(());
            }
            openings.push(Opening {
                graph: *graph,
                brick: line.brick,
                event: line.event,
            })?;
            Ok(())
        }
        _ => Ok(()),
    }
}

fn push_line(alloc: Global, openings: &mut Vec<Opening>, line: &SentLine) -> Result<(), AllocError>
    ensures { OnOk result (openings.new.items ≡ openings.old.items ++ opened_in line.now (input_in line.now.bytes)) }
{
    match input_of(alloc, line.bytes.as_slice())? {
        Message::Whole(sent) => {
            let done = push_input(openings, line, &sent);
            drop(sent);
            done?;
            Ok(())
        }
        Message::Wrong { place: _ } => Ok(()),
    }
}

/// The connections that the lines which were sent open, in their order.
///
/// # Errors
/// Out of memory.
pub fn openings_of(alloc: Global, sent: &[SentLine]) -> Result<Vec<Opening>, AllocError>
    ensures { IfOk result (λ openings. openings.items ≡ openings_of sent.now) }
{
    let mut openings = Vec::new(alloc);
    for line in sent {
        push_line(alloc, &mut openings, line)?;
    }
    Ok(openings)
}

// ---- by brick

// An empty list for each number of a brick.
fn empty_lists(alloc: Global) -> Result<Vec<Vec<Opening>>, AllocError>
    ensures many { IfOk result (λ lists. length lists.items ≡ 256) }
    ensures empty { IfOk result (λ lists. AreByBrick [] (map (λ l. l.items) lists.items)) }
{
    let mut lists = Vec::new(alloc);
    for _ in 0..BRICKS {
        lists.push(Vec::new(alloc))?;
    }
    Ok(lists)
}

fn bricks_have_lists(brick: u8)
    ensures { brick < 256 }
{
    let _ = brick;
}

fn put(lists: &mut Vec<Vec<Opening>>, opening: Opening) -> Result<(), AllocError>
    requires { length lists.old.items ≡ 256 }
    ensures many { OnOk result (length lists.new.items ≡ 256) }
    ensures put { OnOk result (IsPut (map (λ l. l.items) lists.old.items) opening (map (λ l. l.items) lists.new.items)) }
{
    bricks_have_lists(opening.brick);
    lists[opening.brick as usize].push(opening)?;
    Ok(())
}

/// The connections to each brick, by its number, in their order.
///
/// # Errors
/// Out of memory.
pub fn by_brick(alloc: Global, openings: &[Opening]) -> Result<Vec<Vec<Opening>>, AllocError>
    ensures { IfOk result (λ lists. AreByBrick openings.now (map (λ l. l.items) lists.items)) }
{
    let mut lists = empty_lists(alloc)?;
    for k in 0..openings.len() {
        put(&mut lists, openings[k])?;
    }
    Ok(lists)
}

fn list_at(lists: &[Vec<Opening>], brick: u8) -> Option<&Vec<Opening>>
    ensures { option_copied result ≡ slice_get lists.now brick }
{
    lists.get(brick as usize)
}

/// The connections to a brick.
pub fn openings_at(lists: &[Vec<Opening>], brick: u8) -> &[Opening]
    ensures { result.now ≡ openings_at (map (λ l. l.items) lists.now) brick }
{
    match list_at(lists, brick) {
        Some(list) => list.as_slice(),
        None => &[],
    }
}

// ---- numbers

fn is_opening(opening: &Opening, last: u64, graph: u32, brick: u8) -> bool
    ensures { result ≡ is_opening last graph brick opening.now }
{
    opening.event <= last && (opening.brick == brick && opening.graph == graph)
}

/// How many connections a graph opened to a brick up to an event.
pub fn count_openings(openings: &[Opening], last: u64, graph: u32, brick: u8) -> usize
    ensures { result ≡ openings_to last graph brick openings.now }
{
    let mut count = 0usize;
    for opening in openings {
        if !is_opening(opening, last, graph, brick) {
            continue;
        }
        count += 1;
    }
    count
}
