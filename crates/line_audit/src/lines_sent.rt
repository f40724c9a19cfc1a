//! What was sent, by the events that sent it, as far as connections go.
ghost use Rattle.std.specs.Prelude.{◌≡◌, ◌+◌, ◌<◌, ◌^◌, IsSome, [], true, map, length, option_copied, slice_get, IfOk, IfSome, OnOk};
ghost use Rattle.wire_messages.specs.Messages.{input_in};
ghost use Rattle.line_audit.specs.Linked.{what_in, what_of, item_of, items_of, items_at, IsPutIn, AreByEvent, AreOfEvents, connects, disconnects, has_connect, has_disconnect, count_connects};

use fop_types::Input;
use mount_log::by_place::line_at;
use mount_log::{Log, SentLine};
use std::alloc::{AllocError, Global};
use wire_messages::{Message, input_of};

/// What a line is to connections: it opens or ends one of a graph, it is a request of a graph, another input, or none.
#[derive(Clone, Copy)]
pub enum What {
    Connect(u32),
    Disconnect(u32),
    Request(u32),
    Other,
    Wrong,
}

/// What an event sends to a brick.
#[derive(Clone, Copy)]
pub struct Item {
    pub event: u64,
    pub brick: u8,
    pub what: What,
}

fn what_in(sent: &Input) -> What
    ensures { result ≡ what_in sent.now }
{
    match sent {
        Input::Connect { graph, .. } => What::Connect(*graph),
        Input::Disconnect { graph } => What::Disconnect(*graph),
        Input::Request { graph, .. } => What::Request(*graph),
        _ => What::Other,
    }
}

fn what_of(alloc: Global, bytes: &[u8]) -> Result<What, AllocError>
    ensures { IfOk result (λ w. w ≡ what_of (input_in bytes.now)) }
{
    match input_of(alloc, bytes)? {
        Message::Whole(sent) => {
            let what = what_in(&sent);
            drop(sent);
            Ok(what)
        }
        Message::Wrong { place: _ } => Ok(What::Wrong),
    }
}

fn item_of(alloc: Global, line: &SentLine) -> Result<Item, AllocError>
    ensures { IfOk result (λ i. i ≡ item_of line.now) }
{
    let what = what_of(alloc, line.bytes.as_slice())?;
    Ok(Item {
        event: line.event,
        brick: line.brick,
        what,
    })
}

// ---- by event

fn empty_lists(alloc: Global, count: usize) -> Result<Vec<Vec<Item>>, AllocError>
    ensures empty { IfOk result (λ lists. AreByEvent [] (map (λ l. l.items) lists.items)) }
    ensures many { IfOk result (λ lists. length lists.items ≡ count) }
{
    let mut lists = Vec::new(alloc);
    for _ in 0..count {
        lists.push(Vec::new(alloc))?;
    }
    Ok(lists)
}

// Puts an item into its event's list. It is false where there is none.
fn put(lists: &mut Vec<Vec<Item>>, item: Item) -> Result<bool, AllocError>
    ensures sound { IfOk result (λ yes. yes ≡ true → IsPutIn (map (λ l. l.items) lists.old.items) item (map (λ l. l.items) lists.new.items)) }
    ensures complete { IfOk result (λ yes. item.event < length lists.old.items → yes ≡ true) }
    ensures many { IfOk result (λ yes. length lists.new.items ≡ length lists.old.items) }
{
    if item.event >= lists.len() as u64 {
        return Ok(false);
    }
    lists[item.event as usize].push(item)?;
    Ok(true)
}

/// What each event sends, by its number, `None` where a line is of no event.
///
/// # Errors
/// Out of memory.
pub fn by_event(alloc: Global, log: &Log) -> Result<Option<Vec<Vec<Item>>>, AllocError>
    ensures lists { IfOk result (λ found. IfSome found (λ lists. AreByEvent (items_of log.now.sent) (map (λ l. l.items) lists.items))) }
    ensures many { IfOk result (λ found. IfSome found (λ lists. length lists.items ≡ length log.now.events + 1)) }
    ensures complete { IfOk result (λ found. length log.now.events + 1 < 2 ^ 64 → AreOfEvents log.now.sent (length log.now.events) → IsSome found) }
{
    if log.events.len() == usize::MAX {
        return Ok(None);
    }
    let mut lists = empty_lists(alloc, log.events.len() + 1)?;
    for k in 0..log.sent.len() {
        let Some(line) = line_at(log, k) else {
            drop(lists);
            return Ok(None);
        };
        let item = item_of(alloc, line)?;
        if !put(&mut lists, item)? {
            drop(lists);
            return Ok(None);
        }
    }
    Ok(Some(lists))
}

fn list_of(lists: &[Vec<Item>], number: usize) -> Option<&Vec<Item>>
    ensures { option_copied result ≡ slice_get lists.now number }
{
    lists.get(number)
}

/// What an event sends.
pub fn items_at(lists: &[Vec<Item>], number: usize) -> &[Item]
    ensures { result.now ≡ items_at (map (λ l. l.items) lists.now) number }
{
    match list_of(lists, number) {
        Some(list) => list.as_slice(),
        None => &[],
    }
}

// ---- what is among it

fn connects(what: What, graph: u32) -> bool
    ensures { result ≡ connects graph what }
{
    match what {
        What::Connect(of) => of == graph,
        _ => false,
    }
}

fn disconnects(what: What, graph: u32) -> bool
    ensures { result ≡ disconnects graph what }
{
    match what {
        What::Disconnect(of) => of == graph,
        _ => false,
    }
}

/// Whether a Connect of a graph goes to a brick.
pub fn has_connect(items: &[Item], graph: u32, brick: u8) -> bool
    ensures { result ≡ has_connect graph brick items.now }
{
    for item in items {
        if item.brick == brick && connects(item.what, graph) {
            return true;
        }
    }
    false
}

/// Whether a Disconnect of a graph goes to a brick.
pub fn has_disconnect(items: &[Item], graph: u32, brick: u8) -> bool
    ensures { result ≡ has_disconnect graph brick items.now }
{
    for item in items {
        if item.brick == brick && disconnects(item.what, graph) {
            return true;
        }
    }
    false
}

/// How many Connects of a graph go to a brick.
pub fn count_connects(items: &[Item], graph: u32, brick: u8) -> usize
    ensures { result ≡ count_connects graph brick items.now }
{
    let mut count = 0usize;
    for item in items {
        if item.brick != brick || !connects(item.what, graph) {
            continue;
        }
        count += 1;
    }
    count
}
