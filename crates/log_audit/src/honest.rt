//! Whether what arrived is what the bricks make of what was sent to them.
ghost use Rattle.std.specs.Prelude.{◌≡◌, ◌≤◌, ◌<◌, ◌^◌, ◌↔◌, IsTrue, true, length};
ghost use Rattle.log_audit.specs.Arriving.{AreTimely, SentInOrder};
ghost use Rattle.mount_log.specs.Heads.{heads_of};
ghost use Rattle.log_audit.specs.Honest.{IsOfBrick, IsFrom, ArrivedFrom, HasHonestArrivals, HasJournals};
ghost use Rattle.std.specs.List.{AllByRecursion};

use crate::bricks::{count_of, was_put_out, was_sent};
use crate::timely::are_timely;
use brick_machine::{Brick, outputs_are_encoded, outputs_are_in_order};
use mount_log::heads::Head;
use mount_log::{HubEvent, Log};

// Whether what arrives in an event comes from one of so many bricks.
fn is_from(event: &HubEvent, many: usize) -> bool
    ensures { IsTrue result ↔ IsFrom many event.now }
{
    match event {
        HubEvent::Arrive { brick, .. } => (*brick as usize) < many,
        _ => true,
    }
}

fn are_from(events: &[HubEvent], many: usize) -> bool
    ensures { IsTrue result ↔ AllByRecursion (IsFrom many) events.now }
{
    for event in events {
        if !is_from(event, many) {
            return false;
        }
    }
    true
}

// Whether the journal is a prefix of what was sent to the brick, and what arrived from it a prefix of its outputs.
fn is_of_brick(log: &Log, brick: u8, at: &Brick) -> bool
    ensures of_brick { IsTrue result ↔ IsOfBrick log.now brick at.now }
    ensures few { length at.now.journal < 2 ^ 64 }
{
    let journal = at.journal();
    // Its clause `few` is what is called for: a journal's length fits 64 bits.
    count_of(journal);
    if !was_sent(brick, log.sent.as_slice(), journal) {
        return false;
    }
    was_put_out(brick, log.events.as_slice(), at.outputs())
}

/// Whether each brick's journal is a prefix of what was sent to it, and what arrived comes from these bricks and is, of each, a
/// prefix of its own outputs. It is false, too, where there are more than 255 bricks.
pub fn arrivals_are_outputs(log: &Log, bricks: &[Brick]) -> bool
    ensures journals { result ≡ true → HasJournals log.now bricks.now }
    ensures arrived { result ≡ true → ArrivedFrom bricks.now log.now.events }
    ensures complete { length bricks.now ≤ 255 → HasJournals log.now bricks.now → ArrivedFrom bricks.now log.now.events → result ≡ true }
{
    if bricks.len() > 255 || !are_from(log.events.as_slice(), bricks.len()) {
        return false;
    }
    outputs_are_encoded();
    outputs_are_in_order();
    for brick in 0..bricks.len() {
        if !is_of_brick(log, brick as u8, &bricks[brick]) {
            return false;
        }
    }
    true
}

fn is_timely(log: &Log, heads: &[Head], brick: u8) -> bool
    requires { heads.now ≡ heads_of log.now.events }
    ensures sound { result ≡ true → AreTimely brick log.now.events log.now.sent }
    ensures complete { SentInOrder log.now.events log.now.sent → AreTimely brick log.now.events log.now.sent → result ≡ true }
{
    are_timely(brick, log.events.as_slice(), heads, log.sent.as_slice())
}

/// Whether arrivals that are outputs of these bricks are honest, by the heads of what arrived: whether each came after the
/// inputs that it counts. It is false, too, where there are more than 255 bricks, or what was sent is not in the order of
/// its events.
pub fn arrivals_are_honest(log: &Log, heads: &[Head], bricks: &[Brick]) -> bool
    requires heads { heads.now ≡ heads_of log.now.events }
    requires journals { HasJournals log.now bricks.now }
    requires arrived { ArrivedFrom bricks.now log.now.events }
    ensures sound { result ≡ true → HasHonestArrivals log.now }
    ensures complete { length bricks.now ≤ 255 → SentInOrder log.now.events log.now.sent → HasHonestArrivals log.now → result ≡ true }
{
    if bricks.len() > 255 {
        return false;
    }
    outputs_are_in_order();
    for brick in 0..bricks.len() {
        if !is_timely(log, heads, brick as u8) {
            return false;
        }
    }
    true
}
