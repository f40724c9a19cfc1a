//! What a log says of one brick, against the brick's own journal and outputs.
ghost use Rattle.std.specs.Prelude.{◌≡◌, ◌∷◌, ◌<◌, ◌^◌, ◌↔◌, IsTrue, Some, List, take, length, slice_get, option_copied};
ghost use Rattle.mount_log.specs.Arrivals.{inputs_to, arrivals_from};
ghost use Rattle.mount_log.specs.declared.logs.HubEvent.{HubEvent as Event};
ghost use Rattle.mount_log.specs.declared.logs.SentLine.{SentLine as Line};
ghost use Rattle.log_audit.specs.Prefixes.{behind};

use bytes::Bytes;
use mount_log::{HubEvent, SentLine};

// The bytes that a line sends to a brick.
fn sent_to<'a>(line: &'a SentLine, brick: u8) -> Option<&'a Bytes>
    ensures { (lines : List Line) → inputs_to brick (line.now ∷ lines) ≡ behind (option_copied result) (inputs_to brick lines) }
{
    if line.brick == brick {
        Some(&line.bytes)
    } else {
        None
    }
}

// The bytes that arrive from a brick in an event.
fn arrival<'a>(event: &'a HubEvent, brick: u8) -> Option<&'a Bytes>
    ensures { (events : List Event) → arrivals_from brick (event.now ∷ events) ≡ behind (option_copied result) (arrivals_from brick events) }
{
    match event {
        HubEvent::Arrive { brick: from, bytes } => {
            if *from == brick { Some(bytes) } else { None }
        }
        _ => None,
    }
}

fn is_at(list: &[Bytes], at: usize, bytes: &Bytes) -> bool
    ensures { IsTrue result ↔ (slice_get list.now at ≡ Some bytes.now) }
{
    match list.get(at) {
        Some(found) => found.as_slice() == bytes.as_slice(),
        None => false,
    }
}

/// How many items a list of bytes has: fewer than 2^64.
pub fn count_of(list: &[Bytes]) -> usize
    ensures value { result ≡ length list.now }
    ensures few { length list.now < 2 ^ 64 }
{
    list.len()
}

/// Whether a brick's journal is a prefix of what was sent to it.
pub fn was_sent(brick: u8, sent: &[SentLine], journal: &[Bytes]) -> bool
    ensures { IsTrue result ↔ (take (length journal.now) (inputs_to brick sent.now) ≡ journal.now) }
{
    let mut at = 0usize;
    for line in sent {
        if at == journal.len() {
            return true;
        }
        let Some(bytes) = sent_to(line, brick) else {
            continue;
        };
        if !is_at(journal, at, bytes) {
            return false;
        }
        at += 1;
    }
    at == journal.len()
}

/// Whether what arrived from a brick is a prefix of its outputs.
pub fn was_put_out(brick: u8, events: &[HubEvent], outputs: &[Bytes]) -> bool
    ensures { IsTrue result ↔ (take (length (arrivals_from brick events.now)) outputs.now ≡ arrivals_from brick events.now) }
{
    let mut at = 0usize;
    for event in events {
        let Some(bytes) = arrival(event, brick) else {
            continue;
        };
        if !is_at(outputs, at, bytes) {
            return false;
        }
        at += 1;
    }
    true
}
