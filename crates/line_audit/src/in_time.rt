//! Whether numbers of events do not fall.
ghost use Rattle.std.specs.Prelude.{◌≡◌, ◌&&◌, ◌↔◌, IsTrue, nat_le, map, length, true};
ghost use Rattle.mount_log.specs.Ties.{do_rise, NumbersRise};

use mount_log::{Log, ReplyLine, SentLine, WindLine};

fn is_next(floor: u64, number: u64, last: u64) -> bool
    ensures { result ≡ (nat_le floor number && nat_le number last) }
{
    floor <= number && number <= last
}

fn numbers_rise(first: u64, numbers: &[u64], last: u64) -> bool
    ensures { result ≡ do_rise first last numbers.now }
{
    let mut floor = first;
    for number in numbers {
        if !is_next(floor, *number, last) {
            return false;
        }
        floor = *number;
    }
    true
}

fn sent_rises(lines: &[SentLine], last: u64) -> bool
    ensures { result ≡ do_rise 0 last (map (λ l. l.event) lines.now) }
{
    let mut floor = 0u64;
    for line in lines {
        if !is_next(floor, line.event, last) {
            return false;
        }
        floor = line.event;
    }
    true
}

fn replies_rise(replies: &[ReplyLine], last: u64) -> bool
    ensures { result ≡ do_rise 1 last (map (λ r. r.event) replies.now) }
{
    let mut floor = 1u64;
    for reply in replies {
        if !is_next(floor, reply.event, last) {
            return false;
        }
        floor = reply.event;
    }
    true
}

fn winds_rise(lines: &[WindLine], last: u64) -> bool
    ensures { result ≡ do_rise 1 last (map (λ l. l.event) lines.now) }
{
    let mut floor = 1u64;
    for line in lines {
        if !is_next(floor, line.event, last) {
            return false;
        }
        floor = line.event;
    }
    true
}

// Whether the numbers of entries, copies, skips and answers of internal calls do not fall.
fn others_rise(log: &Log, last: u64) -> bool
    ensures entered { result ≡ true → do_rise 1 last log.now.entered ≡ true }
    ensures answered { result ≡ true → do_rise 1 last log.now.answered ≡ true }
    ensures copied { result ≡ true → do_rise 1 last log.now.copied ≡ true }
    ensures skipped { result ≡ true → do_rise 1 last log.now.skipped ≡ true }
    ensures complete { do_rise 1 last log.now.entered ≡ true → do_rise 1 last log.now.answered ≡ true → do_rise 1 last log.now.copied ≡ true → do_rise 1 last log.now.skipped ≡ true → result ≡ true }
{
    numbers_rise(1, log.entered.as_slice(), last)
        && numbers_rise(1, log.answered.as_slice(), last)
        && numbers_rise(1, log.copied.as_slice(), last)
        && numbers_rise(1, log.skipped.as_slice(), last)
}

/// Whether the numbers of events of what was sent, the replies, the winds, the entries, the copies, the skips and the answers
/// of internal calls do not fall, and are those of events.
pub fn all_numbers_rise(log: &Log) -> bool
    ensures { IsTrue result ↔ NumbersRise log.now }
{
    let last = log.events.len() as u64;
    if !sent_rises(log.sent.as_slice(), last) || !replies_rise(log.replies.as_slice(), last) {
        return false;
    }
    if !winds_rise(log.winds.as_slice(), last) {
        return false;
    }
    others_rise(log, last)
}
