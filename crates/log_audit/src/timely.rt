//! Whether outputs arrive after the inputs that they count.
ghost use Rattle.std.specs.Prelude.{◌≡◌, ◌≤◌, ◌==◌, ℕ, List, true, if◌then◌else◌};
ghost use Rattle.mount_log.specs.declared.logs.SentLine.{SentLine as Line};
ghost use Rattle.mount_log.specs.Arrivals.{sent_before};
ghost use Rattle.log_audit.specs.Arriving.{IsTimely, AreTimely, IsLow, ArePassed, SentInOrder};
ghost use Rattle.mount_log.specs.Heads.{head_of, heads_of};

use mount_log::heads::{Head, head_at};
use mount_log::{HubEvent, SentLine};

/// How many lines were passed, and how many of them were sent to a brick.
#[derive(Clone, Copy)]
pub struct Passed {
    pub next: usize,
    pub count: usize,
}

// Counts a line, if it was sent to the brick.
fn sent_to_it(line: &SentLine, brick: u8) -> usize
    ensures value { result ≡ (if line.now.brick == brick then 1 else 0) }
    ensures few { result ≤ 1 }
{
    if line.brick == brick { 1 } else { 0 }
}

// The lines that were sent before an event are passed, behind those that were passed before an earlier one.
fn pass_to(brick: u8, sent: &[SentLine], number: u64, passed: Passed, before: u64) -> Passed
    requires low { IsLow brick before sent.now passed }
    requires later { before ≤ number }
    ensures low { IsLow brick number sent.now result }
    ensures passed { ArePassed number sent.now result }
{
    let mut now = passed;
    while now.next < sent.len() {
        let line = &sent[now.next];
        if line.event >= number {
            return now;
        }
        now = Passed {
            next: now.next + 1,
            count: now.count + sent_to_it(line, brick),
        };
    }
    now
}

// Whether what arrives in an event is timely, by its head, where so many inputs were sent to the brick before.
fn is_timely(brick: u8, event: &HubEvent, head: Head, many: usize) -> bool
    requires { head ≡ head_of event.now }
    ensures sound { result ≡ true → (sent : List Line) (number : ℕ) → many ≤ sent_before number brick sent → IsTimely brick sent number event.now }
    ensures complete { (sent : List Line) (number : ℕ) → sent_before number brick sent ≤ many → IsTimely brick sent number event.now → result ≡ true }
{
    match event {
        HubEvent::Arrive { brick: from, .. } => {
            if *from != brick {
                return true;
            }
            head.taken <= many as u64
        }
        _ => true,
    }
}

/// Whether each output that arrives from a brick counts no more inputs than were sent to the brick before, by the heads of what
/// arrives. It may be false, too, where what was sent is not in the order of its events.
pub fn are_timely(brick: u8, events: &[HubEvent], heads: &[Head], sent: &[SentLine]) -> bool
    requires { heads.now ≡ heads_of events.now }
    ensures sound { result ≡ true → AreTimely brick events.now sent.now }
    ensures complete { SentInOrder events.now sent.now → AreTimely brick events.now sent.now → result ≡ true }
{
    let mut passed = Passed { next: 0, count: 0 };
    for k in 0..events.len() {
        passed = pass_to(brick, sent, k as u64 + 1, passed, k as u64);
        let Some(head) = head_at(heads, k) else {
            return false;
        };
        if !is_timely(brick, &events[k], head, passed.count) {
            return false;
        }
    }
    true
}
