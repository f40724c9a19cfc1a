//! How many events switch to another volfile, up to one.
ghost use Rattle.std.specs.Prelude.{◌≡◌, ◌≤◌, ◌+◌, ℕ, List, length, min, max};
ghost use Rattle.mount_log.specs.Graphs.{with_switch, switched_by};
ghost use Rattle.mount_log.specs.Switches.{IsCounted};

use crate::logs::{HubEvent, Log};
use script_lang::Action;

/// How many events were passed, and how many of them switched to another volfile.
#[derive(Clone, Copy)]
pub struct Switched {
    pub next: usize,
    pub count: usize,
}

/// How often an action switches to another volfile: 1 for a switch, 0 for each other action.
pub fn switch_of(a: &Action) -> usize
    ensures value { (rest : List ℕ) → length (with_switch a.now rest) ≡ result + length rest }
    ensures few { result ≤ 1 }
{
    match a {
        Action::Switch(_) => 1,
        _ => 0,
    }
}

/// How often an event switches to another volfile: 1 where it carries out a switch, 0 for each other event.
pub fn switch_in(event: &HubEvent) -> usize
    ensures value { (rest : List ℕ) → length (switched_by event.now rest) ≡ result + length rest }
    ensures few { result ≤ 1 }
{
    match event {
        HubEvent::Act(a) => switch_of(a),
        _ => 0,
    }
}

// The events up to this number are passed, behind those that were passed before.
fn count_to(events: &[HubEvent], number: u64, passed: Switched) -> Switched
    requires { IsCounted events.now passed }
    ensures counted { IsCounted events.now result }
    ensures next { result.next ≡ max passed.next (min number (length events.now)) }
{
    let mut now = passed;
    while now.next < events.len() {
        let event = &events[now.next];
        if now.next as u64 >= number {
            return now;
        }
        now = Switched {
            next: now.next + 1,
            count: now.count + switch_in(event),
        };
    }
    now
}

/// The events up to this number are passed, behind those that were passed before.
pub fn passed_to(log: &Log, number: u64, passed: Switched) -> Switched
    requires { IsCounted log.now.events passed }
    ensures counted { IsCounted log.now.events result }
    ensures next { result.next ≡ max passed.next (min number (length log.now.events)) }
{
    count_to(log.events.as_slice(), number, passed)
}
