//! Whether a phase has nothing else left after so many events.
ghost use Rattle.std.specs.Prelude.{◌≡◌, ◌+◌, ◌≤◌, ◌<◌, ◌↔◌, IsTrue, length, take};
ghost use Rattle.script_lang.specs.Accepted.{calls_of};
ghost use Rattle.mount_log.specs.Submissions.{count_below};
ghost use Rattle.run_audit.specs.Noted.{ended_at};
ghost use Rattle.run_audit.specs.Counting.{DoNotFall, IsCut, DoAllRise, IsSettled, AreSettled};

use crate::numbers::Numbers;
use crate::phase_ends::end_of;
use script_lang::{Phase, Script};

fn middle_of(low: usize, high: usize) -> usize
    requires { low < high }
    ensures from { low ≤ result }
    ensures until { result < high }
{
    low + (high - low) / 2
}

// Where the numbers that are at most n stop.
fn cut_at(numbers: &[u64], n: u64) -> usize
    requires { DoNotFall numbers.now }
    ensures { IsCut numbers.now n result }
{
    let mut low = 0usize;
    let mut high = numbers.len();
    while low < high {
        let middle = middle_of(low, high);
        if numbers[middle] <= n {
            low = middle + 1;
        } else {
            high = middle;
        }
    }
    low
}

/// How many of these numbers are at most n.
pub fn count_to(numbers: &[u64], n: u64) -> usize
    requires { DoNotFall numbers.now }
    ensures { result ≡ count_below (n + 1) numbers.now }
{
    cut_at(numbers, n)
}

// Whether phases have no more than so many calls.
fn have_at_most(phases: &[Phase], many: usize) -> bool
    ensures { IsTrue result ↔ (length (calls_of phases.now) ≤ many) }
{
    let mut left = many;
    for phase in phases {
        if phase.calls.len() > left {
            return false;
        }
        left -= phase.calls.len();
    }
    true
}

// Whether the phases up to one have no more than so many calls.
fn calls_are_at_most(phases: &[Phase], phase: usize, many: usize) -> bool
    ensures { IsTrue result ↔ (length (calls_of (take (phase + 1) phases.now)) ≤ many) }
{
    if phase >= phases.len() {
        return have_at_most(phases, many);
    }
    have_at_most(&phases[..phase + 1], many)
}

/// Whether as many of some numbers as of others are at most n.
pub fn are_as_many(some: &[u64], others: &[u64], n: u64) -> bool
    requires some { DoNotFall some.now }
    requires others { DoNotFall others.now }
    ensures { IsTrue result ↔ (count_below (n + 1) some.now ≡ count_below (n + 1) others.now) }
{
    count_to(some, n) == count_to(others, n)
}

/// Whether nothing else is left of the phases up to one, after so many events.
pub fn is_settled(script: &Script, numbers: &Numbers, phase: usize, number: u64) -> bool
    requires { DoAllRise numbers.now }
    ensures { IsTrue result ↔ IsSettled script.now numbers.now phase number }
{
    let replied = count_to(numbers.replied.as_slice(), number);
    calls_are_at_most(script.phases.as_slice(), phase, replied)
        && are_as_many(
            numbers.internal.as_slice(),
            numbers.answered.as_slice(),
            number,
        )
        && are_as_many(numbers.owed.as_slice(), numbers.arrived.as_slice(), number)
        && are_as_many(numbers.opened.as_slice(), numbers.ended.as_slice(), number)
}

fn is_settled_at_end(
    script: &Script,
    numbers: &Numbers,
    ended: &[u64],
    last: u64,
    phase: usize,
) -> bool
    requires { DoAllRise numbers.now }
    ensures { IsTrue result ↔ IsSettled script.now numbers.now phase (ended_at ended.now last phase) }
{
    is_settled(script, numbers, phase, end_of(ended, last, phase))
}

/// Whether each phase has nothing else left at its end, and behind the last one there is nothing.
pub fn phases_are_settled(script: &Script, numbers: &Numbers, ended: &[u64], last: u64) -> bool
    requires { DoAllRise numbers.now }
    ensures { IsTrue result ↔ AreSettled script.now numbers.now ended.now last }
{
    let phases = script.phases.len();
    for phase in 0..phases {
        if !is_settled_at_end(script, numbers, ended, last, phase) {
            return false;
        }
    }
    is_settled_at_end(script, numbers, ended, last, phases) && end_of(ended, last, phases) == last
}
