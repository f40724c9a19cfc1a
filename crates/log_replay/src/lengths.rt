//! How long the history was at an event.
ghost use Rattle.std.specs.Prelude.{◌≡◌, ◌+◌, true, map, IfOk, IfSome};
ghost use Rattle.mount_log.specs.Submissions.{count_below as count_below_of};
ghost use Rattle.log_replay.specs.Events.{AreRising, IsCut};

use std::alloc::{AllocError, Global};

/// Whether no number is below the one before it.
#[tactic(auto, using(crate::proofs::Counting::rises_on))]
pub(crate) fn are_rising(numbers: &[u64]) -> bool
    ensures { result ≡ true → AreRising numbers.now }
{
    for at in 1..numbers.len() {
        if numbers[at] < numbers[at - 1] {
            return false;
        }
    }
    true
}

// Where the numbers that are not below a bound begin.
fn cut(bound: u64, numbers: &[u64]) -> usize
    requires { AreRising numbers.now }
    ensures { IsCut numbers.now bound result }
{
    let mut low: usize = 0;
    let mut high = numbers.len();
    while low < high {
        let middle = low + (high - low) / 2;
        if numbers[middle] < bound {
            low = middle + 1;
        } else {
            high = middle;
        }
    }
    low
}

fn count_below(bound: u64, numbers: &[u64]) -> usize
    requires { AreRising numbers.now }
    ensures { result ≡ count_below_of bound numbers.now }
{
    cut(bound, numbers)
}

// How many numbers are below an event with so much added; `None` where it fits no number.
fn length_at(event: u64, more: u64, entered: &[u64]) -> Option<u32>
    requires { AreRising entered.now }
    ensures { IfSome result (λ n. n ≡ count_below_of (event + more) entered.now) }
{
    let bound = event.checked_add(more)?;
    u32::try_from(count_below(bound, entered)).ok()
}

/// How many numbers are below each of these events with so much added; `None` where one fits no number.
///
/// # Errors
/// Out of memory.
pub(crate) fn lengths_at(
    alloc: Global,
    events: &[u64],
    more: u64,
    entered: &[u64],
) -> Result<Option<Vec<u32>>, AllocError>
    requires { AreRising entered.now }
    ensures { IfOk result (λ o. IfSome o (λ v. v.items ≡ map (λ n. count_below_of (n + more) entered.now) events.now)) }
{
    let mut lengths = Vec::new(alloc);
    for event in events {
        let Some(length) = length_at(*event, more, entered) else {
            return Ok(None);
        };
        lengths.push(length)?;
    }
    Ok(Some(lengths))
}
