//! Whether each heal and switch was answered before the next.
ghost use Rattle.std.specs.Prelude.{◌≡◌, ◌<◌, ◌↔◌, IsTrue, true, length};
ghost use Rattle.run_audit.specs.Counting.{IsAnsweredAt, AreAnsweredBy};

use crate::numbers::Numbers;

// Whether the act of this number, from 0, was answered, not before it and before the next.
fn is_answered(acts: &[u64], answers: &[u64], i: usize) -> bool
    ensures sound { result ≡ true → IsAnsweredAt acts.now answers.now i }
    ensures complete { i < length acts.now → i < length answers.now → IsAnsweredAt acts.now answers.now i → result ≡ true }
{
    let Some(act) = acts.get(i) else {
        return false;
    };
    let Some(answer) = answers.get(i) else {
        return false;
    };
    if answer < act {
        return false;
    }
    match acts.get(i + 1) {
        Some(next) => answer < next,
        None => true,
    }
}

fn each_is_answered(acts: &[u64], answers: &[u64]) -> bool
    ensures { IsTrue result ↔ AreAnsweredBy acts.now answers.now }
{
    if acts.len() != answers.len() {
        return false;
    }
    for i in 0..acts.len() {
        if !is_answered(acts, answers, i) {
            return false;
        }
    }
    true
}

/// Whether each heal and switch was answered, in its event or later, and before the next.
pub fn acts_are_answered(numbers: &Numbers) -> bool
    ensures { IsTrue result ↔ AreAnsweredBy numbers.now.internal numbers.now.answered }
{
    each_is_answered(numbers.internal.as_slice(), numbers.answered.as_slice())
}
