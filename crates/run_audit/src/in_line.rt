//! Whether controls before one request go out in the order of the script.
ghost use Rattle.std.specs.Prelude.{◌≡◌, ◌≤◌, ◌↔◌, IsTrue, ℕ, true, length, slice_get};
ghost use Rattle.fop_types.specs.declared.messages.Proc.{Proc as Procedure};
ghost use Rattle.script_lang.specs.declared.scripts.When.TheVariants as moment;
ghost use Rattle.run_audit.specs.InLine.{AreBeforeOne, IsApart, AreApart, AreInLine};
ghost use Rattle.run_audit.specs.Noted.{sent_in};

use crate::run_notes::Carried;
use script_lang::{ControlLine, When};

fn are_before_one(one: When, other: When) -> bool
    ensures complete { (brick count : ℕ) (p : Procedure) → one ≡ moment.Before brick p count → other ≡ moment.Before brick p count → result ≡ true }
    ensures sound { result ≡ true → AreBeforeOne one other }
{
    match one {
        When::Before(brick, proc, count) => match other {
            When::Before(at, which, nth) => at == brick && which == proc && nth == count,
            _ => false,
        },
        _ => false,
    }
}

// The line that carried out the control at a place, if one did.
fn line_of(carried: &[Carried], at: usize) -> Option<usize>
    ensures { result ≡ sent_in (slice_get carried.now at) }
{
    match carried.get(at) {
        Some(how) => how.sent,
        None => None,
    }
}

// Whether two controls go before different requests, or the first one is carried out by an earlier line.
fn is_apart(a: &ControlLine, b: &ControlLine, first: Option<usize>, second: Option<usize>) -> bool
    ensures { IsTrue result ↔ IsApart a.now b.now first second }
{
    let Some(m) = first else {
        return true;
    };
    let Some(n) = second else {
        return true;
    };
    if m < n {
        return true;
    }
    !are_before_one(a.when, b.when)
}

fn are_apart(controls: &[ControlLine], carried: &[Carried], j: usize, b: &ControlLine) -> bool
    ensures sound { result ≡ true → AreApart controls.now carried.now j j b.now }
    ensures complete { j ≤ length controls.now → AreApart controls.now carried.now j j b.now → result ≡ true }
{
    for i in 0..j {
        let Some(a) = controls.get(i) else {
            return false;
        };
        let first = line_of(carried, i);
        let second = line_of(carried, j);
        if !is_apart(a, b, first, second) {
            return false;
        }
    }
    true
}

/// Whether controls before one request go out in the order of the script.
pub fn are_in_line(controls: &[ControlLine], carried: &[Carried]) -> bool
    ensures { IsTrue result ↔ AreInLine controls.now carried.now }
{
    for j in 0..controls.len() {
        let Some(b) = controls.get(j) else {
            return false;
        };
        if !are_apart(controls, carried, j, b) {
            return false;
        }
    }
    true
}
