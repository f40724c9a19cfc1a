ghost use Rattle.std.specs.Prelude.{◌≡◌, not};
ghost use Rattle.std.specs.List.{list_all, list_any};
ghost use Rattle.graph_build.specs.Follows.{has_brick as has_brick_of, is_new as is_new_over, is_same_set as is_same_set_as, sets_follow as follow_sets};

use crate::plans::Plan;
use fop_types::SetPlan;

/// Whether a plan may follow an older one: the old sets come first, with the same bricks, order and client
/// names, and the later sets have bricks that no old set has.
pub fn follows(old: &Plan, new: &Plan) -> bool
    ensures { result ≡ follow_sets old.now.sets old.now.sets new.now.sets }
{
    let before = old.sets.as_slice();
    let after = new.sets.as_slice();
    let mut at = 0;
    while at < before.len() {
        if at >= after.len() {
            return false;
        }
        if !is_same_set(&before[at], &after[at]) {
            return false;
        }
        at += 1;
    }
    are_new(before, &after[at..])
}

fn is_same_set(a: &SetPlan, b: &SetPlan) -> bool
    ensures { result ≡ is_same_set_as a.now b.now }
{
    a.bricks == b.bricks && a.clients == b.clients
}

/// Whether no old set has a brick of one of these sets.
pub fn are_new(old: &[SetPlan], sets: &[SetPlan]) -> bool
    ensures { result ≡ list_all (is_new_over old.now) sets.now }
{
    for set in sets {
        if !is_new(old, set) {
            return false;
        }
    }
    true
}

// Whether no old set has a brick of this one. There are at most 60 bricks.
fn is_new(old: &[SetPlan], set: &SetPlan) -> bool
    ensures { result ≡ is_new_over old.now set.now }
{
    for brick in set.bricks.as_slice() {
        if is_held(*brick, old) {
            return false;
        }
    }
    true
}

fn is_held(brick: u8, sets: &[SetPlan]) -> bool
    ensures { result ≡ list_any (has_brick_of brick) sets.now }
{
    for set in sets {
        if has_brick(brick, set) {
            return true;
        }
    }
    false
}

fn has_brick(brick: u8, set: &SetPlan) -> bool
    ensures { result ≡ has_brick_of brick set.now }
{
    for other in set.bricks.as_slice() {
        if *other == brick {
            return true;
        }
    }
    false
}
