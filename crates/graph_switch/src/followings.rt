ghost use Rattle.std.specs.Prelude.{◌≡◌, ◌≤◌, length, drop};
ghost use Rattle.graph_switch.specs.Switch.{are_unused as are_unused_in, may_follow as may_follow_those};

use fop_types::SetPlan;
use graph_build::{Plan, are_new, follows};

/// Whether a plan may follow the plans so far, the current one last: the sets of the current plan come first
/// in it, with the same bricks, order and client names, and its later sets have bricks that no plan so far
/// has. The first plan may always be.
pub fn may_follow(plans: &[Plan], new: &Plan) -> bool
    ensures { result ≡ may_follow_those plans.now new.now }
{
    let Some(current) = plans.last() else {
        return true;
    };
    if !follows(current, new) {
        return false;
    }
    adds_unused(plans, current, new)
}

// Whether no plan has a brick of the sets that a plan adds to those of the current one.
fn adds_unused(plans: &[Plan], current: &Plan, new: &Plan) -> bool
    requires { length current.now.sets ≤ length new.now.sets }
    ensures { result ≡ are_unused_in plans.now (drop (length current.now.sets) new.now.sets) }
{
    let first = current.sets.len();
    are_unused(plans, &new.sets.as_slice()[first..])
}

// Whether no plan has a brick of one of these sets.
fn are_unused(plans: &[Plan], sets: &[SetPlan]) -> bool
    ensures { result ≡ are_unused_in plans.now sets.now }
{
    for plan in plans {
        if !are_new(plan.sets.as_slice(), sets) {
            return false;
        }
    }
    true
}
