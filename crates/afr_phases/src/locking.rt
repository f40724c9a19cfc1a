ghost use Rattle.std.specs.Prelude.{◌≡◌, ◌-◌, ◌<◌, ◌≤◌};
ghost use Rattle.afr_phases.specs.Locking.{next_to_lock, lost, kept_only, without_lost, ended, next_lock};

use crate::flags::{Flags, names};
use crate::locks::{Locks, number_at};
use crate::outs::Outs;
use fop_types::Mask;

/// How a lock phase goes on.
#[derive(Clone, Copy, PartialEq, Eq)]
pub enum LockStep {
    /// This replica is asked for its lock.
    Ask(u8),
    /// So many replicas are out that the others are no quorum.
    Short,
    /// The phase has ended; the replicas that are not out are the reached set.
    Reached,
}

/// The next step of a lock phase, in which the replicas below `from` were asked. A replica without an open connection
/// is out when its turn comes. Whether too many are out is looked at after each replica. Only where the last one was
/// asked and enough are left are those out whose lock was lost since.
pub fn next_lock(
    outs: &mut Outs,
    locks: &Locks,
    n: u8,
    q: u8,
    from: u8,
    live: Mask,
    last: &[u32],
) -> LockStep
    requires { n ≤ 5 }
    ensures { (outs.new, result) ≡ next_lock outs.old locks.now n q from live last.now }
{
    match next_to_lock(outs, n, q, from, live, last) {
        Some(k) => LockStep::Ask(k),
        None => end(outs, locks, n, q, live, last),
    }
}

// The end of a lock phase.
fn end(outs: &mut Outs, locks: &Locks, n: u8, q: u8, live: Mask, last: &[u32]) -> LockStep
    requires { n ≤ 5 }
    ensures { (outs.new, result) ≡ ended outs.old locks.now n q live last.now }
{
    if outs.is_short(n, q) {
        return LockStep::Short;
    }
    keep_only(outs, locks.standing(live, last), n, last);
    if outs.is_short(n, q) {
        return LockStep::Short;
    }
    LockStep::Reached
}

/// The next replica from `from` on that is asked for its lock. A replica without an open connection is out. `None`
/// where too few are left for a quorum, or no replica is left to be asked.
fn next_to_lock(outs: &mut Outs, n: u8, q: u8, from: u8, live: Mask, last: &[u32]) -> Option<u8>
    requires { n ≤ 5 }
    ensures { (outs.new, result) ≡ next_to_lock (n - from) outs.old n q from live last.now }
{
    for k in from..n {
        if outs.is_short(n, q) {
            return None;
        }
        if outs.is_out(k) {
            continue;
        }
        if names(live, k) {
            return Some(k);
        }
        outs.leave(k, false, number_at(last, k) as u64);
    }
    None
}

/// The replicas of `n` that are not among these are out as lost, each with the number of its last connection.
pub fn keep_only(outs: &mut Outs, kept: Flags, n: u8, last: &[u32])
    ensures { outs.new ≡ kept_only outs.old kept n last.now }
{
    let [a, b, c, d, e] = kept;
    lose(outs, n > 0 && !a, 0, last);
    lose(outs, n > 1 && !b, 1, last);
    lose(outs, n > 2 && !c, 2, last);
    lose(outs, n > 3 && !d, 3, last);
    lose(outs, n > 4 && !e, 4, last);
}

/// The replicas of `n` that have lost their lock are out, each with the number of its last connection. Who granted none
/// is not.
#[tactic(auto, unfolding(crate::specs::Locking::without_lost))]
pub fn leave_lost(outs: &mut Outs, locks: &Locks, n: u8, live: Mask, last: &[u32])
    ensures { outs.new ≡ without_lost outs.old locks.now n live last.now }
{
    keep_only(outs, locks.keeping(live, last), n, last);
}

fn lose(outs: &mut Outs, is_lost: bool, k: u8, last: &[u32])
    requires { k < 5 }
    ensures { outs.new ≡ lost outs.old is_lost k last.now }
{
    if is_lost {
        outs.leave(k, false, number_at(last, k) as u64);
    }
}
