ghost use Rattle.afr_phases.specs.Reached.{ReachedHoldLocks, LostAreOut};
ghost use Rattle.afr_phases.specs.Tracked.{SentIsTracked, HeardIsTracked, OutsideAreUnconfirmed};

/// What a phase keeps that is sent to all replicas that are not out: who is not out was asked or has confirmed. Once
/// each has answered, the replicas outside are those that have not confirmed. The call does nothing: its contract
/// exports this.
pub fn phases_are_tracked()
    ensures sent { SentIsTracked }
    ensures heard { HeardIsTracked }
    ensures outside { OutsideAreUnconfirmed }
{}

/// Who is used after a lock phase holds its lock, on the connection that is open then. The call does nothing: its
/// contract exports this.
pub fn reached_hold_locks()
    ensures { ReachedHoldLocks }
{}

/// Each replica that granted a lock which is not held any more is out, once those are noted that have lost theirs. The call
/// does nothing: its contract exports this.
pub fn lost_locks_leave()
    ensures { LostAreOut }
{}
