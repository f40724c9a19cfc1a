ghost use Rattle.afr_soundness.specs.Unsettled.{EveryUnsettledIsAlone};
ghost use Rattle.afr_soundness.specs.Later.{EveryUnsettledHasFree};
ghost use Rattle.afr_soundness.specs.Guarded.{EveryStateLeavesOneFree};
ghost use Rattle.afr_soundness.specs.Applied.{EveryAppliedHolds};
ghost use Rattle.afr_soundness.specs.Agreeing.{EveryGroupAgrees};
ghost use Rattle.afr_soundness.specs.Posted.{EveryPostDoneAccuses};
ghost use Rattle.afr_soundness.specs.SettleDone.{EverySettleDoneAccuses};

/// The law of unsettled changes, of every state that allowed steps lead to. No two of them have a cell in common. While a
/// read or change runs and its settling has ended, no unsettled change but its own touches the cells of its job. A change
/// that a transaction settles became unsettled before.
pub fn every_unsettled_is_alone()
    ensures { EveryUnsettledIsAlone }
{}

/// The law of unsettled changes and their lock phases, of every state that allowed steps lead to, for one, three and five
/// replicas. A lock phase that ended after one which decides an unsettled change, over one of its cells, decides nothing,
/// the same change, or one that did not become unsettled; so it accuses nobody, or decides the same change. The same holds
/// from the end of the lock phase on, before it decides. Each change that became unsettled was marked in a lock phase that has
/// ended. Of the lock phases that decide an unsettled change, its own and
/// those that settle it, take the one that ended last: one of the replicas that it reached has a copy of each cell of the
/// change, accuses itself on none, and on each of them fewer than a quorum of all accuse it.
pub fn every_unsettled_has_free()
    ensures { EveryUnsettledHasFree }
{}

/// The law of the free, whatever lock phases came before, of every state that allowed steps lead to, for one, three and five
/// replicas. For each unsettled change one replica is free on all of its cells together; and on each cell of which some
/// brick has a copy one replica is free.
pub fn every_state_leaves_one_free()
    ensures { EveryStateLeavesOneFree }
{}

/// The law of applied changes, of every state that allowed steps lead to. A brick has an unsettled change in its copies of all
/// of the change's cells, or of none: of all where it answered the change's op with Done, from the moment at which it did, and
/// once the answer was handed in. No op is answered with Done before its change became unsettled.
pub fn every_applied_holds()
    ensures { EveryAppliedHolds }
{}

/// The law of groups that agree, of every state that allowed steps lead to. While an unsettled change is settled, from the end of
/// the lock phase on, each brick that this phase reached has the change in its copy of a cell exactly where the row of that
/// copy said so, also where its grant has ended since, and no op of the change is on its way there. So each replica of the
/// settling's group has the change in all of its cells where the verdict adopts it, and in none where it does not.
pub fn every_group_agrees()
    ensures { EveryGroupAgrees }
{}

/// The law of posts, of every state that allowed steps lead to. While a transaction sends the posts of its change, it sends
/// them to bricks alone that applied the change. While it does and the change is unsettled, each brick that answered such a
/// post with Done applied it, and its rows accuse on each of the change's cells every replica that has no op wind of the change which
/// ended with Done: from the moment at which it answered, and once the answer was handed in.
pub fn every_post_done_accuses()
    ensures { EveryPostDoneAccuses }
{}

/// The law of settles, of every state that allowed steps lead to. While an unsettled change is settled, from the end of the
/// lock phase on, lock phases over one of its cells that end later see it unsettled, and no clear over one of its cells is on
/// its way to a brick that the lock phase reached. So while the change is unsettled, each brick that answered a settle with
/// Done was reached, and its rows accuse on each of the change's cells every replica outside the group: from the moment at
/// which it answered, and once the answer was handed in.
pub fn every_settle_done_accuses()
    ensures { EverySettleDoneAccuses }
{}
