ghost use Rattle.afr_decisions.specs.Confirmed.{EveryConfirmationIsNoted};
ghost use Rattle.afr_decisions.specs.Settlings.{EverySettlingStands};
ghost use Rattle.afr_decisions.specs.Staying.{EveryConfirmedAccuses};
ghost use Rattle.afr_decisions.specs.Shown.{EveryLaterShows};

/// The law of confirmations, of every state that allowed steps lead to. A lock phase in which the confirmation of a post or
/// settle is noted decides a change, and reached the brick that confirmed. Whoever confirmed a post has applied the change. From
/// the first confirmation on the lock phase accuses exactly the replicas that have no op wind of the change which ended with
/// Done, or those outside the group. Nobody confirmed before the posts are sent, and each confirmation that a transaction
/// counts is noted.
pub fn every_confirmation_is_noted()
    ensures { EveryConfirmationIsNoted }
{}

/// The law of settlings, of every state that allowed steps lead to, whatever has become of their transactions. Each replica of the
/// group was reached, is sound on each of the change's cells by the rows that the lock phase saw, and held the change as the
/// verdict says; there is such a replica. The change was marked in an earlier lock phase. While it is unsettled, lock phases over
/// one of its cells that end later see it unsettled, no clear over one of its cells is on its way to a brick that was reached,
/// and each such brick has the change exactly where its row said so.
pub fn every_settling_stands()
    ensures { EverySettlingStands }
{}

/// The law of those who confirmed, of every state that allowed steps lead to, whatever has become of their transactions. While a
/// change is unsettled, whoever confirmed a post or settle of it accuses on each of its cells everyone whom the lock phase of that
/// post or settle accuses, and no clear on its way there takes that back.
pub fn every_confirmed_accuses()
    ensures { EveryConfirmedAccuses }
{}

/// The law of what later lock phases see, of every state that allowed steps lead to, for one, three and five replicas. A lock phase
/// whose transaction is to settle a change sees, at each brick that it reached and that confirmed a post or settle of the change
/// in an earlier lock phase, that the brick accuses whomever the earlier one accuses on the change's cells; also where the
/// confirmation is noted only later.
pub fn every_later_shows()
    ensures { EveryLaterShows }
{}
