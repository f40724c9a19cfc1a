ghost use Rattle.afr_contents.specs.Adopted.{EveryAdoptedIsAsBorn, EveryChangeIsOfAdopted};
ghost use Rattle.afr_contents.specs.Good.{EveryCopyIsGood};
ghost use Rattle.afr_contents.specs.Coming.{EveryCopyStaysGood, EveryStateComesGood};
ghost use Rattle.afr_contents.specs.Found.{FreeIsGood};
ghost use Rattle.afr_contents.specs.Verdicts.{EveryGoodCopyHasVerdicts};
ghost use Rattle.afr_contents.specs.Durable.{EveryStateKeepsGoodCopies};
ghost use Rattle.afr_contents.specs.Fitting.{EveryAdoptionFits};
ghost use Rattle.afr_contents.specs.Guarded.{EverySetIsGuarded};

/// The law of births that are adopted, of every state that allowed steps lead to: a cell without adopted changes has the
/// content that it was born with, once its birth is adopted.
pub fn every_adopted_is_as_born()
    ensures { EveryAdoptedIsAsBorn }
{}

/// The law of unsettled changes and what is adopted, of every state that allowed steps lead to: each cell of an unsettled change has
/// an adopted content, so its birth is adopted.
pub fn every_change_is_of_adopted()
    ensures { EveryChangeIsOfAdopted }
{}

/// The law of copies, of every state that allowed steps lead to, for one, three and five replicas. Each replica's copy of each cell
/// is good: it has the cell's adopted changes, or these and the one unsettled change of the cell, and the content that they leave. Or
/// a quorum accuses the replica on the cell, and goes on doing so: no clear on its way there takes that back.
pub fn every_copy_is_good()
    ensures { EveryCopyIsGood }
{}

/// The law of copies to come, of the same states. As the line of a brick is served from the front, whichever of its requests are served
/// and whichever are not, each copy there stays good, or a quorum accuses the replica on the cell and goes on doing so.
pub fn every_copy_stays_good()
    ensures { EveryCopyStaysGood }
{}

/// The law of what keeps that, of the same states. Whoever has no good copy is accused for good: by a quorum to which no clear is
/// on its way, or may still be sent, that takes it back. So it is with what is on its way. The op of a change in a line belongs to
/// an unsettled change and finds exactly the adopted changes in each copy that it alters, or its replica is accused for good on
/// each of these cells; a replacement carries a good copy, or its replica is accused for good. While a transaction may copy a cell, each
/// source that it uses is good, and so is what it fetched, or whomever it uses is accused for good by a quorum of which it holds
/// none. A brick to which the op of an unsettled change is still to be sent has exactly the adopted changes of its cells.
pub fn every_state_comes_good()
    ensures { EveryStateComesGood }
{}

/// The law of free replicas, of the same states: whoever has a copy of a cell, does not accuse itself and is accused by fewer than a
/// quorum is good on it.
pub fn free_is_good()
    ensures { FreeIsGood }
{}

/// The law of good copies that are there, of the same states. On each cell of which some replica has a copy one replica is free and its copy
/// good, and so is one on all cells of an unsettled change together: what is adopted can be read from it.
pub fn every_state_keeps_good_copies()
    ensures { EveryStateKeepsGoodCopies }
{}

/// The law of ops that fit, of the same states. Where a good copy has an unsettled change, and where a change is to be adopted now, the
/// change's op fits the contents that are adopted so far. Each op in a brick's line fits the brick's copies exactly if it fits these,
/// or a quorum accuses the replica on each cell that the op needs.
pub fn every_adoption_fits()
    ensures { EveryAdoptionFits }
{}

/// The law of verdicts and copies, from each of these states on. A change that was adopted is in each good copy of a cell that it
/// touches, then and later: it is never lost. One that was dropped is in none: it never comes back.
pub fn every_good_copy_has_verdicts()
    ensures { EveryGoodCopyHasVerdicts }
{}

/// The law of guarded sets, of the same states. A replica's copy of a cell has exactly the adopted changes, or these and the one
/// unsettled change that touches the cell, or the replica is convicted there: it has no copy, or it is accused by itself or by a
/// quorum. Each brick serves its line from the front, so a lock is answered after each request before it. And all that
/// `every_state_is_guarded` of `afr_decisions` says.
pub fn every_set_is_guarded()
    ensures { EverySetIsGuarded }
{}
