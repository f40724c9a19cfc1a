ghost use Rattle.afr_contents.specs.Staying.{AccusationsStay};
ghost use Rattle.afr_contents.specs.Spread.{EveryDecisionIsSpread};

/// The law of accusers that stay: whoever accuses a replica on a cell, with no clear in its line that names it, goes on doing
/// so, until a step sends the brick such a clear.
pub fn accusations_stay()
    ensures { AccusationsStay }
{}

/// The law of decisions, of every state that allowed steps lead to. At the moment at which a quorum of confirmations decides
/// an unsettled change, each replica has the change in all of its cells where the verdict adopts it, and in none where it
/// does not; or a quorum accuses it on each of the change's cells, and no clear that names it is on its way there.
pub fn every_decision_is_spread()
    ensures { EveryDecisionIsSpread }
{}
