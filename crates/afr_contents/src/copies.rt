ghost use Rattle.afr_contents.specs.Earlier.{EveryKnownIsShown};
ghost use Rattle.afr_contents.specs.Firm.{EveryAdoptedBears, EveryFirmIsPresent};
ghost use Rattle.afr_contents.specs.Found.{AppliersHaveAdopted, SourcesAreGood};
ghost use Rattle.afr_contents.specs.Present.{EveryChangeIsPresent};
ghost use Rattle.afr_contents.specs.Split.{SeenAllHasSound, SeenAllHasOne};
ghost use Rattle.afr_contents.specs.Verdicts.{EveryConfirmedEqualsSource};

/// The law of ops, of every state that allowed steps lead to, for one, three and five replicas. While an unsettled change is applied, a
/// replica that is ready for it in its lock phase, is spared from then on, and has not applied it, has exactly the cell's
/// adopted changes and the content that is adopted.
pub fn appliers_have_adopted()
    ensures { AppliersHaveAdopted }
{}

/// The law of sources, of the same states. While no later lock phase over a cell wrote, each source of a copy under way is
/// good on the cell. Of what was fetched `every_state_comes_good` says more, whatever came later.
pub fn sources_are_good()
    ensures { SourcesAreGood }
{}

/// The law of confirmed copies, of every state that allowed steps lead to. A sink that confirmed the replacement of a cell has the copy of
/// one of the sources, with its last change, while the transaction uses both.
pub fn every_confirmed_equals_source()
    ensures { EveryConfirmedEqualsSource }
{}

/// The law of copies that are there, of every state that allowed steps lead to. A replica whose copy a lock phase saw has one
/// from then on; so a quorum has a copy of each cell of a change, from the change's mark on.
pub fn every_change_is_present()
    ensures { EveryChangeIsPresent }
{}

/// The law of cells that count as present, of every state that allowed steps lead to, for one, three and five replicas: those whose birth
/// a quorum confirmed, and those of changes. A content of each is adopted, of the cell's aspect, and a quorum has a copy of it.
pub fn every_firm_is_present()
    ensures { EveryFirmIsPresent }
{}

/// The law of births by changes, of the same states. A content of each cell to which an adopted change gave birth is adopted, of the
/// cell's aspect, and some replica has a copy; no more, as a settling adopts what one replica has.
pub fn every_adopted_bears()
    ensures { EveryAdoptedBears }
{}

/// The law of rows that come later, of every state that allowed steps lead to. Where a lock phase that wrote, or may, saw a copy or made
/// one, the rows of each later lock phase over the cell that reached the replica show it.
pub fn every_known_is_shown()
    ensures { EveryKnownIsShown }
{}

/// The law of cells that are not split, of every state that allowed steps lead to, for one, three and five replicas. A lock
/// phase that reached every replica finds a sound one on each of its cells of which its rows show a copy, before it or a
/// later one over the cell writes. A cell that its rows do not show may be there by now, as a birth needs no lock.
pub fn seen_all_has_sound()
    ensures { SeenAllHasSound }
{}

/// The law of settlings that are not split, of the same states. A lock phase that reached every replica finds one that is sound on all
/// cells of an unsettled change together, before it or a later one over the cells writes, whatever its rows show.
pub fn seen_all_has_one()
    ensures { SeenAllHasOne }
{}
