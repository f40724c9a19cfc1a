ghost use Rattle.afr_contents.specs.Found.{GoodIsSettled, ReadyHaveAdopted};
ghost use Rattle.afr_contents.specs.Reading.{EveryReadShowsAdopted};

/// The law of what is settled, of every state that allowed steps lead to. While a read runs and its settling has ended, and
/// while a change does so that has not become unsettled, a good copy of one of its cells has exactly the cell's adopted
/// changes, and the content that is adopted or, where none is yet, that with which the cell was born.
pub fn good_is_settled()
    ensures { GoodIsSettled }
{}

/// The law of what is ready, of every state that allowed steps lead to, for one, three and five replicas. Behind its own lock phase, and
/// before its change becomes unsettled, a read or change finds just that in each replica that was sound on a cell in that lock
/// phase, or received a copy, also where its grant has ended.
pub fn ready_have_adopted()
    ensures { ReadyHaveAdopted }
{}

/// The law of reads, of the same states. A transaction that shows what was fetched of a cell reads that cell, and its settling has ended.
/// Until it is over, what it shows has exactly the cell's adopted changes, and the content that is adopted now; where none of the
/// cell is adopted yet, that with which the cell was born.
pub fn every_read_shows_adopted()
    ensures { EveryReadShowsAdopted }
{}
