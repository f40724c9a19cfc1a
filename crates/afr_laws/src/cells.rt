ghost use Rattle.afr_laws.specs.Fresh.{EveryCellIsFresh};
ghost use Rattle.afr_laws.specs.OneBirth.{EveryCellIsBornOnce};

/// The law of fresh cells: while no lock phase over a cell has sent a mark, post, settle, replacement or clear, no
/// row and no request in a line accuses anybody on it, and no copy of it has a change.
pub fn every_cell_is_fresh()
    ensures { EveryCellIsFresh }
{}

/// The law of births, of every state that allowed steps lead to. All births of a cell give it the content of its
/// first one: those of ops on their way at a brick, of changes that became unsettled once, and of births under
/// way. No step takes that content back.
pub fn every_cell_is_born_once()
    ensures { EveryCellIsBornOnce }
{}
