ghost use Rattle.afr_laws.specs.HeldWhole.{StepsKeepHeldWhole};
ghost use Rattle.afr_laws.specs.Numbers.{EveryStateKeepsNumbers};

/// The law of the numbers in copies, of every state that allowed steps lead to. Each change in a copy of a cell
/// became unsettled once and touches that cell; where there is one, the last change that the row names is the
/// greatest of them. A number whose mark is being asked is in no copy and no row. Of an unsettled change that
/// touches the cell, no copy has a greater one, and the row says whether the copy has it. The ops over one cell
/// that wait in a line have numbers that rise, none smaller than what the copy has.
pub fn every_state_keeps_numbers()
    ensures { EveryStateKeepsNumbers }
{}

/// The law of unsettled changes in copies: a brick has one in its copies of all of its cells, or of none. Each step
/// keeps that from a state in which no replacement is at the front of a line.
pub fn steps_keep_whole()
    ensures { StepsKeepHeldWhole }
{}
