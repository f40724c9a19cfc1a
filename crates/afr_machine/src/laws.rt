ghost use Rattle.afr_machine.specs.Moves.{BricksMove, AdoptedMoves};

/// The law of bricks: a step moves at most one brick. It takes inputs at the end of its line, hands its first output
/// over, or serves, refuses, gives up or follows the front of its line.
pub fn one_brick_moves()
    ensures { BricksMove }
{}

/// The law of what is adopted: it changes when a birth begins and when an unsettled change is decided as
/// adopted, and by no other step.
pub fn adopted_moves()
    ensures { AdoptedMoves }
{}
