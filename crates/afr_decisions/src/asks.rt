ghost use Rattle.afr_decisions.specs.Asks.{EveryLockIsInOrder, EveryOpIsNew};
ghost use Rattle.afr_decisions.specs.One.{EveryOneIsUnaccused};

/// The law of the order of locks, of every state that allowed steps lead to. A transaction that waits for the lock of a brick has
/// grants of bricks below that one alone.
pub fn every_lock_is_in_order()
    ensures { EveryLockIsInOrder }
{}

/// The law of new ops, of every state that allowed steps lead to. While the op of a change is in the line of a brick, the brick's
/// copies of the cells that the op alters have not got the change: it is sent there once.
pub fn every_op_is_new()
    ensures { EveryOpIsNew }
{}

/// The law of a set of one replica, of every state that allowed steps lead to: nobody is accused, in no row and by no request on
/// its way.
pub fn one_is_unaccused()
    ensures { EveryOneIsUnaccused }
{}
