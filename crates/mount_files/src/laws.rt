ghost use Rattle.mount_files.specs.Pairs.{TwoOps, AllOps};
ghost use Rattle.mount_files.specs.Seen.{NameHere, NameNowhere};
ghost use Rattle.mount_files.specs.Showing.{OneOp};

/// Where the contents of all sets show the flat file system, and an op fits its set, what the sets show after it is the flat
/// file system after the op's operation. An op has no effect, or one that the flat file system accepts; then it is on the set
/// that has its object or its name, a new name's object was not made and has no cell there, and no other set has the new name
/// of a move. The call does nothing: its contract exports this.
pub fn op_is_shown()
    ensures { OneOp }
{}

/// Of two ops that fit and are apart, each fits after the other: apart are ops that touch no common name, and no name in a
/// directory that the other removes, that give birth to no common object, and need no common cell of a set. So the ops of a
/// list, apart one by one, all fit in its order, and the sets show the flat file system after each. The call does nothing: its
/// contract exports this.
pub fn ops_stay_possible()
    ensures two { TwoOps }
    ensures all { AllOps }
{}

/// A name that a set has as a file's or a directory's is in the flat file system, and its directory is not removed: no op that
/// fits removes the directory, and one that touches the name needs the directory's names on that very set. A name that no set
/// has is not in the flat file system, and each op that touches a name of the directory needs the directory's names on a set
/// of the graph. The call does nothing: its contract exports this.
pub fn names_are_known()
    ensures here { NameHere }
    ensures nowhere { NameNowhere }
{}
