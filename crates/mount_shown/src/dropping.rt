ghost use Rattle.mount_shown.specs.Dropping.{FopsDropInTurn};

/// When fops drop names. A change of a link that drops it is an unlink's or a rename's, of the name that the fop takes away, and is
/// the fop's last job; and what a rename drops of its new name is followed by the move, or by the birth of a copy and the move.
/// The call does nothing: its contract exports this.
pub fn fops_drop_in_turn()
    ensures { FopsDropInTurn }
{}
