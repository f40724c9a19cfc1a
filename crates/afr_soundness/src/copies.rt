ghost use Rattle.afr_soundness.specs.Runs.{EveryCopyKnowsItsSources};
ghost use Rattle.afr_soundness.specs.Replaced.{EveryReplacedHasCopy};
ghost use Rattle.afr_soundness.specs.Copied.{EveryCopyStands};
ghost use Rattle.afr_soundness.specs.Clears.{EveryCopiedIsFree};
ghost use Rattle.afr_soundness.specs.CopyApart.{EveryCopyIsApart};

/// The law of copies under way, of every state that allowed steps lead to. The cells that are copied are some of those of
/// the lock phase, and there is one, and a source. Each source was reached and is sound on each of them by the rows that the
/// lock phase saw, and is in the group where a settling came before. Each sink was reached and is outside the group, or
/// sound on none of the cells. Without a settling before it a change copies, where each cell of its lock phase has a sound
/// replica, or a heal, where no unsettled change touched its cell when its lock phase ended. A settling copies once its
/// change is decided.
pub fn every_copy_knows_its_sources()
    ensures { EveryCopyKnowsItsSources }
{}

/// The law of replacements, of every state that allowed steps lead to. A brick that answered a replacement with Done has a
/// copy of the cell from then on: while the answer is on its way, once the copy counts the replacement as confirmed, and
/// once a brick confirmed a clear that rests on it.
pub fn every_replaced_has_copy()
    ensures { EveryReplacedHasCopy }
{}

/// The law of copies that stand, of every state that allowed steps lead to. While a transaction copies, uses a brick still,
/// and has its grant there on the connection that is open: where the brick is the copy's only source so placed, what was
/// fetched of a cell is the copy, with the last change, that it has; a sink's is what was fetched once it confirmed its
/// replacement. So it is from the moment at which the brick answered.
pub fn every_copy_stands()
    ensures { EveryCopyStands }
{}

/// The law of clears, of every state that allowed steps lead to, for one, three and five replicas. A brick that answered a
/// clear with Done, on the open connection, accuses none of those that the clear named in its rows of the clear's cells,
/// while the lock phase of the clear and all later ones over the cell that wrote spare them. From the moment at which the
/// answer was handed in it does not accuse a sink whose copy the clear confirmed, in its rows or by what is in its line. So
/// a replica that received a copy, a quorum with itself having confirmed the clear, has a copy and does not accuse
/// itself, and fewer than a quorum of all accuse it.
pub fn every_copied_is_free()
    ensures { EveryCopiedIsFree }
{}

/// The law of copies and unsettled changes, of every state that allowed steps lead to. An unsettled change is at bricks alone
/// that the lock phase reached which marked it: in no copy of another brick, and no op of it on its way there. A later lock
/// phase over one of its cells that saw no unsettled change when it ended reached no brick where it is. What was fetched for a copy, and each replacement on its way, carries no unsettled change; and none that touches a
/// cell of the copy is at a brick which the copy's lock phase reached and whose grant is on the connection that is open, nor
/// at one to which a replacement or a clear over the cell is on its way.
pub fn every_copy_is_apart()
    ensures { EveryCopyIsApart }
{}
