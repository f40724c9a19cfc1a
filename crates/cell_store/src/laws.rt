ghost use Rattle.cell_store.specs.Laws.{OpsChangeCopies};

/// The law of ops: of every cell the copy after an op is what the op makes of contents, the last change is the op's
/// exactly where the op alters the cell or gives birth to it, and the counters stay.
pub fn ops_change_copies()
    ensures { OpsChangeCopies }
{}
