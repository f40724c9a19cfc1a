ghost use Rattle.cell_store.specs.CellLaws.{CountsChangeTheListed, ReplaceChangesOne};

/// The law of counts and replaces: of every cell, what is kept of it after a mark, post, settle or clear is what was
/// kept before it, changed as often as the call lists the cell, and a replace changes its one cell. So every other cell
/// stays.
#[tactic(auto, using(crate::proofs::Listed::replace_changes_one))]
pub fn counts_change_the_listed()
    ensures counts { CountsChangeTheListed }
    ensures replace { ReplaceChangesOne }
{}
