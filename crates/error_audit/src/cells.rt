//! Lists of cells.
ghost use Rattle.std.specs.Prelude.{◌≡◌, ◌↔◌, IsTrue};

use fop_types::Cell;

fn is_cell(cell: &Cell, other: &Cell) -> bool
    ensures { IsTrue result ↔ (cell.now ≡ other.now) }
{
    *cell == *other
}

/// Whether two lists of cells are the same.
pub fn are_cells(cells: &[Cell], others: &[Cell]) -> bool
    ensures { IsTrue result ↔ (cells.now ≡ others.now) }
{
    if cells.len() != others.len() {
        return false;
    }
    for k in 0..cells.len() {
        if !is_cell(&cells[k], &others[k]) {
            return false;
        }
    }
    true
}
