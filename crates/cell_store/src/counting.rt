ghost use Rattle.std.specs.Prelude.{◌≡◌, OnOk, OnErr};
ghost use Rattle.std.specs.Map.{set_value};
ghost use Rattle.std.specs.BTreeMap.{is_at};
ghost use Rattle.fop_types.specs.Orders.{cell_cmp};
ghost use Rattle.cell_store.specs.Cells.{kept_at, clear_of, marked, posted, settled, cleared, changed_at};
ghost use Rattle.cell_store.specs.code.Steps.{counted};

use crate::cell_map::CellMap;
use crate::steps::{Count, Step};
use fop_types::{Cell, Mask};
use std::alloc::AllocError;

impl CellMap {
    /// Raises the count of marks of each cell by one. A count at 2,147,483,647 stays there.
    ///
    /// # Errors
    /// Out of memory, with nothing changed.
    pub(crate) fn mark(&mut self, cells: &[Cell]) -> Result<(), AllocError>
        ensures ok { OnOk result (self.new ≡ marked cells.now self.old) }
        ensures err { OnErr result (self.new ≡ self.old) }
    {
        self.count_each(cells, Count::Mark)
    }

    /// Lowers the count of marks of each cell by one, down to 0, and accuses each replica of a mask once more. A
    /// count at 2,147,483,647 stays there.
    ///
    /// # Errors
    /// Out of memory, with nothing changed.
    pub(crate) fn post(&mut self, cells: &[Cell], accuse: Mask) -> Result<(), AllocError>
        ensures ok { OnOk result (self.new ≡ posted cells.now accuse self.old) }
        ensures err { OnErr result (self.new ≡ self.old) }
    {
        self.count_each(cells, Count::Post(accuse))
    }

    /// Sets the count of marks of each cell to 0, and accuses each replica of a mask once more.
    ///
    /// # Errors
    /// Out of memory, with nothing changed.
    pub(crate) fn settle(&mut self, cells: &[Cell], accuse: Mask) -> Result<(), AllocError>
        ensures ok { OnOk result (self.new ≡ settled cells.now accuse self.old) }
        ensures err { OnErr result (self.new ≡ self.old) }
    {
        self.count_each(cells, Count::Settle(accuse))
    }

    /// Takes all accusations of a mask's replicas on each cell back.
    pub(crate) fn clear(&mut self, cells: &[Cell], who: Mask)
        ensures { self.new ≡ cleared cells.now who self.old }
    {
        for cell in cells {
            self.clear_one(cell, who);
        }
    }

    fn clear_one(&mut self, cell: &Cell, who: Mask)
        ensures { self.new ≡ set_value (is_at (cell_cmp cell.now)) self.old (clear_of who (kept_at self.old cell.now)) }
    {
        match self.cells.get_mut(cell) {
            Some(kept) => kept.clear(who),
            None => {}
        }
    }

    /// Takes a step of counting on each cell in turn. Where memory runs out, the steps that were done are
    /// taken back on the way out. The calls nest as deep as there are cells, of which a request names at
    /// most four.
    fn count_each(&mut self, cells: &[Cell], count: Count) -> Result<(), AllocError>
        ensures ok { OnOk result (self.new ≡ changed_at (counted count) cells.now self.old) }
        ensures err { OnErr result (self.new ≡ self.old) }
    {
        match cells {
            [] => Ok(()),
            [cell, others @ ..] => {
                let earlier = self.step(cell, Step::Counts(count))?;
                match self.count_each(others, count) {
                    Ok(()) => Ok(()),
                    Err(error) => {
                        self.take_back(cell, earlier);
                        Err(error)
                    }
                }
            }
        }
    }
}
