ghost use Rattle.std.specs.Prelude.{◌≡◌, [], IfOk, OnOk};
ghost use Rattle.std.specs.BTreeSet.{insert_key};
ghost use Rattle.fop_types.specs.Orders.{cell_cmp};
ghost use Rattle.afr_transaction.specs.Listing.{with_cells};

use fop_types::{Cell, Seq};
use std::alloc::{AllocError, Global};
use std::collections::BTreeSet;
use std::marker::Model;

/// The cells that replicas have listed, each once. Contracts see them rising.
#[derive(Drop)]
pub struct Listed {
    cells: BTreeSet<Cell>,
}

impl Model for Listed {
    ghost use Rattle.std.specs.Prelude.{List};
    ghost use Rattle.fop_types.specs.declared.cells.Cell.{Cell};

    ghost Value = { List Cell };

    ghost view = { λ l. l.cells.keys };
}

impl Listed {
    /// No cells.
    pub(crate) fn new(alloc: Global) -> Listed
        ensures { result ≡ [] }
    {
        Listed {
            cells: BTreeSet::new(alloc),
        }
    }

    fn add(&mut self, cell: Cell) -> Result<(), AllocError>
        ensures { OnOk result (self.new ≡ insert_key cell_cmp self.old cell) }
    {
        self.cells.insert(cell)?;
        Ok(())
    }

    /// The cells that a replica has listed.
    ///
    /// # Errors
    /// Out of memory.
    pub(crate) fn add_all(&mut self, cells: &[Cell]) -> Result<(), AllocError>
        ensures { OnOk result (self.new ≡ with_cells self.old cells.now) }
    {
        for cell in cells {
            self.add(*cell)?;
        }
        Ok(())
    }

    /// The cells, rising.
    ///
    /// # Errors
    /// Out of memory.
    pub(crate) fn into_list(self, alloc: Global) -> Result<Seq<Cell>, AllocError>
        ensures { IfOk result (λ list. list ≡ self) }
    {
        let mut cells = self.cells;
        let mut list = Vec::new(alloc);
        while let Some(cell) = cells.pop_first() {
            list.push(cell)?;
        }
        Ok(Seq::from_vec(list))
    }
}
