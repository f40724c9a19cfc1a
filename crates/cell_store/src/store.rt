ghost use Rattle.std.specs.Prelude.{◌≡◌, [], Some, None, MatchBool, IfOk, OnOk, OnErr};
ghost use Rattle.std.specs.Option.{option_map};
ghost use Rattle.cell_store.specs.Cells.{root_alone, kept_at, copy_of, row_of, present_in, replaced, marked, posted, settled, cleared, applied};
ghost use Rattle.cell_store.specs.Dump.{dumped};

use crate::cell_map::CellMap;
use fop_types::{Cell, Content, Mask, Row, Seq, StoreOp};
use std::alloc::{AllocError, Global};
use std::marker::Model;

/// What one brick keeps of its set's cells, and the names under which it shows the replicas of the set.
///
/// Contracts see it as its cells, the list of their entries by rising cell, and its names. `bind_names` alone changes
/// the names.
#[derive(Drop)]
pub struct Store {
    cells: CellMap,
    names: Seq<Seq<u8>>,
}

impl Model for Store {
    ghost use Rattle.cell_store.specs.StoreState.{StoreState};

    ghost Value = { StoreState };

    ghost view = { λ s. record { cells = s.cells; names = s.names } };
}

impl Store {
    /// The store of a new brick: the root's metadata, mode 755 octal, and its empty names. No replica has a name.
    ///
    /// # Errors
    /// Out of memory.
    pub fn new(alloc: Global) -> Result<Store, AllocError>
        ensures { IfOk result (λ s. s ≡ record { cells = root_alone; names = [] }) }
    {
        let cells = CellMap::new(alloc)?;
        Ok(Store {
            cells,
            names: Seq::new(alloc),
        })
    }

    /// Binds the names under which `dump` shows the replicas: those of the client volumes, in replica order. It needs
    /// no memory.
    pub fn bind_names(&mut self, names: Seq<Seq<u8>>)
        ensures { self.new ≡ record self.old { names = names } }
    {
        self.names = names;
    }

    /// The copy of a cell with the number of its last change, `None` exactly where the cell is not present.
    pub fn copy(&self, cell: &Cell) -> Option<(&Content, u64)>
        ensures { option_map (λ copy. (copy.0.now, copy.1)) result ≡ copy_of (kept_at self.now.cells cell.now) }
    {
        self.cells.copy(cell)
    }

    /// A copy of a cell with the number of its last change, `None` exactly where the cell is not present.
    ///
    /// # Errors
    /// Out of memory.
    pub fn fetch(&self, alloc: Global, cell: &Cell) -> Result<Option<(Content, u64)>, AllocError>
        ensures { IfOk result (λ copy. copy ≡ copy_of (kept_at self.now.cells cell.now)) }
    {
        self.cells.fetch(alloc, cell)
    }

    /// The row of a cell. Of a cell of which nothing is kept the row is not present, and all zero.
    pub fn row(&self, cell: &Cell) -> Row
        ensures { result ≡ row_of (kept_at self.now.cells cell.now) }
    {
        self.cells.row(cell)
    }

    /// The cells that are present, by gfid and then aspect.
    ///
    /// # Errors
    /// Out of memory.
    pub fn cells(&self, alloc: Global) -> Result<Vec<Cell>, AllocError>
        ensures { IfOk result (λ cells. cells.items ≡ present_in self.now.cells) }
    {
        self.cells.cells(alloc)
    }

    /// The attributes that replicate and distribute keep on the store's objects, as text: by rising gfid, a line
    /// each with the gfid, the attribute's name and its value in hexadecimal.
    ///
    /// `trusted.afr.dirty` and `trusted.afr.NAME` for each replica have the counters of data, metadata and
    /// entries, and stand where one is not zero; NAME is that of `bind_names`, or the replica's number.
    /// `trusted.glusterfs.dht` has the range of a directory's copy. A link is a line with its directory's gfid, its
    /// name, mode 01000 and `trusted.glusterfs.dht.linkto` with the name of the set that it points to.
    ///
    /// # Errors
    /// Out of memory.
    pub fn dump(&self, alloc: Global) -> Result<Vec<u8>, AllocError>
        ensures { IfOk result (λ text. text.items ≡ dumped self.now.names self.now.cells) }
    {
        self.cells.dump(alloc, self.names.as_slice())
    }

    /// Puts another brick's copy of a cell in, with its last change. The counters of the cell stay.
    ///
    /// # Errors
    /// Out of memory, with nothing changed.
    pub fn replace(&mut self, cell: &Cell, content: Content, last: u64) -> Result<(), AllocError>
        ensures ok { OnOk result (self.new ≡ record self.old { cells = replaced self.old.cells cell.now content last }) }
        ensures err { OnErr result (self.new ≡ self.old) }
    {
        self.cells.replace(cell, content, last)
    }

    /// Raises the count of marks of each cell by one. A count at 2,147,483,647 stays there.
    ///
    /// # Errors
    /// Out of memory, with nothing changed.
    pub fn mark(&mut self, cells: &[Cell]) -> Result<(), AllocError>
        ensures ok { OnOk result (self.new ≡ record self.old { cells = marked cells.now self.old.cells }) }
        ensures err { OnErr result (self.new ≡ self.old) }
    {
        self.cells.mark(cells)
    }

    /// Lowers the count of marks of each cell by one, down to 0, and accuses each replica of a mask once more. A
    /// count at 2,147,483,647 stays there.
    ///
    /// # Errors
    /// Out of memory, with nothing changed.
    pub fn post(&mut self, cells: &[Cell], accuse: Mask) -> Result<(), AllocError>
        ensures ok { OnOk result (self.new ≡ record self.old { cells = posted cells.now accuse self.old.cells }) }
        ensures err { OnErr result (self.new ≡ self.old) }
    {
        self.cells.post(cells, accuse)
    }

    /// Sets the count of marks of each cell to 0, and accuses each replica of a mask once more.
    ///
    /// # Errors
    /// Out of memory, with nothing changed.
    pub fn settle(&mut self, cells: &[Cell], accuse: Mask) -> Result<(), AllocError>
        ensures ok { OnOk result (self.new ≡ record self.old { cells = settled cells.now accuse self.old.cells }) }
        ensures err { OnErr result (self.new ≡ self.old) }
    {
        self.cells.settle(cells, accuse)
    }

    /// Takes all accusations of a mask's replicas on each cell back.
    pub fn clear(&mut self, cells: &[Cell], who: Mask)
        ensures { self.new ≡ record self.old { cells = cleared cells.now who self.old.cells } }
    {
        self.cells.clear(cells, who);
    }

    /// Applies an op under a change number, and takes its bytes and names into the store: true where it fits,
    /// and false, with nothing changed, exactly where it does not. It costs a search for each cell that the op
    /// alters or bears, a search among the names or attributes of these, and one move of what comes after.
    ///
    /// # Errors
    /// Out of memory, with nothing changed.
    pub fn take(&mut self, alloc: Global, change: u64, op: StoreOp) -> Result<bool, AllocError>
        ensures fits { IfOk result (λ fits. MatchBool fits (applied self.old.cells change op ≡ Some self.new.cells) ((applied self.old.cells change op ≡ None) × (self.new ≡ self.old))) }
        ensures names { self.new.names ≡ self.old.names }
        ensures err { OnErr result (self.new ≡ self.old) }
    {
        self.cells.take(alloc, change, op)
    }

    /// Applies an op under a change number, as `take` does, from a copy of its bytes and names.
    ///
    /// # Errors
    /// Out of memory, with nothing changed.
    pub fn apply(&mut self, alloc: Global, change: u64, op: &StoreOp) -> Result<bool, AllocError>
        ensures fits { IfOk result (λ fits. MatchBool fits (applied self.old.cells change op.now ≡ Some self.new.cells) ((applied self.old.cells change op.now ≡ None) × (self.new ≡ self.old))) }
        ensures names { self.new.names ≡ self.old.names }
        ensures err { OnErr result (self.new ≡ self.old) }
    {
        self.cells.apply(alloc, change, op)
    }
}
