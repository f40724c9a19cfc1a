ghost use Rattle.std.specs.Prelude.{◌≡◌, true, Some, None, is_some, IsOk, IfOk, IfSome, OnOk, OnErr};
ghost use Rattle.std.specs.Option.{option_map, option_copied};
ghost use Rattle.contents.specs.Edits.{Fits, is_sure};
ghost use Rattle.cell_store.specs.Cells.{nothing_kept, root_alone, kept_at, copy_of, row_of, contents_of, replaced, present_in, IsCountedRow};
ghost use Rattle.cell_store.specs.code.Steps.{with_step, with_earlier, with_edit};

use crate::kept::Kept;
use crate::steps::Step;
use contents::{Edit, OrderedContent};
use fop_types::{Aspect, Cell, Content, Gfid, Row, Seq};
use std::alloc::{AllocError, Global};
use std::collections::BTreeMap;
use std::marker::Model;

/// What is kept of the cells of a store.
///
/// Contracts see it as the list of its entries by rising cell.
#[derive(Drop)]
pub(crate) struct CellMap {
    pub(crate) cells: BTreeMap<Cell, Kept>,
}

impl Model for CellMap {
    ghost use Rattle.std.specs.List.{All};
    ghost use Rattle.std.specs.Map.{values_of};
    ghost use Rattle.cell_store.specs.Cells.{Cells, IsCounted};

    ghost Value = { Cells };

    ghost view = { λ m. m.cells.entries };

    ghost invariant = { λ m. All IsCounted (values_of m.cells.entries) };
}

// A cell that is present with no mark, no accusation and no change.
fn present(content: Content) -> Kept
    ensures { result ≡ record nothing_kept { content = Some content } }
{
    Kept {
        content: Some(OrderedContent::new(content)),
        dirty: 0,
        pending: [0; 5],
        last: 0,
    }
}

impl CellMap {
    /// The cells of a new brick: the root's metadata, mode 755 octal, and its empty names.
    ///
    /// # Errors
    /// Out of memory.
    pub(crate) fn new(alloc: Global) -> Result<CellMap, AllocError>
        ensures { IfOk result (λ cells. cells ≡ root_alone) }
    {
        let gfid = Gfid { hi: 0, lo: 1 };
        let mut cells = BTreeMap::new(alloc);
        let meta = Content::Meta {
            mode: 0o755,
            attrs: Seq::new(alloc),
            span: None,
        };
        let aspect = Aspect::Meta;
        drop(cells.insert(Cell { gfid, aspect }, present(meta))?);
        let names = Content::Names {
            removed: false,
            items: Seq::new(alloc),
        };
        let aspect = Aspect::Entry;
        drop(cells.insert(Cell { gfid, aspect }, present(names))?);
        Ok(CellMap { cells })
    }

    /// The content of a cell, `None` exactly where it is not present.
    pub(crate) fn content(&self, cell: &Cell) -> Option<&Content>
        ensures { option_copied result ≡ contents_of self.now cell.now }
    {
        match self.cells.get(cell) {
            Some(kept) => match &kept.content {
                Some(content) => Some(content.content()),
                None => None,
            },
            None => None,
        }
    }

    /// The same, to find names in it.
    pub(crate) fn ordered(&self, cell: &Cell) -> Option<&OrderedContent>
        ensures { option_copied result ≡ contents_of self.now cell.now }
    {
        match self.cells.get(cell) {
            Some(kept) => match &kept.content {
                Some(content) => Some(content),
                None => None,
            },
            None => None,
        }
    }

    /// The copy of a cell with the number of its last change, `None` exactly where the cell is not present.
    pub(crate) fn copy(&self, cell: &Cell) -> Option<(&Content, u64)>
        ensures { option_map (λ copy. (copy.0.now, copy.1)) result ≡ copy_of (kept_at self.now cell.now) }
    {
        match self.cells.get(cell) {
            Some(kept) => match &kept.content {
                Some(content) => Some((content.content(), kept.last)),
                None => None,
            },
            None => None,
        }
    }

    /// A copy of a cell with the number of its last change, `None` exactly where the cell is not present.
    ///
    /// # Errors
    /// Out of memory.
    pub(crate) fn fetch(
        &self,
        alloc: Global,
        cell: &Cell,
    ) -> Result<Option<(Content, u64)>, AllocError>
        ensures { IfOk result (λ copy. copy ≡ copy_of (kept_at self.now cell.now)) }
    {
        match self.cells.get(cell) {
            Some(kept) => match &kept.content {
                Some(content) => {
                    let content = content.content().copy(alloc)?;
                    Ok(Some((content, kept.last)))
                }
                None => Ok(None),
            },
            None => Ok(None),
        }
    }

    /// The row of a cell. Of a cell of which nothing is kept the row is not present, and all zero.
    pub(crate) fn row(&self, cell: &Cell) -> Row
        ensures { result ≡ row_of (kept_at self.now cell.now) }
    {
        match self.cells.get(cell) {
            Some(kept) => kept.row(),
            None => Kept::nothing().row(),
        }
    }

    /// The cells that are present, by gfid and then aspect.
    ///
    /// # Errors
    /// Out of memory.
    pub(crate) fn cells(&self, alloc: Global) -> Result<Vec<Cell>, AllocError>
        ensures { IfOk result (λ cells. cells.items ≡ present_in self.now) }
    {
        let mut present = Vec::new(alloc);
        for (cell, kept) in self.cells.iter() {
            if kept.content.is_some() {
                present.push(*cell)?;
            }
        }
        Ok(present)
    }

    /// Puts another brick's copy of a cell in, with its last change. The counters of the cell stay.
    ///
    /// # Errors
    /// Out of memory, with nothing changed.
    pub(crate) fn replace(
        &mut self,
        cell: &Cell,
        content: Content,
        last: u64,
    ) -> Result<(), AllocError>
        ensures ok { OnOk result (self.new ≡ replaced self.old cell.now content last) }
        ensures err { OnErr result (self.new ≡ self.old) }
    {
        match self.cells.get_mut(cell) {
            Some(kept) => {
                kept.replace(content, last);
                Ok(())
            }
            None => {
                let mut kept = Kept::nothing();
                kept.replace(content, last);
                drop(self.cells.insert(*cell, kept)?);
                Ok(())
            }
        }
    }

    /// Takes one step on a cell, and gives the row before it, where there was one.
    ///
    /// # Errors
    /// Out of memory, with nothing changed.
    pub(crate) fn step(&mut self, cell: &Cell, step: Step) -> Result<Option<Row>, AllocError>
        ensures ok { OnOk result (self.new ≡ with_step self.old cell.now step) }
        ensures back { IfOk result (λ row. with_earlier self.new cell.now row ≡ self.old) }
        ensures counted { IfOk result (λ row. IfSome row IsCountedRow) }
        ensures err { OnErr result (self.new ≡ self.old) }
    {
        match self.cells.get_mut(cell) {
            Some(kept) => {
                let row = kept.row();
                kept.step(step);
                Ok(Some(row))
            }
            None => {
                let mut kept = Kept::nothing();
                kept.step(step);
                drop(self.cells.insert(*cell, kept)?);
                Ok(None)
            }
        }
    }

    /// Takes back the last step on a cell, by the row before it.
    pub(crate) fn take_back(&mut self, cell: &Cell, row: Option<Row>)
        requires { IfSome row IsCountedRow }
        ensures { self.new ≡ with_earlier self.old cell.now row }
    {
        match row {
            Some(row) => self.put_row_back(cell, row),
            None => self.forget(cell),
        }
    }

    fn put_row_back(&mut self, cell: &Cell, row: Row)
        requires { IsCountedRow row }
        ensures { self.new ≡ with_earlier self.old cell.now (Some row) }
    {
        match self.cells.get_mut(cell) {
            Some(kept) => kept.put_back(row),
            None => {}
        }
    }

    fn forget(&mut self, cell: &Cell)
        ensures { self.new ≡ with_earlier self.old cell.now None }
    {
        let kept = self.cells.remove(cell);
        drop(kept);
    }

    /// Edits the copy of a cell that is present.
    ///
    /// # Errors
    /// Out of memory, with nothing changed.
    pub(crate) fn edit(
        &mut self,
        alloc: Global,
        cell: &Cell,
        change: u64,
        by: Edit,
    ) -> Result<(), AllocError>
        requires present { is_some (contents_of self.old cell.now) ≡ true }
        requires fits { Fits by }
        ensures ok { OnOk result (self.new ≡ with_edit self.old cell.now by change) }
        ensures err { OnErr result (self.new ≡ self.old) }
        ensures sure { is_sure by ≡ true → IsOk result }
    {
        match self.cells.get_mut(cell) {
            Some(kept) => kept.edit(alloc, change, by),
            None => unreachable!(),
        }
    }
}
