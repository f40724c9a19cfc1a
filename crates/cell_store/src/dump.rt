//! What a brick shows of its cells as text, for people and for tests.
ghost use Rattle.std.specs.Prelude.{◌≡◌, ◌++◌, None, OnOk, IfOk};
ghost use Rattle.cell_store.specs.Cells.{contents_of};
ghost use Rattle.cell_store.specs.Dump.{content_lines, object_lines, is_shown as is_shown_last, dumped};

use crate::cell_map::CellMap;
use crate::lookups::{data_cell, meta_cell, names_cell};
use crate::text::Text;
use fop_types::{Cell, Gfid, Seq};
use std::alloc::{AllocError, Global};

fn is_shown(last: Option<Gfid>, gfid: Gfid) -> bool
    ensures { result ≡ is_shown_last last gfid }
{
    match last {
        Some(last) => last.hi == gfid.hi && last.lo == gfid.lo,
        None => false,
    }
}

impl CellMap {
    fn put_content(&self, text: &mut Text, gfid: Gfid, cell: &Cell) -> Result<(), AllocError>
        ensures { OnOk result (text.new ≡ text.old ++ content_lines gfid (contents_of self.now cell.now)) }
    {
        match self.content(cell) {
            Some(content) => text.content(gfid, content),
            None => Ok(()),
        }
    }

    #[tactic(auto, unfolding(crate::specs::Dump::object_lines))]
    fn put_object(&self, text: &mut Text, names: &[Seq<u8>], gfid: Gfid) -> Result<(), AllocError>
        ensures { OnOk result (text.new ≡ text.old ++ object_lines names.now self.now gfid) }
    {
        let of_data = self.row(&data_cell(gfid));
        let of_meta = self.row(&meta_cell(gfid));
        let of_names = self.row(&names_cell(gfid));
        text.rows(names, gfid, &of_data, &of_meta, &of_names)?;
        self.put_content(text, gfid, &meta_cell(gfid))?;
        self.put_content(text, gfid, &names_cell(gfid))
    }

    fn put_objects(&self, text: &mut Text, names: &[Seq<u8>]) -> Result<(), AllocError>
        ensures { OnOk result (text.new ≡ text.old ++ dumped names.now self.now) }
    {
        let mut last: Option<Gfid> = None;
        for (cell, _) in self.cells.iter() {
            if !is_shown(last, cell.gfid) {
                self.put_object(text, names, cell.gfid)?;
                last = Some(cell.gfid);
            }
        }
        Ok(())
    }

    /// The text of `Store::dump`, by the names of the replicas in their order.
    ///
    /// # Errors
    /// Out of memory.
    pub(crate) fn dump(&self, alloc: Global, names: &[Seq<u8>]) -> Result<Vec<u8>, AllocError>
        ensures { IfOk result (λ text. text.items ≡ dumped names.now self.now) }
    {
        let mut text = Text::new(alloc);
        self.put_objects(&mut text, names)?;
        Ok(text.into_bytes())
    }
}
