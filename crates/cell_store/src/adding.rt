//! Ops that add an object: a name with the birth of the object's cells, or a directory's copy alone.
ghost use Rattle.std.specs.Prelude.{◌≡◌, true, false, [], ◌∷◌, is_some, IfOk, IfSome, OnOk, OnErr};
ghost use Rattle.fop_types.specs.Cells.{names_cell as names_of};
ghost use Rattle.fop_types.specs.StoreOps.{born as born_of};
ghost use Rattle.fop_types.specs.StoreOps.Edit.{PutItem};
ghost use Rattle.cell_store.specs.Cells.{contents_of, with_births, with_edits, IsCountedRow};
ghost use Rattle.cell_store.specs.code.Steps.{with_earlier};

use crate::cell_map::CellMap;
use crate::lookups::{data_cell, meta_cell, names_cell};
use crate::steps::Step;
use contents::Edit;
use fop_types::{Cell, Content, Data, Gfid, Item, Kind, Row, Seq, Span};
use std::alloc::{AllocError, Global};

impl CellMap {
    // Gives birth to two cells, and gives the rows before it.
    fn give_both(
        &mut self,
        change: u64,
        first: &Cell,
        a: Content,
        second: &Cell,
        b: Content,
    ) -> Result<(Option<Row>, Option<Row>), AllocError>
        ensures ok { OnOk result (self.new ≡ with_births self.old change ((first.now, a) ∷ (second.now, b) ∷ [])) }
        ensures back { IfOk result (λ rows. with_earlier (with_earlier self.new second.now rows.1) first.now rows.0 ≡ self.old) }
        ensures counted { IfOk result (λ rows. IfSome rows.0 IsCountedRow × IfSome rows.1 IsCountedRow) }
        ensures err { OnErr result (self.new ≡ self.old) }
    {
        match self.step(first, Step::Birth { content: a, change }) {
            Ok(earlier) => match self.step(second, Step::Birth { content: b, change }) {
                Ok(row) => Ok((earlier, row)),
                Err(error) => {
                    self.take_back(first, earlier);
                    Err(error)
                }
            },
            Err(error) => {
                drop(b);
                Err(error)
            }
        }
    }

    // Puts an item among a directory's names, with the birth of two cells.
    fn add_object(
        &mut self,
        alloc: Global,
        change: u64,
        parent: Gfid,
        item: Item,
        first: &Cell,
        a: Content,
        second: &Cell,
        b: Content,
    ) -> Result<(), AllocError>
        requires { is_some (contents_of self.old (names_of parent)) ≡ true }
        ensures ok { OnOk result (self.new ≡ with_births (with_edits self.old change ((names_of parent, PutItem item) ∷ [])) change ((first.now, a) ∷ (second.now, b) ∷ [])) }
        ensures err { OnErr result (self.new ≡ self.old) }
    {
        let rows = self.give_both(change, first, a, second, b)?;
        match self.edit(alloc, &names_cell(parent), change, Edit::PutItem(item)) {
            Ok(()) => Ok(()),
            Err(error) => {
                self.take_back(second, rows.1);
                self.take_back(first, rows.0);
                Err(error)
            }
        }
    }

    /// Puts an item among a directory's names, with the birth of its object's cells; a link has none.
    ///
    /// # Errors
    /// Out of memory, with nothing changed.
    pub(crate) fn add_name(
        &mut self,
        alloc: Global,
        change: u64,
        parent: Gfid,
        item: Item,
        mode: u16,
        span: Option<Span>,
    ) -> Result<(), AllocError>
        requires { is_some (contents_of self.old (names_of parent)) ≡ true }
        ensures ok { OnOk result (self.new ≡ with_births (with_edits self.old change ((names_of parent, PutItem item) ∷ [])) change (born_of item.kind item.gfid mode span)) }
        ensures err { OnErr result (self.new ≡ self.old) }
    {
        let gfid = item.gfid;
        match item.kind {
            Kind::File => {
                let bytes = Content::Bytes(Data::new(alloc));
                let data = data_cell(gfid);
                self.add_object(
                    alloc,
                    change,
                    parent,
                    item,
                    &data,
                    bytes,
                    &meta_cell(gfid),
                    new_meta(alloc, mode, span),
                )
            }
            Kind::Dir => {
                let names = no_names(alloc);
                let cell = names_cell(gfid);
                self.add_object(
                    alloc,
                    change,
                    parent,
                    item,
                    &meta_cell(gfid),
                    new_meta(alloc, mode, span),
                    &cell,
                    names,
                )
            }
            Kind::Link => self.edit(alloc, &names_cell(parent), change, Edit::PutItem(item)),
        }
    }

    /// Gives birth to a directory's two cells: mode 0, no attributes, and no names.
    ///
    /// # Errors
    /// Out of memory, with nothing changed.
    pub(crate) fn make_copy(
        &mut self,
        alloc: Global,
        change: u64,
        gfid: Gfid,
        span: Option<Span>,
    ) -> Result<(), AllocError>
        ensures ok { OnOk result (self.new ≡ with_births self.old change (born_of Kind.Dir gfid 0 span)) }
        ensures err { OnErr result (self.new ≡ self.old) }
    {
        let meta = new_meta(alloc, 0, span);
        let names = no_names(alloc);
        self.give_both(change, &meta_cell(gfid), meta, &names_cell(gfid), names)?;
        Ok(())
    }
}

// Metadata without attributes.
fn new_meta(alloc: Global, mode: u16, span: Option<Span>) -> Content
    ensures { result ≡ Content.Meta mode [] span }
{
    Content::Meta {
        mode,
        attrs: Seq::new(alloc),
        span,
    }
}

fn no_names(alloc: Global) -> Content
    ensures { result ≡ Content.Names false [] }
{
    Content::Names {
        removed: false,
        items: Seq::new(alloc),
    }
}
