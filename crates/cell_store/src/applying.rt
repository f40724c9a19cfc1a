//! Ops: where one fits, its edits and births are made.
ghost use Rattle.std.specs.Prelude.{◌≡◌, true, false, [], ◌∷◌, Some, None, is_some, MatchBool, IfOk, OnOk, OnErr};
ghost use Rattle.fop_types.specs.Cells.{names_cell as names_of};
ghost use Rattle.std.specs.Ordering.{is_eq};
ghost use Rattle.fop_types.specs.Orders.{gfid_cmp};
ghost use Rattle.fop_types.specs.StoreOps.{fits as fits_in};
ghost use Rattle.fop_types.specs.StoreOps.Edit.{DropItem, PutItem};
ghost use Rattle.contents.specs.Edits.{Fits, is_sure};
ghost use Rattle.cell_store.specs.Cells.{contents_of, with_edits, with_op, applied};
ghost use Rattle.cell_store.specs.code.Steps.{with_edit};

use crate::cell_map::CellMap;
use crate::lookups::{data_cell, meta_cell, names_cell};
use contents::Edit;
use fop_types::{Cell, Gfid, Item, Seq, StoreOp};
use std::alloc::{AllocError, Global};

impl CellMap {
    // An edit that needs no memory.
    fn edit_surely(&mut self, alloc: Global, cell: &Cell, change: u64, by: Edit)
        requires present { is_some (contents_of self.old cell.now) ≡ true }
        requires fits { Fits by }
        requires sure { is_sure by ≡ true }
        ensures { self.new ≡ with_edit self.old cell.now by change }
    {
        let Ok(()) = self.edit(alloc, cell, change, by) else {
            unreachable!()
        };
    }

    // Drops a directory's name and marks the directory as removed.
    fn drop_dir(&mut self, alloc: Global, change: u64, parent: Gfid, name: Seq<u8>, gfid: Gfid)
        requires { fits_in (contents_of self.old) (StoreOp.DropDir parent name gfid) ≡ true }
        ensures { self.new ≡ with_op self.old change (StoreOp.DropDir parent name gfid) }
    {
        self.edit_surely(alloc, &names_cell(parent), change, Edit::DropItem(name));
        self.edit_surely(alloc, &names_cell(gfid), change, Edit::MarkRemoved);
    }

    // Puts an item among the names of one directory, and drops a name of another.
    fn move_between(
        &mut self,
        alloc: Global,
        change: u64,
        parent: Gfid,
        name: Seq<u8>,
        target: Gfid,
        item: Item,
    ) -> Result<(), AllocError>
        requires apart { is_eq (gfid_cmp parent target) ≡ false }
        requires from { is_some (contents_of self.old (names_of parent)) ≡ true }
        requires to { is_some (contents_of self.old (names_of target)) ≡ true }
        ensures ok { OnOk result (self.new ≡ with_edits self.old change ((names_of parent, DropItem name) ∷ (names_of target, PutItem item) ∷ [])) }
        ensures err { OnErr result (self.new ≡ self.old) }
    {
        self.edit(alloc, &names_cell(target), change, Edit::PutItem(item))?;
        self.edit_surely(alloc, &names_cell(parent), change, Edit::DropItem(name));
        Ok(())
    }

    // Moves a name to another, in the same directory or in another one.
    fn move_name(
        &mut self,
        alloc: Global,
        change: u64,
        parent: Gfid,
        name: Seq<u8>,
        target: Gfid,
        new_name: Seq<u8>,
    ) -> Result<(), AllocError>
        requires { fits_in (contents_of self.old) (StoreOp.Move parent name target new_name) ≡ true }
        ensures ok { OnOk result (self.new ≡ with_op self.old change (StoreOp.Move parent name target new_name)) }
        ensures err { OnErr result (self.new ≡ self.old) }
    {
        let Some(found) = self.item(parent, name.as_slice()) else {
            unreachable!()
        };
        let item = Item {
            name: new_name,
            gfid: found.gfid,
            kind: found.kind,
            target: found.target.copy(alloc)?,
        };
        if parent.cmp(&target).is_eq() {
            let rename = Edit::Rename { name, item };
            return self.edit(alloc, &names_cell(parent), change, rename);
        }
        self.move_between(alloc, change, parent, name, target, item)
    }

    // Makes the edits and births of an op that fits.
    #[tactic(auto, using(crate::proofs::Looks::first_present, crate::proofs::Looks::write_ends, crate::proofs::Looks::size_ends))]
    fn make(&mut self, alloc: Global, change: u64, op: StoreOp) -> Result<(), AllocError>
        requires { fits_in (contents_of self.old) op ≡ true }
        ensures ok { OnOk result (self.new ≡ with_op self.old change op) }
        ensures err { OnErr result (self.new ≡ self.old) }
    {
        match op {
            StoreOp::Write {
                gfid,
                offset,
                bytes,
            } => self.edit(
                alloc,
                &data_cell(gfid),
                change,
                Edit::Write { offset, bytes },
            ),
            StoreOp::Truncate { gfid, size } => {
                self.edit(alloc, &data_cell(gfid), change, Edit::Resize(size))
            }
            StoreOp::SetMode { gfid, mode } => {
                self.edit(alloc, &meta_cell(gfid), change, Edit::SetMode(mode))
            }
            StoreOp::SetAttr { gfid, attr } => {
                self.edit(alloc, &meta_cell(gfid), change, Edit::PutAttr(attr))
            }
            StoreOp::DelAttr { gfid, name } => {
                self.edit(alloc, &meta_cell(gfid), change, Edit::DropAttr(name))
            }
            StoreOp::AddName {
                parent,
                item,
                mode,
                span,
            } => self.add_name(alloc, change, parent, item, mode, span),
            StoreOp::DropName { parent, name } => {
                self.edit(alloc, &names_cell(parent), change, Edit::DropItem(name))
            }
            StoreOp::DropDir { parent, name, gfid } => {
                self.drop_dir(alloc, change, parent, name, gfid);
                Ok(())
            }
            StoreOp::Move {
                parent,
                name,
                target,
                new_name,
            } => self.move_name(alloc, change, parent, name, target, new_name),
            StoreOp::MakeCopy { gfid, span } => self.make_copy(alloc, change, gfid, span),
        }
    }

    /// Applies an op under a change number, and takes its bytes and names into the store: true where it fits,
    /// and false, with nothing changed, exactly where it does not. It costs a search for each cell that the op
    /// alters or bears, a search among the names or attributes of these, and one move of what comes after.
    ///
    /// # Errors
    /// Out of memory, with nothing changed.
    pub(crate) fn take(
        &mut self,
        alloc: Global,
        change: u64,
        op: StoreOp,
    ) -> Result<bool, AllocError>
        ensures fits { IfOk result (λ fits. MatchBool fits (applied self.old change op ≡ Some self.new) ((applied self.old change op ≡ None) × (self.new ≡ self.old))) }
        ensures err { OnErr result (self.new ≡ self.old) }
    {
        if !self.fits(&op) {
            drop(op);
            return Ok(false);
        }
        self.make(alloc, change, op)?;
        Ok(true)
    }

    /// Applies an op under a change number, as `take` does, from a copy of its bytes and names.
    ///
    /// # Errors
    /// Out of memory, with nothing changed.
    pub(crate) fn apply(
        &mut self,
        alloc: Global,
        change: u64,
        op: &StoreOp,
    ) -> Result<bool, AllocError>
        ensures fits { IfOk result (λ fits. MatchBool fits (applied self.old change op.now ≡ Some self.new) ((applied self.old change op.now ≡ None) × (self.new ≡ self.old))) }
        ensures err { OnErr result (self.new ≡ self.old) }
    {
        if !self.fits(op) {
            return Ok(false);
        }
        let copy = op.copy(alloc)?;
        self.make(alloc, change, copy)?;
        Ok(true)
    }
}
