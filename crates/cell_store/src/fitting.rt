//! When an op fits: the cells that it needs are present, and nothing else speaks against it.
ghost use Rattle.std.specs.Prelude.{◌≡◌, ◌+◌, ◌&&◌, ◌||◌, ◌∷◌, [], not, nat_lt, length};
ghost use Rattle.std.specs.Option.{option_copied};
ghost use Rattle.fop_types.specs.FileBytes.{file_limit};
ghost use Rattle.fop_types.specs.StoreOps.{fits as fits_in, are_present, item_in, is_removed as is_removed_copy, is_taken as is_name_taken, is_that_directory, is_directory_item};
ghost use Rattle.fop_types.specs.Names.{is_directory as is_directory_of_kind, is_same_name as is_one_name};
ghost use Rattle.fop_types.specs.Cells.{data_cell as data_of, names_cell as names_of};
ghost use Rattle.cell_store.specs.Cells.{contents_of};

use crate::cell_map::CellMap;
use crate::lookups::{data_cell, is_real, meta_cell, names_cell};
use fop_types::{Gfid, Item, Kind, Seq, StoreOp};

const FILE_LIMIT: usize = 65536;

fn ends_within(offset: u32, bytes: &[u8]) -> bool
    ensures { result ≡ not (nat_lt file_limit (offset + length bytes.now)) }
{
    bytes.len() <= FILE_LIMIT && offset as usize + bytes.len() <= FILE_LIMIT
}

fn is_directory_kind(kind: Kind) -> bool
    ensures { result ≡ is_directory_of_kind kind }
{
    match kind {
        Kind::File => false,
        Kind::Dir => true,
        Kind::Link => false,
    }
}

fn is_taken(item: Option<&Item>) -> bool
    ensures { result ≡ is_name_taken (option_copied item.entry) }
{
    match item {
        None => false,
        Some(item) => is_real(item.kind),
    }
}

fn is_directory(item: Option<&Item>) -> bool
    ensures { result ≡ is_directory_item (option_copied item.entry) }
{
    match item {
        None => false,
        Some(item) => is_directory_kind(item.kind),
    }
}

fn is_directory_of(item: Option<&Item>, gfid: Gfid) -> bool
    ensures { result ≡ is_that_directory (option_copied item.entry) gfid }
{
    match item {
        None => false,
        Some(item) => is_directory_kind(item.kind) && item.gfid.cmp(&gfid).is_eq(),
    }
}

fn is_same_name(parent: Gfid, name: &[u8], target: Gfid, new_name: &[u8]) -> bool
    ensures { result ≡ is_one_name parent name.now target new_name.now }
{
    parent.cmp(&target).is_eq() && name == new_name
}

impl CellMap {
    fn fits_write(&self, gfid: Gfid, offset: u32, bytes: &[u8]) -> bool
        ensures { result ≡ are_present (contents_of self.now) (data_of gfid ∷ []) && not (nat_lt file_limit (offset + length bytes.now)) }
    {
        if !self.holds(data_cell(gfid)) {
            return false;
        }
        ends_within(offset, bytes)
    }

    fn fits_truncate(&self, gfid: Gfid, size: u32) -> bool
        ensures { result ≡ fits_in (contents_of self.now) (StoreOp.Truncate gfid size) }
    {
        if !self.holds(data_cell(gfid)) {
            return false;
        }
        size <= FILE_LIMIT as u32
    }

    fn fits_del_attr(&self, gfid: Gfid, name: &Seq<u8>) -> bool
        ensures { result ≡ fits_in (contents_of self.now) (StoreOp.DelAttr gfid name.now) }
    {
        if !self.holds(meta_cell(gfid)) {
            return false;
        }
        self.has_attr(gfid, name.as_slice())
    }

    fn takes_name(&self, parent: Gfid, item: &Item) -> bool
        ensures { result ≡ are_present (contents_of self.now) (names_of parent ∷ []) && not (is_removed_copy (contents_of self.now (names_of parent)) || is_name_taken (item_in (contents_of self.now) parent item.now.name)) }
    {
        if !self.holds(names_cell(parent)) {
            return false;
        }
        if self.is_removed(parent) {
            return false;
        }
        !is_taken(self.item(parent, item.name.as_slice()))
    }

    fn has_name(&self, parent: Gfid, name: &Seq<u8>) -> bool
        ensures { result ≡ fits_in (contents_of self.now) (StoreOp.DropName parent name.now) }
    {
        if !self.holds(names_cell(parent)) {
            return false;
        }
        self.item(parent, name.as_slice()).is_some()
    }

    fn fits_drop_dir(&self, parent: Gfid, name: &Seq<u8>, gfid: Gfid) -> bool
        ensures { result ≡ fits_in (contents_of self.now) (StoreOp.DropDir parent name.now gfid) }
    {
        if !self.holds_both(parent, gfid) {
            return false;
        }
        if !is_directory_of(self.item(parent, name.as_slice()), gfid) {
            return false;
        }
        !self.has_real_name(gfid)
    }

    fn fits_move(&self, parent: Gfid, name: &Seq<u8>, target: Gfid, new_name: &Seq<u8>) -> bool
        ensures { result ≡ fits_in (contents_of self.now) (StoreOp.Move parent name.now target new_name.now) }
    {
        if !self.holds_both(parent, target) {
            return false;
        }
        if self.item(parent, name.as_slice()).is_none() {
            return false;
        }
        if self.is_removed(target) {
            return false;
        }
        if is_directory(self.item(target, new_name.as_slice())) {
            return false;
        }
        !is_same_name(parent, name.as_slice(), target, new_name.as_slice())
    }

    /// Whether an op fits: the cells that it needs are present, and nothing else speaks against it. It costs a
    /// search for each of the cells, and of their names.
    pub(crate) fn fits(&self, op: &StoreOp) -> bool
        ensures { result ≡ fits_in (contents_of self.now) op.now }
    {
        match op {
            StoreOp::Write {
                gfid,
                offset,
                bytes,
            } => self.fits_write(*gfid, *offset, bytes.as_slice()),
            StoreOp::Truncate { gfid, size } => self.fits_truncate(*gfid, *size),
            StoreOp::SetMode { gfid, .. } => self.holds(meta_cell(*gfid)),
            StoreOp::SetAttr { gfid, .. } => self.holds(meta_cell(*gfid)),
            StoreOp::DelAttr { gfid, name } => self.fits_del_attr(*gfid, name),
            StoreOp::AddName { parent, item, .. } => self.takes_name(*parent, item),
            StoreOp::DropName { parent, name } => self.has_name(*parent, name),
            StoreOp::DropDir { parent, name, gfid } => self.fits_drop_dir(*parent, name, *gfid),
            StoreOp::Move {
                parent,
                name,
                target,
                new_name,
            } => self.fits_move(*parent, name, *target, new_name),
            StoreOp::MakeCopy { .. } => true,
        }
    }
}
