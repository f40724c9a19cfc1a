//! What an op looks at before it is applied.
ghost use Rattle.std.specs.Prelude.{◌≡◌, not, is_some};
ghost use Rattle.std.specs.Option.{option_copied};
ghost use Rattle.fop_types.specs.Cells.{data_cell as data_of, meta_cell as meta_of, names_cell as names_of};
ghost use Rattle.fop_types.specs.Names.{attr_named, is_link, has_real_name as holds_real_name};
ghost use Rattle.fop_types.specs.StoreOps.{holds, item_in, items_of, attrs_of, is_removed as is_removed_copy, are_present, both_names};
ghost use Rattle.cell_store.specs.Cells.{contents_of};

use crate::cell_map::CellMap;
use fop_types::{Aspect, Cell, Content, Gfid, Item, Kind};

/// The cell of a file's bytes.
pub(crate) fn data_cell(gfid: Gfid) -> Cell
    ensures { result ≡ data_of gfid }
{
    Cell {
        gfid,
        aspect: Aspect::Data,
    }
}

/// The cell of an object's metadata.
pub(crate) fn meta_cell(gfid: Gfid) -> Cell
    ensures { result ≡ meta_of gfid }
{
    Cell {
        gfid,
        aspect: Aspect::Meta,
    }
}

/// The cell of a directory's names.
pub(crate) fn names_cell(gfid: Gfid) -> Cell
    ensures { result ≡ names_of gfid }
{
    Cell {
        gfid,
        aspect: Aspect::Entry,
    }
}

fn items_in(content: Option<&Content>) -> &[Item]
    ensures { result.now ≡ items_of (option_copied content.entry) }
{
    match content {
        Some(Content::Names { items, .. }) => items.as_slice(),
        _ => &[],
    }
}

fn is_of(aspect: Aspect, content: Option<&Content>) -> bool
    ensures { result ≡ holds aspect (option_copied content.entry) }
{
    match content {
        None => false,
        Some(Content::Bytes(_)) => aspect.rank() == 0,
        Some(Content::Meta { .. }) => aspect.rank() == 1,
        Some(Content::Names { .. }) => aspect.rank() == 2,
    }
}

/// Whether a name of this kind is one of the file system; a link only points to a set.
pub(crate) fn is_real(kind: Kind) -> bool
    ensures { result ≡ not (is_link kind) }
{
    match kind {
        Kind::File => true,
        Kind::Dir => true,
        Kind::Link => false,
    }
}

fn has_real_name(items: &[Item]) -> bool
    ensures { result ≡ holds_real_name items.now }
{
    for item in items {
        if is_real(item.kind) {
            return true;
        }
    }
    false
}

impl CellMap {
    /// Whether a cell is present, with a content of its aspect.
    pub(crate) fn holds(&self, cell: Cell) -> bool
        ensures { result ≡ holds cell.aspect (contents_of self.now cell) }
    {
        is_of(cell.aspect, self.content(&cell))
    }

    /// Whether the names of two directories are present.
    #[tactic(auto, using(crate::proofs::Looks::both_are_present))]
    pub(crate) fn holds_both(&self, a: Gfid, b: Gfid) -> bool
        ensures { result ≡ are_present (contents_of self.now) (both_names a b) }
    {
        if self.holds(names_cell(a)) {
            self.holds(names_cell(b))
        } else {
            false
        }
    }

    /// The item of a name in a directory.
    pub(crate) fn item(&self, parent: Gfid, name: &[u8]) -> Option<&Item>
        ensures { option_copied result ≡ item_in (contents_of self.now) parent name.now }
    {
        match self.ordered(&names_cell(parent)) {
            Some(content) => content.item(name),
            None => None,
        }
    }

    /// Whether a directory is marked as removed.
    pub(crate) fn is_removed(&self, gfid: Gfid) -> bool
        ensures { result ≡ is_removed_copy (contents_of self.now (names_of gfid)) }
    {
        match self.content(&names_cell(gfid)) {
            Some(Content::Names { removed, .. }) => *removed,
            _ => false,
        }
    }

    /// Whether an item that is no link stands in a directory.
    pub(crate) fn has_real_name(&self, gfid: Gfid) -> bool
        ensures { result ≡ holds_real_name (items_of (contents_of self.now (names_of gfid))) }
    {
        has_real_name(items_in(self.content(&names_cell(gfid))))
    }

    /// Whether an object has an attribute of a name.
    pub(crate) fn has_attr(&self, gfid: Gfid, name: &[u8]) -> bool
        ensures { result ≡ is_some (attr_named (attrs_of (contents_of self.now (meta_of gfid))) name.now) }
    {
        match self.ordered(&meta_cell(gfid)) {
            Some(content) => content.attr(name).is_some(),
            None => false,
        }
    }
}
