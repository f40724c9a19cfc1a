//! The cells of an object; gfids and kinds.
ghost use Rattle.std.specs.Prelude.{◌≡◌, true};
ghost use Rattle.fop_types.specs.Cells.{data_cell as data_of, meta_cell as meta_of, names_cell as names_of};

use fop_types::{Aspect, Cell, Gfid, Kind};

pub(crate) fn data_cell(gfid: Gfid) -> Cell
    ensures { result ≡ data_of gfid }
{
    Cell {
        gfid,
        aspect: Aspect::Data,
    }
}

pub(crate) fn meta_cell(gfid: Gfid) -> Cell
    ensures { result ≡ meta_of gfid }
{
    Cell {
        gfid,
        aspect: Aspect::Meta,
    }
}

pub(crate) fn names_cell(gfid: Gfid) -> Cell
    ensures { result ≡ names_of gfid }
{
    Cell {
        gfid,
        aspect: Aspect::Entry,
    }
}

pub(crate) fn is_gfid(gfid: Gfid, other: Gfid) -> bool
    ensures { result ≡ true → gfid ≡ other }
{
    gfid == other
}

pub(crate) fn is_kind(kind: Kind, other: Kind) -> bool
    ensures { result ≡ true → kind ≡ other }
{
    kind == other
}
