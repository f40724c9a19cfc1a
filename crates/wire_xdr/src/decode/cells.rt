ghost use Rattle.std.specs.Prelude.{◌≡◌, ◌≤◌, ◌<◌, ◌^◌, ◌++◌, Option, Some, None};
ghost use Rattle.std.specs.Option.{option_copied};
ghost use Rattle.wire_xdr.specs.code.Parsers.{Gives, items_at};
ghost use Rattle.wire_xdr.specs.code.Loops.{last_of};
ghost use Rattle.wire_xdr.specs.code.PartParsers.{gfid_at, aspect_of, lo_between, least_rank, most_rank, cell_between, last_but, next_gfid, after_aspect, least_after, cell_at, rising_cell, cells_at};

use crate::decode::faults::Fault;
use crate::decode::units::{hyper, hyper_between, unit_between};
use crate::limits::MAX_HYPER;
use fop_types::{Aspect, Cell, Gfid, Seq};
use std::alloc::Global;

/// A gfid, its high half first.
pub fn gfid(bytes: &[u8]) -> Result<(Gfid, &[u8]), Fault>
    ensures { Gives (λ x. (x.0, x.1.now)) result (gfid_at bytes.now) }
{
    let (hi, rest) = hyper(bytes)?;
    let (lo, rest) = hyper(rest)?;
    Ok((Gfid { hi, lo }, rest))
}

fn aspect_of(number: u32) -> Aspect
    ensures { result ≡ aspect_of number }
{
    match number {
        0 => Aspect::Data,
        1 => Aspect::Meta,
        _ => Aspect::Entry,
    }
}

/// The low half of a gfid between two gfids, after its high half.
fn lo_between(bytes: &[u8], low: Gfid, high: Gfid, hi: u64) -> Result<(u64, &[u8]), Fault>
    ensures { Gives (λ x. (x.0, x.1.now)) result (lo_between low high hi bytes.now) }
{
    let least = if hi == low.hi { low.lo } else { 0 };
    let most = if hi == high.hi { high.lo } else { MAX_HYPER };
    hyper_between(bytes, least, most)
}

/// The least rank of the aspect of a cell from this one on, after its gfid.
fn least_rank(low: Cell, gfid: Gfid) -> u32
    ensures { result ≡ least_rank low gfid }
{
    if gfid.hi == low.gfid.hi && gfid.lo == low.gfid.lo {
        low.aspect.rank() as u32
    } else {
        0
    }
}

/// The greatest rank of the aspect of a cell up to this one, after its gfid.
fn most_rank(high: Cell, gfid: Gfid) -> u32
    ensures { result ≡ most_rank high gfid }
{
    if gfid.hi == high.gfid.hi && gfid.lo == high.gfid.lo {
        high.aspect.rank() as u32
    } else {
        2
    }
}

/// A cell between two cells.
fn cell_between(bytes: &[u8], low: Cell, high: Cell) -> Result<(Cell, &[u8]), Fault>
    ensures { Gives (λ x. (x.0, x.1.now)) result (cell_between low high bytes.now) }
{
    let (hi, rest) = hyper_between(bytes, low.gfid.hi, high.gfid.hi)?;
    let (lo, rest) = lo_between(rest, low.gfid, high.gfid, hi)?;
    let gfid = Gfid { hi, lo };
    let (number, rest) = unit_between(rest, least_rank(low, gfid), most_rank(high, gfid))?;
    let aspect = aspect_of(number);
    Ok((Cell { gfid, aspect }, rest))
}

/// The cell that this many cells follow.
fn last_but(count: u32) -> Cell
    ensures { result ≡ last_but count }
{
    let gfid = Gfid {
        hi: MAX_HYPER,
        lo: MAX_HYPER - count as u64 / 3,
    };
    Cell {
        gfid,
        aspect: aspect_of(2 - count % 3),
    }
}

fn next_gfid(gfid: Gfid) -> Gfid
    ensures { result ≡ next_gfid gfid }
{
    if gfid.lo == MAX_HYPER {
        if gfid.hi == MAX_HYPER {
            return gfid;
        }
        return Gfid {
            hi: gfid.hi + 1,
            lo: 0,
        };
    }
    Gfid {
        hi: gfid.hi,
        lo: gfid.lo + 1,
    }
}

/// The least cell after one.
fn after_aspect(gfid: Gfid, aspect: Aspect) -> Cell
    ensures { result ≡ after_aspect gfid aspect }
{
    match aspect {
        Aspect::Data => Cell {
            gfid,
            aspect: Aspect::Meta,
        },
        Aspect::Meta => Cell {
            gfid,
            aspect: Aspect::Entry,
        },
        Aspect::Entry => Cell {
            gfid: next_gfid(gfid),
            aspect: Aspect::Data,
        },
    }
}

/// The least cell that may follow.
fn least_after(earlier: Option<&Cell>) -> Cell
    ensures { result ≡ least_after (option_copied earlier.entry) }
{
    match earlier {
        None => Cell {
            gfid: Gfid { hi: 0, lo: 0 },
            aspect: Aspect::Data,
        },
        Some(cell) => after_aspect(cell.gfid, cell.aspect),
    }
}

/// A cell.
pub fn cell(bytes: &[u8]) -> Result<(Cell, &[u8]), Fault>
    ensures { Gives (λ x. (x.0, x.1.now)) result (cell_at bytes.now) }
{
    let (cell, rest) = cell_between(bytes, least_after(None), last_but(0))?;
    Ok((cell, rest))
}

/// The cell after those of a list, of which `left` follow it.
#[tactic(auto, using(crate::proofs::ListParsers::last_is))]
fn next_cell<'a>(bytes: &'a [u8], cells: &[Cell], left: u32) -> Result<(Cell, &'a [u8]), Fault>
    ensures { Gives (λ x. (x.0, x.1.now)) result (rising_cell (last_of cells.now) left bytes.now) }
{
    let earlier = cells.last();
    let (cell, rest) = cell_between(bytes, least_after(earlier), last_but(left))?;
    Ok((cell, rest))
}

/// A list of this many cells, which rise.
fn some_cells(alloc: Global, bytes: &[u8], count: u32) -> Result<(Seq<Cell>, &[u8]), Fault>
    ensures { Gives (λ x. (x.0, x.1.now)) result (items_at rising_cell None count bytes.now) }
{
    let mut cells = Vec::new(alloc);
    let mut rest = bytes;
    let mut left = count;
    while left > 0 {
        cells.reserve(1)?;
        match next_cell(rest, cells.as_slice(), left - 1) {
            Ok((cell, after)) => {
                cells.push_reserved(cell);
                rest = after;
                left -= 1;
            }
            Err(fault) => return Err(fault),
        }
    }
    Ok((Seq::from_vec(cells), rest))
}

/// A list of `least` to `most` cells, which rise.
///
/// # Errors
/// A fault of the bytes, or out of memory.
pub fn cells(
    alloc: Global,
    bytes: &[u8],
    least: u32,
    most: u32,
) -> Result<(Seq<Cell>, &[u8]), Fault>
    ensures { Gives (λ x. (x.0, x.1.now)) result (cells_at least most bytes.now) }
{
    let (count, rest) = unit_between(bytes, least, most)?;
    let (cells, rest) = some_cells(alloc, rest, count)?;
    Ok((cells, rest))
}
