ghost use Rattle.std.specs.Prelude.{◌≡◌, ◌≤◌, ◌<◌, ◌^◌, ◌++◌, length, OnOk};
ghost use Rattle.fop_types.specs.Rank.{rank};
ghost use Rattle.wire_xdr.specs.Xdr.{unit, hyper, flag, padding, opaque, list};
ghost use Rattle.wire_xdr.specs.PartText.{gfid_text, cell_text, span_text, attr_text, kind_number, item_text, content_text};
ghost use Rattle.wire_xdr.specs.MessageText.{row_text};

use crate::limits::UNIT_RANGE;
use byteorder::{BigEndian, ByteOrder};
use fop_types::{Attr, Cell, Content, Gfid, Item, Kind, Row, Span};
use std::alloc::AllocError;

/// Puts a unit at the end of a message, its highest byte first.
#[tactic(auto, unfolding(crate::specs::Xdr::unit))]
pub fn put_unit(out: &mut Vec<u8>, number: u32) -> Result<(), AllocError>
    ensures { OnOk result (out.new.items ≡ out.old.items ++ unit number) }
{
    let mut bytes = [0u8; 4];
    BigEndian::write_u32(&mut bytes, number);
    out.extend_from_slice(&bytes)?;
    Ok(())
}

/// Puts two units.
pub fn put_units(out: &mut Vec<u8>, first: u32, second: u32) -> Result<(), AllocError>
    ensures { OnOk result (out.new.items ≡ out.old.items ++ (unit first ++ unit second)) }
{
    put_unit(out, first)?;
    put_unit(out, second)?;
    Ok(())
}

/// Puts a hyper, its high unit first.
pub fn put_hyper(out: &mut Vec<u8>, number: u64) -> Result<(), AllocError>
    ensures { OnOk result (out.new.items ≡ out.old.items ++ hyper number) }
{
    put_unit(out, (number / UNIT_RANGE) as u32)?;
    put_unit(out, (number % UNIT_RANGE) as u32)?;
    Ok(())
}

/// Puts a flag as 0 or 1.
pub fn put_flag(out: &mut Vec<u8>, given: bool) -> Result<(), AllocError>
    ensures { OnOk result (out.new.items ≡ out.old.items ++ flag given) }
{
    if given {
        put_unit(out, 1)?;
        Ok(())
    } else {
        put_unit(out, 0)?;
        Ok(())
    }
}

/// Puts the zero bytes after an opaque of this many bytes.
#[tactic(auto, using(crate::proofs::Writing::padding_is))]
fn put_padding(out: &mut Vec<u8>, size: usize) -> Result<(), AllocError>
    ensures { OnOk result (out.new.items ≡ out.old.items ++ padding size) }
{
    let zeros = [0u8; 3];
    out.extend_from_slice(&zeros[..(4 - size % 4) % 4])?;
    Ok(())
}

/// Puts a length or count. One that is no unit has no encoding; its low unit is put.
#[tactic(auto, using(crate::proofs::Writing::low_unit))]
fn put_size(out: &mut Vec<u8>, size: usize) -> Result<(), AllocError>
    ensures { OnOk result (out.new.items ≡ out.old.items ++ unit size) }
{
    put_unit(out, (size % UNIT_RANGE as usize) as u32)?;
    Ok(())
}

/// Puts an opaque: its length, its bytes and its padding.
#[tactic(auto, using(crate::proofs::Writing::joined))]
pub fn put_opaque(out: &mut Vec<u8>, bytes: &[u8]) -> Result<(), AllocError>
    ensures { OnOk result (out.new.items ≡ out.old.items ++ opaque bytes.now) }
{
    put_size(out, bytes.len())?;
    out.extend_from_slice(bytes)?;
    put_padding(out, bytes.len())?;
    Ok(())
}

/// Puts a gfid, its high half first.
pub fn put_gfid(out: &mut Vec<u8>, gfid: Gfid) -> Result<(), AllocError>
    ensures { OnOk result (out.new.items ≡ out.old.items ++ gfid_text gfid) }
{
    put_hyper(out, gfid.hi)?;
    put_hyper(out, gfid.lo)?;
    Ok(())
}

/// Puts a cell.
pub fn put_cell(out: &mut Vec<u8>, cell: Cell) -> Result<(), AllocError>
    ensures { OnOk result (out.new.items ≡ out.old.items ++ cell_text cell) }
{
    put_gfid(out, cell.gfid)?;
    put_unit(out, cell.aspect.rank() as u32)?;
    Ok(())
}

/// Puts a list of cells.
pub fn put_cells(out: &mut Vec<u8>, cells: &[Cell]) -> Result<(), AllocError>
    ensures { OnOk result (out.new.items ≡ out.old.items ++ list cell_text cells.now) }
{
    put_size(out, cells.len())?;
    for cell in cells {
        put_cell(out, *cell)?;
    }
    Ok(())
}

/// Puts a range of hashes, where there is one, after a flag.
pub fn put_span(out: &mut Vec<u8>, span: Option<Span>) -> Result<(), AllocError>
    ensures { OnOk result (out.new.items ≡ out.old.items ++ span_text span) }
{
    match span {
        None => {
            put_unit(out, 0)?;
            Ok(())
        }
        Some(span) => {
            put_unit(out, 1)?;
            put_unit(out, span.first)?;
            put_unit(out, span.last)?;
            Ok(())
        }
    }
}

/// Puts an attribute.
pub fn put_attr(out: &mut Vec<u8>, attr: &Attr) -> Result<(), AllocError>
    ensures { OnOk result (out.new.items ≡ out.old.items ++ attr_text attr.now) }
{
    put_opaque(out, attr.name.as_slice())?;
    put_opaque(out, attr.value.as_slice())?;
    Ok(())
}

fn kind_number(kind: Kind) -> u32
    ensures { result ≡ kind_number kind }
{
    match kind {
        Kind::File => 0,
        Kind::Dir => 1,
        Kind::Link => 2,
    }
}

/// Puts an item.
pub fn put_item(out: &mut Vec<u8>, item: &Item) -> Result<(), AllocError>
    ensures { OnOk result (out.new.items ≡ out.old.items ++ item_text item.now) }
{
    put_opaque(out, item.name.as_slice())?;
    put_gfid(out, item.gfid)?;
    put_unit(out, kind_number(item.kind))?;
    put_opaque(out, item.target.as_slice())?;
    Ok(())
}

/// Puts a list of attributes.
fn put_attrs(out: &mut Vec<u8>, attrs: &[Attr]) -> Result<(), AllocError>
    ensures { OnOk result (out.new.items ≡ out.old.items ++ list attr_text attrs.now) }
{
    put_size(out, attrs.len())?;
    for attr in attrs {
        put_attr(out, attr)?;
    }
    Ok(())
}

/// Puts a list of items.
fn put_items(out: &mut Vec<u8>, items: &[Item]) -> Result<(), AllocError>
    ensures { OnOk result (out.new.items ≡ out.old.items ++ list item_text items.now) }
{
    put_size(out, items.len())?;
    for item in items {
        put_item(out, item)?;
    }
    Ok(())
}

/// Puts a content after its kind: 0 bytes, 1 metadata, 2 names.
pub fn put_content(out: &mut Vec<u8>, content: &Content) -> Result<(), AllocError>
    ensures { OnOk result (out.new.items ≡ out.old.items ++ content_text content.now) }
{
    match content {
        Content::Bytes(bytes) => {
            put_unit(out, 0)?;
            put_opaque(out, bytes.as_slice())?;
            Ok(())
        }
        Content::Meta { mode, attrs, span } => {
            put_unit(out, 1)?;
            put_unit(out, *mode as u32)?;
            put_attrs(out, attrs.as_slice())?;
            put_span(out, *span)?;
            Ok(())
        }
        Content::Names { removed, items } => {
            put_unit(out, 2)?;
            put_flag(out, *removed)?;
            put_items(out, items.as_slice())?;
            Ok(())
        }
    }
}

/// Puts a row: its flag, its six counters and its last change.
fn put_row(out: &mut Vec<u8>, row: &Row) -> Result<(), AllocError>
    ensures { OnOk result (out.new.items ≡ out.old.items ++ row_text row.now) }
{
    put_flag(out, row.present)?;
    put_unit(out, row.dirty)?;
    for counter in &row.pending {
        put_unit(out, *counter)?;
    }
    put_hyper(out, row.last)?;
    Ok(())
}

/// Puts a list of rows.
pub fn put_rows(out: &mut Vec<u8>, rows: &[Row]) -> Result<(), AllocError>
    ensures { OnOk result (out.new.items ≡ out.old.items ++ list row_text rows.now) }
{
    put_size(out, rows.len())?;
    for row in rows {
        put_row(out, row)?;
    }
    Ok(())
}
