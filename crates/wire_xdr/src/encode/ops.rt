ghost use Rattle.std.specs.Prelude.{◌≡◌, ◌++◌, OnOk};
ghost use Rattle.wire_xdr.specs.Xdr.{unit, opaque};
ghost use Rattle.wire_xdr.specs.PartText.{gfid_text, span_text, attr_text, item_text};
ghost use Rattle.wire_xdr.specs.MessageText.{op_text};

use crate::encode::parts::{put_attr, put_gfid, put_item, put_opaque, put_span, put_unit};
use fop_types::{Attr, Gfid, Item, Span, StoreOp};
use std::alloc::AllocError;

/// Puts the number of a store operation and its gfid.
fn put_head(out: &mut Vec<u8>, number: u32, gfid: Gfid) -> Result<(), AllocError>
    ensures { OnOk result (out.new.items ≡ out.old.items ++ (unit number ++ gfid_text gfid)) }
{
    put_unit(out, number)?;
    put_gfid(out, gfid)?;
    Ok(())
}

/// Puts the number of a store operation, its gfid and a unit.
fn put_value(out: &mut Vec<u8>, number: u32, gfid: Gfid, value: u32) -> Result<(), AllocError>
    ensures { OnOk result (out.new.items ≡ out.old.items ++ (unit number ++ (gfid_text gfid ++ unit value))) }
{
    put_head(out, number, gfid)?;
    put_unit(out, value)?;
    Ok(())
}

/// Puts the number of a store operation, its gfid and a name.
fn put_name(out: &mut Vec<u8>, number: u32, gfid: Gfid, name: &[u8]) -> Result<(), AllocError>
    ensures { OnOk result (out.new.items ≡ out.old.items ++ (unit number ++ (gfid_text gfid ++ opaque name.now))) }
{
    put_head(out, number, gfid)?;
    put_opaque(out, name)?;
    Ok(())
}

fn put_write(out: &mut Vec<u8>, gfid: Gfid, offset: u32, bytes: &[u8]) -> Result<(), AllocError>
    ensures { OnOk result (out.new.items ≡ out.old.items ++ (unit 0 ++ (gfid_text gfid ++ (unit offset ++ opaque bytes.now)))) }
{
    put_value(out, 0, gfid, offset)?;
    put_opaque(out, bytes)?;
    Ok(())
}

fn put_set_attr(out: &mut Vec<u8>, gfid: Gfid, attr: &Attr) -> Result<(), AllocError>
    ensures { OnOk result (out.new.items ≡ out.old.items ++ (unit 3 ++ (gfid_text gfid ++ attr_text attr.now))) }
{
    put_head(out, 3, gfid)?;
    put_attr(out, attr)?;
    Ok(())
}

fn put_add_name(
    out: &mut Vec<u8>,
    parent: Gfid,
    item: &Item,
    mode: u16,
    span: Option<Span>,
) -> Result<(), AllocError>
    ensures { OnOk result (out.new.items ≡ out.old.items ++ (unit 5 ++ (gfid_text parent ++ (item_text item.now ++ (unit mode ++ span_text span))))) }
{
    put_head(out, 5, parent)?;
    put_item(out, item)?;
    put_unit(out, mode as u32)?;
    put_span(out, span)?;
    Ok(())
}

fn put_drop_dir(out: &mut Vec<u8>, parent: Gfid, name: &[u8], gfid: Gfid) -> Result<(), AllocError>
    ensures { OnOk result (out.new.items ≡ out.old.items ++ (unit 7 ++ (gfid_text parent ++ (opaque name.now ++ gfid_text gfid)))) }
{
    put_name(out, 7, parent, name)?;
    put_gfid(out, gfid)?;
    Ok(())
}

fn put_move(
    out: &mut Vec<u8>,
    parent: Gfid,
    name: &[u8],
    target: Gfid,
    new_name: &[u8],
) -> Result<(), AllocError>
    ensures { OnOk result (out.new.items ≡ out.old.items ++ (unit 8 ++ (gfid_text parent ++ (opaque name.now ++ (gfid_text target ++ opaque new_name.now))))) }
{
    put_name(out, 8, parent, name)?;
    put_gfid(out, target)?;
    put_opaque(out, new_name)?;
    Ok(())
}

fn put_make_copy(out: &mut Vec<u8>, gfid: Gfid, span: Option<Span>) -> Result<(), AllocError>
    ensures { OnOk result (out.new.items ≡ out.old.items ++ (unit 9 ++ (gfid_text gfid ++ span_text span))) }
{
    put_head(out, 9, gfid)?;
    put_span(out, span)?;
    Ok(())
}

/// Puts a store operation after its number.
pub fn put_op(out: &mut Vec<u8>, op: &StoreOp) -> Result<(), AllocError>
    ensures { OnOk result (out.new.items ≡ out.old.items ++ op_text op.now) }
{
    match op {
        StoreOp::Write {
            gfid,
            offset,
            bytes,
        } => put_write(out, *gfid, *offset, bytes.as_slice()),
        StoreOp::Truncate { gfid, size } => put_value(out, 1, *gfid, *size),
        StoreOp::SetMode { gfid, mode } => put_value(out, 2, *gfid, *mode as u32),
        StoreOp::SetAttr { gfid, attr } => put_set_attr(out, *gfid, attr),
        StoreOp::DelAttr { gfid, name } => put_name(out, 4, *gfid, name.as_slice()),
        StoreOp::AddName {
            parent,
            item,
            mode,
            span,
        } => put_add_name(out, *parent, item, *mode, *span),
        StoreOp::DropName { parent, name } => put_name(out, 6, *parent, name.as_slice()),
        StoreOp::DropDir { parent, name, gfid } => {
            put_drop_dir(out, *parent, name.as_slice(), *gfid)
        }
        StoreOp::Move {
            parent,
            name,
            target,
            new_name,
        } => put_move(out, *parent, name.as_slice(), *target, new_name.as_slice()),
        StoreOp::MakeCopy { gfid, span } => put_make_copy(out, *gfid, *span),
    }
}
