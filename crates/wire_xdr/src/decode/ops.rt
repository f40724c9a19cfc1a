ghost use Rattle.wire_xdr.specs.code.Parsers.{Gives, two, three, four, unit_at, bytes_at};
ghost use Rattle.wire_xdr.specs.code.PartParsers.{gfid_at, mode_at, attr_after, attr_name_at, item_after, item_name_at, span_at};
ghost use Rattle.wire_xdr.specs.code.MessageParsers.{op_arm_at, op_at};
ghost use Rattle.std.specs.Prelude.{Option, Some, None};
ghost use Rattle.fop_types.specs.declared.store_ops.StoreOp.TheVariants as op_case;
ghost use Rattle.wire_xdr.specs.Limits.{max_data};

use crate::decode::attrs::{attr, attr_name};
use crate::decode::cells::gfid;
use crate::decode::contents::{mode, span};
use crate::decode::faults::Fault;
use crate::decode::items::{item, item_name};
use crate::decode::strings::owned_data;
use crate::decode::units::{unit, unit_between};
use crate::limits::MAX_DATA;
use fop_types::StoreOp;
use std::alloc::Global;

fn write_op(alloc: Global, bytes: &[u8]) -> Result<(StoreOp, &[u8]), Fault>
    ensures { Gives (λ x. (x.0, x.1.now)) result (three op_case.Write gfid_at (λ gfid. unit_at) (λ gfid offset. bytes_at max_data) bytes.now) }
{
    let (gfid, rest) = gfid(bytes)?;
    let (offset, rest) = unit(rest)?;
    let (bytes, rest) = owned_data(alloc, rest, MAX_DATA)?;
    Ok((
        StoreOp::Write {
            gfid,
            offset,
            bytes,
        },
        rest,
    ))
}

fn truncate(bytes: &[u8]) -> Result<(StoreOp, &[u8]), Fault>
    ensures { Gives (λ x. (x.0, x.1.now)) result (two op_case.Truncate gfid_at (λ gfid. unit_at) bytes.now) }
{
    let (gfid, rest) = gfid(bytes)?;
    let (size, rest) = unit(rest)?;
    Ok((StoreOp::Truncate { gfid, size }, rest))
}

fn set_mode(bytes: &[u8]) -> Result<(StoreOp, &[u8]), Fault>
    ensures { Gives (λ x. (x.0, x.1.now)) result (two op_case.SetMode gfid_at (λ gfid. mode_at) bytes.now) }
{
    let (gfid, rest) = gfid(bytes)?;
    let (mode, rest) = mode(rest)?;
    Ok((StoreOp::SetMode { gfid, mode }, rest))
}

fn set_attr(alloc: Global, bytes: &[u8]) -> Result<(StoreOp, &[u8]), Fault>
    ensures { Gives (λ x. (x.0, x.1.now)) result (two op_case.SetAttr gfid_at (λ gfid. attr_after None) bytes.now) }
{
    let (gfid, rest) = gfid(bytes)?;
    let (attr, rest) = attr(alloc, rest, None)?;
    Ok((StoreOp::SetAttr { gfid, attr }, rest))
}

fn del_attr(alloc: Global, bytes: &[u8]) -> Result<(StoreOp, &[u8]), Fault>
    ensures { Gives (λ x. (x.0, x.1.now)) result (two op_case.DelAttr gfid_at (λ gfid. attr_name_at None) bytes.now) }
{
    let (gfid, rest) = gfid(bytes)?;
    let (name, rest) = attr_name(alloc, rest, None)?;
    Ok((StoreOp::DelAttr { gfid, name }, rest))
}

fn add_name(alloc: Global, bytes: &[u8]) -> Result<(StoreOp, &[u8]), Fault>
    ensures { Gives (λ x. (x.0, x.1.now)) result (four op_case.AddName gfid_at (λ parent. item_after None) (λ parent item. mode_at) (λ parent item mode. span_at) bytes.now) }
{
    let (parent, rest) = gfid(bytes)?;
    let (item, rest) = item(alloc, rest, None)?;
    let (mode, rest) = mode(rest)?;
    let (span, rest) = span(rest)?;
    Ok((
        StoreOp::AddName {
            parent,
            item,
            mode,
            span,
        },
        rest,
    ))
}

fn drop_name(alloc: Global, bytes: &[u8]) -> Result<(StoreOp, &[u8]), Fault>
    ensures { Gives (λ x. (x.0, x.1.now)) result (two op_case.DropName gfid_at (λ parent. item_name_at None) bytes.now) }
{
    let (parent, rest) = gfid(bytes)?;
    let (name, rest) = item_name(alloc, rest, None)?;
    Ok((StoreOp::DropName { parent, name }, rest))
}

fn drop_dir(alloc: Global, bytes: &[u8]) -> Result<(StoreOp, &[u8]), Fault>
    ensures { Gives (λ x. (x.0, x.1.now)) result (three op_case.DropDir gfid_at (λ parent. item_name_at None) (λ parent name. gfid_at) bytes.now) }
{
    let (parent, rest) = gfid(bytes)?;
    let (name, rest) = item_name(alloc, rest, None)?;
    let (gfid, rest) = gfid(rest)?;
    Ok((StoreOp::DropDir { parent, name, gfid }, rest))
}

fn move_op(alloc: Global, bytes: &[u8]) -> Result<(StoreOp, &[u8]), Fault>
    ensures { Gives (λ x. (x.0, x.1.now)) result (four op_case.Move gfid_at (λ parent. item_name_at None) (λ parent name. gfid_at) (λ parent name target. item_name_at None) bytes.now) }
{
    let (parent, rest) = gfid(bytes)?;
    let (name, rest) = item_name(alloc, rest, None)?;
    let (target, rest) = gfid(rest)?;
    let (new_name, rest) = item_name(alloc, rest, None)?;
    Ok((
        StoreOp::Move {
            parent,
            name,
            target,
            new_name,
        },
        rest,
    ))
}

fn make_copy(bytes: &[u8]) -> Result<(StoreOp, &[u8]), Fault>
    ensures { Gives (λ x. (x.0, x.1.now)) result (two op_case.MakeCopy gfid_at (λ gfid. span_at) bytes.now) }
{
    let (gfid, rest) = gfid(bytes)?;
    let (span, rest) = span(rest)?;
    Ok((StoreOp::MakeCopy { gfid, span }, rest))
}

/// The fields of a store operation by its number.
fn op_arm(alloc: Global, bytes: &[u8], number: u32) -> Result<(StoreOp, &[u8]), Fault>
    ensures { Gives (λ x. (x.0, x.1.now)) result (op_arm_at number bytes.now) }
{
    match number {
        0 => write_op(alloc, bytes),
        1 => truncate(bytes),
        2 => set_mode(bytes),
        3 => set_attr(alloc, bytes),
        4 => del_attr(alloc, bytes),
        5 => add_name(alloc, bytes),
        6 => drop_name(alloc, bytes),
        7 => drop_dir(alloc, bytes),
        8 => move_op(alloc, bytes),
        _ => make_copy(bytes),
    }
}

/// A store operation.
///
/// # Errors
/// A fault of the bytes, or out of memory.
pub fn op(alloc: Global, bytes: &[u8]) -> Result<(StoreOp, &[u8]), Fault>
    ensures { Gives (λ x. (x.0, x.1.now)) result (op_at bytes.now) }
{
    let (number, rest) = unit_between(bytes, 0, 9)?;
    let (op, rest) = op_arm(alloc, rest, number)?;
    Ok((op, rest))
}
