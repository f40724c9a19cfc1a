//! Copies of operations.
ghost use Rattle.std.specs.Prelude.{◌≡◌, IfOk};

use fop_types::{Attr, Data, FlatOp, Gfid, Seq};
use std::alloc::{AllocError, Global};

fn lookup_of(alloc: Global, parent: Gfid, name: &Seq<u8>) -> Result<FlatOp, AllocError>
    ensures { IfOk result (λ o. o ≡ FlatOp.Lookup parent name.now) }
{
    let name = name.copy(alloc)?;
    Ok(FlatOp::Lookup { parent, name })
}

fn mkdir_of(
    alloc: Global,
    parent: Gfid,
    name: &Seq<u8>,
    mode: u16,
    drawn: Gfid,
) -> Result<FlatOp, AllocError>
    ensures { IfOk result (λ o. o ≡ FlatOp.Mkdir parent name.now mode drawn) }
{
    let name = name.copy(alloc)?;
    Ok(FlatOp::Mkdir {
        parent,
        name,
        mode,
        drawn,
    })
}

fn rmdir_of(alloc: Global, parent: Gfid, name: &Seq<u8>) -> Result<FlatOp, AllocError>
    ensures { IfOk result (λ o. o ≡ FlatOp.Rmdir parent name.now) }
{
    let name = name.copy(alloc)?;
    Ok(FlatOp::Rmdir { parent, name })
}

fn create_of(
    alloc: Global,
    parent: Gfid,
    name: &Seq<u8>,
    mode: u16,
    drawn: Gfid,
) -> Result<FlatOp, AllocError>
    ensures { IfOk result (λ o. o ≡ FlatOp.Create parent name.now mode drawn) }
{
    let name = name.copy(alloc)?;
    Ok(FlatOp::Create {
        parent,
        name,
        mode,
        drawn,
    })
}

pub(crate) fn unlink_of(alloc: Global, parent: Gfid, name: &Seq<u8>) -> Result<FlatOp, AllocError>
    ensures { IfOk result (λ o. o ≡ FlatOp.Unlink parent name.now) }
{
    let name = name.copy(alloc)?;
    Ok(FlatOp::Unlink { parent, name })
}

pub(crate) fn rename_of(
    alloc: Global,
    parent: Gfid,
    name: &Seq<u8>,
    target: Gfid,
    new_name: &Seq<u8>,
) -> Result<FlatOp, AllocError>
    ensures { IfOk result (λ o. o ≡ FlatOp.Rename parent name.now target new_name.now) }
{
    let name = name.copy(alloc)?;
    let new_name = new_name.copy(alloc)?;
    Ok(FlatOp::Rename {
        parent,
        name,
        target,
        new_name,
    })
}

fn set_attr_of(alloc: Global, gfid: Gfid, attr: &Attr) -> Result<FlatOp, AllocError>
    ensures { IfOk result (λ o. o ≡ FlatOp.SetAttr gfid attr.now) }
{
    let attr = attr.copy(alloc)?;
    Ok(FlatOp::SetAttr { gfid, attr })
}

fn get_attr_of(alloc: Global, gfid: Gfid, name: &Seq<u8>) -> Result<FlatOp, AllocError>
    ensures { IfOk result (λ o. o ≡ FlatOp.GetAttr gfid name.now) }
{
    let name = name.copy(alloc)?;
    Ok(FlatOp::GetAttr { gfid, name })
}

fn del_attr_of(alloc: Global, gfid: Gfid, name: &Seq<u8>) -> Result<FlatOp, AllocError>
    ensures { IfOk result (λ o. o ≡ FlatOp.DelAttr gfid name.now) }
{
    let name = name.copy(alloc)?;
    Ok(FlatOp::DelAttr { gfid, name })
}

fn write_of(alloc: Global, gfid: Gfid, offset: u32, bytes: &Data) -> Result<FlatOp, AllocError>
    ensures { IfOk result (λ o. o ≡ FlatOp.Write gfid offset bytes.now) }
{
    let bytes = bytes.copy(alloc)?;
    Ok(FlatOp::Write {
        gfid,
        offset,
        bytes,
    })
}

/// A copy of an operation, in time and memory of its bytes, but for those of a write that are shared.
///
/// # Errors
/// Out of memory.
pub(crate) fn copy_op(alloc: Global, op: &FlatOp) -> Result<FlatOp, AllocError>
    ensures { IfOk result (λ copy. copy ≡ op.now) }
{
    match op {
        FlatOp::Lookup { parent, name } => lookup_of(alloc, *parent, name),
        FlatOp::Mkdir {
            parent,
            name,
            mode,
            drawn,
        } => mkdir_of(alloc, *parent, name, *mode, *drawn),
        FlatOp::Rmdir { parent, name } => rmdir_of(alloc, *parent, name),
        FlatOp::Create {
            parent,
            name,
            mode,
            drawn,
        } => create_of(alloc, *parent, name, *mode, *drawn),
        FlatOp::Unlink { parent, name } => unlink_of(alloc, *parent, name),
        FlatOp::Rename {
            parent,
            name,
            target,
            new_name,
        } => rename_of(alloc, *parent, name, *target, new_name),
        FlatOp::Open { gfid } => Ok(FlatOp::Open { gfid: *gfid }),
        FlatOp::Stat { gfid } => Ok(FlatOp::Stat { gfid: *gfid }),
        FlatOp::List { gfid } => Ok(FlatOp::List { gfid: *gfid }),
        FlatOp::Chmod { gfid, mode } => Ok(FlatOp::Chmod {
            gfid: *gfid,
            mode: *mode,
        }),
        FlatOp::Truncate { gfid, size } => Ok(FlatOp::Truncate {
            gfid: *gfid,
            size: *size,
        }),
        FlatOp::SetAttr { gfid, attr } => set_attr_of(alloc, *gfid, attr),
        FlatOp::GetAttr { gfid, name } => get_attr_of(alloc, *gfid, name),
        FlatOp::DelAttr { gfid, name } => del_attr_of(alloc, *gfid, name),
        FlatOp::Read {
            gfid,
            offset,
            count,
        } => Ok(FlatOp::Read {
            gfid: *gfid,
            offset: *offset,
            count: *count,
        }),
        FlatOp::Write {
            gfid,
            offset,
            bytes,
        } => write_of(alloc, *gfid, *offset, bytes),
    }
}
