ghost use Rattle.std.specs.Prelude.{◌≡◌, [], ◌∷◌, IfOk};
ghost use Rattle.std.specs.FinMap as map;
ghost use Rattle.fop_types.specs.Calls.{last_op as last_op_of, on_open};
ghost use Rattle.fop_types.specs.Paths.{last_part};
ghost use Rattle.flat_fs.specs.Walks.{objects};

use crate::fds::Fds;
use crate::walk::Found;
use fop_types::{Call, Data, FlatOp, Gfid, Path, Seq};
use std::alloc::{AllocError, Global};

fn last(alloc: Global, path: &Path) -> Result<Seq<u8>, AllocError>
    ensures { IfOk result (λ name. name ≡ last_part path.now.parts) }
{
    Seq::from_bytes(alloc, path.last())
}

fn read_op(fds: &Fds, fd: u8, count: u32) -> Option<FlatOp>
    ensures { result ≡ on_open (map.get fds.now fd) (λ d. FlatOp.Read d.file d.offset count) }
{
    match fds.get(fd) {
        None => None,
        Some(found) => Some(FlatOp::Read {
            gfid: found.file(),
            offset: found.offset(),
            count,
        }),
    }
}

fn write_op(alloc: Global, fds: &Fds, fd: u8, bytes: &Data) -> Result<Option<FlatOp>, AllocError>
    ensures { IfOk result (λ o. o ≡ on_open (map.get fds.now fd) (λ d. FlatOp.Write d.file d.offset bytes.now)) }
{
    match fds.get(fd) {
        None => Ok(None),
        Some(found) => {
            let bytes = bytes.copy(alloc)?;
            Ok(Some(FlatOp::Write {
                gfid: found.file(),
                offset: found.offset(),
                bytes,
            }))
        }
    }
}

// Of a call that looks nothing up.
fn op_on_fd(alloc: Global, call: &Call, fds: &Fds) -> Result<Option<FlatOp>, AllocError>
    ensures { IfOk result (λ o. (drawn : Gfid) → o ≡ last_op_of call.now [] drawn fds.now) }
{
    match call {
        Call::Read { fd, count } => Ok(read_op(fds, *fd, *count)),
        Call::Write { fd, bytes } => write_op(alloc, fds, *fd, bytes),
        _ => Ok(None),
    }
}

// Of a call whose one path led to an object.
fn op_on_one(
    alloc: Global,
    call: &Call,
    at: Gfid,
    drawn: Gfid,
    fds: &Fds,
) -> Result<Option<FlatOp>, AllocError>
    ensures { IfOk result (λ o. o ≡ last_op_of call.now (at ∷ []) drawn fds.now) }
{
    match call {
        Call::Mkdir { path, mode } => {
            let name = last(alloc, path)?;
            let mode = *mode;
            Ok(Some(FlatOp::Mkdir {
                parent: at,
                name,
                mode,
                drawn,
            }))
        }
        Call::Rmdir { path } => {
            let name = last(alloc, path)?;
            Ok(Some(FlatOp::Rmdir { parent: at, name }))
        }
        Call::Create { path, mode, .. } => {
            let name = last(alloc, path)?;
            let mode = *mode;
            Ok(Some(FlatOp::Create {
                parent: at,
                name,
                mode,
                drawn,
            }))
        }
        Call::Unlink { path } => {
            let name = last(alloc, path)?;
            Ok(Some(FlatOp::Unlink { parent: at, name }))
        }
        Call::Rename { .. } => Ok(None),
        Call::Open { .. } => Ok(Some(FlatOp::Open { gfid: at })),
        Call::Stat { .. } => Ok(Some(FlatOp::Stat { gfid: at })),
        Call::List { .. } => Ok(Some(FlatOp::List { gfid: at })),
        Call::Chmod { mode, .. } => Ok(Some(FlatOp::Chmod {
            gfid: at,
            mode: *mode,
        })),
        Call::Truncate { size, .. } => Ok(Some(FlatOp::Truncate {
            gfid: at,
            size: *size,
        })),
        Call::SetAttr { attr, .. } => {
            let attr = attr.copy(alloc)?;
            Ok(Some(FlatOp::SetAttr { gfid: at, attr }))
        }
        Call::GetAttr { name, .. } => {
            let name = name.copy(alloc)?;
            Ok(Some(FlatOp::GetAttr { gfid: at, name }))
        }
        Call::DelAttr { name, .. } => {
            let name = name.copy(alloc)?;
            Ok(Some(FlatOp::DelAttr { gfid: at, name }))
        }
        Call::Read { fd, count } => Ok(read_op(fds, *fd, *count)),
        Call::Write { fd, bytes } => write_op(alloc, fds, *fd, bytes),
        Call::Seek { .. } => Ok(None),
        Call::Close { .. } => Ok(None),
    }
}

// Of a call whose two paths led to objects: a rename.
fn op_on_two(
    alloc: Global,
    call: &Call,
    parent: Gfid,
    target: Gfid,
    fds: &Fds,
) -> Result<Option<FlatOp>, AllocError>
    ensures { IfOk result (λ o. (drawn : Gfid) → o ≡ last_op_of call.now (parent ∷ target ∷ []) drawn fds.now) }
{
    match call {
        Call::Rename {
            path,
            target: new_path,
        } => {
            let name = last(alloc, path)?;
            let new_name = last(alloc, new_path)?;
            Ok(Some(FlatOp::Rename {
                parent,
                name,
                target,
                new_name,
            }))
        }
        Call::Read { fd, count } => Ok(read_op(fds, *fd, *count)),
        Call::Write { fd, bytes } => write_op(alloc, fds, *fd, bytes),
        _ => Ok(None),
    }
}

/// The last operation of a call, on the objects that its paths led to, or on its descriptor.
///
/// # Errors
/// Out of memory.
pub fn last_op(
    alloc: Global,
    call: &Call,
    found: Found,
    drawn: Gfid,
    fds: &Fds,
) -> Result<Option<FlatOp>, AllocError>
    ensures { IfOk result (λ o. o ≡ last_op_of call.now (objects found) drawn fds.now) }
{
    match found {
        Found::Nothing => op_on_fd(alloc, call, fds),
        Found::One(at) => op_on_one(alloc, call, at, drawn, fds),
        Found::Two(parent, target) => op_on_two(alloc, call, parent, target, fds),
    }
}
