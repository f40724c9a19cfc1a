ghost use Rattle.std.specs.Prelude.{◌≡◌, ℕ, Some, IfOk};
ghost use Rattle.fop_types.specs.Paths.{last_part};
ghost use Rattle.call_fops.specs.Asked.{fop_next, last_fop as last_fop_of};
ghost use Rattle.call_fops.specs.Walks.{Walked};

use crate::objects::{brick_fd, file_object, open_fd};
use crate::walk::Walk;
use fd_table::FdTable;
use fop_types::{Attr, Call, Data, Fop, Gfid, Object, Path, Seq};
use std::alloc::{AllocError, Global};

fn last(alloc: Global, path: &Path) -> Result<Seq<u8>, AllocError>
    ensures { IfOk result (λ name. name ≡ last_part path.now.parts) }
{
    Seq::from_bytes(alloc, path.last())
}

fn mkdir(
    alloc: Global,
    parent: Object,
    path: &Path,
    mode: u16,
    drawn: Gfid,
) -> Result<Option<Fop>, AllocError>
    ensures { IfOk result (λ f. f ≡ Some (Fop.Mkdir parent (last_part path.now.parts) mode drawn)) }
{
    let name = last(alloc, path)?;
    Ok(Some(Fop::Mkdir {
        parent,
        name,
        mode,
        drawn,
    }))
}

fn rmdir(alloc: Global, parent: Object, path: &Path) -> Result<Option<Fop>, AllocError>
    ensures { IfOk result (λ f. f ≡ Some (Fop.Rmdir parent (last_part path.now.parts))) }
{
    let name = last(alloc, path)?;
    Ok(Some(Fop::Rmdir { parent, name }))
}

fn create(
    alloc: Global,
    fd: u32,
    parent: Object,
    path: &Path,
    mode: u16,
    drawn: Gfid,
) -> Result<Option<Fop>, AllocError>
    ensures { IfOk result (λ f. f ≡ Some (Fop.Create fd parent (last_part path.now.parts) mode drawn)) }
{
    let name = last(alloc, path)?;
    Ok(Some(Fop::Create {
        fd,
        parent,
        name,
        mode,
        drawn,
    }))
}

fn unlink(alloc: Global, parent: Object, path: &Path) -> Result<Option<Fop>, AllocError>
    ensures { IfOk result (λ f. f ≡ Some (Fop.Unlink parent (last_part path.now.parts))) }
{
    let name = last(alloc, path)?;
    Ok(Some(Fop::Unlink { parent, name }))
}

fn rename(alloc: Global, walk: &Walk, path: &Path, target: &Path) -> Result<Option<Fop>, AllocError>
    ensures { IfOk result (λ f. f ≡ Some (Fop.Rename walk.now.first.at (last_part path.now.parts) walk.now.second.at (last_part target.now.parts))) }
{
    let name = last(alloc, path)?;
    let new_name = last(alloc, target)?;
    Ok(Some(Fop::Rename {
        parent: walk.first(),
        name,
        target: walk.second(),
        new_name,
    }))
}

fn set_attr(alloc: Global, object: Object, attr: &Attr) -> Result<Option<Fop>, AllocError>
    ensures { IfOk result (λ f. f ≡ Some (Fop.SetAttr object attr.now)) }
{
    let attr = attr.copy(alloc)?;
    Ok(Some(Fop::SetAttr { object, attr }))
}

fn get_attr(alloc: Global, object: Object, name: &Seq<u8>) -> Result<Option<Fop>, AllocError>
    ensures { IfOk result (λ f. f ≡ Some (Fop.GetAttr object name.now)) }
{
    let name = name.copy(alloc)?;
    Ok(Some(Fop::GetAttr { object, name }))
}

fn del_attr(alloc: Global, object: Object, name: &Seq<u8>) -> Result<Option<Fop>, AllocError>
    ensures { IfOk result (λ f. f ≡ Some (Fop.DelAttr object name.now)) }
{
    let name = name.copy(alloc)?;
    Ok(Some(Fop::DelAttr { object, name }))
}

fn read(fds: &FdTable, session: u8, fd: u8, count: u32) -> Option<Fop>
    ensures { (w : Walked) (drawn : Gfid) → result ≡ last_fop_of (Call.Read fd count) w session drawn fds.now }
{
    match open_fd(fds, session, fd) {
        None => None,
        Some(open) => Some(Fop::Read {
            fd: brick_fd(session, fd),
            object: file_object(open),
            offset: open.offset,
            count,
        }),
    }
}

fn write(
    alloc: Global,
    fds: &FdTable,
    session: u8,
    fd: u8,
    bytes: &Data,
) -> Result<Option<Fop>, AllocError>
    ensures { (w : Walked) (drawn : Gfid) → IfOk result (λ f. f ≡ last_fop_of (Call.Write fd bytes.now) w session drawn fds.now) }
{
    match open_fd(fds, session, fd) {
        None => Ok(None),
        Some(open) => {
            let bytes = bytes.copy(alloc)?;
            Ok(Some(Fop::Write {
                fd: brick_fd(session, fd),
                object: file_object(open),
                offset: open.offset,
                bytes,
            }))
        }
    }
}

fn last_fop(
    alloc: Global,
    call: &Call,
    walk: &Walk,
    session: u8,
    drawn: Gfid,
    fds: &FdTable,
) -> Result<Option<Fop>, AllocError>
    ensures { IfOk result (λ f. f ≡ last_fop_of call.now walk.now session drawn fds.now) }
{
    let object = walk.first();
    match call {
        Call::Mkdir { path, mode } => mkdir(alloc, object, path, *mode, drawn),
        Call::Rmdir { path } => rmdir(alloc, object, path),
        Call::Create { fd, path, mode } => {
            create(alloc, brick_fd(session, *fd), object, path, *mode, drawn)
        }
        Call::Unlink { path } => unlink(alloc, object, path),
        Call::Rename { path, target } => rename(alloc, walk, path, target),
        Call::Open { fd, .. } => Ok(Some(Fop::Open {
            fd: brick_fd(session, *fd),
            object,
        })),
        Call::Stat { .. } => Ok(Some(Fop::Stat { object })),
        Call::List { .. } => Ok(Some(Fop::List { object })),
        Call::Chmod { mode, .. } => Ok(Some(Fop::Chmod {
            object,
            mode: *mode,
        })),
        Call::Truncate { size, .. } => Ok(Some(Fop::Truncate {
            object,
            size: *size,
        })),
        Call::SetAttr { attr, .. } => set_attr(alloc, object, attr),
        Call::GetAttr { name, .. } => get_attr(alloc, object, name),
        Call::DelAttr { name, .. } => del_attr(alloc, object, name),
        Call::Read { fd, count } => Ok(read(fds, session, *fd, *count)),
        Call::Write { fd, bytes } => write(alloc, fds, session, *fd, bytes),
        Call::Seek { .. } => Ok(None),
        Call::Close { .. } => Ok(None),
    }
}

/// The fop that a call of a session sends next: the lookup of its walk's next component, and then its last fop, on the
/// objects that the walk has reached, or on the descriptor as the table has it now. `drawn` is the gfid that the call
/// drew. It is `None` where the call sends no fop; a call that is not answered at once sends one. The fop has copies of the
/// names and bytes of its call.
///
/// # Errors
/// Out of memory.
pub fn next_fop(
    alloc: Global,
    call: &Call,
    walk: &Walk,
    session: u8,
    drawn: Gfid,
    fds: &FdTable,
) -> Result<Option<Fop>, AllocError>
    ensures { IfOk result (λ f. f ≡ fop_next call.now walk.now session drawn fds.now) }
{
    match walk.component(call) {
        Some(component) => {
            let name = component.copy(alloc)?;
            Ok(Some(Fop::Lookup {
                parent: walk.parent(call),
                name,
            }))
        }
        None => last_fop(alloc, call, walk, session, drawn, fds),
    }
}
