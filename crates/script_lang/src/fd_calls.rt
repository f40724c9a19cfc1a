ghost use Rattle.std.specs.Prelude.{◌≡◌, IfOk};
ghost use Rattle.fop_types.specs.declared.calls.Call.TheVariants as call;
ghost use Rattle.script_lang.specs.CallText.{made1, made2, made3};
ghost use Rattle.script_lang.specs.WordForms.{data_at, fd_at, mode_at, number_at, path_at};

use crate::errors::ScriptKind;
use crate::numbers::{fd_of, mode_of, number_of};
use crate::paths::path_of;
use crate::words::data_of;
use fop_types::{Call, Data};
use std::alloc::{AllocError, Global};

// A call, or the kind of refusal.
pub(crate) type Said = Result<Call, ScriptKind>;

pub(crate) fn close_of(alloc: Global, fd: &[u8]) -> Result<Said, AllocError>
    ensures { IfOk result (λ said. said ≡ made1 call.Close (fd_at fd.now)) }
{
    let Some(fd) = fd_of(fd) else {
        return Ok(Err(ScriptKind::BadWord));
    };
    Ok(Ok(Call::Close { fd }))
}

pub(crate) fn open_of(alloc: Global, fd: &[u8], path: &[u8]) -> Result<Said, AllocError>
    ensures { IfOk result (λ said. said ≡ made2 call.Open (fd_at fd.now) (path_at path.now)) }
{
    let Some(fd) = fd_of(fd) else {
        return Ok(Err(ScriptKind::BadWord));
    };
    let Some(path) = path_of(alloc, path)? else {
        return Ok(Err(ScriptKind::BadWord));
    };
    Ok(Ok(Call::Open { fd, path }))
}

pub(crate) fn read_of(alloc: Global, fd: &[u8], count: &[u8]) -> Result<Said, AllocError>
    ensures { IfOk result (λ said. said ≡ made2 call.Read (fd_at fd.now) (number_at 0 65536 count.now)) }
{
    let Some(fd) = fd_of(fd) else {
        return Ok(Err(ScriptKind::BadWord));
    };
    let Some(count) = number_of(0, 65536, count) else {
        return Ok(Err(ScriptKind::BadWord));
    };
    Ok(Ok(Call::Read { fd, count }))
}

pub(crate) fn write_of(alloc: Global, fd: &[u8], bytes: &[u8]) -> Result<Said, AllocError>
    ensures { IfOk result (λ said. said ≡ made2 call.Write (fd_at fd.now) (data_at 65536 bytes.now)) }
{
    let Some(fd) = fd_of(fd) else {
        return Ok(Err(ScriptKind::BadWord));
    };
    let Some(bytes) = data_of(alloc, 65536, bytes)? else {
        return Ok(Err(ScriptKind::BadWord));
    };
    let bytes = Data::shared(bytes.into_vec())?;
    Ok(Ok(Call::Write { fd, bytes }))
}

pub(crate) fn seek_of(alloc: Global, fd: &[u8], offset: &[u8]) -> Result<Said, AllocError>
    ensures { IfOk result (λ said. said ≡ made2 call.Seek (fd_at fd.now) (number_at 0 4294967295 offset.now)) }
{
    let Some(fd) = fd_of(fd) else {
        return Ok(Err(ScriptKind::BadWord));
    };
    let Some(offset) = number_of(0, 4294967295, offset) else {
        return Ok(Err(ScriptKind::BadWord));
    };
    Ok(Ok(Call::Seek { fd, offset }))
}

pub(crate) fn create_of(
    alloc: Global,
    fd: &[u8],
    path: &[u8],
    mode: &[u8],
) -> Result<Said, AllocError>
    ensures { IfOk result (λ said. said ≡ made3 call.Create (fd_at fd.now) (path_at path.now) (mode_at mode.now)) }
{
    let Some(fd) = fd_of(fd) else {
        return Ok(Err(ScriptKind::BadWord));
    };
    let Some(path) = path_of(alloc, path)? else {
        return Ok(Err(ScriptKind::BadWord));
    };
    let Some(mode) = mode_of(mode) else {
        return Ok(Err(ScriptKind::BadWord));
    };
    Ok(Ok(Call::Create { fd, path, mode }))
}
