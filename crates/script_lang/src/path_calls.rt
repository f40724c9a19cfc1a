ghost use Rattle.std.specs.Prelude.{◌≡◌, IfOk};
ghost use Rattle.fop_types.specs.declared.calls.Call.TheVariants as call;
ghost use Rattle.script_lang.specs.CallText.{made1, made2, made3, set_attr};
ghost use Rattle.script_lang.specs.WordForms.{attr_at, data_at, mode_at, number_at, path_at};

use crate::errors::ScriptKind;
use crate::fd_calls::Said;
use crate::numbers::{mode_of, number_of};
use crate::paths::path_of;
use crate::words::{attr_of, data_of};
use fop_types::{Attr, Call};
use std::alloc::{AllocError, Global};

pub(crate) fn rmdir_of(alloc: Global, path: &[u8]) -> Result<Said, AllocError>
    ensures { IfOk result (λ said. said ≡ made1 call.Rmdir (path_at path.now)) }
{
    let Some(path) = path_of(alloc, path)? else {
        return Ok(Err(ScriptKind::BadWord));
    };
    Ok(Ok(Call::Rmdir { path }))
}

pub(crate) fn unlink_of(alloc: Global, path: &[u8]) -> Result<Said, AllocError>
    ensures { IfOk result (λ said. said ≡ made1 call.Unlink (path_at path.now)) }
{
    let Some(path) = path_of(alloc, path)? else {
        return Ok(Err(ScriptKind::BadWord));
    };
    Ok(Ok(Call::Unlink { path }))
}

pub(crate) fn stat_of(alloc: Global, path: &[u8]) -> Result<Said, AllocError>
    ensures { IfOk result (λ said. said ≡ made1 call.Stat (path_at path.now)) }
{
    let Some(path) = path_of(alloc, path)? else {
        return Ok(Err(ScriptKind::BadWord));
    };
    Ok(Ok(Call::Stat { path }))
}

pub(crate) fn list_of(alloc: Global, path: &[u8]) -> Result<Said, AllocError>
    ensures { IfOk result (λ said. said ≡ made1 call.List (path_at path.now)) }
{
    let Some(path) = path_of(alloc, path)? else {
        return Ok(Err(ScriptKind::BadWord));
    };
    Ok(Ok(Call::List { path }))
}

pub(crate) fn mkdir_of(alloc: Global, path: &[u8], mode: &[u8]) -> Result<Said, AllocError>
    ensures { IfOk result (λ said. said ≡ made2 call.Mkdir (path_at path.now) (mode_at mode.now)) }
{
    let Some(path) = path_of(alloc, path)? else {
        return Ok(Err(ScriptKind::BadWord));
    };
    let Some(mode) = mode_of(mode) else {
        return Ok(Err(ScriptKind::BadWord));
    };
    Ok(Ok(Call::Mkdir { path, mode }))
}

pub(crate) fn rename_of(alloc: Global, path: &[u8], target: &[u8]) -> Result<Said, AllocError>
    ensures { IfOk result (λ said. said ≡ made2 call.Rename (path_at path.now) (path_at target.now)) }
{
    let Some(path) = path_of(alloc, path)? else {
        return Ok(Err(ScriptKind::BadWord));
    };
    let Some(target) = path_of(alloc, target)? else {
        return Ok(Err(ScriptKind::BadWord));
    };
    Ok(Ok(Call::Rename { path, target }))
}

pub(crate) fn chmod_of(alloc: Global, path: &[u8], mode: &[u8]) -> Result<Said, AllocError>
    ensures { IfOk result (λ said. said ≡ made2 call.Chmod (path_at path.now) (mode_at mode.now)) }
{
    let Some(path) = path_of(alloc, path)? else {
        return Ok(Err(ScriptKind::BadWord));
    };
    let Some(mode) = mode_of(mode) else {
        return Ok(Err(ScriptKind::BadWord));
    };
    Ok(Ok(Call::Chmod { path, mode }))
}

pub(crate) fn truncate_of(alloc: Global, path: &[u8], size: &[u8]) -> Result<Said, AllocError>
    ensures { IfOk result (λ said. said ≡ made2 call.Truncate (path_at path.now) (number_at 0 4294967295 size.now)) }
{
    let Some(path) = path_of(alloc, path)? else {
        return Ok(Err(ScriptKind::BadWord));
    };
    let Some(size) = number_of(0, 4294967295, size) else {
        return Ok(Err(ScriptKind::BadWord));
    };
    Ok(Ok(Call::Truncate { path, size }))
}

pub(crate) fn get_attr_of(alloc: Global, path: &[u8], name: &[u8]) -> Result<Said, AllocError>
    ensures { IfOk result (λ said. said ≡ made2 call.GetAttr (path_at path.now) (attr_at name.now)) }
{
    let Some(path) = path_of(alloc, path)? else {
        return Ok(Err(ScriptKind::BadWord));
    };
    let Some(name) = attr_of(alloc, name)? else {
        return Ok(Err(ScriptKind::BadWord));
    };
    Ok(Ok(Call::GetAttr { path, name }))
}

pub(crate) fn del_attr_of(alloc: Global, path: &[u8], name: &[u8]) -> Result<Said, AllocError>
    ensures { IfOk result (λ said. said ≡ made2 call.DelAttr (path_at path.now) (attr_at name.now)) }
{
    let Some(path) = path_of(alloc, path)? else {
        return Ok(Err(ScriptKind::BadWord));
    };
    let Some(name) = attr_of(alloc, name)? else {
        return Ok(Err(ScriptKind::BadWord));
    };
    Ok(Ok(Call::DelAttr { path, name }))
}

pub(crate) fn set_attr_of(
    alloc: Global,
    path: &[u8],
    name: &[u8],
    value: &[u8],
) -> Result<Said, AllocError>
    ensures { IfOk result (λ said. said ≡ made3 set_attr (path_at path.now) (attr_at name.now) (data_at 1024 value.now)) }
{
    let Some(path) = path_of(alloc, path)? else {
        return Ok(Err(ScriptKind::BadWord));
    };
    let Some(name) = attr_of(alloc, name)? else {
        return Ok(Err(ScriptKind::BadWord));
    };
    let Some(value) = data_of(alloc, 1024, value)? else {
        return Ok(Err(ScriptKind::BadWord));
    };
    let attr = Attr { name, value };
    Ok(Ok(Call::SetAttr { path, attr }))
}
