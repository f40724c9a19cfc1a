//! Whether the error that a call was answered rests on an object to which names of a path lead, by what the call has read.
ghost use Rattle.std.specs.Prelude.{◌≡◌, ◌<◌, true, None, length, slice_get, IfOk, MatchOption};
ghost use Rattle.std.specs.Option.{option_copied};
ghost use Rattle.fop_types.specs.Flat.{name_limit};
ghost use Rattle.fop_types.specs.Names.{attr_named, has_real_name};
ghost use Rattle.fop_types.specs.declared.cells.Kind.TheVariants.{Dir, File};
ghost use Rattle.mount_log.specs.Connections.{graph_of_call};
ghost use Rattle.read_audit.specs.Erring.{HasNoAttr};
ghost use Rattle.read_audit.specs.Errors.{attr_of as attr_in, IsShowing, IsWithoutAttr, LeadsUpTo, RestsOn};

use crate::cells::{is_kind, meta_cell};
use crate::found::FetchAt;
use crate::missing::{is_missing, is_used};
use crate::naming::home;
use crate::reached::{reached_at, reached_by};
use crate::readings::{Replied, content_read};
use crate::runs::Run;
use contents::find_attr;
use fop_types::{AppError, Attr, Call, Content, Kind, Object, Seq};
use std::alloc::{AllocError, Global};

// The most bytes of a name.
const NAME_LIMIT: usize = 255;

// ---- the name that comes next, and the object

fn name_at(path: &[Seq<u8>], many: usize) -> Option<&Seq<u8>>
    ensures { option_copied result ≡ slice_get path.now many }
{
    path.get(many)
}

fn is_whole(next: Option<&Seq<u8>>) -> bool
    ensures { result ≡ true → option_copied next.entry ≡ None }
{
    match next {
        Some(_) => false,
        None => true,
    }
}

fn is_too_long(next: Option<&Seq<u8>>) -> bool
    ensures { result ≡ true → MatchOption (option_copied next.entry) ⊥ (λ name. name_limit < length name) }
{
    match next {
        Some(name) => NAME_LIMIT < name.len(),
        None => false,
    }
}

// Whether a path leads to a directory.
fn is_directory(next: Option<&Seq<u8>>, object: Object) -> bool
    ensures { result ≡ true → (option_copied next.entry ≡ None) × (object.kind ≡ Dir) }
{
    is_whole(next) && is_kind(object.kind, Kind::Dir)
}

// Whether a path leads to a file.
fn is_file(next: Option<&Seq<u8>>, object: Object) -> bool
    ensures { result ≡ true → (option_copied next.entry ≡ None) × (object.kind ≡ File) }
{
    is_whole(next) && is_kind(object.kind, Kind::File)
}

// ---- attributes

// The attribute that a call names.
fn attr_of(call: &Call) -> &[u8]
    ensures { result.now ≡ attr_in call.now }
{
    match call {
        Call::GetAttr { path: _, name } => name.as_slice(),
        Call::DelAttr { path: _, name } => name.as_slice(),
        _ => &[],
    }
}

fn lack_attr(attrs: &[Attr], name: &[u8]) -> bool
    ensures { result ≡ true → attr_named attrs.now name.now ≡ None }
{
    match find_attr(attrs, name) {
        Some(_) => false,
        None => true,
    }
}

fn has_no_attr(content: &Content, name: &[u8]) -> bool
    ensures { result ≡ true → HasNoAttr name.now content.now }
{
    match content {
        Content::Meta { attrs, .. } => lack_attr(attrs.as_slice(), name),
        _ => false,
    }
}

// Whether an object's metadata have no attribute of a name, by the answer to a fetch.
fn is_without_by(
    alloc: Global,
    run: &Run,
    by: Replied,
    object: Object,
    name: &[u8],
    at: FetchAt,
) -> Result<bool, AllocError>
    requires { by.graph ≡ graph_of_call run.now.log.now by.call }
    ensures { IfOk result (λ yes. yes ≡ true → IsWithoutAttr run.now.script.now run.now.plans.now run.now.log.now run.now.bricks.now by.call by.number object name.now) }
{
    let set = home(object);
    let cell = meta_cell(object.gfid);
    let read = content_read(alloc, run, by, set, &cell, at)?;
    let Some(content) = read else {
        return Ok(false);
    };
    Ok(has_no_attr(&content, name))
}

// Whether an object's metadata have no attribute of a name.
fn is_without_attr(
    alloc: Global,
    run: &Run,
    by: Replied,
    object: Object,
    name: &[u8],
) -> Result<bool, AllocError>
    requires { by.graph ≡ graph_of_call run.now.log.now by.call }
    ensures { IfOk result (λ yes. yes ≡ true → IsWithoutAttr run.now.script.now run.now.plans.now run.now.log.now run.now.bricks.now by.call by.number object name.now) }
{
    let cell = meta_cell(object.gfid);
    let fetches = run.found.fetches_of(alloc, by.call, by.number, cell)?;
    for at in &fetches {
        if is_without_by(alloc, run, by, object, name, *at)? {
            return Ok(true);
        }
    }
    Ok(false)
}

// Whether a path leads to an object that lacks the attribute which the call names.
fn is_no_data(
    alloc: Global,
    run: &Run,
    by: Replied,
    call: &Call,
    next: Option<&Seq<u8>>,
    object: Object,
) -> Result<bool, AllocError>
    requires { by.graph ≡ graph_of_call run.now.log.now by.call }
    ensures { IfOk result (λ yes. yes ≡ true → (option_copied next.entry ≡ None) × IsWithoutAttr run.now.script.now run.now.plans.now run.now.log.now run.now.bricks.now by.call by.number object (attr_in call.now)) }
{
    if !is_whole(next) {
        return Ok(false);
    }
    let name = attr_of(call);
    let yes = is_without_attr(alloc, run, by, object, name)?;
    Ok(yes)
}

// Whether a path leads to a directory that is not empty.
fn is_not_empty(
    alloc: Global,
    run: &Run,
    by: Replied,
    next: Option<&Seq<u8>>,
    object: Object,
) -> Result<bool, AllocError>
    requires { by.graph ≡ graph_of_call run.now.log.now by.call }
    ensures { IfOk result (λ yes. yes ≡ true → (option_copied next.entry ≡ None) × IsShowing run.now.script.now run.now.plans.now run.now.log.now run.now.bricks.now by.call by.number object.gfid (λ removed items. has_real_name items ≡ true)) }
{
    if !is_whole(next) {
        return Ok(false);
    }
    let yes = is_used(alloc, run, by, object.gfid)?;
    Ok(yes)
}

// ---- errors

// Whether an error rests on an object and the name that comes next.
fn rests_on(
    alloc: Global,
    run: &Run,
    by: Replied,
    call: &Call,
    error: AppError,
    next: Option<&Seq<u8>>,
    object: Object,
) -> Result<bool, AllocError>
    requires { by.graph ≡ graph_of_call run.now.log.now by.call }
    ensures { IfOk result (λ yes. yes ≡ true → RestsOn run.now.script.now run.now.plans.now run.now.log.now run.now.bricks.now by.call by.number call.now error (option_copied next.entry) object) }
{
    match error {
        AppError::Enoent => {
            let yes = is_missing(alloc, run, by, object.gfid, next)?;
            Ok(yes)
        }
        AppError::Enotdir => Ok(is_kind(object.kind, Kind::File)),
        AppError::Enametoolong => Ok(is_too_long(next)),
        AppError::Eexist => Ok(is_whole(next)),
        AppError::Eisdir => Ok(is_directory(next, object)),
        AppError::Eopnotsupp => Ok(is_directory(next, object)),
        AppError::Efbig => Ok(is_file(next, object)),
        AppError::Enotempty => {
            let yes = is_not_empty(alloc, run, by, next, object)?;
            Ok(yes)
        }
        AppError::Enodata => {
            let yes = is_no_data(alloc, run, by, call, next, object)?;
            Ok(yes)
        }
        AppError::Ebadf => Ok(true),
        AppError::Ebusy => Ok(true),
        AppError::Einval => Ok(true),
    }
}

/// Whether an error rests on an object to which the first names of a path lead.
///
/// # Errors
/// Out of memory.
pub(crate) fn rests_on_path(
    alloc: Global,
    run: &Run,
    by: Replied,
    call: &Call,
    error: AppError,
    path: &[Seq<u8>],
) -> Result<bool, AllocError>
    requires { by.graph ≡ graph_of_call run.now.log.now by.call }
    ensures { IfOk result (λ yes. yes ≡ true → LeadsUpTo run.now.script.now run.now.plans.now run.now.log.now run.now.bricks.now by.call by.number path.now (RestsOn run.now.script.now run.now.plans.now run.now.log.now run.now.bricks.now by.call by.number call.now error)) }
{
    let all = reached_by(alloc, run, by, path)?;
    for back in 0..all.len() {
        let Some(reached) = reached_at(all.as_slice(), all.len() - 1 - back) else {
            return Ok(false);
        };
        let next = name_at(path, reached.many);
        if rests_on(alloc, run, by, call, error, next, reached.object)? {
            return Ok(true);
        }
    }
    Ok(false)
}
