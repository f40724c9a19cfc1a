//! What a call has read of an object: a part of a file, what a stat shows, or the value of an attribute.
ghost use Rattle.std.specs.Prelude.{◌≡◌, true, IfOk};
ghost use Rattle.mount_log.specs.Connections.{graph_of_call};
ghost use Rattle.read_audit.specs.Read.{IsPartRead, IsFileRead, IsDirectoryRead, AreAttributesRead, IsAttributeRead};
ghost use Rattle.read_audit.specs.Showing.{IsSizeRead, IsModeRead};

use crate::cells::{data_cell, meta_cell};
use crate::found::FetchAt;
use crate::readings::{Replied, content_read};
use crate::runs::Run;
use crate::showing::{has_attribute, has_mode, has_part, has_size};
use change_audit::call_graphs::set_with;
use fop_types::{Aspect, Gfid, Kind};
use std::alloc::{AllocError, Global};

/// Whether the last data that a call had fetched by its reply was that of a file of which the bytes are those from an offset on, at
/// most so many.
///
/// # Errors
/// Out of memory.
pub(crate) fn is_part_read(
    alloc: Global,
    run: &Run,
    by: Replied,
    offset: usize,
    count: u32,
    bytes: &[u8],
) -> Result<bool, AllocError>
    requires { by.graph ≡ graph_of_call run.now.log.now by.call }
    ensures { IfOk result (λ yes. yes ≡ true → IsPartRead run.now.script.now run.now.plans.now run.now.log.now run.now.bricks.now by.call by.number count bytes.now) }
{
    let Some(at) = run.found.last_of_aspect(by.call, by.number, Aspect::Data) else {
        return Ok(false);
    };
    let Some(set) = set_with(run.plans, run.graphs, by.graph, at.source) else {
        return Ok(false);
    };
    let cell = data_cell(at.cell.gfid);
    let read = content_read(alloc, run, by, set, &cell, at)?;
    let Some(content) = read else {
        return Ok(false);
    };
    Ok(has_part(&content, offset, count as usize, bytes))
}

/// Whether the last metadata of an object that a call had fetched by its reply has an attribute of this name and value.
///
/// # Errors
/// Out of memory.
pub(crate) fn is_attribute_read(
    alloc: Global,
    run: &Run,
    by: Replied,
    set: u8,
    gfid: Gfid,
    name: &[u8],
    value: &[u8],
) -> Result<bool, AllocError>
    requires { by.graph ≡ graph_of_call run.now.log.now by.call }
    ensures { IfOk result (λ yes. yes ≡ true → IsAttributeRead run.now.script.now run.now.plans.now run.now.log.now run.now.bricks.now by.call by.number set gfid name.now value.now) }
{
    let cell = meta_cell(gfid);
    let Some(at) = run.found.last_of_cell(by.call, by.number, cell) else {
        return Ok(false);
    };
    let read = content_read(alloc, run, by, set, &cell, at)?;
    let Some(content) = read else {
        return Ok(false);
    };
    Ok(has_attribute(&content, name, value))
}

// ---- what a stat shows

// Whether a call has read, by a fetch that was found, a file's bytes that are so many.
fn is_size_read(
    alloc: Global,
    run: &Run,
    by: Replied,
    set: u8,
    gfid: Gfid,
    at: FetchAt,
    size: u32,
) -> Result<bool, AllocError>
    requires { by.graph ≡ graph_of_call run.now.log.now by.call }
    ensures { IfOk result (λ yes. yes ≡ true → IsSizeRead run.now.script.now run.now.plans.now run.now.log.now run.now.bricks.now by.call by.number set gfid size) }
{
    let cell = data_cell(gfid);
    let read = content_read(alloc, run, by, set, &cell, at)?;
    let Some(content) = read else {
        return Ok(false);
    };
    Ok(has_size(&content, size))
}

// Whether a call has read, by a fetch that was found, an object's metadata with this mode.
fn is_mode_read(
    alloc: Global,
    run: &Run,
    by: Replied,
    set: u8,
    gfid: Gfid,
    at: FetchAt,
    mode: u16,
) -> Result<bool, AllocError>
    requires { by.graph ≡ graph_of_call run.now.log.now by.call }
    ensures { IfOk result (λ yes. yes ≡ true → IsModeRead run.now.script.now run.now.plans.now run.now.log.now run.now.bricks.now by.call by.number set gfid mode) }
{
    let cell = meta_cell(gfid);
    let read = content_read(alloc, run, by, set, &cell, at)?;
    let Some(content) = read else {
        return Ok(false);
    };
    Ok(has_mode(&content, mode))
}

// Whether the last metadata of a file that a call had fetched by its reply has this mode, and its last data this size.
fn is_file_read(
    alloc: Global,
    run: &Run,
    by: Replied,
    set: u8,
    gfid: Gfid,
    mode: u16,
    size: u32,
) -> Result<bool, AllocError>
    requires { by.graph ≡ graph_of_call run.now.log.now by.call }
    ensures { IfOk result (λ yes. yes ≡ true → IsFileRead run.now.script.now run.now.plans.now run.now.log.now run.now.bricks.now by.call by.number set gfid mode size) }
{
    let Some(meta_at) = run.found.last_of_cell(by.call, by.number, meta_cell(gfid)) else {
        return Ok(false);
    };
    let Some(data_at) = run.found.last_of_cell(by.call, by.number, data_cell(gfid)) else {
        return Ok(false);
    };
    if !is_size_read(alloc, run, by, set, gfid, data_at, size)? {
        return Ok(false);
    }
    let yes = is_mode_read(alloc, run, by, set, gfid, meta_at, mode)?;
    Ok(yes)
}

// Whether the last metadata of a directory that a call had fetched by its reply has this mode.
fn is_directory_read(
    alloc: Global,
    run: &Run,
    by: Replied,
    set: u8,
    gfid: Gfid,
    mode: u16,
) -> Result<bool, AllocError>
    requires { by.graph ≡ graph_of_call run.now.log.now by.call }
    ensures { IfOk result (λ yes. yes ≡ true → IsDirectoryRead run.now.script.now run.now.plans.now run.now.log.now run.now.bricks.now by.call by.number set gfid mode) }
{
    let Some(at) = run.found.last_of_cell(by.call, by.number, meta_cell(gfid)) else {
        return Ok(false);
    };
    let yes = is_mode_read(alloc, run, by, set, gfid, at, mode)?;
    Ok(yes)
}

/// Whether mode and size are what the last contents of an object of a kind that a call had fetched by its reply show.
///
/// # Errors
/// Out of memory.
pub(crate) fn are_attributes_read(
    alloc: Global,
    run: &Run,
    by: Replied,
    set: u8,
    gfid: Gfid,
    kind: Kind,
    mode: u16,
    size: u32,
) -> Result<bool, AllocError>
    requires { by.graph ≡ graph_of_call run.now.log.now by.call }
    ensures { IfOk result (λ yes. yes ≡ true → AreAttributesRead run.now.script.now run.now.plans.now run.now.log.now run.now.bricks.now by.call by.number set gfid kind mode size) }
{
    match kind {
        Kind::File => {
            let yes = is_file_read(alloc, run, by, set, gfid, mode, size)?;
            Ok(yes)
        }
        Kind::Dir => {
            let yes = is_directory_read(alloc, run, by, set, gfid, mode)?;
            Ok(yes)
        }
        Kind::Link => Ok(false),
    }
}
