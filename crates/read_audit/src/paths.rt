//! The object to which a path leads, by names that a call has read.
ghost use Rattle.std.specs.Prelude.{◌≡◌, IfOk, IfSome};
ghost use Rattle.call_fops.specs.Walks.{root_object};
ghost use Rattle.mount_log.specs.Connections.{graph_of_call};
ghost use Rattle.read_audit.specs.Names.{object_of as object_by, IsStep, LeadsTo};
ghost use Rattle.read_audit.specs.Naming.{IsRealItem, IsObjectIn, HasObject};

use crate::cells::names_cell;
use crate::found::FetchAt;
use crate::readings::{Replied, content_read};
use crate::runs::Run;
use change_audit::call_graphs::set_with;
use dht_linkto::is_link;
use fop_types::{Content, Gfid, Item, Kind, Object, Seq, find_item};
use std::alloc::{AllocError, Global};

// ---- what names show

// The item of a name, if it is no link.
fn real_item<'a>(items: &'a [Item], name: &[u8]) -> Option<&'a Item>
    ensures { IfSome result (λ item. IsRealItem items.now name.now item.now) }
{
    match find_item(items, name) {
        Some(item) => { if is_link(item.kind) { None } else { Some(item) } }
        None => None,
    }
}

fn object_of(item: &Item, set: u8) -> Object
    ensures { result ≡ object_by item.now set }
{
    Object {
        gfid: item.gfid,
        kind: item.kind,
        set,
    }
}

// The object that a name means on a set.
fn object_in(items: &[Item], name: &[u8], set: u8) -> Option<Object>
    ensures { IfSome result (λ to. IsObjectIn items.now name.now set to) }
{
    match real_item(items, name) {
        Some(item) => Some(object_of(item, set)),
        None => None,
    }
}

// The object that a name means on a set, by a content that is names of a directory.
fn object_shown(content: &Content, name: &Seq<u8>, set: u8) -> Option<Object>
    ensures { IfSome result (λ to. HasObject name.now set to content.now) }
{
    match content {
        Content::Names { removed, items } => {
            if *removed {
                return None;
            }
            object_in(items.as_slice(), name.as_slice(), set)
        }
        _ => None,
    }
}

// ---- one step

/// The object that a name of a directory means, by the answer to a fetch of its names.
///
/// # Errors
/// Out of memory.
pub(crate) fn step_by(
    alloc: Global,
    run: &Run,
    by: Replied,
    dir: Gfid,
    name: &Seq<u8>,
    at: FetchAt,
) -> Result<Option<Object>, AllocError>
    requires { by.graph ≡ graph_of_call run.now.log.now by.call }
    ensures { IfOk result (λ found. IfSome found (λ to. IsStep run.now.script.now run.now.plans.now run.now.log.now run.now.bricks.now by.call by.number dir name.now to)) }
{
    let Some(set) = set_with(run.plans, run.graphs, by.graph, at.source) else {
        return Ok(None);
    };
    let cell = names_cell(dir);
    let read = content_read(alloc, run, by, set, &cell, at)?;
    let Some(content) = read else {
        return Ok(None);
    };
    Ok(object_shown(&content, name, set))
}

/// The object that a name of a directory means, by what the call has read of its names.
///
/// # Errors
/// Out of memory.
pub(crate) fn step(
    alloc: Global,
    run: &Run,
    by: Replied,
    dir: Gfid,
    name: &Seq<u8>,
) -> Result<Option<Object>, AllocError>
    requires { by.graph ≡ graph_of_call run.now.log.now by.call }
    ensures { IfOk result (λ found. IfSome found (λ to. IsStep run.now.script.now run.now.plans.now run.now.log.now run.now.bricks.now by.call by.number dir name.now to)) }
{
    let fetches = run
        .found
        .fetches_of(alloc, by.call, by.number, names_cell(dir))?;
    for at in &fetches {
        let to = step_by(alloc, run, by, dir, name, *at)?;
        match to {
            Some(object) => return Ok(Some(object)),
            None => {}
        }
    }
    Ok(None)
}

// ---- a path

/// The root.
pub(crate) fn root() -> Object
    ensures { result ≡ root_object }
{
    Object {
        gfid: Gfid { hi: 0, lo: 1 },
        kind: Kind::Dir,
        set: 0,
    }
}

/// The object to which a path leads from the root, by names that the call has read by its reply; each step by the last ones in
/// which its name means an object.
///
/// # Errors
/// Out of memory.
pub(crate) fn object_at(
    alloc: Global,
    run: &Run,
    by: Replied,
    path: &[Seq<u8>],
) -> Result<Option<Object>, AllocError>
    requires { by.graph ≡ graph_of_call run.now.log.now by.call }
    ensures { IfOk result (λ found. IfSome found (λ object. LeadsTo run.now.script.now run.now.plans.now run.now.log.now run.now.bricks.now by.call by.number path.now root_object object)) }
{
    let mut object = root();
    for name in path {
        let to = step(alloc, run, by, object.gfid, name)?;
        let Some(next) = to else {
            return Ok(None);
        };
        object = next;
    }
    Ok(Some(object))
}
