//! Whether a call has read the names on its paths, and what its answer shows is of the object to which its path leads.
ghost use Rattle.std.specs.Prelude.{◌≡◌, true, IfOk};
ghost use Rattle.call_fops.specs.Walks.{first_path as first_of, second_path as second_of};
ghost use Rattle.dht_fops.specs.Objects.{home as home_of};
ghost use Rattle.fop_types.specs.Calls.{looked_up};
ghost use Rattle.mount_log.specs.Connections.{graph_of_call};
ghost use Rattle.read_audit.specs.Names.{LeadsToOne, IsOf, IsNamed};
ghost use Rattle.read_audit.specs.Read.{asked_by};
ghost use Rattle.read_audit.specs.Read.Asked.{Attributes, Attribute, Names};

use crate::cells::is_kind;
use crate::directories::is_listed;
use crate::objects::{are_attributes_read, is_attribute_read};
use crate::paths::object_at;
use crate::readings::Replied;
use crate::runs::Run;
use call_fops::{first_path, second_path};
use fop_types::{Answer, Call, Kind, Object, Seq};
use std::alloc::{AllocError, Global};

// ---- the object

/// The set of an object's metadata.
pub(crate) fn home(object: Object) -> u8
    ensures { result ≡ home_of object }
{
    match object.kind {
        Kind::File | Kind::Link => object.set,
        Kind::Dir => 0,
    }
}

// Whether a stat shows the object.
fn is_stat_of(
    alloc: Global,
    run: &Run,
    by: Replied,
    object: Object,
    answer: &Answer,
) -> Result<bool, AllocError>
    requires { by.graph ≡ graph_of_call run.now.log.now by.call }
    ensures { IfOk result (λ yes. yes ≡ true → IsOf run.now.script.now run.now.plans.now run.now.log.now run.now.bricks.now by.call by.number object Attributes answer.now) }
{
    match answer {
        Answer::Stat { kind, mode, size } => {
            if !is_kind(object.kind, *kind) {
                return Ok(false);
            }
            let set = home(object);
            let gfid = object.gfid;
            let yes = are_attributes_read(alloc, run, by, set, gfid, *kind, *mode, *size)?;
            Ok(yes)
        }
        _ => Ok(true),
    }
}

// Whether the bytes are those of the object's attribute.
fn is_attribute_of(
    alloc: Global,
    run: &Run,
    by: Replied,
    object: Object,
    name: &[u8],
    answer: &Answer,
) -> Result<bool, AllocError>
    requires { by.graph ≡ graph_of_call run.now.log.now by.call }
    ensures { IfOk result (λ yes. yes ≡ true → IsOf run.now.script.now run.now.plans.now run.now.log.now run.now.bricks.now by.call by.number object (Attribute name.now) answer.now) }
{
    match answer {
        Answer::Bytes(value) => {
            let set = home(object);
            let gfid = object.gfid;
            let value = value.as_slice();
            let yes = is_attribute_read(alloc, run, by, set, gfid, name, value)?;
            Ok(yes)
        }
        _ => Ok(true),
    }
}

// Whether the list shows the names of the directory.
fn is_list_of(
    alloc: Global,
    run: &Run,
    by: Replied,
    object: Object,
    answer: &Answer,
) -> Result<bool, AllocError>
    requires { by.graph ≡ graph_of_call run.now.log.now by.call }
    ensures { IfOk result (λ yes. yes ≡ true → IsOf run.now.script.now run.now.plans.now run.now.log.now run.now.bricks.now by.call by.number object Names answer.now) }
{
    match answer {
        Answer::List(items) => {
            let dir = object.gfid;
            let shown = items.as_slice();
            let yes = is_listed(alloc, run, by, dir, shown)?;
            Ok(yes)
        }
        _ => Ok(true),
    }
}

// Whether what the answer to a call shows is the object's.
fn is_of(
    alloc: Global,
    run: &Run,
    by: Replied,
    object: Object,
    call: &Call,
    answer: &Answer,
) -> Result<bool, AllocError>
    requires { by.graph ≡ graph_of_call run.now.log.now by.call }
    ensures { IfOk result (λ yes. yes ≡ true → IsOf run.now.script.now run.now.plans.now run.now.log.now run.now.bricks.now by.call by.number object (asked_by call.now) answer.now) }
{
    match call {
        Call::Stat { path: _ } => {
            let yes = is_stat_of(alloc, run, by, object, answer)?;
            Ok(yes)
        }
        Call::GetAttr { path: _, name } => {
            let name = name.as_slice();
            let yes = is_attribute_of(alloc, run, by, object, name, answer)?;
            Ok(yes)
        }
        Call::List { path: _ } => {
            let yes = is_list_of(alloc, run, by, object, answer)?;
            Ok(yes)
        }
        _ => Ok(true),
    }
}

// ---- the paths

// Whether a path leads to an object of which the answer shows what it shows.
fn leads_to_shown(
    alloc: Global,
    run: &Run,
    by: Replied,
    path: &[Seq<u8>],
    call: &Call,
    answer: &Answer,
) -> Result<bool, AllocError>
    requires { by.graph ≡ graph_of_call run.now.log.now by.call }
    ensures { IfOk result (λ yes. yes ≡ true → LeadsToOne run.now.script.now run.now.plans.now run.now.log.now run.now.bricks.now by.call by.number path.now (λ object. IsOf run.now.script.now run.now.plans.now run.now.log.now run.now.bricks.now by.call by.number object (asked_by call.now) answer.now)) }
{
    let reached = object_at(alloc, run, by, path)?;
    let Some(object) = reached else {
        return Ok(false);
    };
    let yes = is_of(alloc, run, by, object, call, answer)?;
    Ok(yes)
}

// Whether a path leads to an object.
fn leads_to_one(alloc: Global, run: &Run, by: Replied, path: &[Seq<u8>]) -> Result<bool, AllocError>
    requires { by.graph ≡ graph_of_call run.now.log.now by.call }
    ensures { IfOk result (λ yes. yes ≡ true → LeadsToOne run.now.script.now run.now.plans.now run.now.log.now run.now.bricks.now by.call by.number path.now (λ object. Unit {0})) }
{
    let reached = object_at(alloc, run, by, path)?;
    match reached {
        Some(_object) => Ok(true),
        None => Ok(false),
    }
}

/// Whether a call, which was answered well, has read by its reply the names on its paths, which lead to one object each; and
/// whether what its answer shows is of the first.
///
/// # Errors
/// Out of memory.
pub(crate) fn is_named(
    alloc: Global,
    run: &Run,
    by: Replied,
    call: &Call,
    answer: &Answer,
) -> Result<bool, AllocError>
    requires { by.graph ≡ graph_of_call run.now.log.now by.call }
    ensures { IfOk result (λ yes. yes ≡ true → IsNamed run.now.script.now run.now.plans.now run.now.log.now run.now.bricks.now by.call by.number call.now answer.now) }
{
    let path = first_path(call);
    if !leads_to_shown(alloc, run, by, path, call, answer)? {
        return Ok(false);
    }
    let other = second_path(call);
    let yes = leads_to_one(alloc, run, by, other)?;
    Ok(yes)
}
