//! Whether an answer was read from bricks, by what its call asks.
ghost use Rattle.std.specs.Prelude.{◌≡◌, true, false, IfOk};
ghost use Rattle.mount_log.specs.Connections.{graph_of_call};
ghost use Rattle.read_audit.specs.Read.{IsPartRead, may_keep, asked_by, IsRead};
ghost use Rattle.read_audit.specs.Read.Asked.{Part, Attributes, Attribute};

use crate::keeping::keeps_pages;
use crate::objects::{are_attributes_read, is_attribute_read, is_part_read};
use crate::readings::Replied;
use crate::runs::Run;
use change_audit::call_graphs::set_with;
use fop_types::{Answer, Aspect, Call, Gfid};
use std::alloc::{AllocError, Global};

// An object on a set.
#[derive(Clone, Copy)]
struct On {
    set: u8,
    gfid: Gfid,
}

// Whether the bytes are a part of a file that was read, if the graph keeps no pages.
fn is_part_due(
    alloc: Global,
    run: &Run,
    by: Replied,
    offset: usize,
    count: u32,
    bytes: &[u8],
) -> Result<bool, AllocError>
    requires { by.graph ≡ graph_of_call run.now.log.now by.call }
    ensures { IfOk result (λ yes. yes ≡ true → may_keep run.now.script.now run.now.plans.now run.now.log.now by.call ≡ false → IsPartRead run.now.script.now run.now.plans.now run.now.log.now run.now.bricks.now by.call by.number count bytes.now) }
{
    if keeps_pages(run.plans, run.graphs, by.graph) {
        return Ok(true);
    }
    let yes = is_part_read(alloc, run, by, offset, count, bytes)?;
    Ok(yes)
}

fn shows_part(
    alloc: Global,
    run: &Run,
    by: Replied,
    offset: usize,
    count: u32,
    answer: &Answer,
) -> Result<bool, AllocError>
    requires { by.graph ≡ graph_of_call run.now.log.now by.call }
    ensures { IfOk result (λ yes. yes ≡ true → IsRead run.now.script.now run.now.plans.now run.now.log.now run.now.bricks.now by.call by.number (Part count) answer.now) }
{
    match answer {
        Answer::Bytes(bytes) => {
            let yes = is_part_due(alloc, run, by, offset, count, bytes.as_slice())?;
            Ok(yes)
        }
        _ => Ok(true),
    }
}

// The object of the last metadata that a call had fetched by its reply.
fn last_object(run: &Run, by: Replied) -> Option<On> {
    let at = run.found.last_of_aspect(by.call, by.number, Aspect::Meta)?;
    let set = set_with(run.plans, run.graphs, by.graph, at.source)?;
    let gfid = at.cell.gfid;
    Some(On { set, gfid })
}

fn shows_attributes(
    alloc: Global,
    run: &Run,
    by: Replied,
    answer: &Answer,
) -> Result<bool, AllocError>
    requires { by.graph ≡ graph_of_call run.now.log.now by.call }
    ensures { IfOk result (λ yes. yes ≡ true → IsRead run.now.script.now run.now.plans.now run.now.log.now run.now.bricks.now by.call by.number Attributes answer.now) }
{
    match answer {
        Answer::Stat { kind, mode, size } => {
            let Some(on) = last_object(run, by) else {
                return Ok(false);
            };
            let yes = are_attributes_read(alloc, run, by, on.set, on.gfid, *kind, *mode, *size)?;
            Ok(yes)
        }
        _ => Ok(true),
    }
}

fn shows_attribute(
    alloc: Global,
    run: &Run,
    by: Replied,
    name: &[u8],
    answer: &Answer,
) -> Result<bool, AllocError>
    requires { by.graph ≡ graph_of_call run.now.log.now by.call }
    ensures { IfOk result (λ yes. yes ≡ true → IsRead run.now.script.now run.now.plans.now run.now.log.now run.now.bricks.now by.call by.number (Attribute name.now) answer.now) }
{
    match answer {
        Answer::Bytes(value) => {
            let Some(on) = last_object(run, by) else {
                return Ok(false);
            };
            let value = value.as_slice();
            let yes = is_attribute_read(alloc, run, by, on.set, on.gfid, name, value)?;
            Ok(yes)
        }
        _ => Ok(true),
    }
}

/// Whether the answer to a call was read from bricks, if it shows what the call asks. `offset` is where a read may have begun.
///
/// # Errors
/// Out of memory.
pub(crate) fn is_read(
    alloc: Global,
    run: &Run,
    by: Replied,
    offset: usize,
    call: &Call,
    answer: &Answer,
) -> Result<bool, AllocError>
    requires { by.graph ≡ graph_of_call run.now.log.now by.call }
    ensures { IfOk result (λ yes. yes ≡ true → IsRead run.now.script.now run.now.plans.now run.now.log.now run.now.bricks.now by.call by.number (asked_by call.now) answer.now) }
{
    match call {
        Call::Read { fd: _, count } => {
            let yes = shows_part(alloc, run, by, offset, *count, answer)?;
            Ok(yes)
        }
        Call::Stat { path: _ } => {
            let yes = shows_attributes(alloc, run, by, answer)?;
            Ok(yes)
        }
        Call::GetAttr { path: _, name } => {
            let name = name.as_slice();
            let yes = shows_attribute(alloc, run, by, name, answer)?;
            Ok(yes)
        }
        _ => Ok(true),
    }
}
