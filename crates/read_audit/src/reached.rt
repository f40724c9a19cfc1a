//! The objects to which the first names of a path lead, by all names that a call has read. The last names alone would not do: an error
//! may rest on a directory that was removed, and made again, between two looks at its name.
ghost use Rattle.std.specs.Prelude.{◌≡◌, slice_get, IfOk, OnOk};
ghost use Rattle.std.specs.List.{AllByRecursion};
ghost use Rattle.mount_log.specs.Connections.{graph_of_call};
ghost use Rattle.read_audit.specs.Erring.{IsReached};

use crate::cells::names_cell;
use crate::paths::{root, step_by};
use crate::readings::Replied;
use crate::runs::Run;
use fop_types::{Object, Seq};
use std::alloc::{AllocError, Global};

/// An object, and how many names of a path have led to it.
#[derive(Clone, Copy)]
pub struct Reached {
    pub many: usize,
    pub object: Object,
}

// Whether so many names are known to lead to the object. Those with as many are at the end.
fn is_known(all: &[Reached], reached: Reached) -> bool {
    for back in 0..all.len() {
        let other = all[all.len() - 1 - back];
        if other.many != reached.many {
            return false;
        }
        if other.object == reached.object {
            return true;
        }
    }
    false
}

// Adds the objects to which one more name of the path leads from one that was reached.
fn extend(
    alloc: Global,
    run: &Run,
    by: Replied,
    path: &[Seq<u8>],
    all: &mut Vec<Reached>,
    from: Reached,
) -> Result<(), AllocError>
    requires graph { by.graph ≡ graph_of_call run.now.log.now by.call }
    requires from { IsReached run.now.script.now run.now.plans.now run.now.log.now run.now.bricks.now by.call by.number path.now from }
    requires all { AllByRecursion (IsReached run.now.script.now run.now.plans.now run.now.log.now run.now.bricks.now by.call by.number path.now) all.old.items }
    ensures { OnOk result (AllByRecursion (IsReached run.now.script.now run.now.plans.now run.now.log.now run.now.bricks.now by.call by.number path.now) all.new.items) }
{
    if from.many >= path.len() {
        return Ok(());
    }
    let name = &path[from.many];
    let dir = from.object.gfid;
    let many = from.many + 1;
    let fetches = run
        .found
        .fetches_of(alloc, by.call, by.number, names_cell(dir))?;
    for at in &fetches {
        let to = step_by(alloc, run, by, dir, name, *at)?;
        let Some(object) = to else {
            continue;
        };
        let next = Reached { many, object };
        if is_known(all.as_slice(), next) {
            continue;
        }
        all.push(next)?;
    }
    Ok(())
}

/// The object at a place, with the number of names that lead to it.
pub(crate) fn reached_at(all: &[Reached], k: usize) -> Option<Reached>
    ensures { result ≡ slice_get all.now k }
{
    all.get(k).copied()
}

// Adds the objects to which one more name leads from those that were reached from this place on.
fn extend_from(
    alloc: Global,
    run: &Run,
    by: Replied,
    path: &[Seq<u8>],
    all: &mut Vec<Reached>,
    from: usize,
) -> Result<(), AllocError>
    requires graph { by.graph ≡ graph_of_call run.now.log.now by.call }
    requires all { AllByRecursion (IsReached run.now.script.now run.now.plans.now run.now.log.now run.now.bricks.now by.call by.number path.now) all.old.items }
    ensures { OnOk result (AllByRecursion (IsReached run.now.script.now run.now.plans.now run.now.log.now run.now.bricks.now by.call by.number path.now) all.new.items) }
{
    let until = all.len();
    for k in from..until {
        let Some(reached) = reached_at(all.as_slice(), k) else {
            return Ok(());
        };
        extend(alloc, run, by, path, all, reached)?;
    }
    Ok(())
}

/// The objects to which the first names of a path lead from the root, of each number of names, rising; none is there twice.
///
/// # Errors
/// Out of memory.
pub(crate) fn reached_by(
    alloc: Global,
    run: &Run,
    by: Replied,
    path: &[Seq<u8>],
) -> Result<Vec<Reached>, AllocError>
    requires { by.graph ≡ graph_of_call run.now.log.now by.call }
    ensures { IfOk result (λ list. AllByRecursion (IsReached run.now.script.now run.now.plans.now run.now.log.now run.now.bricks.now by.call by.number path.now) list.items) }
{
    let mut all = Vec::new(alloc);
    all.push(Reached {
        many: 0,
        object: root(),
    })?;
    let mut from = 0;
    for _ in 0..path.len() {
        let until = all.len();
        extend_from(alloc, run, by, path, &mut all, from)?;
        from = until;
    }
    Ok(all)
}
