//! The sets on which the names of new objects are.
ghost use Rattle.std.specs.Prelude.{◌≡◌, ◌<◌, ◌≤◌, ◌↔◌, IsTrue, true, length, IfOk, IfSome, IfNone};
ghost use Rattle.dht_layout.specs.Layouts.{even_layout};
ghost use Rattle.dht_linkto.specs.Search.{hashed_set as hashed_set_of};
ghost use Rattle.fop_types.specs.Cells.{root};
ghost use Rattle.change_audit.specs.Placing.{MakesDir, HasTableSets, IsMadeByTable, IsSplitByTable, IsHashedByTable, IsOnSetByTable};

use crate::call_graphs::{CallGraphs, graph_of, plan_in};
use crate::history::{entry_at, op_at};
use crate::making::is_gfid;
use dht_layout::even;
use dht_linkto::hashed_set;
use fop_types::{FlatOp, Gfid, Span};
use graph_build::Plan;
use mount_log::Log;
use std::alloc::{AllocError, Global};
use std::collections::BTreeMap;

const ROOT: Gfid = Gfid { hi: 0, lo: 1 };

// ---- the graph of a directory's names

/// The place of the entry that makes each directory, by the directory's gfid. Nothing is said of it.
#[derive(Drop)]
pub struct Makers {
    places: BTreeMap<Gfid, usize>,
}

fn dir_made(op: &FlatOp) -> Option<Gfid> {
    match op {
        FlatOp::Mkdir { drawn, .. } => Some(*drawn),
        _ => None,
    }
}

/// The entries that make directories.
///
/// # Errors
/// Out of memory.
pub(crate) fn makers_of(alloc: Global, ops: &[FlatOp]) -> Result<Makers, AllocError> {
    let mut places = BTreeMap::new(alloc);
    for place in 0..ops.len() {
        if let Some(dir) = dir_made(&ops[place]) {
            places.insert(dir, place)?;
        }
    }
    Ok(Makers { places })
}

fn makes_dir(op: &FlatOp, dir: Gfid) -> bool
    ensures { IsTrue result ↔ MakesDir op.now dir }
{
    match op {
        FlatOp::Mkdir { drawn, .. } => is_gfid(*drawn, dir),
        _ => false,
    }
}

// The graph of the call whose entry at a place makes the directory.
fn made_at(log: &Log, tables: &CallGraphs, ops: &[FlatOp], dir: Gfid, place: usize) -> Option<usize>
    ensures { IfSome result (λ graph. IsMadeByTable log.now tables.now ops.now dir graph) }
{
    let Some(op) = op_at(ops, place) else {
        return None;
    };
    if !makes_dir(op, dir) {
        return None;
    }
    let Some(entry) = entry_at(log, place) else {
        return None;
    };
    let graph = graph_of(tables, entry.call)?;
    Some(graph)
}

fn made_in(
    log: &Log,
    tables: &CallGraphs,
    ops: &[FlatOp],
    makers: &Makers,
    dir: Gfid,
) -> Option<usize>
    ensures { IfSome result (λ graph. IsMadeByTable log.now tables.now ops.now dir graph) }
{
    match makers.places.get(&dir) {
        Some(place) => made_at(log, tables, ops, dir, *place),
        None => None,
    }
}

fn is_root(dir: Gfid) -> bool
    ensures { IsTrue result ↔ (dir ≡ root) }
{
    is_gfid(dir, ROOT)
}

// The graph over whose sets the names of a directory are split.
fn split_in(
    log: &Log,
    tables: &CallGraphs,
    ops: &[FlatOp],
    makers: &Makers,
    dir: Gfid,
) -> Option<usize>
    ensures { IfSome result (λ graph. IsSplitByTable log.now tables.now ops.now dir graph) }
{
    if is_root(dir) {
        return Some(1);
    }
    let graph = made_in(log, tables, ops, makers, dir)?;
    Some(graph)
}

// ---- the set of a name

fn count_of(plan: &Plan) -> Option<u8>
    ensures found { IfSome result (λ many. many ≡ length plan.now.sets) }
    ensures none { IfNone result (255 < length plan.now.sets) }
{
    let many = plan.sets.len();
    if many > 255 {
        return None;
    }
    Some(many as u8)
}

// How many sets a graph has.
fn sets_in(plans: &[Plan], tables: &CallGraphs, graph: usize) -> Option<u8>
    ensures { IfSome result (λ many. HasTableSets plans.now tables.now graph many) }
{
    let plan = plan_in(plans, tables, graph)?;
    let many = count_of(plan)?;
    Some(many)
}

// The set to which a name belongs by a layout of so many sets.
fn hashed_among(layout: &[Option<Span>], many: u8, name: &[u8]) -> u8
    requires { length layout.now ≡ many }
    ensures { result ≡ hashed_set_of layout.now name.now }
{
    hashed_set(layout, name)
}

// Whether the set is that of a name's hash in the even split over so many.
#[tactic(auto, using(crate::proofs::Splits::even_count))]
fn is_hashed_over(alloc: Global, many: u8, name: &[u8], set: u8) -> Result<bool, AllocError>
    ensures sound { IfOk result (λ yes. yes ≡ true → set ≡ hashed_set_of (even_layout many) name.now) }
    ensures complete { IfOk result (λ yes. 1 ≤ many → set ≡ hashed_set_of (even_layout many) name.now → yes ≡ true) }
{
    if many == 0 {
        return Ok(false);
    }
    let layout = even(alloc, many)?;
    Ok(hashed_among(layout.as_slice(), many, name) == set)
}

fn is_hashed(
    alloc: Global,
    plans: &[Plan],
    log: &Log,
    tables: &CallGraphs,
    ops: &[FlatOp],
    makers: &Makers,
    dir: Gfid,
    name: &[u8],
    set: u8,
) -> Result<bool, AllocError>
    ensures { IfOk result (λ yes. yes ≡ true → IsHashedByTable plans.now log.now tables.now ops.now dir name.now set) }
{
    let Some(graph) = split_in(log, tables, ops, makers, dir) else {
        return Ok(false);
    };
    let Some(many) = sets_in(plans, tables, graph) else {
        return Ok(false);
    };
    let yes = is_hashed_over(alloc, many, name, set)?;
    Ok(yes)
}

/// Whether this is the set of the name of the object that the operation makes, if it makes one.
///
/// # Errors
/// Out of memory.
pub(crate) fn is_on_set(
    alloc: Global,
    plans: &[Plan],
    log: &Log,
    tables: &CallGraphs,
    ops: &[FlatOp],
    makers: &Makers,
    operation: &FlatOp,
    set: u8,
) -> Result<bool, AllocError>
    ensures { IfOk result (λ yes. yes ≡ true → IsOnSetByTable plans.now log.now tables.now ops.now operation.now set) }
{
    match operation {
        FlatOp::Create { parent, name, .. } => is_hashed(
            alloc,
            plans,
            log,
            tables,
            ops,
            makers,
            *parent,
            name.as_slice(),
            set,
        ),
        FlatOp::Mkdir { .. } => Ok(set == 0),
        _ => Ok(true),
    }
}
