//! The graph of each call, and the set that a number means there.
ghost use Rattle.std.specs.Prelude.{◌≡◌, ◌≤◌, ◌-◌, ◌++◌, ℕ, List, Some, option_copied, slice_get, IfOk, IfSome, IfNone, OnOk};
ghost use Rattle.mount_log.specs.Causes.{plan_of_volfile, set_of_plan};
ghost use Rattle.change_audit.specs.CallGraphs.{submitted_in, graphs_from, AreGraphsOf, HasGraph, set_for, set_in_plan};

use fop_types::{Seq, SetPlan};
use graph_build::Plan;
use mount_log::call_graphs::{graphs_of, plan_of, set_of};
use mount_log::switches::switch_in;
use mount_log::{HubEvent, Log};
use script_lang::Script;
use std::alloc::{AllocError, Global};

/// The graph of each call, by the calls' numbers, and the volfile of each graph; both are numbered from 1.
#[derive(Drop)]
pub struct CallGraphs {
    pub calls: Seq<usize>,
    pub volfiles: Seq<u8>,
}

// ---- the tables

// Adds the graph of the call that an event submits, if it does.
fn add_graph(graphs: &mut Vec<usize>, event: &HubEvent, graph: usize) -> Result<(), AllocError>
    ensures { OnOk result ((rest : List ℕ) → graphs.new.items ++ rest ≡ graphs.old.items ++ submitted_in graph event.now rest) }
{
    match event {
        HubEvent::Submit { .. } => {
            graphs.push(graph)?;
            Ok(())
        }
        _ => Ok(()),
    }
}

// The graph of each call that was submitted.
fn graphs_of_calls(alloc: Global, events: &[HubEvent]) -> Result<Vec<usize>, AllocError>
    ensures { IfOk result (λ graphs. graphs.items ≡ graphs_from 1 events.now) }
{
    let mut graphs = Vec::new(alloc);
    let mut graph = 1usize;
    for event in events {
        add_graph(&mut graphs, event, graph)?;
        graph += switch_in(event);
    }
    Ok(graphs)
}

/// The graphs of a run.
///
/// # Errors
/// Out of memory.
pub fn call_graphs(alloc: Global, script: &Script, log: &Log) -> Result<CallGraphs, AllocError>
    ensures { IfOk result (λ tables. AreGraphsOf script.now log.now tables) }
{
    let calls = graphs_of_calls(alloc, log.events.as_slice())?;
    let volfiles = graphs_of(alloc, script, log)?;
    Ok(CallGraphs {
        calls: Seq::from_vec(calls),
        volfiles: Seq::from_vec(volfiles),
    })
}

// ---- their use

fn number_at(numbers: &[usize], k: usize) -> Option<usize>
    ensures { result ≡ slice_get numbers.now k }
{
    numbers.get(k).copied()
}

fn byte_at(bytes: &[u8], k: usize) -> Option<u8>
    ensures { result ≡ slice_get bytes.now k }
{
    bytes.get(k).copied()
}

/// The graph of a call.
pub fn graph_of(tables: &CallGraphs, call: u32) -> Option<usize>
    ensures found { IfSome result (λ graph. HasGraph tables.now call graph) }
    ensures none { IfNone result ((graph : ℕ) → HasGraph tables.now call graph → ⊥) }
{
    if call == 0 {
        return None;
    }
    let graph = number_at(tables.calls.as_slice(), call as usize - 1)?;
    Some(graph)
}

/// The volfile of a graph.
fn volfile_of(tables: &CallGraphs, graph: usize) -> Option<u8>
    ensures found { IfSome result (λ volfile. slice_get tables.now.volfiles (graph - 1) ≡ Some volfile) }
    ensures exact { 1 ≤ graph → result ≡ slice_get tables.now.volfiles (graph - 1) }
{
    if graph == 0 {
        return None;
    }
    let volfile = byte_at(tables.volfiles.as_slice(), graph - 1)?;
    Some(volfile)
}

/// The plan of a graph.
pub fn plan_in<'a>(plans: &'a [Plan], tables: &CallGraphs, graph: usize) -> Option<&'a Plan>
    ensures found { IfSome result (λ plan. plan_of_volfile plans.now (slice_get tables.now.volfiles (graph - 1)) ≡ Some plan.now) }
    ensures exact { 1 ≤ graph → option_copied result ≡ plan_of_volfile plans.now (slice_get tables.now.volfiles (graph - 1)) }
{
    let volfile = volfile_of(tables, graph)?;
    let plan = plan_of(plans, Some(volfile))?;
    Some(plan)
}

/// The set of a number in a graph.
pub fn set_in<'a>(
    plans: &'a [Plan],
    tables: &CallGraphs,
    graph: usize,
    set: u8,
) -> Option<&'a SetPlan>
    ensures found { IfSome result (λ plan. set_of_plan (plan_of_volfile plans.now (slice_get tables.now.volfiles (graph - 1))) set ≡ Some plan.now) }
    ensures exact { 1 ≤ graph → option_copied result ≡ set_of_plan (plan_of_volfile plans.now (slice_get tables.now.volfiles (graph - 1))) set }
{
    if graph == 0 {
        return None;
    }
    let plan = set_of(plans, tables.volfiles.as_slice(), graph as u64, set)?;
    Some(plan)
}

// The number of the first set that has the brick.
fn set_among(plan: &Plan, brick: u8) -> Option<u8>
    ensures { result ≡ set_for plan.now.sets brick }
{
    for set in plan.sets.as_slice() {
        if set.bricks.as_slice().contains(&brick) {
            return Some(set.number);
        }
    }
    None
}

/// The number of the first set that has the brick in a graph.
pub fn set_with(plans: &[Plan], tables: &CallGraphs, graph: usize, brick: u8) -> Option<u8>
    ensures { 1 ≤ graph → result ≡ set_in_plan (plan_of_volfile plans.now (slice_get tables.now.volfiles (graph - 1))) brick }
{
    let plan = plan_in(plans, tables, graph)?;
    set_among(plan, brick)
}
