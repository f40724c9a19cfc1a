//! In which event each call was submitted, in which graph it is carried out, and the sets of that graph.
ghost use Rattle.std.specs.Prelude.{◌≡◌, ◌≤◌, ◌+◌, ◌-◌, ◌++◌, ℕ, List, option_copied, slice_get, IfOk, OnOk};
ghost use Rattle.mount_log.specs.Causes.{set_of_plan, plan_of_volfile};
ghost use Rattle.mount_log.specs.Graphs.{volfiles_of, switched_by, with_switch};
ghost use Rattle.mount_log.specs.CallGraphs.{switches_by, graphs_by, call_by, calls_from, call_at};

use crate::logs::{HubEvent, Log};
use fop_types::SetPlan;
use graph_build::Plan;
use script_lang::{Action, Script};
use std::alloc::{AllocError, Global};

/// The event in which a call was submitted, and the number of the graph in which it is carried out.
#[derive(Clone, Copy)]
pub struct CallAt {
    pub event: u64,
    pub graph: u64,
}

// ---- calls

fn is_switch(action: &Action) -> u64
    ensures value { result ≡ switches_by action.now }
    ensures few { result ≤ 1 }
{
    match action {
        Action::Switch(_) => 1,
        _ => 0,
    }
}

fn graphs_by(event: &HubEvent) -> u64
    ensures value { result ≡ graphs_by event.now }
    ensures few { result ≤ 1 }
{
    match event {
        HubEvent::Act(action) => is_switch(action),
        _ => 0,
    }
}

fn push_call(
    calls: &mut Vec<CallAt>,
    event: &HubEvent,
    number: u64,
    graph: u64,
) -> Result<(), AllocError>
    ensures { OnOk result (calls.new.items ≡ calls.old.items ++ call_by event.now number graph) }
{
    match event {
        HubEvent::Submit { .. } => {
            calls.push(CallAt {
                event: number,
                graph,
            })?;
            Ok(())
        }
        _ => Ok(()),
    }
}

/// The calls of a log's events, by their numbers.
///
/// # Errors
/// Out of memory.
pub fn calls_of(alloc: Global, events: &[HubEvent]) -> Result<Vec<CallAt>, AllocError>
    ensures { IfOk result (λ calls. calls.items ≡ calls_from 0 1 events.now) }
{
    let mut calls = Vec::new(alloc);
    let mut graph = 1u64;
    for k in 0..events.len() {
        push_call(&mut calls, &events[k], k as u64 + 1, graph)?;
        graph += graphs_by(&events[k]);
    }
    Ok(calls)
}

/// The call of a number, from 1; `None` for 0, and where there are fewer calls.
pub fn call_at(calls: &[CallAt], number: u32) -> Option<CallAt>
    ensures { result ≡ call_at calls.now number }
{
    if number == 0 {
        return None;
    }
    calls.get(number as usize - 1).copied()
}

// ---- graphs

fn push_volfile(volfiles: &mut Vec<u8>, action: &Action) -> Result<(), AllocError>
    ensures { OnOk result ((rest : List ℕ) → volfiles.new.items ++ rest ≡ volfiles.old.items ++ with_switch action.now rest) }
{
    match action {
        Action::Switch(volfile) => {
            volfiles.push(*volfile)?;
            Ok(())
        }
        _ => Ok(()),
    }
}

fn push_graph(volfiles: &mut Vec<u8>, event: &HubEvent) -> Result<(), AllocError>
    ensures { OnOk result ((rest : List ℕ) → volfiles.new.items ++ rest ≡ volfiles.old.items ++ switched_by event.now rest) }
{
    match event {
        HubEvent::Act(action) => {
            push_volfile(volfiles, action)?;
            Ok(())
        }
        _ => Ok(()),
    }
}

/// The volfiles of a log's graphs.
///
/// # Errors
/// Out of memory.
pub fn graphs_of(alloc: Global, script: &Script, log: &Log) -> Result<Vec<u8>, AllocError>
    ensures { IfOk result (λ volfiles. volfiles.items ≡ volfiles_of script.now log.now) }
{
    let mut volfiles = Vec::new(alloc);
    volfiles.push(script.start)?;
    for event in log.events.as_slice() {
        push_graph(&mut volfiles, event)?;
    }
    Ok(volfiles)
}

fn volfile_of(volfiles: &[u8], graph: u64) -> Option<u8>
    requires { 1 ≤ graph }
    ensures { result ≡ slice_get volfiles.now (graph - 1) }
{
    volfiles.get((graph - 1) as usize).copied()
}

/// The plan of a volfile, by its place among the plans, from 0; `None` where no volfile is given, or none is at that place.
pub fn plan_of(plans: &[Plan], volfile: Option<u8>) -> Option<&Plan>
    ensures { option_copied result ≡ plan_of_volfile plans.now volfile }
{
    match volfile {
        Some(volfile) => plans.get(volfile as usize),
        None => None,
    }
}

fn set_in(plan: &Plan, set: u8) -> Option<&SetPlan>
    ensures { option_copied result ≡ slice_get plan.now.sets set }
{
    plan.sets.as_slice().get(set as usize)
}

/// A set of a graph, whose number is from 1, by its place in the plan of the graph's volfile, from 0; `None` where there is no
/// such graph, its volfile has no plan, or the plan has no such set.
pub fn set_of<'a>(plans: &'a [Plan], volfiles: &[u8], graph: u64, set: u8) -> Option<&'a SetPlan>
    requires { 1 ≤ graph }
    ensures { option_copied result ≡ set_of_plan (plan_of_volfile plans.now (slice_get volfiles.now (graph - 1))) set }
{
    match plan_of(plans, volfile_of(volfiles, graph)) {
        Some(plan) => set_in(plan, set),
        None => None,
    }
}
