//! The graphs of a report.
ghost use Rattle.std.specs.Prelude.{◌≡◌, ◌≢◌, ℕ, ◌<◌, ◌≤◌, ◌+◌, ◌-◌, ◌^◌, not, [], length, slice_get, if◌then◌else◌, IfOk, IfSome, IfNone};
ghost use Rattle.run_report.specs.Counting.{AreCountsOf};
ghost use Rattle.mount_log.specs.Graphs.{volfiles_of as volfiles_in};
ghost use Rattle.run_report.specs.Reports.{name_of_volfile, shown_graphs, AreFewWinds};

use fop_types::Seq;
use mount_log::{HubEvent, Log, WindLine};
use report_text::ReportGraph;
use script_lang::{Action, Script};
use std::alloc::{AllocError, Global};

/// The volfile of each graph of a run, the first graph's first: that of the script's start, and then that of each switch
/// that was carried out.
///
/// # Errors
/// Out of memory.
pub fn volfiles_of(alloc: Global, script: &Script, log: &Log) -> Result<Vec<u8>, AllocError>
    ensures { IfOk result (λ volfiles. volfiles.items ≡ volfiles_in script.now log.now) }
{
    let mut volfiles = Vec::new(alloc);
    volfiles.push(script.start)?;
    for event in log.events.as_slice() {
        match event {
            HubEvent::Act(Action::Switch(volfile)) => volfiles.push(*volfile)?,
            _ => {}
        }
    }
    Ok(volfiles)
}

// How many winds a graph has opened and ended.
#[derive(Clone, Copy)]
pub(crate) struct Winds {
    pub opened: u64,
    pub ended: u64,
}

// The counts of a graph with one line of it more.
pub(crate) fn with_line(winds: Winds, opened: bool) -> Winds
    requires { (winds.opened < 2 ^ 64 - 1) × (winds.ended < 2 ^ 64 - 1) }
    ensures opened { result.opened ≡ winds.opened + (if opened then 1 else 0) }
    ensures ended { result.ended ≡ winds.ended + (if not opened then 1 else 0) }
{
    if opened {
        Winds {
            opened: winds.opened + 1,
            ..winds
        }
    } else {
        Winds {
            ended: winds.ended + 1,
            ..winds
        }
    }
}

// The place of a graph among so many, of which the first has number 1.
fn place_in(graph: u32, many: usize) -> Option<usize>
    ensures there { IfSome result (λ at. (at + 1 ≡ graph) × (at < many)) }
    ensures none { IfNone result ((at : ℕ) → at < many → at + 1 ≢ graph) }
{
    if graph == 0 {
        return None;
    }
    let at = graph as usize - 1;
    if at < many { Some(at) } else { None }
}

// No winds of so many graphs.
fn no_winds(alloc: Global, graphs: usize) -> Result<Vec<Winds>, AllocError>
    ensures { IfOk result (λ counts. AreCountsOf graphs [] counts.items) }
{
    let mut counts = Vec::with_capacity(alloc, graphs)?;
    for _ in 0..graphs {
        counts.push(Winds {
            opened: 0,
            ended: 0,
        })?;
    }
    Ok(counts)
}

// The winds of each of so many graphs.
fn counts_of(alloc: Global, graphs: usize, winds: &[WindLine]) -> Result<Vec<Winds>, AllocError>
    ensures { IfOk result (λ counts. AreCountsOf graphs winds.now counts.items) }
{
    let mut counts = no_winds(alloc, graphs)?;
    let many = winds.len();
    for k in 0..many {
        let line = winds[k];
        let Some(at) = place_in(line.graph, counts.len()) else {
            continue;
        };
        counts[at] = with_line(counts[at], line.opened);
    }
    Ok(counts)
}

fn name_of(alloc: Global, script: &Script, volfile: u8) -> Result<Seq<u8>, AllocError>
    ensures { IfOk result (λ name. name ≡ name_of_volfile (slice_get script.now.volfiles volfile)) }
{
    match script.volfiles.as_slice().get(volfile as usize) {
        Some(named) => named.name.copy(alloc),
        None => Ok(Seq::new(alloc)),
    }
}

// The line of a graph with this number.
fn graph_line(
    alloc: Global,
    script: &Script,
    graph: u32,
    volfile: u8,
    winds: Winds,
) -> Result<ReportGraph, AllocError>
    requires { (winds.opened < 4294967296) × (winds.ended < 4294967296) }
    ensures { IfOk result (λ g. g ≡ record { graph = graph; name = name_of_volfile (slice_get script.now.volfiles volfile); opened = winds.opened; ended = winds.ended }) }
{
    let name = name_of(alloc, script, volfile)?;
    Ok(ReportGraph {
        graph,
        name,
        opened: winds.opened as u32,
        ended: winds.ended as u32,
    })
}

/// The graphs with their winds, by rising number.
///
/// # Errors
/// Out of memory.
pub fn graph_lines(
    alloc: Global,
    script: &Script,
    volfiles: &[u8],
    winds: &[WindLine],
) -> Result<Seq<ReportGraph>, AllocError>
    requires winds { AreFewWinds winds.now }
    requires few { length volfiles.now ≤ 4294967294 }
    ensures { IfOk result (λ graphs. graphs ≡ shown_graphs script.now winds.now 1 volfiles.now) }
{
    let counts = counts_of(alloc, volfiles.len(), winds)?;
    let mut graphs = Seq::new(alloc);
    for at in 0..volfiles.len() {
        let graph = graph_line(alloc, script, at as u32 + 1, volfiles[at], counts[at])?;
        graphs.push(graph)?;
    }
    Ok(graphs)
}
