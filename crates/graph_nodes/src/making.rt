//! Graphs that come to a mount, and that go.
ghost use Rattle.std.specs.Prelude.{ℕ, ◌≡◌, ◌||◌, ◌&&◌, not, true, is_some, IsSomeAnd, IfOk, OnOk, OnErr, if◌then◌else◌};
ghost use Rattle.std.specs.BTreeMap.{get, insert_entry, is_at, keys};
ghost use Rattle.std.specs.Map.{remove_entry};
ghost use Rattle.std.specs.Ordering.{nat_cmp};
ghost use Rattle.graph_nodes.specs.declared.moved.Mount.{Mount};
ghost use Rattle.graph_nodes.specs.Live.{AllLive};
ghost use Rattle.graph_nodes.specs.Plans.{IsPlan};
ghost use Rattle.graph_nodes.specs.Ready.{tasks_in};
ghost use Rattle.graph_nodes.specs.Seen.{seen_in, is_drained_in, new_graph};

use crate::graph::Graph;
use graph_build::Plan;
use std::alloc::{AllocError, Global};
use std::collections::BTreeMap;

/// A graph of this number comes, unless there is one.
///
/// # Errors
/// Out of memory.
pub(crate) fn make_in(
    alloc: Global,
    live: &mut BTreeMap<u32, Graph>,
    plan: &Plan,
    number: u32,
) -> Result<bool, AllocError>
    requires plan { IsPlan plan.now }
    ensures live { OnOk result ((mount : Mount) → AllLive live.old mount → AllLive live.new mount) }
    ensures made { IfOk result (λ made. made ≡ not (is_some (get nat_cmp live.old number))) }
    ensures numbers { OnOk result ((q : ℕ) → is_some (get nat_cmp live.new q) ≡ (is_at (nat_cmp number) q || is_some (get nat_cmp live.old q))) }
    ensures graphs { IfOk result (λ made. seen_in live.new.entries ≡ (if made then insert_entry nat_cmp (seen_in live.old.entries) number (new_graph plan.now number) else seen_in live.old.entries)) }
    ensures tasks { OnOk result (tasks_in live.new.entries ≡ tasks_in live.old.entries) }
    ensures err { OnErr result (keys live.new ≡ keys live.old) }
{
    let there = live.contains_key(&number);
    if there {
        return Ok(false);
    }
    let graph = Graph::new(alloc, plan, number)?;
    drop(live.insert(number, graph)?);
    Ok(true)
}

// Whether there is a graph of this number, without frames.
fn is_drained_in(live: &BTreeMap<u32, Graph>, number: u32) -> bool
    ensures frames { result ≡ true → IsSomeAnd (get nat_cmp live.now number) (λ g. g.board.frames ≡ 0) }
    ensures drained { result ≡ is_drained_in (seen_in live.now.entries) number }
{
    match live.get(&number) {
        Some(graph) => graph.is_drained(),
        None => false,
    }
}

/// A graph without frames goes.
pub(crate) fn remove_in(live: &mut BTreeMap<u32, Graph>, number: u32) -> bool
    ensures live { (mount : Mount) → AllLive live.old mount → AllLive live.new mount }
    ensures numbers { (q : ℕ) → is_some (get nat_cmp live.new q) ≡ (not (result && is_at (nat_cmp number) q) && is_some (get nat_cmp live.old q)) }
    ensures drained { result ≡ is_drained_in (seen_in live.old.entries) number }
    ensures graphs { seen_in live.new.entries ≡ (if result then remove_entry (is_at (nat_cmp number)) (seen_in live.old.entries) else seen_in live.old.entries) }
{
    let drained = is_drained_in(live, number);
    if drained {
        drop(live.remove(&number));
        return true;
    }
    false
}
