//! Calls of one graph among those of a mount: what they leave of the others.
ghost use Rattle.std.specs.Prelude.{◌≡◌, ◌<◌, true, false, None, length, is_some, IfSome, IfOk, OnOk};
ghost use Rattle.std.specs.BTreeMap.{get, keys};
ghost use Rattle.std.specs.Ordering.{nat_cmp};
ghost use Rattle.fop_types.specs.Bounds.{IsFop, IsRep};
ghost use Rattle.graph_items.specs.Clients.{ended_at, last_at};
ghost use Rattle.graph_nodes.specs.declared.moved.Mount.{Mount};
ghost use Rattle.graph_nodes.specs.Among.{GivesAt, submits, holds, arrives, bails, runs_task};
ghost use Rattle.graph_nodes.specs.Live.{AllLive, KeepsMount, StaysLive};
ghost use Rattle.graph_nodes.specs.Ready.{tasks_in};
ghost use Rattle.graph_nodes.specs.Seen.{seen_graph, seen_in, changed_at, may_connect, next_connection, next_in, connects, Works, same_clients};

use crate::graph::Graph;
use crate::moved::{Mount, Moved};
use fop_types::{BrickRep, Fop, Gfid};
use std::alloc::Global;
use std::collections::BTreeMap;
use xlator_law::{Settled, Stop, WindNo};

/// A fop of a call enters a graph.
///
/// # Errors
/// As for [`Graph::submit`].
pub(crate) fn submit_in(
    alloc: Global,
    live: &mut BTreeMap<u32, Graph>,
    mount: &mut Mount,
    number: u32,
    call: u32,
    fop: Fop,
) -> Result<Option<Moved>, Stop>
    requires fop { IsFop fop }
    requires live { AllLive live.old mount.old }
    ensures live { OnOk result (AllLive live.new mount.new) }
    ensures gives { IfOk result (λ moved. IfSome moved (λ m. GivesAt number (submits call fop) live.old mount.old m live.new mount.new)) }
    ensures there { IfOk result (λ moved. is_some moved ≡ is_some (get nat_cmp live.old number)) }
    ensures numbers { keys live.new ≡ keys live.old }
    ensures graphs { OnOk result (Works same_clients number (seen_in live.old.entries) (seen_in live.new.entries)) }
    ensures inodes { mount.new.inodes ≡ mount.old.inodes }
{
    match live.get_mut(&number) {
        Some(graph) => {
            let moved = graph.submit(alloc, call, fop, mount)?;
            Ok(Some(moved))
        }
        None => {
            drop(fop);
            Ok(None)
        }
    }
}

/// The hold of a call was granted.
///
/// # Errors
/// As for [`Graph::submit`].
pub(crate) fn held_in(
    alloc: Global,
    live: &mut BTreeMap<u32, Graph>,
    mount: &mut Mount,
    number: u32,
    call: u32,
) -> Result<Option<Moved>, Stop>
    requires live { AllLive live.old mount.old }
    ensures live { OnOk result (AllLive live.new mount.new) }
    ensures gives { IfOk result (λ moved. IfSome moved (λ m. GivesAt number (holds call) live.old mount.old m live.new mount.new)) }
    ensures there { IfOk result (λ moved. is_some moved ≡ is_some (get nat_cmp live.old number)) }
    ensures numbers { keys live.new ≡ keys live.old }
    ensures graphs { OnOk result (Works same_clients number (seen_in live.old.entries) (seen_in live.new.entries)) }
    ensures inodes { mount.new.inodes ≡ mount.old.inodes }
{
    match live.get_mut(&number) {
        Some(graph) => {
            let moved = graph.held(alloc, call, mount)?;
            Ok(Some(moved))
        }
        None => Ok(None),
    }
}

/// An output arrives for a graph.
///
/// # Errors
/// As for [`Graph::submit`].
pub(crate) fn arrive_in(
    alloc: Global,
    live: &mut BTreeMap<u32, Graph>,
    mount: &mut Mount,
    number: u32,
    wind: WindNo,
    rep: BrickRep,
    taken: u64,
) -> Result<Option<(Option<Settled>, Moved)>, Stop>
    requires encoded { IsRep true rep }
    requires live { AllLive live.old mount.old }
    ensures live { OnOk result (AllLive live.new mount.new) }
    ensures gives { IfOk result (λ arrived. IfSome arrived (λ r. GivesAt number (arrives wind rep taken r.0) live.old mount.old r.1 live.new mount.new)) }
    ensures there { IfOk result (λ arrived. is_some arrived ≡ is_some (get nat_cmp live.old number)) }
    ensures numbers { keys live.new ≡ keys live.old }
    ensures graphs { OnOk result (Works same_clients number (seen_in live.old.entries) (seen_in live.new.entries)) }
    ensures inodes { mount.new.inodes ≡ mount.old.inodes }
{
    match live.get_mut(&number) {
        Some(graph) => {
            let arrived = graph.arrive(alloc, wind, rep, taken, mount)?;
            Ok(Some(arrived))
        }
        None => {
            drop(rep);
            Ok(None)
        }
    }
}

/// The connection of a graph to a brick ends.
///
/// # Errors
/// As for [`Graph::submit`].
pub(crate) fn bail_in(
    alloc: Global,
    live: &mut BTreeMap<u32, Graph>,
    mount: &mut Mount,
    number: u32,
    brick: u8,
) -> Result<Option<(u32, Moved)>, Stop>
    requires live { AllLive live.old mount.old }
    ensures live { OnOk result (AllLive live.new mount.new) }
    ensures gives { IfOk result (λ bailed. IfSome bailed (λ r. GivesAt number (bails brick r.0) live.old mount.old r.1 live.new mount.new)) }
    ensures there { IfOk result (λ bailed. is_some bailed ≡ is_some (get nat_cmp live.old number)) }
    ensures numbers { keys live.new ≡ keys live.old }
    ensures graphs { OnOk result (Works (λ cs. ended_at cs brick) number (seen_in live.old.entries) (seen_in live.new.entries)) }
    ensures inodes { mount.new.inodes ≡ mount.old.inodes }
{
    match live.get_mut(&number) {
        Some(graph) => {
            let bailed = graph.bail(alloc, brick, mount)?;
            Ok(Some(bailed))
        }
        None => Ok(None),
    }
}

/// A task of a graph is run.
///
/// # Errors
/// As for [`Graph::submit`].
pub(crate) fn run_task_in(
    alloc: Global,
    live: &mut BTreeMap<u32, Graph>,
    mount: &mut Mount,
    number: u32,
    task: u32,
) -> Result<Option<Moved>, Stop>
    requires live { AllLive live.old mount.old }
    ensures live { OnOk result (AllLive live.new mount.new) }
    ensures gives { IfOk result (λ moved. IfSome moved (λ m. GivesAt number (runs_task task) live.old mount.old m live.new mount.new)) }
    ensures absent { is_some (get nat_cmp live.old number) ≡ false → IfOk result (λ moved. moved ≡ None) }
    ensures numbers { keys live.new ≡ keys live.old }
    ensures graphs { OnOk result (Works same_clients number (seen_in live.old.entries) (seen_in live.new.entries)) }
    ensures inodes { mount.new.inodes ≡ mount.old.inodes }
{
    match live.get_mut(&number) {
        Some(graph) => graph.run_task(alloc, task, mount),
        None => Ok(None),
    }
}

// A graph opens its next connection to a brick that it uses and has no open connection to, unless the numbers of its
// connections have come to their end.
fn connect_next(graph: &mut Graph, brick: u8) -> Option<u32>
    ensures number { result ≡ next_connection graph.old.cx.clients brick }
    ensures connects { seen_graph graph.new ≡ connects brick (seen_graph graph.old) }
    ensures stays { (mount : Mount) → StaysLive graph.old mount graph.new mount }
    ensures kept { (mount : Mount) → KeepsMount graph.old mount graph.new mount }
    ensures ready { graph.new.cx.ready.keys ≡ graph.old.cx.ready.keys }
{
    let free = may_connect(graph, brick);
    if free {
        let number = graph.connect(brick);
        return Some(number);
    }
    None
}

fn may_connect(graph: &Graph, brick: u8) -> bool
    ensures exact { result ≡ may_connect graph.now.cx.clients brick }
    ensures needs { result ≡ true → (brick < length graph.now.cx.clients) × (last_at graph.now.cx.clients brick < 4294967295) }
{
    if graph.connection(brick).is_some() {
        return false;
    }
    graph.has_brick(brick) && graph.last(brick) < u32::MAX
}

/// A graph opens its next connection to a brick.
pub(crate) fn connect_in(live: &mut BTreeMap<u32, Graph>, number: u32, brick: u8) -> Option<u32>
    ensures live { (mount : Mount) → AllLive live.old mount → AllLive live.new mount }
    ensures absent { is_some (get nat_cmp live.old number) ≡ false → result ≡ None }
    ensures number { result ≡ next_in (seen_in live.old.entries) number brick }
    ensures connects { seen_in live.new.entries ≡ changed_at (connects brick) number (seen_in live.old.entries) }
    ensures numbers { keys live.new ≡ keys live.old }
    ensures tasks { tasks_in live.new.entries ≡ tasks_in live.old.entries }
{
    match live.get_mut(&number) {
        Some(graph) => connect_next(graph, brick),
        None => None,
    }
}

fn drop_pages_of(graph: &mut Graph, gfid: Gfid)
    ensures stays { (mount : Mount) → StaysLive graph.old mount graph.new mount }
    ensures kept { (mount : Mount) → KeepsMount graph.old mount graph.new mount }
    ensures ready { graph.new.cx.ready.keys ≡ graph.old.cx.ready.keys }
    ensures seen { seen_graph graph.new ≡ seen_graph graph.old }
{
    graph.drop_pages(gfid);
}

/// A graph drops the pages of a file. False comes where there is no such graph.
pub(crate) fn drop_pages_in(live: &mut BTreeMap<u32, Graph>, number: u32, gfid: Gfid) -> bool
    ensures live { (mount : Mount) → AllLive live.old mount → AllLive live.new mount }
    ensures there { result ≡ is_some (get nat_cmp live.old number) }
    ensures graphs { seen_in live.new.entries ≡ seen_in live.old.entries }
    ensures numbers { keys live.new ≡ keys live.old }
    ensures tasks { tasks_in live.new.entries ≡ tasks_in live.old.entries }
{
    match live.get_mut(&number) {
        Some(graph) => {
            drop_pages_of(graph, gfid);
            true
        }
        None => false,
    }
}

fn retire_of(graph: &mut Graph)
    ensures stays { (mount : Mount) → StaysLive graph.old mount graph.new mount }
    ensures kept { (mount : Mount) → KeepsMount graph.old mount graph.new mount }
    ensures ready { graph.new.cx.ready.keys ≡ graph.old.cx.ready.keys }
    ensures seen { seen_graph graph.new ≡ seen_graph graph.old }
{
    graph.retire();
}

/// A graph drops its pages, and keeps none from now on. False comes where there is no such graph.
pub(crate) fn retire_in(live: &mut BTreeMap<u32, Graph>, number: u32) -> bool
    ensures live { (mount : Mount) → AllLive live.old mount → AllLive live.new mount }
    ensures there { result ≡ is_some (get nat_cmp live.old number) }
    ensures graphs { seen_in live.new.entries ≡ seen_in live.old.entries }
    ensures numbers { keys live.new ≡ keys live.old }
    ensures tasks { tasks_in live.new.entries ≡ tasks_in live.old.entries }
{
    match live.get_mut(&number) {
        Some(graph) => {
            retire_of(graph);
            true
        }
        None => false,
    }
}
