ghost use Rattle.std.specs.Prelude.{◌≡◌, ◌<◌, ◌+◌, ◌↔◌, [], min, IfOk, IsTrue, length, map, slice_get};
ghost use Rattle.std.specs.BTreeSet.{contains_by};
ghost use Rattle.std.specs.Ordering.{nat_cmp};
ghost use Rattle.frame_driver.specs.Follows.{Fits};
ghost use Rattle.frame_driver.specs.Machine.{empty_board};
ghost use Rattle.graph_items.specs.Clients.{new_clients, connection_at, last_at, connected_at};
ghost use Rattle.graph_nodes.specs.Caching.{cached_by, retired, without_pages};
ghost use Rattle.graph_nodes.specs.Plans.{IsPlan, with_brick, bricks_in};
ghost use Rattle.graph_nodes.specs.Promises.{node_promise};

use crate::caches::{drop_pages_at, retire_at};
use crate::context::Context;
use crate::kinds::Node;
use crate::ledgers::MountLedger;
use crate::locals::Local;
use crate::outer::AtBrick;
use crate::tree::{last_of, tree_of};
use fop_types::Gfid;
use frame_driver::{Board, Queue, Wiring};
use graph_build::{NodeKind, Plan};
use graph_items::{Clients, Down, Up};
use std::alloc::{AllocError, Global};
use std::collections::{BTreeMap, BTreeSet};

/// The graph of a plan: its nodes, what is below each, the board of its frames, and what its nodes share; the frame of
/// each call that waits for its hold; and the winds that are open at each brick. `top` is the number of the root, `cache`
/// that of the io-cache node, where there is one: above the sets each node has one child, and no io-cache is above
/// another.
#[derive(Drop)]
pub struct Graph {
    pub(crate) nodes: Vec<Node>,
    pub(crate) wiring: Wiring,
    pub(crate) board: Board<Down, Up, Local>,
    pub(crate) cx: Context,
    pub(crate) top: u16,
    pub(crate) waits: BTreeMap<u32, u32>,
    pub(crate) outer: Vec<AtBrick>,
    pub(crate) cache: Option<u16>,
}

fn with_brick(count: u8, kind: NodeKind) -> u8
    ensures { result ≡ with_brick count kind }
{
    match kind {
        NodeKind::Client(brick) => count.max(brick.saturating_add(1)),
        _ => count,
    }
}

// One more than the greatest number of a brick that the plan uses.
fn bricks_of(plan: &Plan) -> u8
    ensures { result ≡ bricks_in plan.now.nodes }
{
    let mut count: u8 = 0;
    for node in plan.nodes.as_slice() {
        count = with_brick(count, node.kind);
    }
    count
}

// No winds at each of so many bricks.
fn outer_of(alloc: Global, bricks: u8) -> Result<Vec<AtBrick>, AllocError> {
    let mut outer = Vec::new(alloc);
    for _ in 0..bricks {
        outer.push(AtBrick::new(alloc))?;
    }
    Ok(outer)
}

// The number of the plan's io-cache.
fn cache_of(plan: &Plan) -> Option<u16> {
    let nodes = plan.nodes.as_slice();
    for at in 0..nodes.len() {
        if at > u16::MAX as usize {
            return None;
        }
        match nodes[at].kind {
            NodeKind::IoCache => return Some(at as u16),
            _ => {}
        }
    }
    None
}

// What the nodes of a new graph share. The ledger is an empty one, until the mount's is borrowed.
fn context_of(alloc: Global, bricks: u8, number: u32) -> Result<Context, AllocError>
    ensures clients { IfOk result (λ cx. cx.clients ≡ new_clients bricks number) }
    ensures ready { IfOk result (λ cx. cx.ready.keys ≡ []) }
{
    let clients = Clients::new(alloc, bricks, number)?;
    Ok(Context {
        ledger: MountLedger::new(alloc),
        clients,
        root_sets: 1,
        holds: Queue::new(alloc),
        copies: Queue::new(alloc),
        skips: Queue::new(alloc),
        ready: BTreeSet::new(alloc),
    })
}

impl Graph {
    /// The graph of a plan that `build` gives. It has no frames, and no connection is
    /// open.
    ///
    /// # Errors
    /// Out of memory. A plan without nodes, or with more than 65,534, would be answered so too; `build` gives none.
    pub fn new(alloc: Global, plan: &Plan, number: u32) -> Result<Graph, AllocError>
        requires { IsPlan plan.now }
        ensures board { IfOk result (λ g. g.board ≡ empty_board number) }
        ensures fits { IfOk result (λ g. Fits (map node_promise g.nodes.items) g.wiring) }
        ensures top { IfOk result (λ g. g.top < length g.nodes.items) }
        ensures clients { IfOk result (λ g. g.cx.clients ≡ new_clients (bricks_in plan.now.nodes) number) }
        ensures ready { IfOk result (λ g. g.cx.ready.keys ≡ []) }
    {
        let bricks = bricks_of(plan);
        let tree = tree_of(alloc, plan)?;
        let Some(top) = last_of(tree.nodes.as_slice()) else {
            return Err(AllocError);
        };
        let outer = outer_of(alloc, bricks)?;
        let cx = context_of(alloc, bricks, number)?;
        Ok(Graph {
            nodes: tree.nodes,
            wiring: tree.wiring,
            board: Board::new(alloc, number),
            cx,
            top,
            waits: BTreeMap::new(alloc),
            outer,
            cache: cache_of(plan),
        })
    }

    /// Whether the graph uses this brick, or one with a greater number.
    pub(crate) fn has_brick(&self, brick: u8) -> bool
        ensures { IsTrue result ↔ (brick < length self.now.cx.clients) }
    {
        self.cx.clients.has(brick)
    }

    /// Opens the next connection to a brick that the graph uses and has no open connection to, and gives its number. The
    /// last number is below 4,294,967,295.
    pub fn connect(&mut self, brick: u8) -> u32
        requires there { brick < length self.old.cx.clients }
        requires last { last_at self.old.cx.clients brick < 4294967295 }
        ensures number { result ≡ last_at self.old.cx.clients brick + 1 }
        ensures board { self.new.board ≡ self.old.board }
        ensures nodes { self.new.nodes.items ≡ self.old.nodes.items }
        ensures wiring { self.new.wiring ≡ self.old.wiring }
        ensures top { self.new.top ≡ self.old.top }
        ensures connected { self.new.cx ≡ record self.old.cx { clients = connected_at self.old.cx.clients brick } }
    {
        self.cx.clients.connect(brick)
    }

    /// The number of the open connection to a brick, `None` exactly where none is open.
    pub fn connection(&self, brick: u8) -> Option<u32>
        ensures { result ≡ connection_at self.now.cx.clients brick }
    {
        self.cx.clients.connection(brick)
    }

    /// The number of the last connection to a brick, 0 where there was none.
    pub fn last(&self, brick: u8) -> u32
        ensures { result ≡ last_at self.now.cx.clients brick }
    {
        self.cx.clients.last(brick)
    }

    /// How many tasks are ready: the io-threads nodes in which a frame waits.
    pub fn ready_len(&self) -> u32
        ensures { result ≡ min (length self.now.cx.ready.keys) 4294967295 }
    {
        self.cx.ready.len().min(u32::MAX as usize) as u32
    }

    /// The ready task with so many lower ones.
    pub fn ready_at(&self, at: u32) -> Option<u32>
        ensures { result ≡ slice_get self.now.cx.ready.keys at }
    {
        match self.cx.ready.iter().nth(at as usize) {
            Some(task) => Some(*task as u32),
            None => None,
        }
    }

    /// Whether a task is ready.
    #[tactic(auto, using(crate::proofs::Ready::behind_last, crate::proofs::Ready::none_ready))]
    pub fn is_ready(&self, task: u32) -> bool
        ensures { result ≡ contains_by (nat_cmp task) self.now.cx.ready }
    {
        match self.cx.ready.last() {
            Some(last) => task <= *last as u32 && self.cx.ready.contains(&(task as u16)),
            None => false,
        }
    }

    /// Drops the pages of a file.
    pub fn drop_pages(&mut self, gfid: Gfid)
        ensures board { self.new.board ≡ self.old.board }
        ensures promises { map node_promise self.new.nodes.items ≡ map node_promise self.old.nodes.items }
        ensures wiring { self.new.wiring ≡ self.old.wiring }
        ensures top { self.new.top ≡ self.old.top }
        ensures nodes { self.new.nodes.items ≡ cached_by (without_pages gfid) self.old.cache self.old.nodes.items }
        ensures cx { self.new.cx ≡ self.old.cx }
    {
        let Some(at) = self.cache else {
            return;
        };
        drop_pages_at(&mut self.nodes, at, gfid);
    }

    /// Drops all pages, and keeps none from now on.
    pub fn retire(&mut self)
        ensures board { self.new.board ≡ self.old.board }
        ensures promises { map node_promise self.new.nodes.items ≡ map node_promise self.old.nodes.items }
        ensures wiring { self.new.wiring ≡ self.old.wiring }
        ensures top { self.new.top ≡ self.old.top }
        ensures nodes { self.new.nodes.items ≡ cached_by retired self.old.cache self.old.nodes.items }
        ensures cx { self.new.cx ≡ self.old.cx }
    {
        let Some(at) = self.cache else {
            return;
        };
        retire_at(&mut self.nodes, at);
    }

    /// Whether no frame of the graph is open.
    pub fn is_drained(&self) -> bool
        ensures { IsTrue result ↔ (self.now.board.frames ≡ 0) }
    {
        self.board.frames == 0
    }
}
