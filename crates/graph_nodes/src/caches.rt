//! The pages of a graph's io-cache node, which are dropped from outside.
ghost use Rattle.std.specs.Prelude.{◌≡◌};
ghost use Rattle.graph_nodes.specs.Caching.{changed_at, node_with, retired, without_pages};

use crate::kinds::{Kind, Node};
use fop_types::Gfid;

/// Drops the pages of a file in the node with this number, if it is an io-cache.
pub(crate) fn drop_pages_at(nodes: &mut Vec<Node>, at: u16, gfid: Gfid)
    ensures { nodes.new.items ≡ changed_at (without_pages gfid) nodes.old.items at }
{
    match nodes.get_mut(at as usize) {
        Some(node) => clear_file(node, gfid),
        None => {}
    }
}

// Drops the pages of a file, if the node is an io-cache.
#[tactic(auto, using(crate::proofs::Caching::cache_changed))]
fn clear_file(node: &mut Node, gfid: Gfid)
    ensures { node.new ≡ node_with (without_pages gfid) node.old }
{
    match &mut node.kind {
        Kind::Root => {}
        Kind::Pass => {}
        Kind::IoThreads(_) => {}
        Kind::IoCache(cache) => cache.pages.drop_file(gfid),
        Kind::Distribute(_) => {}
        Kind::Replicate(_) => {}
        Kind::Client(_) => {}
    }
}

/// Retires the node with this number, if it is an io-cache.
pub(crate) fn retire_at(nodes: &mut Vec<Node>, at: u16)
    ensures { nodes.new.items ≡ changed_at retired nodes.old.items at }
{
    match nodes.get_mut(at as usize) {
        Some(node) => retire_cache(node),
        None => {}
    }
}

// Retires the node, if it is an io-cache.
#[tactic(auto, using(crate::proofs::Caching::cache_changed))]
fn retire_cache(node: &mut Node)
    ensures { node.new ≡ node_with retired node.old }
{
    match &mut node.kind {
        Kind::Root => {}
        Kind::Pass => {}
        Kind::IoThreads(_) => {}
        Kind::IoCache(cache) => cache.retire(),
        Kind::Distribute(_) => {}
        Kind::Replicate(_) => {}
        Kind::Client(_) => {}
    }
}
