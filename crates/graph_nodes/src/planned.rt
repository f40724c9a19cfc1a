//! The kind of each node of a plan, with what the node has.
ghost use Rattle.std.specs.Prelude.{◌≡◌, ◌≤◌, IfOk, IsSomeAnd, map, slice_get};
ghost use Rattle.fop_types.specs.Jobs.{IsSetPlan};
ghost use Rattle.graph_build.specs.PlanLaw.{AreSets};
ghost use Rattle.graph_nodes.specs.Plans.{HasNeeds};

use crate::kinds::{BrickClient, Distribute, IoCache, IoThreads, Kind, Replicate};
use crate::names::SetNames;
use fop_types::{Seq, SetPlan};
use graph_build::{NodeKind, NodePlan};
use io_cache::PageCache;
use io_threads::Queues;
use std::alloc::{AllocError, Global};
use std::collections::BTreeMap;

fn copy_all(alloc: Global, names: &[Seq<u8>]) -> Result<Seq<Seq<u8>>, AllocError>
    ensures { IfOk result (λ copies. copies ≡ names.now) }
{
    let mut copies = Seq::new(alloc);
    for name in names {
        let copied = name.copy(alloc)?;
        copies.push(copied)?;
    }
    Ok(copies)
}

fn copy_set(alloc: Global, set: &SetPlan) -> Result<SetPlan, AllocError>
    ensures { IfOk result (λ s. s ≡ set.now) }
{
    let name = set.name.copy(alloc)?;
    let bricks = set.bricks.copy(alloc)?;
    let clients = copy_all(alloc, set.clients.as_slice())?;
    Ok(SetPlan {
        number: set.number,
        name,
        bricks,
        clients,
        q: set.q,
    })
}

fn names_of(alloc: Global, sets: &[SetPlan]) -> Result<SetNames, AllocError>
    requires { AreSets sets.now }
    ensures { IfOk result (λ names. names ≡ map (λ s. s.name) sets.now) }
{
    let mut names = SetNames::new(alloc);
    for set in sets {
        let name = set.name.copy(alloc)?;
        names.push(name)?;
    }
    Ok(names)
}

#[tactic(auto, using(crate::proofs::Plans::count_names))]
fn distribute_of(alloc: Global, sets: &[SetPlan]) -> Result<Kind, AllocError>
    requires { AreSets sets.now }
{
    let names = names_of(alloc, sets)?;
    Ok(Kind::Distribute(Distribute {
        names,
        sets: sets.len() as u8,
        kept: BTreeMap::new(alloc),
    }))
}

#[tactic(auto, using(crate::proofs::Plans::odd_replicas, crate::proofs::Plans::few_replicas, crate::proofs::Plans::half_replicas))]
fn replicate_of(alloc: Global, set: &SetPlan) -> Result<Kind, AllocError>
    requires { IsSetPlan set.now }
{
    let plan = copy_set(alloc, set)?;
    Ok(Kind::Replicate(Replicate { plan }))
}

// The node of the set with this number, which there is.
fn set_of(alloc: Global, sets: &[SetPlan], number: u8) -> Result<Kind, AllocError>
    requires { IsSomeAnd (slice_get sets.now number) IsSetPlan }
{
    match sets.get(number as usize) {
        Some(set) => replicate_of(alloc, set),
        None => unreachable!(),
    }
}

fn cache_of(alloc: Global, pages: u32) -> Result<Kind, AllocError>
    requires { 1 ≤ pages }
{
    let pages = PageCache::new(alloc, pages)?;
    Ok(Kind::IoCache(IoCache {
        pages,
        retired: false,
    }))
}

/// The kind of the node with this number.
///
/// # Errors
/// Out of memory.
pub(crate) fn kind_of(
    alloc: Global,
    sets: &[SetPlan],
    planned: &NodePlan,
    number: u16,
) -> Result<Kind, AllocError>
    requires { HasNeeds sets.now planned.now }
{
    match planned.kind {
        NodeKind::Client(brick) => Ok(Kind::Client(BrickClient { brick })),
        NodeKind::Replicate(number) => set_of(alloc, sets, number),
        NodeKind::Distribute => distribute_of(alloc, sets),
        NodeKind::IoCache => cache_of(alloc, planned.cache_pages),
        NodeKind::IoThreads => Ok(Kind::IoThreads(IoThreads {
            number,
            queues: Queues::new(alloc),
            waiting: 0,
        })),
        NodeKind::Pass => Ok(Kind::Pass),
    }
}
