ghost use Rattle.std.specs.Prelude.{◌≡◌, ◌≤◌, ◌<◌, ◌+◌, ◌++◌, ◌∷◌, [], ℕ, None, length, get_or, IfOk, OnOk};
ghost use Rattle.std.specs.List.{slice_get};
ghost use Rattle.graph_build.specs.PlanRules.{or_zero};
ghost use Rattle.graph_build.specs.Plans.{nodes_from, number_from, tops_at as tops_at_places, with_client, with_distribute, with_nodes};

use crate::infos::{Info, Role};
use crate::plans::{NodeKind, NodePlan};
use fop_types::Seq;
use std::alloc::{AllocError, Global};

fn no_numbers() -> [Option<u8>; 256]
    ensures size { length result ≡ 256 }
    ensures none { (place : ℕ) → get_or result place None ≡ None }
{
    [None; 256]
}

// The number of the set at each place.
pub(crate) fn numbers_of(sets: &[u8]) -> [Option<u8>; 256]
    requires { length sets.now ≤ 256 }
    ensures size { length result ≡ 256 }
    ensures is { (place : ℕ) → get_or result place None ≡ number_from 0 sets.now place }
{
    let mut numbers = no_numbers();
    let mut number = 0;
    while number < sets.len() {
        numbers[sets[number] as usize] = Some(number as u8);
        number += 1;
    }
    numbers
}

fn number_of(number: Option<u8>) -> u8
    ensures { result ≡ or_zero number }
{
    match number {
        None => 0,
        Some(number) => number,
    }
}

fn put(
    nodes: &mut Vec<NodePlan>,
    kind: NodeKind,
    children: Seq<u16>,
    cache_pages: u32,
) -> Result<(), AllocError>
    ensures { OnOk result (nodes.new.items ≡ nodes.old.items ++ record { kind = kind; children = children; cache_pages = cache_pages } ∷ []) }
{
    nodes.push(NodePlan {
        kind,
        children,
        cache_pages,
    })?;
    Ok(())
}

fn one_child(alloc: Global, child: u16) -> Result<Seq<u16>, AllocError>
    ensures { IfOk result (λ children. children ≡ child ∷ []) }
{
    let mut children = Seq::new(alloc);
    children.push(child)?;
    Ok(children)
}

// Puts a distribute node over the last of the nodes, where there is no distribute volume.
fn put_distribute(alloc: Global, nodes: &mut Vec<NodePlan>, alone: bool) -> Result<(), AllocError>
    requires { length nodes.old.items < 4096 }
    ensures is { OnOk result (nodes.new.items ≡ with_distribute alone nodes.old.items) }
    ensures few { OnOk result (length nodes.new.items ≤ length nodes.old.items + 1) }
{
    if alone {
        let last = nodes.len().saturating_sub(1);
        let children = one_child(alloc, last as u16)?;
        put(nodes, NodeKind::Distribute, children, 0)?;
    }
    Ok(())
}

fn put_client(
    alloc: Global,
    nodes: &mut Vec<NodePlan>,
    alone: bool,
    number: Option<u8>,
    brick: u8,
) -> Result<(), AllocError>
    requires { length nodes.old.items < 4000 }
    ensures is { OnOk result (nodes.new.items ≡ with_client alone number nodes.old.items brick) }
    ensures few { OnOk result (length nodes.new.items ≤ length nodes.old.items + 3) }
{
    let place = nodes.len();
    put(nodes, NodeKind::Client(brick), Seq::new(alloc), 0)?;
    match number {
        None => Ok(()),
        Some(number) => {
            let children = one_child(alloc, place as u16)?;
            put(nodes, NodeKind::Replicate(number), children, 0)?;
            put_distribute(alloc, nodes, alone)?;
            Ok(())
        }
    }
}

// Puts the nodes of a volume. `number` is that of its set, where it is one, and `alone` says that there is
// no distribute volume.
fn put_volume(
    alloc: Global,
    nodes: &mut Vec<NodePlan>,
    role: Role,
    alone: bool,
    number: Option<u8>,
    children: Seq<u16>,
) -> Result<(), AllocError>
    requires { length nodes.old.items < 4000 }
    ensures is { OnOk result (nodes.new.items ≡ with_nodes role alone number nodes.old.items children) }
    ensures few { OnOk result (length nodes.new.items ≤ length nodes.old.items + 3) }
{
    match role {
        Role::Client(brick) => {
            put_client(alloc, nodes, alone, number, brick)?;
            Ok(())
        }
        Role::Replicate => {
            put(nodes, NodeKind::Replicate(number_of(number)), children, 0)?;
            put_distribute(alloc, nodes, alone)?;
            Ok(())
        }
        Role::Distribute => {
            put(nodes, NodeKind::Distribute, children, 0)?;
            Ok(())
        }
        Role::IoCache(pages) => {
            put(nodes, NodeKind::IoCache, children, pages)?;
            Ok(())
        }
        Role::IoThreads => {
            put(nodes, NodeKind::IoThreads, children, 0)?;
            Ok(())
        }
        Role::Pass => {
            put(nodes, NodeKind::Pass, children, 0)?;
            Ok(())
        }
    }
}

fn top_at(tops: &[u16], place: u8) -> u16
    ensures { result ≡ or_zero (slice_get tops.now place) }
{
    match tops.get(place as usize) {
        None => 0,
        Some(top) => *top,
    }
}

// The last nodes of these volumes.
fn tops_at(alloc: Global, tops: &[u16], places: &[u8]) -> Result<Seq<u16>, AllocError>
    ensures { IfOk result (λ found. found ≡ tops_at_places tops.now places.now) }
{
    let mut found = Vec::new(alloc);
    for place in places {
        found.push(top_at(tops, *place))?;
    }
    Ok(Seq::from_vec(found))
}

// The nodes of all volumes.
pub(crate) fn nodes_of(
    alloc: Global,
    infos: &[Info],
    sets: &[u8],
    alone: bool,
) -> Result<Vec<NodePlan>, AllocError>
    requires size { length infos.now ≤ 256 }
    requires few { length sets.now ≤ 256 }
    ensures { IfOk result (λ nodes. nodes.items ≡ nodes_from alone sets.now [] [] infos.now) }
{
    let numbers = numbers_of(sets);
    let mut nodes = Vec::new(alloc);
    let mut tops = Vec::new(alloc);
    for info in infos {
        let children = tops_at(alloc, tops.as_slice(), info.below.as_slice())?;
        let number = numbers[tops.len()];
        put_volume(alloc, &mut nodes, info.role, alone, number, children)?;
        let top = nodes.len().saturating_sub(1);
        tops.push(top as u16)?;
    }
    Ok(nodes)
}
