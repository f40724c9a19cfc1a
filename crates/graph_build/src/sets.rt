ghost use Rattle.std.specs.Prelude.{◌≡◌, ◌≤◌, ◌/◌, ◌+◌, length, IfOk, IfSome};
ghost use Rattle.std.specs.List.{AllByRecursion, slice_get};
ghost use Rattle.std.specs.Option.{option_copied};
ghost use Rattle.graph_build.specs.Known.{IsFew};
ghost use Rattle.graph_build.specs.Plans.{brick_in, bricks_at as bricks_at_places, bottoms_at as bottoms_at_places, distributed as distributed_of, is_distribute as is_distribute_of, members_of as members_of_set, name_in, names_at as names_at_places, set_at as set_at_place, sets_from, sets_of as sets_of_infos};

use crate::infos::{Info, Role};
use crate::known::bottom_at;
use fop_types::{Seq, SetPlan};
use std::alloc::{AllocError, Global};
use volfile::Volume;

fn is_distribute(role: Role) -> bool
    ensures { result ≡ is_distribute_of role }
{
    match role {
        Role::Client(_) => false,
        Role::Replicate => false,
        Role::Distribute => true,
        Role::IoCache(_) => false,
        Role::IoThreads => false,
        Role::Pass => false,
    }
}

// What the distribute volume is over, where there is one.
pub(crate) fn distributed(infos: &[Info]) -> Option<&Seq<u8>>
    requires few { AllByRecursion IsFew infos.now }
    ensures is { option_copied result ≡ distributed_of infos.now }
    ensures few { IfSome result (λ below. length below.now ≤ 256) }
{
    for info in infos {
        if is_distribute(info.role) {
            return Some(&info.below);
        }
    }
    None
}

fn bottoms_at(alloc: Global, infos: &[Info], places: &[u8]) -> Result<Vec<u8>, AllocError>
    ensures is { IfOk result (λ found. found.items ≡ bottoms_at_places infos.now places.now) }
    ensures size { IfOk result (λ found. length found.items ≡ length places.now) }
{
    let mut found = Vec::new(alloc);
    for place in places {
        found.push(bottom_at(infos, *place))?;
    }
    Ok(found)
}

// The places of the sets.
pub(crate) fn sets_of(alloc: Global, infos: &[Info]) -> Result<Vec<u8>, AllocError>
    requires few { AllByRecursion IsFew infos.now }
    requires size { length infos.now ≤ 256 }
    ensures is { IfOk result (λ found. found.items ≡ sets_of_infos infos.now) }
    ensures size { IfOk result (λ found. length found.items ≤ 256) }
{
    match distributed(infos) {
        None => {
            let mut found = Vec::new(alloc);
            found.push(bottom_at(infos, infos.len().saturating_sub(1) as u8))?;
            Ok(found)
        }
        Some(below) => {
            let found = bottoms_at(alloc, infos, below.as_slice())?;
            Ok(found)
        }
    }
}

// The places of the clients of a set.
fn members_of(alloc: Global, infos: &[Info], place: u8) -> Result<Vec<u8>, AllocError>
    requires few { AllByRecursion IsFew infos.now }
    ensures is { IfOk result (λ found. found.items ≡ members_of_set infos.now place) }
    ensures size { IfOk result (λ found. length found.items ≤ 256) }
{
    match infos.get(place as usize) {
        None => Ok(Vec::new(alloc)),
        Some(info) => match info.role {
            Role::Client(_) => {
                let mut found = Vec::new(alloc);
                found.push(place)?;
                Ok(found)
            }
            Role::Replicate => {
                let found = bottoms_at(alloc, infos, info.below.as_slice())?;
                Ok(found)
            }
            Role::Distribute => Ok(Vec::new(alloc)),
            Role::IoCache(_) => Ok(Vec::new(alloc)),
            Role::IoThreads => Ok(Vec::new(alloc)),
            Role::Pass => Ok(Vec::new(alloc)),
        },
    }
}

fn name_at(alloc: Global, volumes: &[Volume], place: u8) -> Result<Seq<u8>, AllocError>
    ensures { IfOk result (λ name. name ≡ name_in (slice_get volumes.now place)) }
{
    match volumes.get(place as usize) {
        None => Ok(Seq::new(alloc)),
        Some(volume) => {
            let name = volume.name.copy(alloc)?;
            Ok(name)
        }
    }
}

fn names_at(alloc: Global, volumes: &[Volume], places: &[u8]) -> Result<Seq<Seq<u8>>, AllocError>
    ensures { IfOk result (λ names. names ≡ names_at_places volumes.now places.now) }
{
    let mut names = Vec::new(alloc);
    for place in places {
        names.push(name_at(alloc, volumes, *place)?)?;
    }
    Ok(Seq::from_vec(names))
}

fn brick_at(infos: &[Info], place: u8) -> u8
    ensures { result ≡ brick_in (slice_get infos.now place) }
{
    match infos.get(place as usize) {
        None => 0,
        Some(info) => match info.role {
            Role::Client(brick) => brick,
            Role::Replicate => 0,
            Role::Distribute => 0,
            Role::IoCache(_) => 0,
            Role::IoThreads => 0,
            Role::Pass => 0,
        },
    }
}

fn bricks_at(alloc: Global, infos: &[Info], places: &[u8]) -> Result<Seq<u8>, AllocError>
    ensures { IfOk result (λ bricks. bricks ≡ bricks_at_places infos.now places.now) }
{
    let mut bricks = Vec::new(alloc);
    for place in places {
        bricks.push(brick_at(infos, *place))?;
    }
    Ok(Seq::from_vec(bricks))
}

// More than half of so many.
fn majority(size: usize) -> u8
    requires { size ≤ 256 }
    ensures { result ≡ (size + 1) / 2 }
{
    ((size + 1) / 2) as u8
}

fn set_at(
    alloc: Global,
    volumes: &[Volume],
    infos: &[Info],
    number: u8,
    place: u8,
) -> Result<SetPlan, AllocError>
    requires few { AllByRecursion IsFew infos.now }
    ensures { IfOk result (λ set. set ≡ set_at_place volumes.now infos.now number place) }
{
    let members = members_of(alloc, infos, place)?;
    let name = name_at(alloc, volumes, place)?;
    let bricks = bricks_at(alloc, infos, members.as_slice())?;
    let clients = names_at(alloc, volumes, members.as_slice())?;
    let q = majority(members.len());
    Ok(SetPlan {
        number,
        name,
        bricks,
        clients,
        q,
    })
}

// The sets at these places.
pub(crate) fn sets_at(
    alloc: Global,
    volumes: &[Volume],
    infos: &[Info],
    places: &[u8],
) -> Result<Vec<SetPlan>, AllocError>
    requires few { AllByRecursion IsFew infos.now }
    requires size { length places.now ≤ 256 }
    ensures { IfOk result (λ sets. sets.items ≡ sets_from volumes.now infos.now 0 places.now) }
{
    let mut sets = Vec::new(alloc);
    let mut number = 0;
    while number < places.len() {
        let set = set_at(alloc, volumes, infos, number as u8, places[number])?;
        sets.push(set)?;
        number += 1;
    }
    Ok(sets)
}
