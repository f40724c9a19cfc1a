ghost use Rattle.std.specs.Prelude.{◌≡◌, ◌≤◌, ℕ, List, length, IfOk};
ghost use Rattle.volfile.specs.VolumeNames.{place_in, place_of};
ghost use Rattle.graph_build.specs.PlanRules.{or_zero, places_of};

use fop_types::Seq;
use std::alloc::{AllocError, Global};
use volfile::{Volume, VolumeNames};

// Where each name first is among the volumes.
pub(crate) fn names_of(alloc: Global, volumes: &[Volume]) -> Result<VolumeNames, AllocError>
    ensures { IfOk result (λ names. (name : List ℕ) → place_in names name ≡ place_of name volumes.now) }
{
    let mut names = VolumeNames::new(alloc);
    let mut place = volumes.len();
    while place > 0 {
        place -= 1;
        let volume = &volumes[place];
        names.add(alloc, volume.name.as_slice(), place)?;
    }
    Ok(names)
}

// The places of subvolumes.
pub(crate) fn places(
    alloc: Global,
    volumes: &[Volume],
    names: &VolumeNames,
    subvolumes: &[Seq<u8>],
) -> Result<Seq<u8>, AllocError>
    requires named { (name : List ℕ) → place_in names.now name ≡ place_of name volumes.now }
    requires few { length volumes.now ≤ 256 }
    ensures { IfOk result (λ found. found ≡ places_of volumes.now subvolumes.now) }
{
    let mut found = Vec::new(alloc);
    for name in subvolumes {
        found.push(place(volumes, names, name))?;
    }
    Ok(Seq::from_vec(found))
}

fn place(volumes: &[Volume], names: &VolumeNames, name: &Seq<u8>) -> u8
    requires named { (name : List ℕ) → place_in names.now name ≡ place_of name volumes.now }
    requires few { length volumes.now ≤ 256 }
    ensures { result ≡ or_zero (place_of name.now volumes.now) }
{
    match names.find(name.as_slice()) {
        None => 0,
        Some(place) => { if place < 256 { place as u8 } else { 0 } }
    }
}
