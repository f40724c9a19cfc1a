ghost use Rattle.std.specs.Prelude.{◌≡◌, ◌≤◌, ◌<◌, ◌+◌, [], ℕ, List, length, Ok, Err, IfOk, OnErr, IsErrOf};
ghost use Rattle.std.specs.Option.{MatchOption};
ghost use Rattle.volfile.specs.VolumeNames.{place_in, place_of};
ghost use Rattle.graph_build.specs.PlanRules.{added, info_of, infos_from};
ghost use Rattle.graph_build.specs.declared.errors.PlanError.TheVariants.{At};
ghost use Rattle.graph_build.specs.declared.errors.PlanKind.{PlanKind as Kind};

use crate::errors::{PlanError, PlanKind};
use crate::known::Known;
use crate::places::places;
use crate::roles::role_of;
use std::alloc::{AllocError, Global};
use volfile::{BrickLine, Volume, VolumeNames};

// What is known of all volumes.
pub(crate) fn known_of(
    alloc: Global,
    volumes: &[Volume],
    names: &VolumeNames,
    bricks: &[BrickLine],
) -> Result<Known, PlanError>
    requires named { (name : List ℕ) → place_in names.now name ≡ place_of name volumes.now }
    requires few { length volumes.now ≤ 256 }
    requires bricks { length bricks.now ≤ 60 }
    ensures ok { IfOk result (λ known. infos_from volumes.now bricks.now [] volumes.now ≡ Ok known) }
    ensures refused { (place : ℕ) (kind : Kind) → IsErrOf result (At place kind) → infos_from volumes.now bricks.now [] volumes.now ≡ Err (At place kind) }
    ensures size { IfOk result (λ known. length known ≤ 256) }
{
    let mut known = Known::new(alloc);
    for volume in volumes {
        if let Some(kind) = add_volume(alloc, &mut known, volumes, names, bricks, volume)? {
            return Err(PlanError::At {
                volume: known.len() as u16,
                kind,
            });
        }
    }
    Ok(known)
}

// Adds the volume behind those that are known, or says which rule does not hold of it.
#[tactic(auto, unfolding(crate::specs::PlanRules::info_of))]
fn add_volume(
    alloc: Global,
    known: &mut Known,
    volumes: &[Volume],
    names: &VolumeNames,
    bricks: &[BrickLine],
    volume: &Volume,
) -> Result<Option<PlanKind>, AllocError>
    requires named { (name : List ℕ) → place_in names.now name ≡ place_of name volumes.now }
    requires few { length volumes.now ≤ 256 }
    requires bricks { length bricks.now ≤ 60 }
    requires room { length known.old < 256 }
    ensures ok { IfOk result (λ no. MatchOption no (added (info_of volumes.now bricks.now known.old volume.now) known.old ≡ Ok known.new)
        (λ kind. (added (info_of volumes.now bricks.now known.old volume.now) known.old ≡ Err kind) × (known.new ≡ known.old))) }
    ensures err { OnErr result (known.new ≡ known.old) }
{
    match role_of(known, bricks, volume) {
        Err(kind) => Ok(Some(kind)),
        Ok(role) => {
            let below = places(alloc, volumes, names, volume.subvolumes.as_slice())?;
            known.add(role, below)
        }
    }
}
