ghost use Rattle.std.specs.Prelude.{◌≡◌, ◌≤◌, ℕ, length, Ok, Err, IfOk, IsErrOf};
ghost use Rattle.std.specs.List.{AllByRecursion};
ghost use Rattle.graph_build.specs.Known.{IsFew};
ghost use Rattle.graph_build.specs.Plans.{plan_of as plan_of_infos, planned};
ghost use Rattle.graph_build.specs.declared.errors.PlanError.TheVariants.{At};
ghost use Rattle.graph_build.specs.declared.errors.PlanKind.{PlanKind as Kind};

use crate::errors::{PlanError, PlanKind};
use crate::infos::Info;
use crate::nodes::nodes_of;
use crate::places::names_of;
use crate::plans::Plan;
use crate::sets::{distributed, sets_at, sets_of};
use crate::volumes::known_of;
use fop_types::Seq;
use std::alloc::{AllocError, Global};
use volfile::{BrickLine, Volfile, Volume};

/// The plan of a volfile over these bricks. The volfile has at most 256 volumes, as one that
/// [`volfile::parse`] gives, and there are at most 60 bricks.
///
/// It takes time of the order of n log n for n words of the volfile.
///
/// # Errors
/// `At` exactly where the volfile has no plan, with the first volume that is refused and its kind. `Mem`
/// where it runs out of memory.
pub fn build(alloc: Global, v: &Volfile, bricks: &[BrickLine]) -> Result<Plan, PlanError>
    requires small { length v.now.volumes ≤ 256 }
    requires few { length bricks.now ≤ 60 }
    ensures ok { IfOk result (λ plan. planned v.now.volumes bricks.now ≡ Ok plan) }
    ensures refused { (volume : ℕ) (kind : Kind) → IsErrOf result (At volume kind) → planned v.now.volumes bricks.now ≡ Err (At volume kind) }
{
    build_volumes(alloc, v.volumes.as_slice(), bricks)
}

fn build_volumes(alloc: Global, volumes: &[Volume], bricks: &[BrickLine]) -> Result<Plan, PlanError>
    requires size { length volumes.now ≤ 256 }
    requires few { length bricks.now ≤ 60 }
    ensures ok { IfOk result (λ plan. planned volumes.now bricks.now ≡ Ok plan) }
    ensures refused { (volume : ℕ) (kind : Kind) → IsErrOf result (At volume kind) → planned volumes.now bricks.now ≡ Err (At volume kind) }
{
    let names = names_of(alloc, volumes)?;
    let known = known_of(alloc, volumes, &names, bricks)?;
    if let Some(place) = known.first_unused() {
        return Err(PlanError::At {
            volume: place as u16,
            kind: PlanKind::Unused,
        });
    }
    let infos = known.into_infos();
    let plan = plan_of(alloc, volumes, infos.as_slice())?;
    Ok(plan)
}

fn plan_of(alloc: Global, volumes: &[Volume], infos: &[Info]) -> Result<Plan, AllocError>
    requires few { AllByRecursion IsFew infos.now }
    requires size { length infos.now ≤ 256 }
    ensures { IfOk result (λ plan. plan ≡ plan_of_infos volumes.now infos.now) }
{
    let places = sets_of(alloc, infos)?;
    let alone = distributed(infos).is_none();
    let nodes = nodes_of(alloc, infos, places.as_slice(), alone)?;
    let sets = sets_at(alloc, volumes, infos, places.as_slice())?;
    Ok(Plan {
        nodes: Seq::from_vec(nodes),
        sets: Seq::from_vec(sets),
    })
}
