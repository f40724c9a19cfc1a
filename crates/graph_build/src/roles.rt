ghost use Rattle.std.specs.Prelude.{◌≡◌, ◌≤◌, length};
ghost use Rattle.graph_build.specs.PlanRules.{cache_of as cache_of_pages, client_of as client_of_brick, replicate_of as replicate_of_volume, role_of as role_of_volume, where_counted as where_counted_right};

use crate::errors::PlanKind;
use crate::infos::Role;
use crate::known::Known;
use crate::options::{brick_of, is_bad_replica, is_not_auto, is_pass, pages_of};
use volfile::{BrickLine, Volume, is_same};

// What a volume is, or the rule of its type that does not hold of it.
#[tactic(auto, unfolding(crate::specs::PlanRules::role_of))]
pub(crate) fn role_of(
    known: &Known,
    bricks: &[BrickLine],
    volume: &Volume,
) -> Result<Role, PlanKind>
    requires few { length bricks.now ≤ 60 }
    ensures { result ≡ role_of_volume bricks.now known.now volume.now }
{
    let kind = volume.kind.as_slice();
    let below = volume.subvolumes.len();
    if is_same(kind, b"protocol/client") {
        return where_counted(below == 0, client_of(known, brick_of(volume, bricks)));
    }
    if is_same(kind, b"cluster/replicate") {
        return replicate_of(volume);
    }
    if is_same(kind, b"cluster/distribute") {
        return where_counted(1 <= below, Ok(Role::Distribute));
    }
    if is_same(kind, b"performance/io-cache") {
        return where_counted(below == 1, cache_of(pages_of(volume)));
    }
    if is_same(kind, b"performance/io-threads") {
        return where_counted(below == 1, Ok(Role::IoThreads));
    }
    if is_pass(kind) {
        return where_counted(below == 1, Ok(Role::Pass));
    }
    Err(PlanKind::UnknownKind)
}

fn where_counted(right: bool, role: Result<Role, PlanKind>) -> Result<Role, PlanKind>
    ensures { result ≡ where_counted_right right role }
{
    if right {
        role
    } else {
        Err(PlanKind::SubvolumeCount)
    }
}

fn client_of(known: &Known, brick: Option<u8>) -> Result<Role, PlanKind>
    ensures { result ≡ client_of_brick known.now brick }
{
    match brick {
        None => Err(PlanKind::NoBrick),
        Some(brick) => {
            if known.is_taken(brick) {
                return Err(PlanKind::BrickTwice);
            }
            Ok(Role::Client(brick))
        }
    }
}

fn replicate_of(volume: &Volume) -> Result<Role, PlanKind>
    ensures { result ≡ replicate_of_volume volume.now }
{
    if is_bad_replica(volume) {
        return Err(PlanKind::BadReplica);
    }
    if is_not_auto(volume) {
        return Err(PlanKind::NotAuto);
    }
    Ok(Role::Replicate)
}

fn cache_of(pages: Option<u32>) -> Result<Role, PlanKind>
    ensures { result ≡ cache_of_pages pages }
{
    match pages {
        None => Err(PlanKind::BadOption),
        Some(pages) => Ok(Role::IoCache(pages)),
    }
}
