//! The lookups of a call, by what they are said to have found.
ghost use Rattle.std.specs.Prelude.{◌≡◌, ◌++◌, drop, IfOk, IfSome, OnOk};
ghost use Rattle.fop_types.specs.Calls.{looked_up, lookups as lookups_in};
ghost use Rattle.fop_types.specs.Cells.{root};
ghost use Rattle.flat_fs.specs.Walks.{objects};
ghost use Rattle.history_replay.specs.code.Cases.{last_found as last_found_of};
ghost use Rattle.history_replay.specs.code.Claims.{path_claims as claims_of_path, path_end as end_of_path, walk_claims as claims_of_walk, ends_by, walk_ends, or_other, next_in as next_of_path, next_lookup as next_of_walk};

use crate::claims::Claim;
use call_fops::{first_path, second_path};
use flat_fs::Found;
use fop_types::{Call, FlatOp, Gfid, Seq};
use std::alloc::{AllocError, Global};

pub(crate) const ROOT: Gfid = Gfid { hi: 0, lo: 1 };

/// How many lookups a call takes.
#[tactic(auto, using(crate::proofs::Paths::lookups_is))]
pub(crate) fn lookups(call: &Call) -> Option<usize>
    ensures { IfSome result (λ n. n ≡ lookups_in (looked_up call.now)) }
{
    first_path(call).len().checked_add(second_path(call).len())
}

// The places or objects behind so many.
pub(crate) fn behind<T>(items: &[T], count: usize) -> &[T]
    ensures { result.now ≡ drop count items.now }
{
    if count <= items.len() {
        &items[count..]
    } else {
        &[]
    }
}

// Claims what the lookups of a path found, as far as there are places and objects, and gives the last of these.
fn claim_path(
    alloc: Global,
    path: &[Seq<u8>],
    places: &[u32],
    found: &[Gfid],
    claims: &mut Seq<Claim>,
) -> Result<Gfid, AllocError>
    ensures end { IfOk result (λ at. at ≡ end_of_path path.now root places.now found.now) }
    ensures claims { OnOk result (claims.new ≡ claims.old ++ claims_of_path path.now root places.now found.now) }
{
    let mut at = ROOT;
    for index in 0..path.len() {
        let Some(place) = places.get(index) else {
            return Ok(at);
        };
        let Some(gfid) = found.get(index) else {
            return Ok(at);
        };
        let name = path[index].copy(alloc)?;
        claims.push(Claim::Finds {
            place: *place,
            parent: at,
            name,
            found: *gfid,
        })?;
        at = *gfid;
    }
    Ok(at)
}

fn ends_of(call: &Call, first: Gfid, second: Gfid) -> Found
    ensures { objects result ≡ ends_by (looked_up call.now) first second }
{
    match call {
        Call::Rename { .. } => Found::Two(first, second),
        Call::Read { .. } => Found::Nothing,
        Call::Write { .. } => Found::Nothing,
        Call::Seek { .. } => Found::Nothing,
        Call::Close { .. } => Found::Nothing,
        _ => Found::One(first),
    }
}

/// Claims what the lookups of a call found, as far as there are places and objects, and gives what its paths led to.
///
/// # Errors
/// Out of memory.
pub(crate) fn claim_walk(
    alloc: Global,
    call: &Call,
    places: &[u32],
    found: &[Gfid],
    claims: &mut Seq<Claim>,
) -> Result<Found, AllocError>
    ensures ends { IfOk result (λ at. objects at ≡ walk_ends (looked_up call.now) places.now found.now) }
    ensures claims { OnOk result (claims.new ≡ claims.old ++ claims_of_walk (looked_up call.now) places.now found.now) }
{
    let path = first_path(call);
    let first = claim_path(alloc, path, places, found, claims)?;
    let places = behind(places, path.len());
    let found = behind(found, path.len());
    let second = claim_path(alloc, second_path(call), places, found, claims)?;
    Ok(ends_of(call, first, second))
}

/// The last object, the root where there is none.
pub(crate) fn last_found(found: &[Gfid]) -> Gfid
    ensures { result ≡ last_found_of root found.now }
{
    let mut at = ROOT;
    for gfid in found {
        at = *gfid;
    }
    at
}

// The lookup of a path that is next after these objects were found.
fn next_in(alloc: Global, path: &[Seq<u8>], found: &[Gfid]) -> Result<Option<FlatOp>, AllocError>
    ensures { IfOk result (λ o. (other : FlatOp) → or_other o other ≡ next_of_path path.now root found.now other) }
{
    let Some(name) = path.get(found.len()) else {
        return Ok(None);
    };
    let parent = last_found(found);
    let name = name.copy(alloc)?;
    Ok(Some(FlatOp::Lookup { parent, name }))
}

/// The lookup of a call that is next after these objects were found, and a lookup in the root where none is.
///
/// # Errors
/// Out of memory.
pub(crate) fn next_lookup(alloc: Global, call: &Call, found: &[Gfid]) -> Result<FlatOp, AllocError>
    ensures { IfOk result (λ o. o ≡ next_of_walk (looked_up call.now) found.now) }
{
    let path = first_path(call);
    if let Some(op) = next_in(alloc, path, found)? {
        return Ok(op);
    }
    if let Some(op) = next_in(alloc, second_path(call), behind(found, path.len()))? {
        return Ok(op);
    }
    Ok(FlatOp::Lookup {
        parent: ROOT,
        name: Seq::new(alloc),
    })
}
