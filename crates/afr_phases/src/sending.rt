ghost use Rattle.std.specs.Prelude.{◌≡◌, ◌++◌, [], IfOk, OnOk};
ghost use Rattle.afr_phases.specs.Sending.{sends, one_to, one_if};

use crate::flags::Flags;
use fop_types::{BrickReq, Seq};
use std::alloc::{AllocError, Global};

/// One request to each of some replicas, rising. Each gets a copy of it, but for the last one, which gets the request
/// itself.
///
/// # Errors
/// Out of memory.
#[tactic(auto, using(crate::proofs::OneEach::none_before))]
pub fn sends(alloc: Global, to: &Flags, req: BrickReq) -> Result<Seq<(u8, BrickReq)>, AllocError>
    ensures { IfOk result (λ list. list ≡ sends to.now req) }
{
    let mut list = Vec::new(alloc);
    let latest = push_copies(alloc, &mut list, to, &req)?;
    push_whole(&mut list, latest, req)?;
    Ok(Seq::from_vec(list))
}

// A copy of the request to each of some replicas but the last of them, which is the result.
fn push_copies(
    alloc: Global,
    list: &mut Vec<(u8, BrickReq)>,
    to: &Flags,
    req: &BrickReq,
) -> Result<Option<u8>, AllocError>
    ensures { IfOk result (λ latest. list.new.items ++ one_to latest req.now ≡ list.old.items ++ sends to.now req.now) }
{
    let [a, b, c, d, e] = *to;
    let latest = ask(alloc, list, None, a, 0, req)?;
    let latest = ask(alloc, list, latest, b, 1, req)?;
    let latest = ask(alloc, list, latest, c, 2, req)?;
    let latest = ask(alloc, list, latest, d, 3, req)?;
    let latest = ask(alloc, list, latest, e, 4, req)?;
    Ok(latest)
}

// Where a replica is asked, it is the last one so far, and the one before gets its copy.
#[tactic(auto, using(crate::proofs::OneEach::nobody_more))]
fn ask(
    alloc: Global,
    list: &mut Vec<(u8, BrickReq)>,
    latest: Option<u8>,
    is_asked: bool,
    k: u8,
    req: &BrickReq,
) -> Result<Option<u8>, AllocError>
    ensures { IfOk result (λ last. list.new.items ++ one_to last req.now ≡ (list.old.items ++ one_to latest req.now) ++ one_if is_asked k req.now) }
{
    if !is_asked {
        return Ok(latest);
    }
    push_copy(alloc, list, latest, req)?;
    Ok(Some(k))
}

// A copy of the request to a replica, if there is one.
fn push_copy(
    alloc: Global,
    list: &mut Vec<(u8, BrickReq)>,
    to: Option<u8>,
    req: &BrickReq,
) -> Result<(), AllocError>
    ensures { OnOk result (list.new.items ≡ list.old.items ++ one_to to req.now) }
{
    let Some(k) = to else {
        return Ok(());
    };
    let copy = req.copy(alloc)?;
    list.push((k, copy))?;
    Ok(())
}

// The request itself to a replica, if there is one.
fn push_whole(
    list: &mut Vec<(u8, BrickReq)>,
    to: Option<u8>,
    req: BrickReq,
) -> Result<(), AllocError>
    ensures { OnOk result (list.new.items ≡ list.old.items ++ one_to to req) }
{
    let Some(k) = to else {
        return Ok(());
    };
    list.push((k, req))?;
    Ok(())
}
