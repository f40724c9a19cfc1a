//! The requests of a phase as winds to the replicas.
ghost use Rattle.std.specs.Prelude.{◌≡◌, ◌<◌, ◌++◌, IfOk, OnOk, true, map, slice_get};
ghost use Rattle.fop_types.specs.Bounds.{IsReq};
ghost use Rattle.graph_nodes.specs.Replicate.{bound_of, wind_of, AreEncoded};

use afr_phases::Locks;
use fop_types::{BrickReq, Seq};
use frame_driver::Queue;
use graph_items::{Down, Request};
use std::alloc::{AllocError, Global};

// The connection on which a replica granted its lock in the running lock phase, if it did.
fn bound_of(locks: &Locks, replica: u8) -> Option<u32>
    ensures { result ≡ bound_of locks.now replica }
{
    match locks.at.get(replica as usize) {
        Some(connection) => *connection,
        None => None,
    }
}

// The wind of a request, bound to the connection on which the replica granted its lock.
fn wind_of(locks: &Locks, next: (u8, BrickReq)) -> (u16, u8, Down)
    requires { IsReq true next.1 }
    ensures { result ≡ wind_of locks.now next }
{
    let (replica, req) = next;
    let bound = bound_of(locks, replica);
    (
        replica as u16,
        replica,
        Down::Request(Request::new(bound, req)),
    )
}

/// The winds of requests.
///
/// # Errors
/// Out of memory.
pub(crate) fn winds_of(
    alloc: Global,
    list: Seq<(u8, BrickReq)>,
    locks: Locks,
) -> Result<Vec<(u16, u8, Down)>, AllocError>
    requires { AreEncoded list }
    ensures { IfOk result (λ winds. winds.items ≡ map (wind_of locks) list) }
{
    let mut winds = Vec::new(alloc);
    let mut rest = Queue::from_vec(list.into_vec());
    let pushed = push_winds(&mut winds, &mut rest, &locks);
    drop(rest);
    pushed.and(Ok(winds))
}

// Puts the winds of requests behind others.
fn push_winds(
    winds: &mut Vec<(u16, u8, Down)>,
    rest: &mut Queue<(u8, BrickReq)>,
    locks: &Locks,
) -> Result<(), AllocError>
    requires { AreEncoded rest.old }
    ensures { OnOk result (winds.new.items ≡ winds.old.items ++ map (wind_of locks.now) rest.old) }
{
    while let Some(next) = rest.pop() {
        winds.push(wind_of(locks, next))?;
    }
    Ok(())
}
