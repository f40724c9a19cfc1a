//! The entries by which calls unlink names.
ghost use Rattle.std.specs.Prelude.{◌≡◌, true};
ghost use Rattle.read_audit.specs.Taken.{IsUnlinked};

use change_audit::history::{entry_at, op_at};
use change_audit::making::is_unlink;
use fop_types::{FlatOp, Gfid, Seq};
use mount_log::Log;
use std::alloc::{AllocError, Global};
use std::collections::BTreeMap;

/// The place of the entry by which each call unlinks a name, if it does. Nothing is said of it.
#[derive(Drop)]
pub(crate) struct Unlinks {
    places: BTreeMap<u32, usize>,
}

// The call of the entry at a place, if that unlinks a name.
fn unlinking_at(log: &Log, ops: &[FlatOp], place: usize) -> Option<u32> {
    let entry = entry_at(log, place)?;
    match op_at(ops, place)? {
        FlatOp::Unlink { .. } => Some(entry.call),
        _ => None,
    }
}

/// The entries that unlink names.
///
/// # Errors
/// Out of memory.
pub(crate) fn unlinks_of(alloc: Global, log: &Log, ops: &[FlatOp]) -> Result<Unlinks, AllocError> {
    let mut places = BTreeMap::new(alloc);
    for place in 0..ops.len() {
        if let Some(call) = unlinking_at(log, ops, place) {
            places.insert(call, place)?;
        }
    }
    Ok(Unlinks { places })
}

fn is_call(one: u32, other: u32) -> bool
    ensures { result ≡ true → one ≡ other }
{
    one == other
}

// Whether the entry at a place is one of the call and unlinks the name of a directory.
fn is_unlinked_at(
    log: &Log,
    ops: &[FlatOp],
    call: u32,
    dir: Gfid,
    name: &Seq<u8>,
    place: usize,
) -> bool
    ensures { result ≡ true → IsUnlinked log.now ops.now call dir name.now }
{
    let Some(entry) = entry_at(log, place) else {
        return false;
    };
    let Some(op) = op_at(ops, place) else {
        return false;
    };
    if !is_call(entry.call, call) {
        return false;
    }
    is_unlink(op, dir, name)
}

/// Whether an entry of the call unlinks the name of a directory.
pub(crate) fn is_unlinked(
    log: &Log,
    ops: &[FlatOp],
    unlinks: &Unlinks,
    call: u32,
    dir: Gfid,
    name: &Seq<u8>,
) -> bool
    ensures { result ≡ true → IsUnlinked log.now ops.now call dir name.now }
{
    match unlinks.places.get(&call) {
        Some(place) => is_unlinked_at(log, ops, call, dir, name, *place),
        None => false,
    }
}
