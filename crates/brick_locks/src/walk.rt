//! Which requests wait, found by the requests of their own cells.
ghost use Rattle.std.specs.Prelude.{◌≡◌, ◌≤◌, ◌==◌, [], length, not, IfOk};
ghost use Rattle.std.specs.List.{list_any, filter, AllByRecursion};
ghost use Rattle.std.specs.Vec.{vec_capacity};
ghost use Rattle.std.specs.Ordering.{nat_cmp, is_eq};
ghost use Rattle.queue_index.specs.Queue.{items, before, without, is_at_number};
ghost use Rattle.brick_locks.specs.Walks.{bars, meets, waits, owner_at, picked};

use crate::owner::Owner;
use crate::request::{Request, cell_key};
use fop_types::{Cell, Seq};
use queue_index::KeyedQueue;
use std::alloc::{AllocError, Global};
use std::collections::BTreeSet;

/// Whether a request on a cell conflicts with one before its number.
fn is_barred(queue: &KeyedQueue<Request>, number: u64, cell: Cell, shared: bool) -> bool
    ensures { result ≡ list_any (bars cell shared) (items (before number queue.now)) }
{
    if queue.has_before(cell_key(cell, false), number) {
        return true;
    }
    if shared {
        return false;
    }
    queue.has_before(cell_key(cell, true), number)
}

/// Whether a request on these cells conflicts with one before its number.
pub(crate) fn is_kept(
    queue: &KeyedQueue<Request>,
    number: u64,
    cells: &[Cell],
    shared: bool,
) -> bool
    ensures { result ≡ list_any (meets cells.now shared) (items (before number queue.now)) }
{
    for cell in cells {
        if is_barred(queue, number, *cell, shared) {
            return true;
        }
    }
    false
}

/// Whether the request of a number is there and holds.
fn is_held(queue: &KeyedQueue<Request>, number: u64) -> bool
    ensures { result ≡ is_at_number (λ n r. not (waits queue.now n r)) queue.now number }
{
    let Some(request) = queue.get(number) else {
        return false;
    };
    !is_kept(queue, number, request.cells.as_slice(), request.shared)
}

/// Whether one of the requests of these numbers holds.
pub(crate) fn any_holds(queue: &KeyedQueue<Request>, numbers: &[u64]) -> bool
    ensures { result ≡ list_any (is_at_number (λ n r. not (waits queue.now n r)) queue.now) numbers.now }
{
    for number in numbers {
        if is_held(queue, *number) {
            return true;
        }
    }
    false
}

/// The owner of the request of a number, where it is there and waits.
fn waiter(queue: &KeyedQueue<Request>, number: u64) -> Option<Owner>
    ensures { result ≡ owner_at (waits queue.now) queue.now number }
{
    let Some(request) = queue.get(number) else {
        return None;
    };
    if is_kept(queue, number, request.cells.as_slice(), request.shared) {
        return Some(request.owner);
    }
    None
}

/// The owner of the request of a number, where it is there and holds.
fn holder(queue: &KeyedQueue<Request>, number: u64) -> Option<Owner>
    ensures { result ≡ owner_at (λ n r. not (waits queue.now n r)) queue.now number }
{
    let Some(request) = queue.get(number) else {
        return None;
    };
    if is_kept(queue, number, request.cells.as_slice(), request.shared) {
        return None;
    }
    Some(request.owner)
}

/// The owners of those of these numbers whose requests wait.
pub(crate) fn waiting_owners(
    alloc: Global,
    queue: &KeyedQueue<Request>,
    numbers: &[u64],
) -> Result<Seq<Owner>, AllocError>
    ensures { IfOk result (λ o. o ≡ picked (waits queue.now) queue.now numbers.now) }
{
    let mut owners = Seq::new(alloc);
    for number in numbers {
        let Some(owner) = waiter(queue, *number) else {
            continue;
        };
        owners.push(owner)?;
    }
    Ok(owners)
}

/// The owners of those of these numbers whose requests are there and hold. It allocates nothing.
pub(crate) fn push_holders(
    queue: &KeyedQueue<Request>,
    mut numbers: BTreeSet<u64>,
    owners: &mut Vec<Owner>,
)
    requires none { owners.old.items ≡ [] }
    requires room { length numbers.keys ≤ vec_capacity owners.old }
    ensures { owners.new.items ≡ picked (λ n r. not (waits queue.now n r)) queue.now numbers.keys }
{
    while let Some(number) = numbers.pop_first() {
        let Some(owner) = holder(queue, number) else {
            continue;
        };
        owners.push_reserved(owner);
    }
}

/// Takes the requests of these numbers out. It allocates nothing.
pub(crate) fn remove_all(queue: &mut KeyedQueue<Request>, numbers: &[u64])
    ensures { queue.new ≡ filter (λ e. not (list_any (λ n. is_eq (nat_cmp e.0 n)) numbers.now)) queue.old }
{
    for number in numbers {
        queue.remove(*number);
    }
}
