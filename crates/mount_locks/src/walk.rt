//! Which requests are blocked, found by the requests of their own gfids, and whose turn comes.
ghost use Rattle.std.specs.Prelude.{◌≡◌, ◌≤◌, ◌&&◌, [], length, not};
ghost use Rattle.std.specs.List.{list_any, filter};
ghost use Rattle.std.specs.Vec.{vec_capacity};
ghost use Rattle.queue_index.specs.Queue.{touches, is_at_number};
ghost use Rattle.mount_locks.specs.Rule.{request_of, answer};
ghost use Rattle.mount_locks.specs.Keys.{keys_of};
ghost use Rattle.mount_locks.specs.Walks.{bars, is_on, is_kept, AreUnpassed, is_due, turn_at, call_at, turns, calls_of};

use crate::queue::RequestQueue;
use crate::request::{Held, Request, gfid_key};
use fop_types::Gfid;
use queue_index::{Key, KeyedQueue};
use std::collections::BTreeSet;

/// Whether a request is of another call than this one, and is before a number or, where an
/// exclusive one asks, is granted.
fn is_bar(queue: &KeyedQueue<Request>, other: u64, call: u32, shared: bool, number: u64) -> bool
    ensures { result ≡ is_at_number (bars shared call number) queue.now other }
{
    let Some(request) = queue.get(other) else {
        return false;
    };
    request.call != call && (other < number || (!shared && request.granted))
}

/// The same of some request that has a key.
fn is_barred(queue: &KeyedQueue<Request>, key: Key, call: u32, shared: bool, number: u64) -> bool
    ensures { result ≡ list_any (λ e. touches keys_of key e.1 && bars shared call number e.0 e.1) queue.now }
{
    queue.numbers_rise();
    let mut from = 0;
    while let Some(other) = queue.next(key, from) {
        if shared && number <= other {
            return false;
        }
        if is_bar(queue, other, call, shared, number) {
            return true;
        }
        from = other + 1;
    }
    false
}

/// The same of some request that names a gfid and is exclusive, or is shared where an exclusive one asks.
fn is_barred_on(
    queue: &KeyedQueue<Request>,
    gfid: Gfid,
    shared: bool,
    call: u32,
    number: u64,
) -> bool
    ensures { result ≡ list_any (λ e. is_on gfid shared e.1 && bars shared call number e.0 e.1) queue.now }
{
    if is_barred(queue, gfid_key(gfid, false), call, shared, number) {
        return true;
    }
    if shared {
        return false;
    }
    is_barred(queue, gfid_key(gfid, true), call, shared, number)
}

/// Whether a request at a number is kept from its turn: one that conflicts with it is before it or,
/// where it is exclusive, is granted.
fn is_kept(
    queue: &KeyedQueue<Request>,
    number: u64,
    call: u32,
    gfids: &[Gfid],
    shared: bool,
) -> bool
    ensures { result ≡ is_kept queue.now number (request_of call gfids.now shared) }
{
    for gfid in gfids {
        if is_barred_on(queue, *gfid, shared, call, number) {
            return true;
        }
    }
    false
}

/// The call of the request of a number, where it is there, waits and is not blocked.
fn due_call(queue: &KeyedQueue<Request>, number: u64) -> Option<u32>
    requires { AreUnpassed queue.now }
    ensures { result ≡ call_at queue.now number }
{
    let Some(request) = queue.get(number) else {
        return None;
    };
    if request.granted {
        return None;
    }
    let gfids = request.gfids.as_slice();
    if is_kept(queue, number, request.call, gfids, request.shared) {
        return None;
    }
    Some(request.call)
}

/// Gives the request of a number its turn, and gives its call where it is granted.
fn give_turn(queue: &mut RequestQueue, number: u64) -> Option<u32>
    requires { AreUnpassed queue.old }
    ensures turned { queue.new ≡ turn_at queue.old number }
    ensures call { result ≡ call_at queue.old number }
    ensures unpassed { AreUnpassed queue.new }
{
    queue.numbers_rise();
    let Some(call) = due_call(queue.requests(), number) else {
        return None;
    };
    queue.grant(number);
    Some(call)
}

/// Gives the request of a number its first turn.
pub(crate) fn settle(queue: &mut RequestQueue, number: u64) -> Held
    requires { AreUnpassed queue.old }
    ensures turned { queue.new ≡ turn_at queue.old number }
    ensures unpassed { AreUnpassed queue.new }
    ensures held { result ≡ answer (is_at_number (is_due queue.old) queue.old number) }
{
    let granted = give_turn(queue, number).is_some();
    Held::of(granted)
}

/// Gives the requests of some numbers their turns, by rising number, and notes the calls that are granted.
/// It allocates nothing.
pub(crate) fn grant(queue: &mut RequestQueue, mut numbers: BTreeSet<u64>, calls: &mut Vec<u32>)
    requires unpassed { AreUnpassed queue.old }
    requires none { calls.old.items ≡ [] }
    requires room { length numbers.keys ≤ vec_capacity calls.old }
    ensures turned { queue.new ≡ turns queue.old numbers.keys }
    ensures calls { calls.new.items ≡ calls_of queue.old numbers.keys }
    ensures unpassed { AreUnpassed queue.new }
{
    while let Some(number) = numbers.pop_first() {
        let Some(call) = give_turn(queue, number) else {
            continue;
        };
        calls.push_reserved(call);
    }
}

/// Takes the requests that have a key out. It allocates nothing.
pub(crate) fn forget(queue: &mut RequestQueue, key: Key)
    ensures { queue.new ≡ filter (λ e. not (touches keys_of key e.1)) queue.old }
{
    queue.numbers_rise();
    while let Some(number) = queue.requests().next(key, 0) {
        queue.remove(number);
        queue.numbers_rise();
    }
}
