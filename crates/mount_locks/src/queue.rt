ghost use Rattle.std.specs.Prelude.{◌≡◌, [], ◌∷◌, ◌++◌, length, not, ◌==◌, true, false, OnErr, IfOk};
ghost use Rattle.std.specs.Map.{keys_of as keys_in};
ghost use Rattle.std.specs.Ordering.{nat_cmp};
ghost use Rattle.std.specs.List.Sorted.{IsStrictlySortedBy};
ghost use Rattle.queue_index.specs.Queue.{items, without, changed_at, is_at_number, with_free_end, with_free_front};
ghost use Rattle.mount_locks.specs.Keys.{marked};
ghost use Rattle.mount_locks.specs.Rule.{waiting};

use crate::request::Request;
use queue_index::KeyedQueue;
use std::alloc::{AllocError, Global};
use std::marker::Model;

/// The requests, found by their calls and gfids, and how many of them wait. Contracts see the requests,
/// each with its number, by rising number.
#[derive(Drop)]
pub(crate) struct RequestQueue {
    requests: KeyedQueue<Request>,
    waiting: u64,
}

impl Model for RequestQueue {
    ghost use Rattle.std.specs.Prelude.{List, ℕ, ◌≡◌, length};
    ghost use Rattle.queue_index.specs.Queue.{items};
    ghost use Rattle.mount_locks.specs.declared.request.Request.{Request};
    ghost use Rattle.mount_locks.specs.Rule.{waiting as waiting_of};

    ghost Value = { List (ℕ × Request) };

    ghost view = { λ q. q.requests };

    ghost invariant = { λ q. q.waiting ≡ length (waiting_of (items q.requests)) };
}

impl RequestQueue {
    /// The empty queue. It allocates nothing.
    pub(crate) fn new(alloc: Global) -> RequestQueue
        ensures { result ≡ [] }
    {
        RequestQueue {
            requests: KeyedQueue::new(alloc),
            waiting: 0,
        }
    }

    /// The requests, to look them up.
    pub(crate) fn requests(&self) -> &KeyedQueue<Request>
        ensures value { result.now ≡ self.now }
    {
        &self.requests
    }

    /// The numbers rise. The call does nothing: its contract exports this.
    pub(crate) fn numbers_rise(&self)
        ensures { IsStrictlySortedBy nat_cmp (keys_in self.now) }
    {
        self.requests.numbers_rise();
    }

    /// Whether a request waits.
    pub(crate) fn has_waiting(&self) -> bool
        ensures { result ≡ not (length (waiting (items self.now)) == 0) }
    {
        self.waiting != 0
    }

    /// Puts a request that waits at the end, and gives its number.
    pub(crate) fn push_back(&mut self, alloc: Global, request: Request) -> Result<u64, AllocError>
        requires { request.granted ≡ false }
        ensures added { IfOk result (λ n. self.new ≡ with_free_end self.old ++ (n, request) ∷ []) }
        ensures err { OnErr result (self.new ≡ self.old) }
    {
        let number = self.requests.push_back(alloc, request)?;
        self.requests.len();
        self.waiting += 1;
        Ok(number)
    }

    /// Puts a request that waits at the front, and gives its number.
    pub(crate) fn push_front(&mut self, alloc: Global, request: Request) -> Result<u64, AllocError>
        requires { request.granted ≡ false }
        ensures added { IfOk result (λ n. self.new ≡ (n, request) ∷ with_free_front self.old) }
        ensures err { OnErr result (self.new ≡ self.old) }
    {
        let number = self.requests.push_front(alloc, request)?;
        self.requests.len();
        self.waiting += 1;
        Ok(number)
    }

    /// Grants the request of a number, which waits.
    pub(crate) fn grant(&mut self, number: u64)
        requires { is_at_number (λ _ r. not r.granted) self.old number ≡ true }
        ensures { self.new ≡ changed_at marked number self.old }
    {
        self.requests.numbers_rise();
        self.requests.mark(number);
        self.waiting -= 1;
    }

    /// Takes the request of a number out, where there is one. It allocates nothing.
    pub(crate) fn remove(&mut self, number: u64)
        ensures { self.new ≡ without number self.old }
    {
        self.requests.numbers_rise();
        let waits = waits_at(&self.requests, number);
        self.requests.remove(number);
        if waits {
            self.waiting -= 1;
        }
    }
}

/// Whether the request of a number is there and waits.
fn waits_at(requests: &KeyedQueue<Request>, number: u64) -> bool
    ensures { result ≡ is_at_number (λ _ r. not r.granted) requests.now number }
{
    let Some(request) = requests.get(number) else {
        return false;
    };
    !request.granted
}
