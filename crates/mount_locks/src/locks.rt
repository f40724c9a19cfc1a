ghost use Rattle.std.specs.Prelude.{◌≡◌, [], true, false, OnOk, OnErr, IfOk, length, ◌∷◌, ◌==◌};
ghost use Rattle.mount_locks.specs.Rule.{held, waiting, request_of, extension_of, granted_now, answer, asked, extended, without, released, AreApart, WaitersAreBlocked, is_known, is_holding, AskOnce};

use crate::queue::RequestQueue;
use crate::request::{Held, Request, call_key};
use crate::walk::{forget, grant, settle};
use fop_types::{Gfid, Seq};
use queue_index::rivals_of;
use std::alloc::{AllocError, Global};
use std::marker::Model;

/// The queue of requests for holds.
#[derive(Drop)]
pub struct MountLocks {
    queue: RequestQueue,
}

impl Model for MountLocks {
    ghost use Rattle.std.specs.Prelude.{List};
    ghost use Rattle.queue_index.specs.Queue.{items};
    ghost use Rattle.mount_locks.specs.declared.request.Request.{Request};
    ghost use Rattle.mount_locks.specs.Walks.{IsSettled};

    ghost Value = { List Request };

    ghost view = { λ m. items m.queue };

    ghost invariant = { λ m. IsSettled m.queue };
}

impl MountLocks {
    /// The empty queue. It allocates nothing.
    pub fn new(alloc: Global) -> MountLocks
        ensures { result ≡ [] }
    {
        MountLocks {
            queue: RequestQueue::new(alloc),
        }
    }

    /// No two holds conflict, at any time. The call does nothing: its contract exports this.
    pub fn holds_are_apart(&self)
        ensures { AreApart (held self.now) }
    {
        let _ = &self.queue;
    }

    /// Each request that waits conflicts with a hold, or with a request before it that waits. Extensions are
    /// before all requests that were asked. The call does nothing: its contract exports this.
    pub fn waiting_are_blocked(&self)
        ensures { WaitersAreBlocked self.now }
    {
        self.queue.numbers_rise();
    }

    /// Asks for a hold on some gfids, shared or exclusive, at the end of the queue. It is `Granted` exactly
    /// where no granted and no earlier waiting request conflicts with it; else it waits. A call asks when it
    /// neither holds nor waits.
    ///
    /// # Errors
    /// Out of memory. The queue is unchanged.
    pub fn ask(
        &mut self,
        alloc: Global,
        call: u32,
        gfids: &[Gfid],
        shared: bool,
    ) -> Result<Held, AllocError>
        ensures answer { IfOk result (λ h. h ≡ answer (granted_now (held self.old) (waiting self.old) (request_of call gfids.now shared))) }
        ensures ok { OnOk result (self.new ≡ asked self.old (request_of call gfids.now shared)) }
        ensures once { OnOk result (is_known call self.old ≡ false → AskOnce self.old → AskOnce self.new) }
        ensures err { OnErr result (self.new ≡ self.old) }
    {
        let gfids = Seq::from_vec(Vec::from_slice(alloc, gfids)?);
        let request = Request {
            call,
            gfids,
            shared,
            extends: false,
            granted: false,
        };
        self.queue.numbers_rise();
        let number = self.queue.push_back(alloc, request)?;
        self.queue.numbers_rise();
        let held = settle(&mut self.queue, number);
        Ok(held)
    }

    /// Extends the hold of a call by one gfid, exclusive, before all waiting requests. It is `Granted` exactly
    /// where no granted request of another call conflicts with it; else it waits. A call extends when it
    /// holds what it asked for.
    ///
    /// # Errors
    /// Out of memory. The queue is unchanged.
    pub fn extend(&mut self, alloc: Global, call: u32, gfid: Gfid) -> Result<Held, AllocError>
        ensures answer { IfOk result (λ h. h ≡ answer (granted_now (held self.old) [] (extension_of call (gfid ∷ [])))) }
        ensures ok { OnOk result (self.new ≡ extended self.old (extension_of call (gfid ∷ []))) }
        ensures once { OnOk result (is_holding call self.old ≡ true → AskOnce self.old → AskOnce self.new) }
        ensures err { OnErr result (self.new ≡ self.old) }
    {
        let mut gfids = Seq::new(alloc);
        gfids.push(gfid)?;
        let request = Request {
            call,
            gfids,
            shared: false,
            extends: true,
            granted: false,
        };
        self.queue.numbers_rise();
        let number = self.queue.push_front(alloc, request)?;
        self.queue.numbers_rise();
        let held = settle(&mut self.queue, number);
        Ok(held)
    }

    /// Takes all requests of a call out of the queue, and then grants the waiting ones that can be granted,
    /// in queue order. It gives the calls of those, in that order.
    ///
    /// # Errors
    /// Out of memory. The queue is unchanged.
    pub fn release(&mut self, alloc: Global, call: u32) -> Result<Vec<u32>, AllocError>
        ensures calls { IfOk result (λ calls. calls.items ≡ (released call self.old).calls) }
        ensures ok { OnOk result (self.new ≡ (released call self.old).queue) }
        ensures once { OnOk result (AskOnce self.old → AskOnce self.new) }
        ensures err { OnErr result (self.new ≡ self.old) }
    {
        self.queue.numbers_rise();
        let rivals = rivals_of(alloc, self.queue.requests(), call_key(call))?;
        let mut calls = Vec::with_capacity(alloc, rivals.len())?;
        forget(&mut self.queue, call_key(call));
        grant(&mut self.queue, rivals, &mut calls);
        Ok(calls)
    }

    /// Takes all requests of a call out of the queue where nobody waits. It is false, with nothing changed,
    /// exactly where somebody waits. It allocates nothing.
    pub fn release_done(&mut self, call: u32) -> bool
        ensures nobody { result ≡ (length (waiting self.old) == 0) }
        ensures done { result ≡ true → self.new ≡ without call self.old }
        ensures kept { result ≡ false → self.new ≡ self.old }
        ensures once { result ≡ true → AskOnce self.old → AskOnce self.new }
    {
        if self.queue.has_waiting() {
            return false;
        }
        self.queue.numbers_rise();
        forget(&mut self.queue, call_key(call));
        true
    }
}
