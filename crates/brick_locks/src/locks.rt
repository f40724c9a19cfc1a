ghost use Rattle.std.specs.Prelude.{◌≡◌, ◌==◌, not, false, [], ◌∷◌, ◌++◌, OnOk, OnErr, IfOk};
ghost use Rattle.std.specs.List.{filter};
ghost use Rattle.brick_locks.specs.Locks.{is_known, request, held, waiting, AreApart, WaitersAreBlocked, OwnersDiffer, owners, gone, freed, holds};
ghost use Rattle.brick_locks.specs.Keys.{keys_of};
ghost use Rattle.queue_index.specs.Queue.{touches};
ghost use Rattle.queue_index.specs.declared.key.Key.{Key};
ghost use Rattle.brick_locks.specs.Leaving.{other_graph, released, freed_by, is_owner, HoldersAre};
ghost use Rattle.brick_locks.specs.Fate.{fate_after};

use crate::owner::Owner;
use crate::request::{Request, graph_key, owner_key};
use crate::walk::{any_holds, is_kept, push_holders, remove_all, waiting_owners};
use fop_types::{Cell, Seq};
use queue_index::{Key, KeyedQueue, next_rivals_of};
use std::alloc::{AllocError, Global};
use std::marker::Model;

/// What became of a request: it holds, or it waits.
#[derive(Clone, Copy, PartialEq, Eq)]
pub enum Asked {
    Granted,
    Queued,
}

/// What became of the owners when requests were dropped: `gone` waited and were dropped, `granted` wait
/// no longer and hold. Both in the order in which they asked.
#[derive(Drop)]
pub struct Dropped {
    pub gone: Seq<Owner>,
    pub granted: Seq<Owner>,
}

/// The locks of one brick. Contracts see the requests that hold or wait, in the order in which they
/// were asked.
#[derive(Drop)]
pub struct BrickLocks {
    queue: KeyedQueue<Request>,
}

impl Model for BrickLocks {
    ghost use Rattle.std.specs.Prelude.{List};
    ghost use Rattle.queue_index.specs.Queue.{items};
    ghost use Rattle.brick_locks.specs.declared.request.Request.{Request};
    ghost use Rattle.brick_locks.specs.Locks.{OwnersDiffer};

    ghost Value = { List Request };

    ghost view = { λ b. items b.queue };

    ghost invariant = { λ b. OwnersDiffer (items b.queue) };
}

#[tactic(auto, using(crate::proofs::Apart::held_apart))]
impl BrickLocks {
    /// No locks. It allocates nothing.
    pub fn new(alloc: Global) -> BrickLocks
        ensures { result ≡ [] }
    {
        BrickLocks {
            queue: KeyedQueue::new(alloc),
        }
    }

    /// Held locks never conflict; each request that waits conflicts with one before it that holds or waits;
    /// and no owner has two requests. The call does nothing: its contract exports this.
    pub fn laws(&self)
        ensures apart { AreApart (held self.now) }
        ensures blocked { WaitersAreBlocked self.now }
        ensures once { OwnersDiffer self.now }
    {
        let _ = &self.queue;
    }

    /// Whether the owner holds or waits.
    pub fn knows(&self, owner: Owner) -> bool
        ensures { result ≡ is_known owner self.now }
    {
        self.queue.has(owner_key(owner))
    }

    /// Asks for a lock on all these cells at once. It is granted where no request that holds or waits
    /// conflicts with it, and else queued behind all others.
    ///
    /// # Errors
    /// Out of memory. The locks are unchanged.
    pub fn ask(
        &mut self,
        alloc: Global,
        owner: Owner,
        cells: &[Cell],
        shared: bool,
    ) -> Result<Asked, AllocError>
        requires { is_known owner self.old ≡ false }
        ensures asked { OnOk result (self.new ≡ self.old ++ request owner cells.now shared ∷ []) }
        ensures fate { IfOk result (λ a. a ≡ fate_after self.old (request owner cells.now shared)) }
        ensures apart { OnOk result (AreApart (held self.new)) }
        ensures err { OnErr result (self.new ≡ self.old) }
    {
        let own = Seq::from_vec(Vec::from_slice(alloc, cells)?);
        let request = Request {
            owner,
            cells: own,
            shared,
        };
        let number = self.queue.push_back(alloc, request)?;
        self.queue.numbers_rise();
        if is_kept(&self.queue, number, cells, shared) {
            return Ok(Asked::Queued);
        }
        Ok(Asked::Granted)
    }

    /// Takes the owner's lock away, and gives the owners that wait no longer and hold from then on, in
    /// the order in which they asked. An owner that does not hold changes nothing, also where it waits.
    ///
    /// # Errors
    /// Out of memory. The locks are unchanged.
    pub fn release(&mut self, alloc: Global, owner: Owner) -> Result<Seq<Owner>, AllocError>
        ensures left { OnOk result (self.new ≡ released owner self.old) }
        ensures granted { IfOk result (λ o. o ≡ freed_by owner self.old) }
        ensures holders { IfOk result (λ granted. HoldersAre (is_owner owner) self.old granted self.new) }
        ensures apart { OnOk result (AreApart (held self.new)) }
        ensures err { OnErr result (self.new ≡ self.old) }
    {
        let holds = self.is_holder(alloc, owner)?;
        if holds {
            let dropped = self.take_out(alloc, owner_key(owner))?;
            return Ok(dropped.granted);
        }
        Ok(Seq::new(alloc))
    }

    /// Drops every request of a graph: its locks, and its requests that wait.
    ///
    /// # Errors
    /// Out of memory. The locks are unchanged.
    pub fn drop_graph(&mut self, alloc: Global, graph: u32) -> Result<Dropped, AllocError>
        ensures left { OnOk result (self.new ≡ filter (other_graph graph) self.old) }
        ensures gone { IfOk result (λ d. d.gone ≡ owners (gone (other_graph graph) self.old)) }
        ensures granted { IfOk result (λ d. d.granted ≡ owners (freed (other_graph graph) self.old)) }
        ensures holders { IfOk result (λ d. HoldersAre (λ o. graph == o.graph) self.old d.granted self.new) }
        ensures apart { OnOk result (AreApart (held self.new)) }
        ensures err { OnErr result (self.new ≡ self.old) }
    {
        let dropped = self.take_out(alloc, graph_key(graph))?;
        Ok(dropped)
    }

    /// Drops every request. The owners that waited are gone, and none is granted.
    ///
    /// # Errors
    /// Out of memory. The locks are unchanged.
    pub fn drop_all(&mut self, alloc: Global) -> Result<Dropped, AllocError>
        ensures left { OnOk result (self.new ≡ []) }
        ensures gone { IfOk result (λ d. d.gone ≡ owners (waiting self.old)) }
        ensures granted { IfOk result (λ d. d.granted ≡ []) }
        ensures err { OnErr result (self.new ≡ self.old) }
    {
        self.queue.numbers_rise();
        let numbers = self.queue.all_numbers(alloc)?;
        let gone = waiting_owners(alloc, &self.queue, &numbers)?;
        self.queue = KeyedQueue::new(alloc);
        Ok(Dropped {
            gone,
            granted: Seq::new(alloc),
        })
    }

    // Whether a request of the owner holds.
    fn is_holder(&self, alloc: Global, owner: Owner) -> Result<bool, AllocError>
        ensures { IfOk result (λ b. b ≡ holds owner self.now) }
    {
        self.queue.numbers_rise();
        let numbers = self.queue.numbers_of(alloc, owner_key(owner))?;
        let held = any_holds(&self.queue, &numbers);
        Ok(held)
    }

    // Takes the requests of a key out. All that allocates comes first.
    fn take_out(&mut self, alloc: Global, key: Key) -> Result<Dropped, AllocError>
        ensures left { OnOk result (self.new ≡ filter (λ r. not (touches keys_of key r)) self.old) }
        ensures gone { IfOk result (λ d. d.gone ≡ owners (gone (λ r. not (touches keys_of key r)) self.old)) }
        ensures granted { IfOk result (λ d. d.granted ≡ owners (freed (λ r. not (touches keys_of key r)) self.old)) }
        ensures err { OnErr result (self.new ≡ self.old) }
    {
        self.queue.numbers_rise();
        let numbers = self.queue.numbers_of(alloc, key)?;
        let gone = waiting_owners(alloc, &self.queue, &numbers)?;
        let next = next_rivals_of(alloc, &self.queue, key)?;
        let mut granted = Vec::with_capacity(alloc, next.len())?;
        remove_all(&mut self.queue, &numbers);
        self.queue.numbers_rise();
        push_holders(&self.queue, next, &mut granted);
        Ok(Dropped {
            gone,
            granted: Seq::from_vec(granted),
        })
    }
}
