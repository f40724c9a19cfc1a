ghost use Rattle.std.specs.Prelude.{◌≡◌, [], OnOk, OnErr};
ghost use Rattle.brick_machine.specs.Waiting.{waiter_of, without_waiter, with_waiter};

use brick_locks::Owner;
use fop_types::{Cell, Seq};
use std::alloc::{AllocError, Global};
use std::collections::BTreeMap;
use std::marker::Model;

/// A lock that waits: the wind that asked for it, and its cells.
#[derive(Drop)]
pub struct Waiter {
    pub wind: u64,
    pub cells: Seq<Cell>,
}

/// The locks that wait, by owner.
#[derive(Drop)]
pub struct Waiters {
    held: BTreeMap<Owner, Waiter>,
}

impl Model for Waiters {
    ghost use Rattle.std.specs.Prelude.{List};
    ghost use Rattle.brick_locks.specs.declared.owner.Owner.{Owner};
    ghost use Rattle.brick_machine.specs.declared.waiters.Waiter.{Waiter};

    ghost Value = { List (Owner × Waiter) };

    ghost view = { λ w. w.held.entries };
}

impl Waiters {
    pub(crate) fn new(alloc: Global) -> Waiters
        ensures { result ≡ [] }
    {
        Waiters {
            held: BTreeMap::new(alloc),
        }
    }

    /// Puts a lock that waits in.
    ///
    /// # Errors
    /// Out of memory, with nothing changed.
    pub(crate) fn insert(&mut self, owner: Owner, waiter: Waiter) -> Result<(), AllocError>
        ensures ok { OnOk result (self.new ≡ with_waiter self.old owner waiter) }
        ensures err { OnErr result (self.new ≡ self.old) }
    {
        drop(self.held.insert(owner, waiter)?);
        Ok(())
    }

    /// Takes a lock out, where it waits.
    pub(crate) fn remove(&mut self, owner: Owner) -> Option<Waiter>
        ensures waiter { result ≡ waiter_of self.old owner }
        ensures rest { self.new ≡ without_waiter self.old owner }
    {
        self.held.remove(&owner)
    }
}
