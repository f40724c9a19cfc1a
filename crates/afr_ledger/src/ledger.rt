ghost use Rattle.std.specs.Prelude.{◌≡◌, ◌+◌, ◌-◌, ◌^◌, ◌≤◌, ◌<◌, ℕ, None, Some, [], IsSome, IfOk, OnOk, OnErr, length, option_copied};
ghost use Rattle.afr_ledger.specs.Changes.{numbered, touching, AreKept};
ghost use Rattle.afr_ledger.specs.Ledger.{empty, with_number, with_begun, decided, entry_of, entry_number, AreDrawn};

use crate::changes::Changes;
use crate::unsettled::Unsettled;
use fop_types::{Entry, Seq};
use std::alloc::{AllocError, Global};
use std::marker::Model;

/// The numbers drawn, the unsettled changes and the history of a mount. `C` is the type of cells.
#[derive(Drop)]
pub struct Ledger<C: Ord> {
    drawn: u64,
    changes: Changes<C>,
    entries: Seq<Entry>,
}

impl<C: Ord> Model for Ledger<C> {
    ghost use Rattle.std.specs.Prelude.{◌≤◌, length};
    ghost use Rattle.afr_ledger.specs.Ledger.{State, AreDrawn};

    ghost Value = { State C };

    ghost view = { λ l. record { drawn = l.drawn; unsettled = l.changes; history = l.entries } };

    ghost invariant = { λ l. record { numbers : AreDrawn l.drawn l.changes; room : length l.entries ≤ 4294967295 } };
}

impl<C: Ord + Copy> Ledger<C> {
    /// The ledger of a new mount: no number drawn, nothing unsettled, an empty history. It allocates nothing.
    pub fn new(alloc: Global) -> Ledger<C>
        ensures { result ≡ empty }
    {
        Ledger {
            drawn: 0,
            changes: Changes::new(alloc),
            entries: Seq::new(alloc),
        }
    }

    /// Draws the next number of a change, counted from 1.
    pub fn draw(&mut self) -> u64
        requires { self.old.drawn < 2 ^ 64 - 1 }
        ensures number { result ≡ self.old.drawn + 1 }
        ensures drawn { self.new ≡ with_number self.old }
    {
        self.drawn += 1;
        self.drawn
    }

    /// How many numbers were drawn.
    pub fn drawn(&self) -> u64
        ensures { result ≡ self.now.drawn }
    {
        self.drawn
    }

    /// Makes a change unsettled. Its number was drawn and is no unsettled change's, and no unsettled change of its
    /// set touches its cells.
    ///
    /// # Errors
    /// Out of memory; the ledger is unchanged.
    pub fn begin(&mut self, _alloc: Global, u: Unsettled<C>) -> Result<(), AllocError>
        requires apart { touching C.cmp u.set u.cells self.old.unsettled ≡ None }
        requires drawn { (1 ≤ u.change) × (u.change ≤ self.old.drawn) }
        requires new { numbered u.change self.old.unsettled ≡ None }
        ensures ok { OnOk result (self.new ≡ with_begun self.old u) }
        ensures err { OnErr result (self.new ≡ self.old) }
    {
        self.changes.insert(u)?;
        Ok(())
    }

    /// The number of the least unsettled change of a set that touches one of the cells, `None` exactly where none
    /// does.
    pub fn touching(&self, set: u8, cells: &[C]) -> Option<u64>
        ensures { result ≡ touching C.cmp set cells.now self.now.unsettled }
    {
        self.changes.touching(set, cells)
    }

    /// The unsettled change of a number, `None` exactly where the change of that number is not unsettled.
    pub fn unsettled(&self, change: u64) -> Option<&Unsettled<C>>
        ensures { option_copied result ≡ numbered change self.now.unsettled }
    {
        self.changes.get(change)
    }

    /// Decides an unsettled change, as adopted or as dropped. It is unsettled no more; where it is adopted and has
    /// an effect, that is the next entry of the history, and its number is returned, counted from 1. The history has
    /// room for 4,294,967,295 entries.
    ///
    /// # Errors
    /// Out of memory; the ledger is unchanged.
    pub fn decide(
        &mut self,
        _alloc: Global,
        change: u64,
        adopted: bool,
    ) -> Result<Option<u32>, AllocError>
        requires unsettled { IsSome (numbered change self.old.unsettled) }
        requires room { length self.old.history < 4294967295 }
        ensures ok { OnOk result (self.new ≡ decided self.old change adopted) }
        ensures number { IfOk result (λ number. number ≡ entry_number self.old.history (entry_of adopted (numbered change self.old.unsettled))) }
        ensures err { OnErr result (self.new ≡ self.old) }
    {
        let Some(entry) = self.entry_of(change, adopted) else {
            self.changes.remove(change);
            return Ok(None);
        };
        self.entries.push(entry)?;
        self.changes.remove(change);
        Ok(Some(self.entries.len() as u32))
    }

    /// The accepted changes with an effect, in the order in which they were decided.
    pub fn history(&self) -> &[Entry]
        ensures { result.now ≡ self.now.history }
    {
        self.entries.as_slice()
    }

    /// What every ledger keeps: each unsettled change has a number that was drawn, the numbers rise, at most one
    /// unsettled change touches a cell of a set, and the history has at most 4,294,967,295 entries. The call does
    /// nothing: its contract exports this.
    pub fn keep_apart(&self)
        ensures kept { AreKept C.cmp self.now.unsettled }
        ensures drawn { AreDrawn self.now.drawn self.now.unsettled }
        ensures room { length self.now.history ≤ 4294967295 }
    {
        self.changes.keep_apart();
    }

    // The entry that a decision makes.
    fn entry_of(&self, change: u64, adopted: bool) -> Option<Entry>
        ensures { result ≡ entry_of adopted (numbered change self.now.unsettled) }
    {
        if !adopted {
            return None;
        }
        match self.changes.get(change) {
            Some(u) => u.effect,
            None => None,
        }
    }
}
