//! The ledger of a mount, with the turns of transactions over it.
ghost use Rattle.std.specs.Prelude.{◌≡◌, ◌<◌, ◌≤◌, ◌+◌, ◌/◌, ◌%◌, true, length, IfOk};
ghost use Rattle.afr_ledger.specs.Ledger.{empty};
ghost use Rattle.afr_phases.specs.Waves.{is_asked};
ghost use Rattle.afr_transaction.specs.Answers.{answered, copied};
ghost use Rattle.afr_transaction.specs.Begins.{IsBegun};
ghost use Rattle.afr_transaction.specs.Shapes.{is_asking, is_copying};
ghost use Rattle.fop_types.specs.Bounds.{IsRep};
ghost use Rattle.fop_types.specs.Jobs.{IsJob};
ghost use Rattle.graph_nodes.specs.Kept.{IsTxnKept};
ghost use Rattle.graph_nodes.specs.Turns.{IsTxnTurn};

use afr_ledger::Ledger;
use afr_transaction::{
    Need, Txn, replies_are_within_bounds, requests_are_encoded, requests_are_of_phases,
};
use fop_types::{BrickRep, Cell, CopyDone, Entry, Job, Mask, SetPlan};
use std::alloc::{AllocError, Global};
use std::marker::Model;

/// The numbers drawn, the unsettled changes and the history of a mount. Each unsettled change has one to four cells, rising.
#[derive(Drop)]
pub struct MountLedger {
    ledger: Ledger<Cell>,
}

impl Model for MountLedger {
    ghost use Rattle.afr_ledger.specs.Ledger.{State};
    ghost use Rattle.afr_transaction.specs.Encodings.{HaveFew};
    ghost use Rattle.fop_types.specs.declared.cells.Cell.{Cell};

    ghost Value = { State Cell };

    ghost view = { λ l. l.ledger };

    ghost invariant = { λ l. HaveFew l.ledger };
}

impl MountLedger {
    /// The ledger of a new mount. It allocates nothing.
    pub fn new(alloc: Global) -> MountLedger
        ensures { result ≡ empty }
    {
        MountLedger {
            ledger: Ledger::new(alloc),
        }
    }

    /// Begins a job of a set for a call, and says what it needs first, as `Txn::begin` does.
    ///
    /// # Errors
    /// Out of memory.
    pub fn begin(
        &self,
        alloc: Global,
        set: &SetPlan,
        call: u32,
        job: Job,
        live: Mask,
        last: &[u32],
    ) -> Result<(Txn, Need), AllocError>
        requires odd { length set.now.bricks % 2 ≡ 1 }
        requires few { length set.now.bricks ≤ 5 }
        requires quorum { set.now.q ≡ (length set.now.bricks + 1) / 2 }
        requires job { IsJob job }
        ensures begun { IfOk result (λ r. IsBegun r.0 r.1 set.now call job self.now live last.now) }
        ensures turn { IfOk result (λ r. IsTxnTurn r.0 r.1) }
    {
        requests_are_of_phases();
        requests_are_encoded();
        replies_are_within_bounds();
        Txn::begin(alloc, set, call, job, live, last, &self.ledger)
    }

    /// A transaction takes the answer of a replica that was asked, as `Txn::answer` does.
    ///
    /// # Errors
    /// Out of memory.
    pub fn answer(
        &mut self,
        alloc: Global,
        txn: &mut Txn,
        replica: u8,
        rep: BrickRep,
        mark: u64,
        live: Mask,
        last: &[u32],
    ) -> Result<Need, AllocError>
        requires place { replica < 5 }
        requires asked { is_asked txn.old.wave replica ≡ true }
        requires asking { is_asking txn.old ≡ true }
        requires kept { IsTxnKept txn.old }
        requires encoded { IsRep true rep }
        ensures made { IfOk result (λ need. (txn.new, (need, self.new)) ≡ answered txn.old replica rep mark self.old live last.now) }
        ensures turn { IfOk result (λ need. IsTxnTurn txn.new need) }
    {
        requests_are_of_phases();
        requests_are_encoded();
        replies_are_within_bounds();
        txn.answer(alloc, replica, rep, mark, live, last, &mut self.ledger)
    }

    /// A transaction takes a copy that is done, as `Txn::copied` does.
    ///
    /// # Errors
    /// Out of memory.
    pub fn copied(
        &mut self,
        alloc: Global,
        txn: &mut Txn,
        done: CopyDone,
        live: Mask,
        last: &[u32],
    ) -> Result<Need, AllocError>
        requires copying { is_copying txn.old ≡ true }
        requires kept { IsTxnKept txn.old }
        ensures made { IfOk result (λ need. (txn.new, (need, self.new)) ≡ copied txn.old done self.old live last.now) }
        ensures turn { IfOk result (λ need. IsTxnTurn txn.new need) }
    {
        requests_are_of_phases();
        requests_are_encoded();
        replies_are_within_bounds();
        txn.copied(alloc, done, live, last, &mut self.ledger)
    }

    /// The accepted changes with an effect, in the order in which they were decided.
    pub fn history(&self) -> &[Entry]
        ensures { result.now ≡ self.now.history }
    {
        self.ledger.history()
    }

    /// The history has at most 4,294,967,295 entries. The call does nothing: its contract exports this.
    pub fn has_room(&self)
        ensures { length self.now.history ≤ 4294967295 }
    {
        self.ledger.keep_apart();
    }
}
