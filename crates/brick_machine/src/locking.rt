//! Locks: asked, unlocked and dropped, with the answers that this causes.
ghost use Rattle.std.specs.Prelude.{◌≡◌, false, [], ◌∷◌, OnOk, IfOk};
ghost use Rattle.fop_types.specs.declared.messages.OutKind.TheVariants.{Reply};
ghost use Rattle.fop_types.specs.declared.messages.BrickRep.TheVariants.{Gone};
ghost use Rattle.brick_machine.specs.Waiting.{waiter_of, without_waiter};
ghost use Rattle.brick_machine.specs.Locking.{rows_of as rows_in, granted, to_waiter, left_waiting, gone_replies, grant_replies, asked, locked, unlocked, graph_dropped};
ghost use Rattle.brick_machine.specs.code.Outs.{put_out};
ghost use Rattle.brick_locks.specs.Locks.{is_known, owners, waiting};

use crate::outs::Outs;
use crate::state::State;
use crate::waiters::{Waiter, Waiters};
use brick_locks::{Asked, Owner};
use cell_store::Store;
use fop_types::{BrickRep, Cell, DoneArm, Row, Seq};
use std::alloc::{AllocError, Global};

fn rows_of(alloc: Global, store: &Store, those: &[Cell]) -> Result<Seq<Row>, AllocError>
    ensures { IfOk result (λ rows. rows ≡ rows_in store.now.cells those.now) }
{
    let mut rows = Vec::with_capacity(alloc, those.len())?;
    for cell in those {
        rows.push(store.row(cell))?;
    }
    Ok(Seq::from_vec(rows))
}

impl Outs {
    /// Answers that a lock is granted, with the rows of its cells.
    fn grant(
        &mut self,
        alloc: Global,
        store: &Store,
        wind: u64,
        those: &[Cell],
    ) -> Result<(), AllocError>
        ensures { OnOk result (self.new ≡ put_out self.old (Reply wind (granted store.now.cells those.now) ∷ [])) }
    {
        let rows = rows_of(alloc, store, those)?;
        self.reply(alloc, wind, BrickRep::Done(DoneArm::Rows(rows)))
    }
}

impl Waiters {
    // Answers an owner whose lock was dropped, where it waits.
    #[tactic(auto, using(crate::proofs::Puts::put_nothing))]
    fn say_gone(&mut self, alloc: Global, outs: &mut Outs, owner: Owner) -> Result<(), AllocError>
        ensures waiters { OnOk result (self.new ≡ without_waiter self.old owner) }
        ensures outs { OnOk result (outs.new ≡ put_out outs.old (to_waiter (λ w. Gone) (waiter_of self.old owner))) }
    {
        match self.remove(owner) {
            Some(waiter) => outs.reply(alloc, waiter.wind, BrickRep::Gone),
            None => Ok(()),
        }
    }

    // Grants the lock of an owner, where it waits.
    #[tactic(auto, using(crate::proofs::Puts::put_nothing))]
    fn grant(
        &mut self,
        alloc: Global,
        store: &Store,
        outs: &mut Outs,
        owner: Owner,
    ) -> Result<(), AllocError>
        ensures waiters { OnOk result (self.new ≡ without_waiter self.old owner) }
        ensures outs { OnOk result (outs.new ≡ put_out outs.old (to_waiter (λ w. granted store.now.cells w.cells) (waiter_of self.old owner))) }
    {
        match self.remove(owner) {
            Some(waiter) => outs.grant(alloc, store, waiter.wind, waiter.cells.as_slice()),
            None => Ok(()),
        }
    }

    fn say_gone_each(
        &mut self,
        alloc: Global,
        outs: &mut Outs,
        owners: &[Owner],
    ) -> Result<(), AllocError>
        ensures waiters { OnOk result (self.new ≡ left_waiting self.old owners.now) }
        ensures outs { OnOk result (outs.new ≡ put_out outs.old (gone_replies self.old owners.now)) }
    {
        for owner in owners {
            self.say_gone(alloc, outs, *owner)?;
        }
        Ok(())
    }

    fn grant_each(
        &mut self,
        alloc: Global,
        store: &Store,
        outs: &mut Outs,
        owners: &[Owner],
    ) -> Result<(), AllocError>
        ensures waiters { OnOk result (self.new ≡ left_waiting self.old owners.now) }
        ensures outs { OnOk result (outs.new ≡ put_out outs.old (grant_replies store.now.cells self.old owners.now)) }
    {
        for owner in owners {
            self.grant(alloc, store, outs, *owner)?;
        }
        Ok(())
    }
}

impl State {
    /// Asks for a lock: of an owner that holds or waits it is unfit; else it is granted, with the rows of its
    /// cells, or waits, and is answered later.
    pub(crate) fn lock(
        &mut self,
        alloc: Global,
        outs: &mut Outs,
        wind: u64,
        owner: Owner,
        shared: bool,
        cells: Seq<Cell>,
    ) -> Result<(), AllocError>
        ensures state { OnOk result (self.new ≡ (locked self.old wind owner shared cells).state) }
        ensures outs { OnOk result (outs.new ≡ put_out outs.old (locked self.old wind owner shared cells).outs) }
        ensures names { self.new.store.names ≡ self.old.store.names }
    {
        if self.locks.knows(owner) {
            return outs.reply(alloc, wind, BrickRep::Unfit);
        }
        self.ask(alloc, outs, wind, owner, shared, cells)
    }

    fn ask(
        &mut self,
        alloc: Global,
        outs: &mut Outs,
        wind: u64,
        owner: Owner,
        shared: bool,
        cells: Seq<Cell>,
    ) -> Result<(), AllocError>
        requires { is_known owner self.old.locks ≡ false }
        ensures state { OnOk result (self.new ≡ (asked self.old wind owner shared cells).state) }
        ensures outs { OnOk result (outs.new ≡ put_out outs.old (asked self.old wind owner shared cells).outs) }
        ensures names { self.new.store.names ≡ self.old.store.names }
    {
        match self.locks.ask(alloc, owner, cells.as_slice(), shared)? {
            Asked::Queued => self.waiters.insert(owner, Waiter { wind, cells }),
            Asked::Granted => outs.grant(alloc, &self.store, wind, cells.as_slice()),
        }
    }

    /// Unlocks: it is Done, also where the owner holds nothing, and then the locks that wait no longer are granted.
    pub(crate) fn unlock(
        &mut self,
        alloc: Global,
        outs: &mut Outs,
        wind: u64,
        owner: Owner,
    ) -> Result<(), AllocError>
        ensures state { OnOk result (self.new ≡ (unlocked self.old wind owner).state) }
        ensures outs { OnOk result (outs.new ≡ put_out outs.old (unlocked self.old wind owner).outs) }
        ensures names { self.new.store.names ≡ self.old.store.names }
    {
        outs.done(alloc, wind)?;
        let freed = self.locks.release(alloc, owner)?;
        self.waiters
            .grant_each(alloc, &self.store, outs, freed.as_slice())
    }

    /// Drops the locks of a graph: those that wait are answered Gone, and then those of other graphs that wait no
    /// longer are granted.
    pub(crate) fn drop_graph(
        &mut self,
        alloc: Global,
        outs: &mut Outs,
        graph: u32,
    ) -> Result<(), AllocError>
        ensures state { OnOk result (self.new ≡ (graph_dropped self.old graph).state) }
        ensures outs { OnOk result (outs.new ≡ put_out outs.old (graph_dropped self.old graph).outs) }
        ensures names { self.new.store.names ≡ self.old.store.names }
    {
        let dropped = self.locks.drop_graph(alloc, graph)?;
        self.waiters
            .say_gone_each(alloc, outs, dropped.gone.as_slice())?;
        self.waiters
            .grant_each(alloc, &self.store, outs, dropped.granted.as_slice())
    }

    /// Drops all locks: those that wait are answered Gone.
    pub(crate) fn drop_locks(&mut self, alloc: Global, outs: &mut Outs) -> Result<(), AllocError>
        ensures state { OnOk result (self.new ≡ record self.old { locks = []; waiters = [] }) }
        ensures outs { OnOk result (outs.new ≡ put_out outs.old (gone_replies self.old.waiters (owners (waiting self.old.locks)))) }
        ensures names { self.new.store.names ≡ self.old.store.names }
    {
        let dropped = self.locks.drop_all(alloc)?;
        self.waiters
            .say_gone_each(alloc, outs, dropped.gone.as_slice())?;
        self.waiters = Waiters::new(alloc);
        Ok(())
    }
}
