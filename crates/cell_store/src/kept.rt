ghost use Rattle.std.specs.Prelude.{◌≡◌, ◌≤◌, true, IsOk, OnOk, OnErr};
ghost use Rattle.contents.specs.Edits.{Fits, is_sure};
ghost use Rattle.cell_store.specs.Cells.{nothing_kept, row_of, IsCounted, birth_of, clear_of, copied_in};
ghost use Rattle.cell_store.specs.code.Steps.{counted, stepped, with_row as kept_with_row, edited_kept};

use crate::counters;
use crate::steps::{Count, Step};
use afr_changelog::{lower, raise};
use contents::{Edit, OrderedContent};
use fop_types::{Content, Mask, Row};
use std::alloc::{AllocError, Global};
use std::mem;

/// What a brick keeps of a cell: its copy, where the cell is present; the count of marks that no post has
/// lowered, and the counters of accusations for each replica, all at most 2,147,483,647; and the number of
/// the last change in the copy, 0 where there is none.
#[derive(Drop)]
pub struct Kept {
    pub content: Option<OrderedContent>,
    pub dirty: u32,
    pub pending: [u32; 5],
    pub last: u64,
}

impl Kept {
    /// Nothing: no copy, no mark, no accusation, no change.
    pub(crate) fn nothing() -> Kept
        ensures { result ≡ nothing_kept }
    {
        Kept {
            content: None,
            dirty: 0,
            pending: [0; 5],
            last: 0,
        }
    }

    /// The cell's row.
    pub(crate) fn row(&self) -> Row
        ensures { result ≡ row_of self.now }
    {
        Row {
            present: self.content.is_some(),
            dirty: self.dirty,
            pending: self.pending,
            last: self.last,
        }
    }

    fn count(&mut self, count: Count)
        requires { IsCounted self.old }
        ensures count { self.new ≡ counted count self.old }
        ensures bounded { IsCounted self.new }
    {
        match count {
            Count::Mark => self.dirty = raise(self.dirty),
            Count::Post(mask) => {
                self.dirty = lower(self.dirty);
                let pending = counters::accuse(mask, self.pending);
                self.pending = pending;
            }
            Count::Settle(mask) => {
                self.dirty = 0;
                let pending = counters::accuse(mask, self.pending);
                self.pending = pending;
            }
        }
    }

    /// Takes a step. A birth leaves a copy that is there as it is.
    pub(crate) fn step(&mut self, step: Step)
        requires { IsCounted self.old }
        ensures step { self.new ≡ stepped step self.old }
        ensures counted { IsCounted self.new }
    {
        match step {
            Step::Counts(count) => self.count(count),
            Step::Birth { content, change } => self.give_birth(content, change),
        }
    }

    fn give_birth(&mut self, content: Content, change: u64)
        ensures { self.new ≡ birth_of self.old content change }
    {
        if self.content.is_none() {
            drop(mem::replace(&mut self.content, Some(OrderedContent::new(content))));
            self.last = change;
        } else {
            drop(content);
        }
    }

    /// Goes back to what an earlier row says. The copy stays where the row had one.
    pub(crate) fn put_back(&mut self, row: Row)
        ensures { self.new ≡ kept_with_row self.old row }
    {
        if !row.present {
            drop(self.content.take());
        }
        self.dirty = row.dirty;
        let pending = row.pending;
        self.pending = pending;
        self.last = row.last;
    }

    /// Takes another brick's copy with its last change. The counters stay.
    pub(crate) fn replace(&mut self, content: Content, last: u64)
        ensures copy { self.new ≡ copied_in content last self.old }
        ensures counts { (self.new.dirty ≡ self.old.dirty) × (self.new.pending ≡ self.old.pending) }
    {
        drop(mem::replace(&mut self.content, Some(OrderedContent::new(content))));
        self.last = last;
    }

    /// Sets the counters of accusations of a mask's replicas to zero.
    pub(crate) fn clear(&mut self, mask: Mask)
        requires { IsCounted self.old }
        ensures clear { self.new ≡ clear_of mask self.old }
        ensures counted { IsCounted self.new }
    {
        let pending = counters::clear(mask, self.pending);
        self.pending = pending;
    }

    /// Edits the copy under a change number.
    ///
    /// # Errors
    /// Out of memory, with nothing changed.
    #[tactic(auto, using(crate::proofs::Edits::edited_there, crate::proofs::Edits::edited_nothing))]
    pub(crate) fn edit(&mut self, alloc: Global, change: u64, by: Edit) -> Result<(), AllocError>
        requires { Fits by }
        ensures ok { OnOk result (self.new ≡ edited_kept by change self.old) }
        ensures counts { (self.new.dirty ≡ self.old.dirty) × (self.new.pending ≡ self.old.pending) }
        ensures err { OnErr result (self.new ≡ self.old) }
        ensures sure { is_sure by ≡ true → IsOk result }
    {
        match &mut self.content {
            Some(content) => {
                content.edit(alloc, by)?;
                self.last = change;
                Ok(())
            }
            None => {
                drop(by);
                self.last = change;
                Ok(())
            }
        }
    }
}
