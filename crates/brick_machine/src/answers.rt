//! Answers to requests that read, and to changes of cells.
ghost use Rattle.std.specs.Prelude.{◌≡◌, [], ◌∷◌, OnOk};
ghost use Rattle.fop_types.specs.declared.messages.OutKind.TheVariants.{Reply};
ghost use Rattle.cell_store.specs.Cells.{kept_at, copy_of, present_in};
ghost use Rattle.brick_machine.specs.Serving.{is_sendable as can_be_sent, change_answer, fetched, indexed};
ghost use Rattle.brick_machine.specs.code.Outs.{put_out};

use crate::outs::Outs;
use cell_store::Store;
use fop_types::{BrickRep, Cell, Content, DoneArm, Seq};
use std::alloc::{AllocError, Global};

// Whether a content's list is short enough to be sent.
fn is_sendable(content: &Content) -> bool
    ensures { result ≡ can_be_sent content.now }
{
    match content {
        Content::Bytes(_) => true,
        Content::Meta { attrs, .. } => attrs.len() <= 65536,
        Content::Names { items, .. } => items.len() <= 65536,
    }
}

impl Outs {
    /// Answers a fetch with the cell's copy, from the store's own content.
    pub(crate) fn fetch(
        &mut self,
        alloc: Global,
        store: &Store,
        wind: u64,
        cell: &Cell,
    ) -> Result<(), AllocError>
        ensures { OnOk result (self.new ≡ put_out self.old (Reply wind (fetched (copy_of (kept_at store.now.cells cell.now))) ∷ [])) }
    {
        match store.copy(cell) {
            Some((content, last)) => {
                if is_sendable(content) {
                    self.copy(alloc, wind, content, last)
                } else {
                    self.reply(alloc, wind, BrickRep::Unfit)
                }
            }
            None => self.reply(alloc, wind, BrickRep::Unfit),
        }
    }

    /// Answers an index with the cells that are present.
    pub(crate) fn index(
        &mut self,
        alloc: Global,
        store: &Store,
        wind: u64,
    ) -> Result<(), AllocError>
        ensures { OnOk result (self.new ≡ put_out self.old (Reply wind (indexed (present_in store.now.cells)) ∷ [])) }
    {
        let present = store.cells(alloc)?;
        if present.len() <= 1048576 {
            let present = Seq::from_vec(present);
            return self.reply(alloc, wind, BrickRep::Done(DoneArm::Cells(present)));
        }
        self.reply(alloc, wind, BrickRep::Unfit)
    }

    /// Answers whether a change of cells was made.
    pub(crate) fn changed(&mut self, alloc: Global, wind: u64, fits: bool) -> Result<(), AllocError>
        ensures { OnOk result (self.new ≡ put_out self.old (Reply wind (change_answer fits) ∷ [])) }
    {
        if fits {
            return self.done(alloc, wind);
        }
        self.reply(alloc, wind, BrickRep::Unfit)
    }
}
