ghost use Rattle.std.specs.Prelude.{◌≡◌, OnOk, IfOk, MatchOption};
ghost use Rattle.fop_types.specs.Files.{names_at};
ghost use Rattle.fop_types.specs.Flat.{flat, flat_answer, flat_after, answer_in, files_in, done as done_with, is_same_name as is_same_name_of, with_name, without_name};
ghost use Rattle.fop_types.specs.Flat.Outcome.{Answers};
ghost use Rattle.fop_types.specs.Names.{item_named};
ghost use Rattle.flat_fs.specs.Outcomes.{is_accepted, moved_file, moved_child, names_directory};

use crate::edits::Edit;
use crate::flat_fs::FlatFs;
use crate::name_ops::{done, refused};
use fop_types::{AppError, FlatAnswer, FlatOp, Gfid, Item, Kind, Seq};
use std::alloc::{AllocError, Global};

fn is_same_name(parent: Gfid, name: &[u8], target: Gfid, new_name: &[u8]) -> bool
    ensures { result ≡ is_same_name_of parent name.now target new_name.now }
{
    parent.cmp(&target).is_eq() && name == new_name
}

impl FlatFs {
    fn is_directory_name(&self, parent: Gfid, name: &[u8]) -> bool
        ensures { result ≡ names_directory (item_named (names_at self.now parent) name.now) }
    {
        match self.item(parent, name) {
            None => false,
            Some(item) => match item.kind {
                Kind::File => false,
                Kind::Dir => true,
                Kind::Link => false,
            },
        }
    }

    // The first name goes, and the item takes the second one; a file of that name is replaced.
    #[tactic(auto, using(crate::proofs::Outcomes::drop_item_is, crate::proofs::Outcomes::put_item_is))]
    fn move_name(
        &mut self,
        alloc: Global,
        parent: Gfid,
        name: Seq<u8>,
        target: Gfid,
        moved: Item,
    ) -> Result<(), AllocError>
        ensures { OnOk result (self.new ≡ with_name (without_name self.old parent name) target moved) }
    {
        self.edit(alloc, parent, Edit::DropItem(name))?;
        self.edit(alloc, target, Edit::PutItem(moved))
    }

    // The answer of a rename that changes nothing.
    #[tactic(auto, using(crate::proofs::Outcomes::replaceable_is))]
    fn unmoved(
        &self,
        parent: Gfid,
        name: &[u8],
        target: Gfid,
        new_name: &[u8],
    ) -> Option<FlatAnswer>
        ensures { (moved : Item) → moved.name ≡ new_name.now → MatchOption result (moved_file self.now parent name.now target moved ≡ done_with (with_name (without_name self.now parent name.now) target moved)) (λ answer. moved_file self.now parent name.now target moved ≡ Answers answer) }
    {
        if let Some(error) = self.entry_error(target, new_name) {
            return Some(refused(error));
        }
        if self.is_directory_name(target, new_name) {
            return Some(refused(AppError::Eisdir));
        }
        if is_same_name(parent, name, target, new_name) {
            return Some(done());
        }
        None
    }

    fn rename_file(
        &mut self,
        alloc: Global,
        parent: Gfid,
        name: Seq<u8>,
        target: Gfid,
        moved: Item,
    ) -> Result<FlatAnswer, AllocError>
        ensures answer { IfOk result (λ a. a ≡ answer_in (moved_file self.old parent name target moved)) }
        ensures files { OnOk result (self.new ≡ files_in (moved_file self.old parent name target moved) self.old) }
    {
        match self.unmoved(parent, name.as_slice(), target, moved.name.as_slice()) {
            Some(answer) => {
                drop(name);
                drop(moved);
                Ok(answer)
            }
            None => {
                self.move_name(alloc, parent, name, target, moved)?;
                Ok(done())
            }
        }
    }

    fn rename_child(
        &mut self,
        alloc: Global,
        parent: Gfid,
        name: Seq<u8>,
        target: Gfid,
        moved: Item,
    ) -> Result<FlatAnswer, AllocError>
        ensures answer { IfOk result (λ a. a ≡ answer_in (moved_child self.old parent name target moved)) }
        ensures files { OnOk result (self.new ≡ files_in (moved_child self.old parent name target moved) self.old) }
    {
        match moved.kind {
            Kind::File => self.rename_file(alloc, parent, name, target, moved),
            Kind::Dir => Ok(refused(AppError::Eopnotsupp)),
            Kind::Link => self.rename_file(alloc, parent, name, target, moved),
        }
    }

    pub(crate) fn rename(
        &mut self,
        alloc: Global,
        parent: Gfid,
        name: Seq<u8>,
        target: Gfid,
        new_name: Seq<u8>,
    ) -> Result<FlatAnswer, AllocError>
        ensures answer { IfOk result (λ a. a ≡ flat_answer self.old (FlatOp.Rename parent name target new_name)) }
        ensures files { OnOk result (self.new ≡ flat_after self.old (FlatOp.Rename parent name target new_name)) }
    {
        if let Some(error) = self.entry_error(parent, name.as_slice()) {
            return Ok(refused(error));
        }
        match self.item(parent, name.as_slice()) {
            None => Ok(refused(AppError::Enoent)),
            Some(item) => {
                let moved = Item {
                    name: new_name,
                    gfid: item.gfid,
                    kind: item.kind,
                    target: item.target.copy(alloc)?,
                };
                self.rename_child(alloc, parent, name, target, moved)
            }
        }
    }

    #[tactic(auto, using(crate::proofs::Outcomes::replaceable_is))]
    fn accepts_file(&self, parent: Gfid, name: &[u8], target: Gfid, new_name: &[u8]) -> bool
        ensures { (moved : Item) → moved.name ≡ new_name.now → result ≡ is_accepted (moved_file self.now parent name.now target moved) }
    {
        if self.entry_error(target, new_name).is_some() {
            return false;
        }
        if self.is_directory_name(target, new_name) {
            return false;
        }
        !is_same_name(parent, name, target, new_name)
    }

    /// Whether a rename would be made now.
    pub fn accepts_rename(&self, parent: Gfid, name: &[u8], target: Gfid, new_name: &[u8]) -> bool
        ensures { result ≡ is_accepted (flat self.now (FlatOp.Rename parent name.now target new_name.now)) }
    {
        if self.entry_error(parent, name).is_some() {
            return false;
        }
        match self.item(parent, name) {
            None => false,
            Some(item) => match item.kind {
                Kind::File => self.accepts_file(parent, name, target, new_name),
                Kind::Dir => false,
                Kind::Link => self.accepts_file(parent, name, target, new_name),
            },
        }
    }
}
