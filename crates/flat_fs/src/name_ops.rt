ghost use Rattle.std.specs.Prelude.{◌≡◌, [], OnOk, IfOk, MatchResult};
ghost use Rattle.std.specs.Option.{option_copied};
ghost use Rattle.fop_types.specs.Files.{object_at, names_of, names_at, with_removed};
ghost use Rattle.fop_types.specs.Flat.{flat_answer, flat_after, answer_in, files_in, entry_error as entry_error_of, is_empty as is_empty_list, with_new, without_name};
ghost use Rattle.fop_types.specs.Names.{item_named};
ghost use Rattle.flat_fs.specs.Edits.{IsSmall};
ghost use Rattle.flat_fs.specs.Outcomes.{made, removed_child, unlinked_child};

use crate::edits::Edit;
use crate::flat_fs::{FlatFs, new_directory};
use fop_types::{
    Answer, AppError, Data, FlatAnswer, FlatObject, FlatOp, Gfid, Item, Kind, Seq, find_item,
};
use std::alloc::{AllocError, Global};

/// The answer of an operation that is refused.
pub(crate) fn refused(error: AppError) -> FlatAnswer
    ensures { result ≡ FlatAnswer.Call (Answer.App error) }
{
    FlatAnswer::Call(Answer::App(error))
}

/// The answer of a change that is done.
pub(crate) fn done() -> FlatAnswer
    ensures { result ≡ FlatAnswer.Call Answer.Done }
{
    FlatAnswer::Call(Answer::Done)
}

// What an operation on a name looks at before it looks for the name.
fn entry_error_in(object: Option<&FlatObject>, name: &[u8]) -> Option<AppError>
    ensures { result ≡ entry_error_of (option_copied object.entry) name.now }
{
    match object {
        None => Some(AppError::Enoent),
        Some(FlatObject::File { .. }) => Some(AppError::Enotdir),
        Some(FlatObject::Directory { removed, .. }) => {
            if name.len() > 255 {
                Some(AppError::Enametoolong)
            } else if *removed {
                Some(AppError::Enoent)
            } else {
                None
            }
        }
    }
}

fn names_in(object: Option<&FlatObject>) -> &[Item]
    ensures { result.now ≡ names_of (option_copied object.entry) }
{
    match object {
        Some(FlatObject::Directory { names, .. }) => names.as_slice(),
        _ => &[],
    }
}

impl FlatFs {
    pub(crate) fn entry_error(&self, parent: Gfid, name: &[u8]) -> Option<AppError>
        ensures { result ≡ entry_error_of (object_at self.now parent) name.now }
    {
        entry_error_in(self.get(parent), name)
    }

    pub(crate) fn item(&self, parent: Gfid, name: &[u8]) -> Option<&Item>
        ensures { option_copied result ≡ item_named (names_at self.now parent) name.now }
    {
        find_item(names_in(self.get(parent)), name)
    }

    #[tactic(auto, using(crate::proofs::Outcomes::is_empty_is))]
    fn has_no_names(&self, gfid: Gfid) -> bool
        ensures { result ≡ is_empty_list (names_at self.now gfid) }
    {
        names_in(self.get(gfid)).is_empty()
    }

    /// The item of a name in a directory, or the error of a look-up of it.
    pub(crate) fn named(&self, parent: Gfid, name: &[u8]) -> Result<&Item, AppError>
        ensures { MatchResult result (λ item. flat_answer self.now (FlatOp.Lookup parent name.now) ≡ FlatAnswer.Found item.now.gfid item.now.kind) (λ error. flat_answer self.now (FlatOp.Lookup parent name.now) ≡ FlatAnswer.Call (Answer.App error)) }
    {
        if let Some(error) = self.entry_error(parent, name) {
            return Err(error);
        }
        match self.item(parent, name) {
            None => Err(AppError::Enoent),
            Some(item) => Ok(item),
        }
    }

    /// The object of a name in a directory.
    pub(crate) fn lookup(&self, parent: Gfid, name: &[u8]) -> FlatAnswer
        ensures { result ≡ flat_answer self.now (FlatOp.Lookup parent name.now) }
    {
        match self.named(parent, name) {
            Ok(item) => FlatAnswer::Found {
                gfid: item.gfid,
                kind: item.kind,
            },
            Err(error) => refused(error),
        }
    }

    // A new object and its name, which is free.
    #[tactic(auto, using(crate::proofs::Outcomes::put_item_is))]
    fn make_free(
        &mut self,
        alloc: Global,
        parent: Gfid,
        item: Item,
        object: FlatObject,
    ) -> Result<(), AllocError>
        requires { IsSmall object }
        ensures { OnOk result (self.new ≡ with_new self.old parent item object) }
    {
        let gfid = item.gfid;
        match self.edit(alloc, parent, Edit::PutItem(item)) {
            Ok(()) => self.put(gfid, object),
            Err(error) => {
                drop(object);
                Err(error)
            }
        }
    }

    // A new object and its name.
    fn make(
        &mut self,
        alloc: Global,
        parent: Gfid,
        item: Item,
        object: FlatObject,
    ) -> Result<FlatAnswer, AllocError>
        requires { IsSmall object }
        ensures answer { IfOk result (λ a. a ≡ answer_in (made self.old parent item object)) }
        ensures files { OnOk result (self.new ≡ files_in (made self.old parent item object) self.old) }
    {
        if let Some(error) = self.entry_error(parent, item.name.as_slice()) {
            drop(object);
            return Ok(refused(error));
        }
        if self.item(parent, item.name.as_slice()).is_some() {
            drop(object);
            return Ok(refused(AppError::Eexist));
        }
        self.make_free(alloc, parent, item, object)?;
        Ok(done())
    }

    pub(crate) fn mkdir(
        &mut self,
        alloc: Global,
        parent: Gfid,
        name: Seq<u8>,
        mode: u16,
        drawn: Gfid,
    ) -> Result<FlatAnswer, AllocError>
        ensures answer { IfOk result (λ a. a ≡ flat_answer self.old (FlatOp.Mkdir parent name mode drawn)) }
        ensures files { OnOk result (self.new ≡ flat_after self.old (FlatOp.Mkdir parent name mode drawn)) }
    {
        let item = Item {
            name,
            gfid: drawn,
            kind: Kind::Dir,
            target: Seq::new(alloc),
        };
        self.make(alloc, parent, item, new_directory(alloc, mode))
    }

    pub(crate) fn create(
        &mut self,
        alloc: Global,
        parent: Gfid,
        name: Seq<u8>,
        mode: u16,
        drawn: Gfid,
    ) -> Result<FlatAnswer, AllocError>
        ensures answer { IfOk result (λ a. a ≡ flat_answer self.old (FlatOp.Create parent name mode drawn)) }
        ensures files { OnOk result (self.new ≡ flat_after self.old (FlatOp.Create parent name mode drawn)) }
    {
        let item = Item {
            name,
            gfid: drawn,
            kind: Kind::File,
            target: Seq::new(alloc),
        };
        let object = FlatObject::File {
            bytes: Data::new(alloc),
            mode,
            attrs: Seq::new(alloc),
        };
        self.make(alloc, parent, item, object)
    }

    // A directory's name goes, and it is marked as removed; its object stays.
    #[tactic(auto, using(crate::proofs::Outcomes::drop_item_is, crate::proofs::Outcomes::mark_removed_is))]
    fn remove_directory(
        &mut self,
        alloc: Global,
        parent: Gfid,
        name: Seq<u8>,
        gfid: Gfid,
    ) -> Result<(), AllocError>
        ensures { OnOk result (self.new ≡ with_removed (without_name self.old parent name) gfid) }
    {
        self.edit(alloc, parent, Edit::DropItem(name))?;
        self.edit(alloc, gfid, Edit::MarkRemoved)
    }

    fn rmdir_child(
        &mut self,
        alloc: Global,
        parent: Gfid,
        name: Seq<u8>,
        gfid: Gfid,
        kind: Kind,
    ) -> Result<FlatAnswer, AllocError>
        ensures answer { IfOk result (λ a. a ≡ answer_in (removed_child self.old parent name gfid kind)) }
        ensures files { OnOk result (self.new ≡ files_in (removed_child self.old parent name gfid kind) self.old) }
    {
        match kind {
            Kind::File => Ok(refused(AppError::Enotdir)),
            Kind::Link => Ok(refused(AppError::Enotdir)),
            Kind::Dir => {
                if self.has_no_names(gfid) {
                    self.remove_directory(alloc, parent, name, gfid)?;
                    return Ok(done());
                }
                Ok(refused(AppError::Enotempty))
            }
        }
    }

    pub(crate) fn rmdir(
        &mut self,
        alloc: Global,
        parent: Gfid,
        name: Seq<u8>,
    ) -> Result<FlatAnswer, AllocError>
        ensures answer { IfOk result (λ a. a ≡ flat_answer self.old (FlatOp.Rmdir parent name)) }
        ensures files { OnOk result (self.new ≡ flat_after self.old (FlatOp.Rmdir parent name)) }
    {
        if let Some(error) = self.entry_error(parent, name.as_slice()) {
            return Ok(refused(error));
        }
        match self.item(parent, name.as_slice()) {
            None => Ok(refused(AppError::Enoent)),
            Some(item) => {
                let gfid = item.gfid;
                let kind = item.kind;
                self.rmdir_child(alloc, parent, name, gfid, kind)
            }
        }
    }

    #[tactic(auto, using(crate::proofs::Outcomes::drop_item_is))]
    fn unlink_child(
        &mut self,
        alloc: Global,
        parent: Gfid,
        name: Seq<u8>,
        kind: Kind,
    ) -> Result<FlatAnswer, AllocError>
        ensures answer { IfOk result (λ a. a ≡ answer_in (unlinked_child self.old parent name kind)) }
        ensures files { OnOk result (self.new ≡ files_in (unlinked_child self.old parent name kind) self.old) }
    {
        match kind {
            Kind::Dir => return Ok(refused(AppError::Eisdir)),
            Kind::File => {}
            Kind::Link => {}
        }
        self.edit(alloc, parent, Edit::DropItem(name))?;
        Ok(done())
    }

    pub(crate) fn unlink(
        &mut self,
        alloc: Global,
        parent: Gfid,
        name: Seq<u8>,
    ) -> Result<FlatAnswer, AllocError>
        ensures answer { IfOk result (λ a. a ≡ flat_answer self.old (FlatOp.Unlink parent name)) }
        ensures files { OnOk result (self.new ≡ flat_after self.old (FlatOp.Unlink parent name)) }
    {
        if let Some(error) = self.entry_error(parent, name.as_slice()) {
            return Ok(refused(error));
        }
        match self.item(parent, name.as_slice()) {
            None => Ok(refused(AppError::Enoent)),
            Some(item) => {
                let kind = item.kind;
                self.unlink_child(alloc, parent, name, kind)
            }
        }
    }
}
