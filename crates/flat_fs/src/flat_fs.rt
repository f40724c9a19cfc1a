ghost use Rattle.std.specs.Prelude.{◌≡◌, [], false, OnOk, OnErr, IfOk, IfSome};
ghost use Rattle.std.specs.Option.{option_copied};
ghost use Rattle.fop_types.specs.Files.{object_at, with_object, first_files};
ghost use Rattle.fop_types.specs.Flat.{flat_answer, flat_after};
ghost use Rattle.flat_fs.specs.Edits.{IsSmall, IsSmallIfThere, Fits, edited_at};

use crate::edits::Edit;
use crate::held::Held;
use fop_types::{FlatAnswer, FlatObject, FlatOp, Gfid, Seq};
use std::alloc::{AllocError, Global};
use std::collections::BTreeMap;
use std::marker::Model;

/// The flat file system: its objects by gfid. Contracts see it as the finite map that the definitions speak of.
#[derive(Drop)]
pub struct FlatFs {
    held: BTreeMap<Gfid, Held>,
}

impl Model for FlatFs {
    ghost use Rattle.std.specs.FinMap as map;
    ghost use Rattle.fop_types.specs.Files.{Files};
    ghost use Rattle.flat_fs.specs.Codes.{files_code};

    ghost Value = { Files };

    ghost coded = { files_code };

    ghost view = { λ s. map.from_entries s.held.entries };
}

// A directory without names.
pub(crate) fn new_directory(alloc: Global, mode: u16) -> FlatObject
    ensures { result ≡ FlatObject.Directory [] mode [] false }
{
    FlatObject::Directory {
        names: Seq::new(alloc),
        mode,
        attrs: Seq::new(alloc),
        removed: false,
    }
}

impl FlatFs {
    /// The root alone, empty, with mode 755 octal.
    ///
    /// # Errors
    /// Out of memory.
    pub fn new(alloc: Global) -> Result<FlatFs, AllocError>
        ensures { IfOk result (λ f. f ≡ first_files) }
    {
        let mut files = FlatFs {
            held: BTreeMap::new(alloc),
        };
        files.put(Gfid { hi: 0, lo: 1 }, new_directory(alloc, 0o755))?;
        Ok(files)
    }

    pub(crate) fn get(&self, gfid: Gfid) -> Option<&FlatObject>
        ensures object { option_copied result ≡ object_at self.now gfid }
        ensures small { IsSmallIfThere (option_copied result) }
    {
        match self.held.get(&gfid) {
            Some(held) => Some(held.object()),
            None => None,
        }
    }

    /// Puts an object in the place of the one of this gfid.
    ///
    /// # Errors
    /// Out of memory.
    pub(crate) fn put(&mut self, gfid: Gfid, object: FlatObject) -> Result<(), AllocError>
        requires { IsSmall object }
        ensures { OnOk result (self.new ≡ with_object self.old gfid object) }
    {
        drop(self.held.insert(gfid, Held::new(object))?);
        Ok(())
    }

    /// Edits the object of this gfid in its place; nothing changes where there is none.
    ///
    /// # Errors
    /// Out of memory; the part that was to be edited may be lost then.
    pub(crate) fn edit(&mut self, alloc: Global, gfid: Gfid, edit: Edit) -> Result<(), AllocError>
        requires { Fits edit }
        ensures { OnOk result (self.new ≡ edited_at self.old gfid edit) }
    {
        match self.held.get_mut(&gfid) {
            Some(held) => held.edit(alloc, edit),
            None => {
                drop(edit);
                Ok(())
            }
        }
    }
}
