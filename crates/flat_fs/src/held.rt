ghost use Rattle.std.specs.Prelude.{◌≡◌, OnOk};
ghost use Rattle.flat_fs.specs.Edits.{IsSmall, Fits, edited};

use crate::edits::{Edit, edit_object};
use fop_types::FlatObject;
use std::alloc::{AllocError, Global};
use std::marker::Model;

/// An object of which a file has at most 65,536 bytes.
#[derive(Drop)]
pub(crate) struct Held {
    object: FlatObject,
}

impl Model for Held {
    ghost use Rattle.fop_types.specs.declared.flat.FlatObject.{FlatObject};
    ghost use Rattle.flat_fs.specs.Codes.{object_code};
    ghost use Rattle.flat_fs.specs.Edits.{IsSmall};

    ghost Value = { FlatObject };

    ghost coded = { object_code };

    ghost view = { λ h. h.object };

    ghost invariant = { λ h. IsSmall h.object };
}

impl Held {
    pub(crate) fn new(object: FlatObject) -> Held
        requires { IsSmall object }
        ensures { result ≡ object }
    {
        Held { object }
    }

    pub(crate) fn object(&self) -> &FlatObject
        ensures object { result.now ≡ self.now }
        ensures small { IsSmall result.now }
    {
        &self.object
    }

    pub(crate) fn edit(&mut self, alloc: Global, edit: Edit) -> Result<(), AllocError>
        requires { Fits edit }
        ensures { OnOk result (self.new ≡ edited edit self.old) }
    {
        edit_object(alloc, &mut self.object, edit)
    }
}
