ghost use Rattle.std.specs.Prelude.{◌≡◌, OnOk, IfOk};
ghost use Rattle.fop_types.specs.Flat.{flat_answer, flat_after};

use crate::flat_fs::FlatFs;
use fop_types::{FlatAnswer, FlatOp};
use std::alloc::{AllocError, Global};

impl FlatFs {
    /// Answers an operation, and makes the change where it is one and nothing is refused. A look-up takes time of
    /// the number of objects' logarithm, and of the names or attributes of the objects named; a change of a file's
    /// bytes takes time of what it writes.
    ///
    /// # Errors
    /// Out of memory. A part of a change may be done then.
    pub fn apply(&mut self, alloc: Global, op: FlatOp) -> Result<FlatAnswer, AllocError>
        ensures answer { IfOk result (λ a. a ≡ flat_answer self.old op) }
        ensures files { OnOk result (self.new ≡ flat_after self.old op) }
    {
        match op {
            FlatOp::Lookup { parent, name } => Ok(self.lookup(parent, name.as_slice())),
            FlatOp::Mkdir {
                parent,
                name,
                mode,
                drawn,
            } => self.mkdir(alloc, parent, name, mode, drawn),
            FlatOp::Rmdir { parent, name } => self.rmdir(alloc, parent, name),
            FlatOp::Create {
                parent,
                name,
                mode,
                drawn,
            } => self.create(alloc, parent, name, mode, drawn),
            FlatOp::Unlink { parent, name } => self.unlink(alloc, parent, name),
            FlatOp::Rename {
                parent,
                name,
                target,
                new_name,
            } => self.rename(alloc, parent, name, target, new_name),
            FlatOp::Open { gfid } => Ok(self.open(gfid)),
            FlatOp::Stat { gfid } => Ok(self.stat(gfid)),
            FlatOp::List { gfid } => self.list(alloc, gfid),
            FlatOp::Chmod { gfid, mode } => self.chmod(alloc, gfid, mode),
            FlatOp::Truncate { gfid, size } => self.truncate(alloc, gfid, size),
            FlatOp::SetAttr { gfid, attr } => self.setattr(alloc, gfid, attr),
            FlatOp::GetAttr { gfid, name } => self.getattr(alloc, gfid, name.as_slice()),
            FlatOp::DelAttr { gfid, name } => self.delattr(alloc, gfid, name),
            FlatOp::Read {
                gfid,
                offset,
                count,
            } => self.read(alloc, gfid, offset, count),
            FlatOp::Write {
                gfid,
                offset,
                bytes,
            } => self.write(alloc, gfid, offset, bytes),
        }
    }
}
