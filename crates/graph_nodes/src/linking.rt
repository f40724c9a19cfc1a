//! The inodes in use, of the graphs of a mount.
ghost use Rattle.std.specs.Prelude.{◌≡◌, OnOk, OnErr};
ghost use Rattle.inode_table.specs.Inodes.{CanLink, inode_at, with_link, with_release};

use crate::graphs::Graphs;
use fop_types::{Gfid, Kind};
use inode_table::InodeTable;
use std::alloc::{AllocError, Global};

impl Graphs {
    /// The inodes in use.
    pub fn inodes(&self) -> &InodeTable
        ensures { result.now ≡ self.now.inodes }
    {
        &self.mount.inodes
    }

    /// Takes a reference to an inode, as `InodeTable::link` does.
    ///
    /// # Errors
    /// Out of memory, and nothing changed.
    pub fn link(&mut self, alloc: Global, gfid: Gfid, kind: Kind, set: u8) -> Result<(), AllocError>
        requires { CanLink kind (inode_at self.old.inodes gfid) }
        ensures ok { OnOk result (self.new ≡ record self.old { inodes = with_link self.old.inodes gfid kind set }) }
        ensures err { OnErr result (self.new ≡ self.old) }
    {
        self.mount.inodes.link(alloc, gfid, kind, set)?;
        Ok(())
    }

    /// Gives a reference to an inode back, as `InodeTable::release` does.
    pub fn release(&mut self, gfid: Gfid)
        ensures { self.new ≡ record self.old { inodes = with_release self.old.inodes gfid } }
    {
        self.mount.inodes.release(gfid);
    }
}
