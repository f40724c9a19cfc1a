//! Moves of inodes: those that a fop names are in use until it is answered, and the file of a descriptor while that is open.
ghost use Rattle.std.specs.Prelude.{◌≡◌, Some};
ghost use Rattle.inode_table.specs.Inodes.{inode_at};

use crate::parts::Parts;
use call_fops::Hold;
use fop_types::Object;
use inode_table::{Inode, InodeTable};
use std::alloc::{AllocError, Global};

// Whether an object has the kind that the inode table has for its gfid.
fn agrees(inodes: &InodeTable, object: Object) -> bool {
    match inodes.get(object.gfid) {
        Some(inode) => inode.kind == object.kind,
        None => true,
    }
}

/// Whether the objects of a hold have the kinds that the inode table has for them.
pub(crate) fn all_agree(inodes: &InodeTable, hold: Hold) -> bool {
    match hold.second {
        None => agrees(inodes, hold.first),
        Some(second) => {
            let apart = second.gfid != hold.first.gfid || second.kind == hold.first.kind;
            apart && agrees(inodes, hold.first) && agrees(inodes, second)
        }
    }
}

impl Parts {
    /// An inode is in use once more, where its entry, if it has one, is of this kind. So many references that their number
    /// has no next one would not fit into any memory.
    ///
    /// # Errors
    /// Out of memory.
    pub(crate) fn link(&mut self, alloc: Global, object: Object) -> Result<(), AllocError>
        ensures { self.new ≡ record self.old { graphs = self.new.graphs } }
    {
        match self.graphs.nodes.inodes().get(object.gfid) {
            Some(inode) => self.link_again(alloc, object, inode),
            None => self
                .graphs
                .nodes
                .link(alloc, object.gfid, object.kind, object.set),
        }
    }

    fn link_again(&mut self, alloc: Global, object: Object, inode: Inode) -> Result<(), AllocError>
        requires { inode_at self.old.graphs.nodes.inodes object.gfid ≡ Some inode }
        ensures { self.new ≡ record self.old { graphs = self.new.graphs } }
    {
        if inode.kind != object.kind {
            return Ok(());
        }
        if inode.held == u32::MAX {
            return Err(AllocError);
        }
        self.graphs
            .nodes
            .link(alloc, object.gfid, object.kind, object.set)
    }

    /// The inodes that a fop names, which are those of its hold, are in use.
    ///
    /// # Errors
    /// Out of memory.
    pub(crate) fn link_all(&mut self, alloc: Global, hold: Hold) -> Result<(), AllocError> {
        self.link(alloc, hold.first)?;
        match hold.second {
            Some(second) => self.link(alloc, second),
            None => Ok(()),
        }
    }

    /// The inodes that a fop named are not in use by it any more.
    pub(crate) fn unlink_all(&mut self, hold: Hold) {
        self.graphs.nodes.release(hold.first.gfid);
        if let Some(second) = hold.second {
            self.graphs.nodes.release(second.gfid);
        }
    }
}
