ghost use Rattle.std.specs.Prelude.{◌≡◌, None, Some, IsSome, OnOk, OnErr};
ghost use Rattle.std.specs.FinMap as map;
ghost use Rattle.fop_types.specs.declared.cells.Gfid.{Gfid};
ghost use Rattle.inode_table.specs.Inodes.{inode_at, linked, with_link, with_release, CanLink};

use crate::inode::Inode;
use fop_types::{Gfid, Kind};
use indexmap::IndexMap;
use std::alloc::{AllocError, Global};
use std::marker::Model;

/// The inodes in use, at most one of each gfid. Contracts see a finite map from gfid to [`Inode`].
#[derive(Drop)]
pub struct InodeTable {
    inodes: IndexMap<Gfid, Inode>,
}

impl Model for InodeTable {
    ghost use Rattle.std.specs.FinMap as map;
    ghost use Rattle.inode_table.specs.Inodes.{Inodes, inodes_code};

    ghost Value = { Inodes };

    ghost coded = { inodes_code };

    ghost view = { λ t. map.from_entries t.inodes.entries };
}

impl InodeTable {
    /// An empty table, which allocates nothing.
    pub fn new(alloc: Global) -> InodeTable
        ensures empty { result ≡ map.empty }
        ensures none { (gfid : Gfid) → inode_at result gfid ≡ None }
    {
        InodeTable {
            inodes: IndexMap::new(alloc),
        }
    }

    /// Takes a reference to an inode: an open descriptor or a file operation names its gfid. The first
    /// reference makes the entry with this kind and set. A later one must name the same kind, and the
    /// entry keeps its set. A gfid has at most 4,294,967,295 references. The table grows in the allocator
    /// that it was made with.
    ///
    /// # Errors
    /// Out of memory; the table is unchanged. It comes only where the gfid has no entry.
    pub fn link(
        &mut self,
        _alloc: Global,
        gfid: Gfid,
        kind: Kind,
        set: u8,
    ) -> Result<(), AllocError>
        requires { CanLink kind (inode_at self.old gfid) }
        ensures ok { OnOk result (self.new ≡ with_link self.old gfid kind set) }
        ensures entry { OnOk result (inode_at self.new gfid ≡ Some (linked kind set (inode_at self.old gfid))) }
        ensures err { OnErr result (self.new ≡ self.old) }
        ensures absent { OnErr result (inode_at self.old gfid ≡ None) }
    {
        let inode = one_more(kind, set, self.get(gfid));
        self.inodes.insert(gfid, inode)?;
        Ok(())
    }

    /// The inode of a gfid, `None` exactly where the gfid is not in use.
    pub fn get(&self, gfid: Gfid) -> Option<Inode>
        ensures { result ≡ inode_at self.now gfid }
    {
        self.inodes.get(&gfid).copied()
    }

    /// Gives a reference back, and removes the entry with the last one. It changes nothing where the gfid
    /// has no entry, and allocates nothing.
    pub fn release(&mut self, gfid: Gfid)
        ensures { self.new ≡ with_release self.old gfid }
    {
        let Some(found) = self.get(gfid) else {
            return;
        };
        if found.held <= 1 {
            self.remove(gfid);
            return;
        }
        let held = found.held - 1;
        self.rewrite(gfid, Inode { held, ..found });
    }

    fn remove(&mut self, gfid: Gfid)
        ensures { self.new ≡ map.remove self.old gfid }
    {
        self.inodes.swap_remove(&gfid);
    }

    // Puts another value in the place of an entry.
    fn rewrite(&mut self, gfid: Gfid, to: Inode)
        requires { IsSome (inode_at self.old gfid) }
        ensures { self.new ≡ map.insert self.old gfid to }
    {
        let Some(found) = self.inodes.get_mut(&gfid) else {
            return;
        };
        *found = to;
    }
}

// The entry with one more reference.
fn one_more(kind: Kind, set: u8, found: Option<Inode>) -> Inode
    requires { CanLink kind found }
    ensures { result ≡ linked kind set found }
{
    match found {
        Some(inode) => Inode {
            held: inode.held + 1,
            ..inode
        },
        None => Inode { kind, set, held: 1 },
    }
}
