ghost use Rattle.std.specs.Prelude.{◌≡◌, ◌≤◌, ◌+◌, ◌↔◌, IsSome, IfSome, is_some, true, false};
ghost use Rattle.std.specs.FinMap as map;
ghost use Rattle.std.specs.Map.Iter.{ShowsInOrder, deref_pair};
ghost use Rattle.fd_table.specs.Fds.{fd_at, opened_at, with_fd, without_fd, with_offset};

use crate::fd::{Fd, FdKey, FdOpen};
use fop_types::Gfid;
use std::alloc::Global;
use std::collections::BTreeMap;
use std::collections::btree_map::Iter;
use std::marker::Model;

/// The open descriptors of all sessions, at most one of each session and number.
#[derive(Drop)]
pub struct FdTable {
    held: BTreeMap<FdKey, Fd>,
}

impl Model for FdTable {
    ghost use Rattle.std.specs.FinMap as map;
    ghost use Rattle.std.specs.Coded.{coded_ℕ, code_by, coded×};
    ghost use Rattle.fd_table.specs.Fds.{Fds, fds_code};

    ghost Value = { Fds };

    ghost coded = { fds_code };

    ghost view = { λ t. map.from_entries t.held.entries };
}

impl FdTable {
    /// An empty table, which allocates nothing.
    pub fn new(alloc: Global) -> FdTable
        ensures { result ≡ map.empty }
    {
        FdTable {
            held: BTreeMap::new(alloc),
        }
    }

    /// Opens descriptor `fd` of `session` for a file and the set that holds it, at offset 0.
    ///
    /// `InUse` comes exactly where that descriptor is open, and then it keeps its file and its offset.
    /// `Mem` is out of memory; the table is unchanged. The table grows in the allocator that it was made
    /// with.
    pub fn open(&mut self, _alloc: Global, session: u8, fd: u8, gfid: Gfid, set: u8) -> FdOpen
        ensures opened { result ≡ FdOpen.Opened → self.new ≡ with_fd self.old session fd (opened_at gfid set) }
        ensures in_use { result ≡ FdOpen.InUse ↔ IsSome (fd_at self.old session fd) }
        ensures kept { result ≡ FdOpen.InUse → self.new ≡ self.old }
        ensures mem { result ≡ FdOpen.Mem → self.new ≡ self.old }
    {
        if self.get(session, fd).is_some() {
            return FdOpen::InUse;
        }
        let fresh = Fd {
            gfid,
            set,
            offset: 0,
        };
        let Ok(_) = self.held.insert(FdKey { session, fd }, fresh) else {
            return FdOpen::Mem;
        };
        FdOpen::Opened
    }

    /// The file, set and offset of descriptor `fd` of `session`, `None` exactly where it is not open.
    pub fn get(&self, session: u8, fd: u8) -> Option<Fd>
        ensures { result ≡ fd_at self.now session fd }
    {
        self.held.get(&FdKey { session, fd }).copied()
    }

    /// Sets the offset of a descriptor. It is false, with nothing changed, exactly where the descriptor is
    /// not open.
    pub fn seek(&mut self, session: u8, fd: u8, offset: u32) -> bool
        ensures open { result ≡ is_some (fd_at self.old session fd) }
        ensures moved { self.new ≡ with_offset self.old session fd (λ _. offset) }
    {
        let Some(found) = self.get(session, fd) else {
            return false;
        };
        let moved = Fd { offset, ..found };
        self.rewrite(session, fd, moved);
        true
    }

    /// Adds to the offset of a descriptor; the sum may be at most 65,536. It is false, with nothing
    /// changed, exactly where the descriptor is not open.
    pub fn advance(&mut self, session: u8, fd: u8, by: u32) -> bool
        requires { IfSome (fd_at self.old session fd) (λ d. d.offset + by ≤ 65536) }
        ensures open { result ≡ is_some (fd_at self.old session fd) }
        ensures moved { self.new ≡ with_offset self.old session fd (λ at. at + by) }
    {
        let Some(found) = self.get(session, fd) else {
            return false;
        };
        let offset = found.offset + by;
        self.rewrite(session, fd, Fd { offset, ..found });
        true
    }

    /// Closes a descriptor. It is false, with nothing changed, exactly where the descriptor is not open.
    pub fn close(&mut self, session: u8, fd: u8) -> bool
        ensures open { result ≡ is_some (fd_at self.old session fd) }
        ensures closed { self.new ≡ without_fd self.old session fd }
        ensures absent { result ≡ false → self.new ≡ self.old }
    {
        let closed = self.held.remove(&FdKey { session, fd });
        closed.is_some()
    }

    /// The open descriptors, by session and then by number.
    pub fn iter(&self) -> Iter<'_, FdKey, Fd>
        ensures listed { result ≡ map.entries self.now }
        ensures runs { ShowsInOrder (deref_pair {K = FdKey} {X = Fd}) }
    {
        self.held.iter()
    }

    // Puts another value in the place of an open descriptor.
    fn rewrite(&mut self, session: u8, fd: u8, to: Fd)
        requires { IsSome (fd_at self.old session fd) }
        ensures { self.new ≡ with_fd self.old session fd to }
    {
        let Some(found) = self.held.get_mut(&FdKey { session, fd }) else {
            return;
        };
        *found = to;
    }
}
