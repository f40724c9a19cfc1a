ghost use Rattle.std.specs.Prelude.{◌≡◌, ℕ, List, Some, None, true, false};
ghost use Rattle.std.specs.Option.{option_map};
ghost use Rattle.fop_types.specs.declared.cells.Gfid.{Gfid};
ghost use Rattle.fd_table.specs.Fds.{fd_at};
ghost use Rattle.call_fops.specs.Asked.{shared as shared_of, exclusive as exclusive_of, hold_for, fop_next, last_fop as last_fop_of, file_object as file_object_of};
ghost use Rattle.call_fops.specs.Walks.{Walked};

use crate::objects::{file_object, open_fd};
use crate::walk::Walk;
use fd_table::FdTable;
use fop_types::{Call, Object};

/// What a fop holds from its start to its answer: one object, or the two directories of a rename, which may be one;
/// shared or exclusive.
#[derive(Clone, Copy)]
pub struct Hold {
    pub first: Object,
    pub second: Option<Object>,
    pub shared: bool,
}

fn shared(object: Object) -> Option<Hold>
    ensures { result ≡ shared_of object }
{
    Some(Hold {
        first: object,
        second: None,
        shared: true,
    })
}

fn exclusive(object: Object) -> Option<Hold>
    ensures { result ≡ exclusive_of object }
{
    Some(Hold {
        first: object,
        second: None,
        shared: false,
    })
}

fn both(walk: &Walk) -> Option<Hold>
    ensures { result ≡ Some (record { first = walk.now.first.at; second = Some walk.now.second.at; shared = false }) }
{
    Some(Hold {
        first: walk.first(),
        second: Some(walk.second()),
        shared: false,
    })
}

fn of_read(fds: &FdTable, session: u8, fd: u8) -> Option<Hold>
    ensures { (w : Walked) (drawn : Gfid) (count : ℕ) → result ≡ hold_for (last_fop_of (Call.Read fd count) w session drawn fds.now) }
{
    match open_fd(fds, session, fd) {
        None => None,
        Some(open) => shared(file_object(open)),
    }
}

fn of_write(fds: &FdTable, session: u8, fd: u8) -> Option<Hold>
    ensures { (w : Walked) (drawn : Gfid) (bytes : List ℕ) → result ≡ hold_for (last_fop_of (Call.Write fd bytes) w session drawn fds.now) }
{
    match open_fd(fds, session, fd) {
        None => None,
        Some(open) => exclusive(file_object(open)),
    }
}

fn last_hold(call: &Call, walk: &Walk, session: u8, fds: &FdTable) -> Option<Hold>
    ensures { (drawn : Gfid) → result ≡ hold_for (last_fop_of call.now walk.now session drawn fds.now) }
{
    let object = walk.first();
    match call {
        Call::Mkdir { .. } => exclusive(object),
        Call::Rmdir { .. } => exclusive(object),
        Call::Create { .. } => exclusive(object),
        Call::Unlink { .. } => exclusive(object),
        Call::Rename { .. } => both(walk),
        Call::Open { .. } => shared(object),
        Call::Stat { .. } => shared(object),
        Call::List { .. } => shared(object),
        Call::Chmod { .. } => exclusive(object),
        Call::Truncate { .. } => exclusive(object),
        Call::SetAttr { .. } => exclusive(object),
        Call::GetAttr { .. } => shared(object),
        Call::DelAttr { .. } => exclusive(object),
        Call::Read { fd, .. } => of_read(fds, session, *fd),
        Call::Write { fd, .. } => of_write(fds, session, *fd),
        Call::Seek { .. } => None,
        Call::Close { .. } => None,
    }
}

/// The hold of the fop that a call of a session sends next, to be asked for before [`next_fop`](crate::next_fop) makes
/// the fop; `None` where it sends none. An rmdir extends its hold by the directory later.
pub fn next_hold(call: &Call, walk: &Walk, session: u8, fds: &FdTable) -> Option<Hold>
    ensures { (drawn : Gfid) → result ≡ hold_for (fop_next call.now walk.now session drawn fds.now) }
{
    match walk.component(call) {
        Some(_) => shared(walk.parent(call)),
        None => last_hold(call, walk, session, fds),
    }
}
