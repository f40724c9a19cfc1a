ghost use Rattle.std.specs.Prelude.{◌≡◌, IfOk};
ghost use Rattle.graph_switch.specs.Switch.{reopens, reopen_of as reopened};

use fd_table::{Fd, FdKey, FdTable};
use fop_types::Gfid;
use std::alloc::{AllocError, Global};

/// A descriptor that is opened again: its session, its number there, its file, and the number of the set
/// that has the file.
#[derive(Clone, Copy, PartialEq, Eq)]
pub struct Reopen {
    pub session: u8,
    pub fd: u8,
    pub gfid: Gfid,
    pub set: u8,
}

/// Every open descriptor, by session and then by number.
///
/// # Errors
/// Out of memory.
pub fn reopen_list(alloc: Global, table: &FdTable) -> Result<Vec<Reopen>, AllocError>
    ensures { IfOk result (λ list. list.items ≡ reopens table.now) }
{
    let mut list = Vec::new(alloc);
    for (key, fd) in table.iter() {
        list.push(reopen_of(*key, *fd))?;
    }
    Ok(list)
}

fn reopen_of(key: FdKey, fd: Fd) -> Reopen
    ensures { result ≡ reopened (key, fd) }
{
    Reopen {
        session: key.session,
        fd: key.fd,
        gfid: fd.gfid,
        set: fd.set,
    }
}
