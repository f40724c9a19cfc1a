ghost use Rattle.std.specs.Prelude.{◌≡◌};
ghost use Rattle.std.specs.FinMap as fin;
ghost use Rattle.std.specs.Option.{option_map};
ghost use Rattle.fd_table.specs.Fds.{fd_at};
ghost use Rattle.call_fops.specs.Asked.{brick_fd as brick_fd_of, file_object as file_object_of};
ghost use Rattle.call_fops.specs.Descriptors.{descriptor_of, fds_of};

use fd_table::{Fd, FdTable};
use fop_types::{Kind, Object};

/// The number on the bricks of a session's descriptor.
pub(crate) fn brick_fd(session: u8, fd: u8) -> u32
    ensures { result ≡ brick_fd_of session fd }
{
    256 * session as u32 + fd as u32 + 1
}

/// The file of an open descriptor.
pub(crate) fn file_object(of: Fd) -> Object
    ensures { result ≡ file_object_of of }
{
    Object {
        gfid: of.gfid,
        kind: Kind::File,
        set: of.set,
    }
}

#[tactic(auto, using(crate::proofs::Descriptors::get_fds_of))]
/// A session's descriptor, where it is open.
pub(crate) fn open_fd(fds: &FdTable, session: u8, fd: u8) -> Option<Fd>
    ensures table { result ≡ fd_at fds.now session fd }
    ensures session { fin.get (fds_of fds.now session) fd ≡ option_map descriptor_of result }
{
    fds.get(session, fd)
}
