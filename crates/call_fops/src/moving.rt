ghost use Rattle.std.specs.Prelude.{◌≡◌, ◌+◌, OnOk, OnErr, IfSome};
ghost use Rattle.fd_table.specs.Fds.{opened_at, with_fd, with_offset};
ghost use Rattle.call_fops.specs.Descriptors.{fds_after};

use crate::replies::FdMove;
use fd_table::{FdOpen, FdTable};
use fop_types::Gfid;
use std::alloc::{AllocError, Global};

fn open(
    alloc: Global,
    fds: &mut FdTable,
    session: u8,
    fd: u8,
    gfid: Gfid,
    set: u8,
) -> Result<(), AllocError>
    ensures ok { OnOk result (fds.new ≡ with_fd fds.old session fd (opened_at gfid set)) }
    ensures err { OnErr result (fds.new ≡ fds.old) }
{
    match fds.open(alloc, session, fd, gfid, set) {
        FdOpen::Opened => Ok(()),
        FdOpen::InUse => Err(AllocError),
        FdOpen::Mem => Err(AllocError),
    }
}

fn sum(offset: u32, by: usize) -> Option<u32>
    ensures { IfSome result (λ sum. sum ≡ offset + by) }
{
    match u32::try_from(by) {
        Ok(by) => offset.checked_add(by),
        Err(_) => None,
    }
}

#[tactic(auto, using(crate::proofs::Offsets::moved_on))]
fn advance(fds: &mut FdTable, session: u8, fd: u8, by: usize) -> Result<(), AllocError>
    ensures ok { OnOk result (fds.new ≡ with_offset fds.old session fd (λ at. at + by)) }
    ensures err { OnErr result (fds.new ≡ fds.old) }
{
    match fds.get(session, fd) {
        None => Ok(()),
        Some(found) => match sum(found.offset, by) {
            None => Err(AllocError),
            Some(offset) => {
                fds.seek(session, fd, offset);
                Ok(())
            }
        },
    }
}

/// Makes of the table of descriptors what a reply of a call of this session makes of it, in time of the order log n where n
/// are open.
///
/// # Errors
/// Out of memory, and nothing is changed. It is also what an open of an open descriptor and an offset of 2^32 or more
/// would give, which no call has that was not answered at once and whose fops were answered lawfully.
pub fn move_fd(alloc: Global, fds: &mut FdTable, session: u8, to: FdMove) -> Result<(), AllocError>
    ensures ok { OnOk result (fds.new ≡ fds_after fds.old session to) }
    ensures err { OnErr result (fds.new ≡ fds.old) }
{
    match to {
        FdMove::Stays => Ok(()),
        FdMove::Opens { fd, gfid, set } => open(alloc, fds, session, fd, gfid, set),
        FdMove::Advances { fd, by } => advance(fds, session, fd, by),
        FdMove::Seeks { fd, offset } => {
            fds.seek(session, fd, offset);
            Ok(())
        }
        FdMove::Closes { fd } => {
            fds.close(session, fd);
            Ok(())
        }
    }
}
