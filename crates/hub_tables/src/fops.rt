//! What the hub asks of a call's next fop beside the fop itself and its hold, which `call_fops` gives.
ghost use Rattle.std.specs.Prelude.{◌≡◌, ◌+◌, ◌*◌, is_none};
ghost use Rattle.call_fops.specs.Walks.{next_name};
ghost use Rattle.hub_tables.specs.Fops.{changes_bytes};

use call_fops::Walk;
use fop_types::Call;

/// The number on the bricks of a session's descriptor.
pub fn fd_number(session: u8, fd: u8) -> u32
    ensures { result ≡ 256 * session + fd + 1 }
{
    256 * session as u32 + fd as u32 + 1
}

/// Whether the fop that a call sends next changes the bytes of its file.
pub fn changes_bytes_next(call: &Call, walk: &Walk) -> bool
    ensures { result ≡ changes_bytes call.now (is_none (next_name call.now walk.now)) }
{
    match call {
        Call::Write { .. } => true,
        Call::Truncate { .. } => walk.component(call).is_none(),
        _ => false,
    }
}
