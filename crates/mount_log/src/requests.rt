//! The procedure of a request, by the place that it has in an encoding.
ghost use Rattle.std.specs.Prelude.{◌≡◌, ◌↔◌, Some, IsTrue, is_some, true};
ghost use Rattle.mount_log.specs.Procedures.{rank_in, proc_in};

use fop_types::Proc;

const PROCS: [Proc; 12] = [
    Proc::Lock,
    Proc::Unlock,
    Proc::Mark,
    Proc::Op,
    Proc::Post,
    Proc::Fetch,
    Proc::Replace,
    Proc::Clear,
    Proc::Settle,
    Proc::Index,
    Proc::Open,
    Proc::Release,
];

const KINDS: usize = 16;

const REQUEST: [u8; 4] = [0, 0, 0, 0];

/// The rank of the procedure of an input that is a request, and `None` of other inputs.
pub fn rank_of(input: &[u8]) -> Option<u8>
    ensures { result ≡ rank_in input.now }
{
    if input.len() < KINDS + 4 || &input[..4] != REQUEST.as_slice() {
        return None;
    }
    let number = input[KINDS + 3];
    if number == 0 { None } else { Some(number - 1) }
}

/// The procedure of an input that is a request, and `None` of other inputs.
pub fn request_proc(input: &[u8]) -> Option<Proc>
    ensures { result ≡ proc_in input.now }
{
    let rank = rank_of(input)?;
    PROCS.get(rank as usize).copied()
}

/// Whether an input is a request.
pub fn is_request(input: &[u8]) -> bool
    ensures { result ≡ is_some (proc_in input.now) }
{
    request_proc(input).is_some()
}

/// Whether an input is a request of this procedure.
pub fn is_request_of(input: &[u8], proc: Proc) -> bool
    ensures { IsTrue result ↔ (proc_in input.now ≡ Some proc) }
{
    match request_proc(input) {
        Some(found) => found == proc,
        None => false,
    }
}
