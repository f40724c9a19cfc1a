ghost use Rattle.std.specs.Prelude.{◌≡◌, ◌<◌, ◌≤◌, ◌-◌, ◌^◌, Ok, Err, length, IfOk, IfErr, IsErrOf};
ghost use Rattle.mount_log.specs.Scripts.{IsScript};
ghost use Rattle.script_commands.specs.Plans.{accepted};
ghost use Rattle.script_commands.specs.Readings.{IsRead, IsAccepted, IsRefused};
ghost use Rattle.script_commands.specs.declared.readings.NotRead.TheVariants as not_read;
ghost use Rattle.script_commands.specs.declared.refusals.Refusal.{Refusal};

use crate::plans::{Accepted, accept};
use crate::refusals::Refusal;
use script_lang::ScriptKind;
use std::alloc::{AllocError, Global};
use xl_base::{ReadError, Source, read_all};

// The bytes of a script, at most.
const LIMIT: usize = 2097152;

/// Why no script was read: the source failed, the text is refused, or out of memory.
#[derive(Clone, Copy)]
pub enum NotRead {
    Fault,
    Refused(Refusal),
    Mem,
}

impl From<AllocError> for NotRead {
    ghost use Rattle.std.specs.Prelude.{◌≡◌};
    ghost use Rattle.script_commands.specs.declared.readings.NotRead.TheVariants.{Mem};

    ghost from_gives = { λ _ r. r ≡ Mem };

    fn from(_: AllocError) -> NotRead {
        NotRead::Mem
    }
}

/// Reads a text to its end.
///
/// # Errors
/// `Fault` only where the source's count of faults rose in this call; `Refused` where the text is too long; `Mem` is out of
/// memory.
pub fn read_text<S: Source>(alloc: Global, source: &mut S) -> Result<Vec<u8>, NotRead>
    requires { S.faults source.old < 2 ^ 64 - 1 }
    ensures text { IfOk result (λ text. IsRead (S.left source.old) text.items) }
    ensures few { IfOk result (λ text. length text.items ≤ 2097152) }
    ensures refused { (refusal : Refusal) → IsErrOf result (not_read.Refused refusal) → IsRefused (S.left source.old) refusal }
    ensures fault { IsErrOf result not_read.Fault → S.faults source.old < S.faults source.new }
{
    match read_all(alloc, source, LIMIT) {
        Ok(text) => Ok(text),
        Err(ReadError::ReadFault) => Err(NotRead::Fault),
        Err(ReadError::TooLong) => Err(NotRead::Refused(Refusal::OfScript {
            line: 0,
            kind: ScriptKind::TooLong,
        })),
        Err(ReadError::Mem) => Err(NotRead::Mem),
    }
}

/// Reads a text to its end, and judges it.
///
/// # Errors
/// `Fault` only where the source's count of faults rose in this call; `Refused` with the first refusal of the text; `Mem` is out of memory.
pub fn read_script<S: Source>(alloc: Global, source: &mut S) -> Result<Accepted, NotRead>
    requires { S.faults source.old < 2 ^ 64 - 1 }
    ensures accepted { IfOk result (λ read. IsAccepted (S.left source.old) read) }
    ensures script { IfOk result (λ read. IsScript read.script read.plans) }
    ensures refused { (refusal : Refusal) → IsErrOf result (not_read.Refused refusal) → IsRefused (S.left source.old) refusal }
    ensures fault { IsErrOf result not_read.Fault → S.faults source.old < S.faults source.new }
{
    let text = read_text(alloc, source)?;
    accept(alloc, text.as_slice())
}
