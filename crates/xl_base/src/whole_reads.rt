ghost use Rattle.std.specs.Prelude.{◌≡◌, ◌<◌, ◌≤◌, ◌^◌, ◌-◌, length, IfOk, OnOk, IfSome, IsErrOf};
ghost use Rattle.std.specs.Io.KnownBytes.{IsAtEnd};
ghost use Rattle.xl_base.specs.declared.failures.ReadError.TheVariants.{ReadFault, TooLong};

use crate::failures::ReadError;
use crate::sources::Source;
use std::alloc::{AllocError, Global};

// The bytes that one read asks for.
const PIECE: usize = 65536;

/// All bytes of a source, to its end, at most `limit` of them.
///
/// It reads in pieces of 64 KiB and copies each byte once, and once more on average while the result
/// grows.
///
/// # Errors
/// `TooLong` exactly where more than `limit` bytes came; `ReadFault` at the first read that failed, so
/// only where the source's count of faults rose in this call; `Mem` is out of memory.
pub fn read_all<S: Source>(
    alloc: Global,
    source: &mut S,
    limit: usize,
) -> Result<Vec<u8>, ReadError>
    requires { S.faults source.old < 2 ^ 64 - 1 }
    ensures all { IfOk result (λ all. IfSome (S.left source.old) (λ bytes. all.items ≡ bytes)) }
    ensures ended { OnOk result (IsAtEnd (S.left source.new)) }
    ensures few { IfOk result (λ all. length all.items ≤ limit) }
    ensures too_long { IsErrOf result TooLong → IfSome (S.left source.old) (λ bytes. limit < length bytes) }
    ensures fault { IsErrOf result ReadFault → S.faults source.old < S.faults source.new }
    ensures rising { S.faults source.old ≤ S.faults source.new }
{
    let mut all = Vec::new(alloc);
    let mut piece = zeros(alloc, PIECE)?;
    loop {
        let count = match source.read(piece.as_mut_slice()) {
            Ok(count) => count,
            Err(_) => return Err(ReadError::ReadFault),
        };
        if count == 0 {
            return Ok(all);
        }
        if count > limit - all.len() {
            return Err(ReadError::TooLong);
        }
        all.extend_from_slice(&piece[..count])?;
    }
}

fn zeros(alloc: Global, count: usize) -> Result<Vec<u8>, AllocError>
    ensures { IfOk result (λ bytes. length bytes.items ≡ count) }
{
    Vec::from_elem(alloc, 0, count)
}
