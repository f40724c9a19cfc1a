ghost use Rattle.std.specs.Prelude.{◌≡◌, ◌≤◌, ◌+◌, ◌++◌, take, drop, length, OnOk, OnErr, IfOk};
ghost use Rattle.fop_types.specs.FileBytes.{file_limit, padded as padded_to, written, resized, read_from};

use fop_types::Seq;
use std::alloc::{AllocError, Global};

// Bytes in the place of as many from `offset` on.
fn overwrite(bytes: &mut Vec<u8>, offset: usize, new: &[u8])
    requires { offset + length new.now ≤ length bytes.old.items }
    ensures { bytes.new.items ≡ take offset bytes.old.items ++ new.now ++ drop (offset + length new.now) bytes.old.items }
{
    bytes[offset..offset + new.len()].copy_from_slice(new);
}

// Bytes from `offset` on, in the place of all that follow: zero bytes fill a gap before them.
fn end_with(bytes: &mut Vec<u8>, offset: usize, new: &[u8]) -> Result<(), AllocError>
    requires reaches { length bytes.old.items ≤ offset + length new.now }
    requires few { offset + length new.now ≤ file_limit }
    ensures ok { OnOk result (bytes.new.items ≡ take offset (padded_to bytes.old.items offset) ++ new.now) }
    ensures err { OnErr result (bytes.new.items ≡ bytes.old.items) }
{
    let end = offset + new.len();
    bytes.reserve(end - bytes.len())?;
    bytes.resize(offset, 0)?;
    bytes.extend_from_slice(new).unwrap();
    Ok(())
}

/// Writes bytes from an offset on, up to 65,536 at most: zero bytes fill a gap between the end and the offset, and a
/// write of no bytes changes nothing (POSIX.1-2017, pwrite). The new bytes are copied once, and no other byte is
/// written but those of the gap.
///
/// # Errors
/// Out of memory, with the bytes unchanged.
pub fn write_at(bytes: &mut Vec<u8>, offset: usize, new: &[u8]) -> Result<(), AllocError>
    requires { offset + length new.now ≤ file_limit }
    ensures ok { OnOk result (bytes.new.items ≡ written bytes.old.items offset new.now) }
    ensures err { OnErr result (bytes.new.items ≡ bytes.old.items) }
{
    if new.is_empty() {
        return Ok(());
    }
    if offset + new.len() <= bytes.len() {
        overwrite(bytes, offset, new);
        return Ok(());
    }
    end_with(bytes, offset, new)?;
    Ok(())
}

/// Gives the bytes another length: what is cut off is gone, what is added is zero bytes (POSIX.1-2017, ftruncate).
///
/// # Errors
/// Out of memory, with the bytes unchanged.
pub fn resize(bytes: &mut Vec<u8>, size: usize) -> Result<(), AllocError>
    ensures ok { OnOk result (bytes.new.items ≡ resized bytes.old.items size) }
    ensures err { OnErr result (bytes.new.items ≡ bytes.old.items) }
{
    bytes.resize(size, 0)?;
    Ok(())
}

/// A copy of at most `count` bytes from an offset on; none at or past the end (POSIX.1-2017, pread).
///
/// # Errors
/// Out of memory.
pub fn read(alloc: Global, bytes: &[u8], offset: usize, count: usize) -> Result<Seq<u8>, AllocError>
    ensures { IfOk result (λ s. s ≡ read_from bytes.now offset count) }
{
    if offset >= bytes.len() {
        return Ok(Seq::new(alloc));
    }
    let rest = &bytes[offset..];
    let few = count.min(rest.len());
    Seq::from_bytes(alloc, &rest[..few])
}
