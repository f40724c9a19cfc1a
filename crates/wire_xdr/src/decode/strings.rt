ghost use Rattle.std.specs.Prelude.{◌≡◌, ◌≤◌, ◌<◌, ◌^◌, Option, Some, None, take, length};
ghost use Rattle.std.specs.Option.{option_copied};
ghost use Rattle.std.specs.List.{list_all};
ghost use Rattle.wire_xdr.specs.code.Classes.{class_test};
ghost use Rattle.wire_xdr.specs.code.Parsers.{Gives, is_less, left_of, is_greater, is_zero, is_inner_quad, is_last_quad, any_byte, string_at, opaque_at, bytes_at};

use crate::decode::classes::Class;
use crate::decode::faults::Fault;
use crate::decode::units::unit_between;
use fop_types::{Data, Seq};
use std::alloc::Global;
use std::cmp::Ordering;

/// Whether bytes are less than those of an earlier name, as far as both go.
#[tactic(auto, using(crate::proofs::Names::less_by))]
fn is_less(earlier: &[u8], bytes: &[u8]) -> bool
    ensures { result ≡ is_less (Some earlier.now) bytes.now }
{
    match bytes.cmp(earlier) {
        Ordering::Less => !earlier.starts_with(bytes),
        _ => false,
    }
}

/// What is left of an earlier name after bytes that are the same; nothing once they are not.
#[tactic(auto, using(crate::proofs::Names::left_when, crate::proofs::Names::left_else))]
fn left_of<'a>(earlier: Option<&'a [u8]>, bytes: &[u8]) -> Option<&'a [u8]>
    ensures { option_copied result ≡ left_of (option_copied earlier.entry) bytes.now }
{
    match earlier {
        None => None,
        Some(earlier) => {
            if earlier.starts_with(bytes) {
                let (_, rest) = earlier.split_at(bytes.len());
                Some(rest)
            } else {
                None
            }
        }
    }
}

/// Whether the last bytes of a name make it greater than an earlier one.
#[tactic(auto, using(crate::proofs::Names::greater_by))]
fn is_greater(earlier: Option<&[u8]>, bytes: &[u8]) -> bool
    ensures { result ≡ is_greater (option_copied earlier.entry) bytes.now }
{
    match earlier {
        None => true,
        Some(earlier) => match earlier.cmp(bytes) {
            Ordering::Less => true,
            _ => false,
        },
    }
}

/// Whether four bytes within a name are of its class and not less than an earlier name.
fn is_inner_quad(class: Class, earlier: Option<&[u8]>, quad: &[u8]) -> bool
    ensures { result ≡ is_inner_quad (class_test class) (option_copied earlier.entry) quad.now }
{
    if class.has_all(quad) {
        match earlier {
            None => true,
            Some(earlier) => !is_less(earlier, quad),
        }
    } else {
        false
    }
}

/// Whether all bytes are zero.
fn are_zeros(bytes: &[u8]) -> bool
    ensures { result ≡ list_all is_zero bytes.now }
{
    bytes.iter().all(|b| *b == 0)
}

/// Whether the last bytes of a name are of its class, make it greater than an earlier one, and are
/// followed by zeros.
fn is_last_quad(class: Class, earlier: Option<&[u8]>, size: usize, quad: &[u8]) -> bool
    requires { size ≤ length quad.now }
    ensures { result ≡ is_last_quad (class_test class) (option_copied earlier.entry) size quad.now }
{
    let (last, padding) = quad.split_at(size);
    class.has_all(last) && is_greater(earlier, last) && are_zeros(padding)
}

/// Skips a string of `size` bytes with its padding, and gives the bytes after it. The string must be greater
/// than an earlier one where that is given.
#[tactic(auto, using(crate::proofs::StringParsers::at_end_fails, crate::proofs::StringParsers::goes_stop, crate::proofs::StringParsers::string_short))]
fn skip_string<'a>(
    bytes: &'a [u8],
    class: Class,
    earlier: Option<&[u8]>,
    size: usize,
) -> Result<&'a [u8], Fault>
    ensures { Gives (λ rest. (take size bytes.now, rest.now)) result (string_at (class_test class) (option_copied earlier.entry) size bytes.now) }
{
    if size == 0 {
        return Ok(bytes);
    }
    if bytes.len() < 4 {
        return Err(Fault::Short);
    }
    let (quad, rest) = bytes.split_at(4);
    if size <= 4 {
        if is_last_quad(class, earlier, size, quad) {
            return Ok(rest);
        }
        return Err(Fault::Wrong { left: bytes.len() });
    }
    if is_inner_quad(class, earlier, quad) {
        skip_string(rest, class, left_of(earlier, quad), size - 4)
    } else {
        Err(Fault::Wrong { left: bytes.len() })
    }
}

/// Splits bytes of any kind from their padding, which must be zeros: `size` bytes, and the bytes after the
/// padding. Allocates nothing, and looks only at the padding.
#[tactic(auto, using(crate::proofs::Payloads::payload_passes, crate::proofs::Payloads::payload_fails, crate::proofs::Payloads::payload_short))]
fn payload(bytes: &[u8], size: usize) -> Result<(&[u8], &[u8]), Fault>
    requires { size < 2 ^ 32 }
    ensures { Gives (λ x. (x.0.now, x.1.now)) result (string_at any_byte None size bytes.now) }
{
    let whole = (size + 3) / 4 * 4;
    if bytes.len() < whole {
        return Err(Fault::Short);
    }
    let (prefix, rest) = bytes.split_at(whole);
    let (value, padding) = prefix.split_at(size);
    if are_zeros(padding) {
        Ok((value, rest))
    } else {
        Err(Fault::Wrong {
            left: rest.len() + 4,
        })
    }
}

/// An opaque of at most `most` bytes, as a slice of the message.
pub fn opaque(bytes: &[u8], most: u32) -> Result<(&[u8], &[u8]), Fault>
    ensures { Gives (λ x. (x.0.now, x.1.now)) result (bytes_at most bytes.now) }
{
    let (size, rest) = unit_between(bytes, 0, most)?;
    let (value, rest) = payload(rest, size as usize)?;
    Ok((value, rest))
}

/// A name of `least` to `most` bytes of a class, greater than an earlier one where that is given, as a
/// slice of the message.
pub fn name<'a>(
    bytes: &'a [u8],
    class: Class,
    earlier: Option<&[u8]>,
    least: u32,
    most: u32,
) -> Result<(&'a [u8], &'a [u8]), Fault>
    ensures { Gives (λ x. (x.0.now, x.1.now)) result (opaque_at (class_test class) (option_copied earlier.entry) least most bytes.now) }
{
    let (size, rest) = unit_between(bytes, least, most)?;
    let size = size as usize;
    let after = skip_string(rest, class, earlier, size)?;
    Ok((&rest[..size], after))
}

/// A copy of an opaque of at most `most` bytes.
///
/// # Errors
/// A fault of the bytes, or out of memory.
pub fn owned_opaque(alloc: Global, bytes: &[u8], most: u32) -> Result<(Seq<u8>, &[u8]), Fault>
    ensures { Gives (λ x. (x.0, x.1.now)) result (bytes_at most bytes.now) }
{
    let (value, rest) = opaque(bytes, most)?;
    Ok((Seq::from_bytes(alloc, value)?, rest))
}

/// A copy of the bytes of a file or of a write, of which there are at most `most`.
///
/// # Errors
/// A fault of the bytes, or out of memory.
pub fn owned_data(alloc: Global, bytes: &[u8], most: u32) -> Result<(Data, &[u8]), Fault>
    ensures { Gives (λ x. (x.0, x.1.now)) result (bytes_at most bytes.now) }
{
    let (value, rest) = opaque(bytes, most)?;
    Ok((Data::from_vec(Vec::from_slice(alloc, value)?), rest))
}

/// A copy of a name.
///
/// # Errors
/// A fault of the bytes, or out of memory.
pub fn owned_name<'a>(
    alloc: Global,
    bytes: &'a [u8],
    class: Class,
    earlier: Option<&[u8]>,
    least: u32,
    most: u32,
) -> Result<(Seq<u8>, &'a [u8]), Fault>
    ensures { Gives (λ x. (x.0, x.1.now)) result (opaque_at (class_test class) (option_copied earlier.entry) least most bytes.now) }
{
    let (value, rest) = name(bytes, class, earlier, least, most)?;
    Ok((Seq::from_bytes(alloc, value)?, rest))
}
