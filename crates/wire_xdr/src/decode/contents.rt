ghost use Rattle.wire_xdr.specs.code.Parsers.{Gives};
ghost use Rattle.wire_xdr.specs.code.PartParsers.{span_arm_at, span_at, mode_at, content_arm_at, content_at};

use crate::decode::attrs::attrs;
use crate::decode::faults::Fault;
use crate::decode::items::items;
use crate::decode::strings::owned_data;
use crate::decode::units::{flag, unit, unit_between};
use crate::limits::{MAX_DATA, MAX_MODE};
use fop_types::{Content, Span};
use std::alloc::Global;

/// A range of hashes, where there is one.
pub fn span(bytes: &[u8]) -> Result<(Option<Span>, &[u8]), Fault>
    ensures { Gives (λ x. (x.0, x.1.now)) result (span_at bytes.now) }
{
    let (given, rest) = unit_between(bytes, 0, 1)?;
    if given == 1 {
        let (first, rest) = unit(rest)?;
        let (last, rest) = unit(rest)?;
        return Ok((Some(Span { first, last }), rest));
    }
    Ok((None, rest))
}

/// A mode of nine bits.
pub fn mode(bytes: &[u8]) -> Result<(u16, &[u8]), Fault>
    ensures { Gives (λ x. (x.0, x.1.now)) result (mode_at bytes.now) }
{
    let (mode, rest) = unit_between(bytes, 0, MAX_MODE)?;
    Ok((mode as u16, rest))
}

/// A content by its kind.
fn content_arm(alloc: Global, bytes: &[u8], kind: u32) -> Result<(Content, &[u8]), Fault>
    ensures { Gives (λ x. (x.0, x.1.now)) result (content_arm_at kind bytes.now) }
{
    match kind {
        0 => {
            let (value, rest) = owned_data(alloc, bytes, MAX_DATA)?;
            Ok((Content::Bytes(value), rest))
        }
        1 => {
            let (mode, rest) = mode(bytes)?;
            let (attrs, rest) = attrs(alloc, rest)?;
            let (span, rest) = span(rest)?;
            Ok((Content::Meta { mode, attrs, span }, rest))
        }
        _ => {
            let (removed, rest) = flag(bytes)?;
            let (items, rest) = items(alloc, rest)?;
            Ok((Content::Names { removed, items }, rest))
        }
    }
}

/// A content whose kind is between two numbers: 0 bytes, 1 metadata, 2 names.
///
/// # Errors
/// A fault of the bytes, or out of memory.
pub fn content(
    alloc: Global,
    bytes: &[u8],
    least: u32,
    most: u32,
) -> Result<(Content, &[u8]), Fault>
    ensures { Gives (λ x. (x.0, x.1.now)) result (content_at least most bytes.now) }
{
    let (kind, rest) = unit_between(bytes, least, most)?;
    let (content, rest) = content_arm(alloc, rest, kind)?;
    Ok((content, rest))
}
