ghost use Rattle.std.specs.Prelude.{◌≡◌, Option, Some, None};
ghost use Rattle.std.specs.Option.{option_copied};
ghost use Rattle.wire_xdr.specs.code.Parsers.{Gives, items_at};
ghost use Rattle.wire_xdr.specs.code.Loops.{last_of};
ghost use Rattle.wire_xdr.specs.code.PartParsers.{attr_name, attr_name_at, attr_after, attr_at, attrs_at};

use crate::decode::classes::Class;
use crate::decode::faults::Fault;
use crate::decode::strings::{owned_name, owned_opaque};
use crate::decode::units::unit_between;
use crate::limits::{MAX_ATTR_NAME, MAX_ATTR_VALUE, MAX_LIST, MIN_ATTR_NAME};
use fop_types::{Attr, Seq};
use std::alloc::Global;

/// An attribute's name, greater than an earlier one where that is given.
pub fn attr_name<'a>(
    alloc: Global,
    bytes: &'a [u8],
    earlier: Option<&[u8]>,
) -> Result<(Seq<u8>, &'a [u8]), Fault>
    ensures { Gives (λ x. (x.0, x.1.now)) result (attr_name_at (option_copied earlier.entry) bytes.now) }
{
    let (name, rest) = owned_name(
        alloc,
        bytes,
        Class::Any,
        earlier,
        MIN_ATTR_NAME,
        MAX_ATTR_NAME,
    )?;
    Ok((name, rest))
}

/// An attribute, of a name greater than an earlier one where that is given.
pub fn attr<'a>(
    alloc: Global,
    bytes: &'a [u8],
    earlier: Option<&[u8]>,
) -> Result<(Attr, &'a [u8]), Fault>
    ensures { Gives (λ x. (x.0, x.1.now)) result (attr_after (option_copied earlier.entry) bytes.now) }
{
    let (name, rest) = attr_name(alloc, bytes, earlier)?;
    let (value, rest) = owned_opaque(alloc, rest, MAX_ATTR_VALUE)?;
    Ok((Attr { name, value }, rest))
}

/// The name of the last attribute.
#[tactic(auto, using(crate::proofs::ListParsers::last_is))]
fn last_name(attrs: &[Attr]) -> Option<&[u8]>
    ensures { option_copied result ≡ attr_name (last_of attrs.now) }
{
    match attrs.last() {
        Some(attr) => Some(attr.name.as_slice()),
        None => None,
    }
}

/// The attribute after those of a list.
fn next_attr<'a>(
    alloc: Global,
    bytes: &'a [u8],
    attrs: &[Attr],
    left: u32,
) -> Result<(Attr, &'a [u8]), Fault>
    ensures { Gives (λ x. (x.0, x.1.now)) result (attr_at (last_of attrs.now) left bytes.now) }
{
    let _ = left;
    let (attr, rest) = attr(alloc, bytes, last_name(attrs))?;
    Ok((attr, rest))
}

/// A list of this many attributes, by rising name.
fn some_attrs(alloc: Global, bytes: &[u8], count: u32) -> Result<(Seq<Attr>, &[u8]), Fault>
    ensures { Gives (λ x. (x.0, x.1.now)) result (items_at attr_at None count bytes.now) }
{
    let mut attrs = Vec::new(alloc);
    let mut rest = bytes;
    let mut left = count;
    while left > 0 {
        attrs.reserve(1)?;
        match next_attr(alloc, rest, attrs.as_slice(), left - 1) {
            Ok((attr, after)) => {
                attrs.push_reserved(attr);
                rest = after;
                left -= 1;
            }
            Err(fault) => return Err(fault),
        }
    }
    Ok((Seq::from_vec(attrs), rest))
}

/// A list of attributes, by rising name.
///
/// # Errors
/// A fault of the bytes, or out of memory.
pub fn attrs(alloc: Global, bytes: &[u8]) -> Result<(Seq<Attr>, &[u8]), Fault>
    ensures { Gives (λ x. (x.0, x.1.now)) result (attrs_at bytes.now) }
{
    let (count, rest) = unit_between(bytes, 0, MAX_LIST)?;
    let (attrs, rest) = some_attrs(alloc, rest, count)?;
    Ok((attrs, rest))
}
