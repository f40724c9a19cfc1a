ghost use Rattle.std.specs.Prelude.{◌≡◌, Option, Some, None};
ghost use Rattle.std.specs.Option.{option_copied};
ghost use Rattle.wire_xdr.specs.code.Parsers.{Gives, items_at};
ghost use Rattle.wire_xdr.specs.code.Loops.{last_of};
ghost use Rattle.wire_xdr.specs.code.PartParsers.{item_name, item_name_at, item_after, item_at, items_of_directory_at, kind_of, kind_at, target_at};

use crate::decode::cells::gfid;
use crate::decode::classes::Class;
use crate::decode::faults::Fault;
use crate::decode::strings::{owned_name, owned_opaque};
use crate::decode::units::unit_between;
use crate::limits::{MAX_ITEM_NAME, MAX_LIST, MAX_VOLUME_NAME};
use fop_types::{Item, Kind, Seq};
use std::alloc::Global;

/// An item's name, greater than an earlier one where that is given.
pub fn item_name<'a>(
    alloc: Global,
    bytes: &'a [u8],
    earlier: Option<&[u8]>,
) -> Result<(Seq<u8>, &'a [u8]), Fault>
    ensures { Gives (λ x. (x.0, x.1.now)) result (item_name_at (option_copied earlier.entry) bytes.now) }
{
    let (name, rest) = owned_name(alloc, bytes, Class::Item, earlier, 1, MAX_ITEM_NAME)?;
    Ok((name, rest))
}

fn kind(bytes: &[u8]) -> Result<(Kind, &[u8]), Fault>
    ensures { Gives (λ x. (x.0, x.1.now)) result (kind_at bytes.now) }
{
    let (number, rest) = unit_between(bytes, 0, 2)?;
    let kind = kind_of(number);
    Ok((kind, rest))
}

fn kind_of(number: u32) -> Kind
    ensures { result ≡ kind_of number }
{
    match number {
        0 => Kind::File,
        1 => Kind::Dir,
        _ => Kind::Link,
    }
}

/// The target of an item: a volume's name for a link, else nothing.
fn target(alloc: Global, bytes: &[u8], kind: Kind) -> Result<(Seq<u8>, &[u8]), Fault>
    ensures { Gives (λ x. (x.0, x.1.now)) result (target_at kind bytes.now) }
{
    match kind {
        Kind::File => {
            let (none, rest) = owned_opaque(alloc, bytes, 0)?;
            Ok((none, rest))
        }
        Kind::Dir => {
            let (none, rest) = owned_opaque(alloc, bytes, 0)?;
            Ok((none, rest))
        }
        Kind::Link => {
            let (volume, rest) = owned_name(alloc, bytes, Class::Volume, None, 1, MAX_VOLUME_NAME)?;
            Ok((volume, rest))
        }
    }
}

/// An item, of a name greater than an earlier one where that is given.
pub fn item<'a>(
    alloc: Global,
    bytes: &'a [u8],
    earlier: Option<&[u8]>,
) -> Result<(Item, &'a [u8]), Fault>
    ensures { Gives (λ x. (x.0, x.1.now)) result (item_after (option_copied earlier.entry) bytes.now) }
{
    let (name, rest) = item_name(alloc, bytes, earlier)?;
    let (gfid, rest) = gfid(rest)?;
    let (kind, rest) = kind(rest)?;
    let (target, rest) = target(alloc, rest, kind)?;
    Ok((
        Item {
            name,
            gfid,
            kind,
            target,
        },
        rest,
    ))
}

/// The name of the last item.
#[tactic(auto, using(crate::proofs::ListParsers::last_is))]
fn last_name(items: &[Item]) -> Option<&[u8]>
    ensures { option_copied result ≡ item_name (last_of items.now) }
{
    match items.last() {
        Some(item) => Some(item.name.as_slice()),
        None => None,
    }
}

/// The item after those of a list.
fn next_item<'a>(
    alloc: Global,
    bytes: &'a [u8],
    items: &[Item],
    left: u32,
) -> Result<(Item, &'a [u8]), Fault>
    ensures { Gives (λ x. (x.0, x.1.now)) result (item_at (last_of items.now) left bytes.now) }
{
    let _ = left;
    let (item, rest) = item(alloc, bytes, last_name(items))?;
    Ok((item, rest))
}

// The bytes of an item, at least: a length and four bytes of a name, a gfid, a kind and the length of a target.
const LEAST_ITEM: usize = 32;

/// A list of this many items, by rising name. Room is made for as many at once as the bytes can hold.
fn some_items(alloc: Global, bytes: &[u8], count: u32) -> Result<(Seq<Item>, &[u8]), Fault>
    ensures { Gives (λ x. (x.0, x.1.now)) result (items_at item_at None count bytes.now) }
{
    let mut items = Vec::new(alloc);
    items.reserve((count as usize).min(bytes.len() / LEAST_ITEM))?;
    let mut rest = bytes;
    let mut left = count;
    while left > 0 {
        items.reserve(1)?;
        match next_item(alloc, rest, items.as_slice(), left - 1) {
            Ok((item, after)) => {
                items.push_reserved(item);
                rest = after;
                left -= 1;
            }
            Err(fault) => return Err(fault),
        }
    }
    Ok((Seq::from_vec(items), rest))
}

/// The items of a directory, by rising name.
///
/// # Errors
/// A fault of the bytes, or out of memory.
pub fn items(alloc: Global, bytes: &[u8]) -> Result<(Seq<Item>, &[u8]), Fault>
    ensures { Gives (λ x. (x.0, x.1.now)) result (items_of_directory_at bytes.now) }
{
    let (count, rest) = unit_between(bytes, 0, MAX_LIST)?;
    let (items, rest) = some_items(alloc, rest, count)?;
    Ok((items, rest))
}
