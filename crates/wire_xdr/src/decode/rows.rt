ghost use Rattle.std.specs.Prelude.{◌≡◌, Option, Some, None};
ghost use Rattle.wire_xdr.specs.code.Parsers.{Gives, items_at, list_at};
ghost use Rattle.wire_xdr.specs.code.Loops.{last_of};
ghost use Rattle.wire_xdr.specs.code.MessageParsers.{counter_at, one_row_at, row_at};
ghost use Rattle.wire_xdr.specs.Limits.{max_list};

use crate::decode::faults::Fault;
use crate::decode::units::{flag, hyper, unit, unit_between};
use crate::limits::MAX_LIST;
use fop_types::{Row, Seq};
use std::alloc::Global;

/// Three units.
fn three_units(bytes: &[u8]) -> Result<([u32; 3], &[u8]), Fault>
    ensures { Gives (λ x. (x.0, x.1.now)) result (items_at counter_at None 3 bytes.now) }
{
    let (first, rest) = unit(bytes)?;
    let (second, rest) = unit(rest)?;
    let (third, rest) = unit(rest)?;
    Ok(([first, second, third], rest))
}

/// The five counters of a row.
fn counters(bytes: &[u8]) -> Result<([u32; 5], &[u8]), Fault>
    ensures { Gives (λ x. (x.0, x.1.now)) result (items_at counter_at None 5 bytes.now) }
{
    let (first, rest) = unit(bytes)?;
    let (second, rest) = unit(rest)?;
    let ([third, fourth, fifth], rest) = three_units(rest)?;
    Ok(([first, second, third, fourth, fifth], rest))
}

fn row(bytes: &[u8]) -> Result<(Row, &[u8]), Fault>
    ensures { Gives (λ x. (x.0, x.1.now)) result (one_row_at bytes.now) }
{
    let (present, rest) = flag(bytes)?;
    let (dirty, rest) = unit(rest)?;
    let (pending, rest) = counters(rest)?;
    let (last, rest) = hyper(rest)?;
    Ok((
        Row {
            present,
            dirty,
            pending,
            last,
        },
        rest,
    ))
}

/// The row after those of a list.
fn next_row<'a>(bytes: &'a [u8], rows: &[Row], left: u32) -> Result<(Row, &'a [u8]), Fault>
    ensures { Gives (λ x. (x.0, x.1.now)) result (row_at (last_of rows.now) left bytes.now) }
{
    let _ = left;
    let _ = rows;
    let (row, rest) = row(bytes)?;
    Ok((row, rest))
}

/// A list of this many rows.
fn some_rows(alloc: Global, bytes: &[u8], count: u32) -> Result<(Seq<Row>, &[u8]), Fault>
    ensures { Gives (λ x. (x.0, x.1.now)) result (items_at row_at None count bytes.now) }
{
    let mut rows = Vec::new(alloc);
    let mut rest = bytes;
    let mut left = count;
    while left > 0 {
        rows.reserve(1)?;
        match next_row(rest, rows.as_slice(), left - 1) {
            Ok((row, after)) => {
                rows.push_reserved(row);
                rest = after;
                left -= 1;
            }
            Err(fault) => return Err(fault),
        }
    }
    Ok((Seq::from_vec(rows), rest))
}

/// A list of rows.
///
/// # Errors
/// A fault of the bytes, or out of memory.
pub fn rows(alloc: Global, bytes: &[u8]) -> Result<(Seq<Row>, &[u8]), Fault>
    ensures { Gives (λ x. (x.0, x.1.now)) result (list_at row_at 0 max_list bytes.now) }
{
    let (count, rest) = unit_between(bytes, 0, MAX_LIST)?;
    let (rows, rest) = some_rows(alloc, rest, count)?;
    Ok((rows, rest))
}
