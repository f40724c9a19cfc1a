//! The records of copies, with the numbers of bricks in the place of those of replicas.
ghost use Rattle.std.specs.Prelude.{◌≡◌, OnOk, IfOk, map};
ghost use Rattle.graph_nodes.specs.Replicate.{brick_of, named_row, named, recorded};

use crate::context::Context;
use fop_types::{CopyRecord, Seq, SplitRow};
use std::alloc::{AllocError, Global};

fn brick_of(bricks: &[u8], replica: u8) -> u8
    ensures { result ≡ brick_of bricks.now replica }
{
    match bricks.get(replica as usize) {
        Some(brick) => *brick,
        None => replica,
    }
}

fn named_row(bricks: &[u8], row: &SplitRow) -> SplitRow
    ensures { result ≡ named_row bricks.now row.now }
{
    SplitRow {
        cell: row.cell,
        brick: brick_of(bricks, row.brick),
        row: row.row,
    }
}

fn named_rows(alloc: Global, bricks: &[u8], rows: &[SplitRow]) -> Result<Seq<SplitRow>, AllocError>
    ensures { IfOk result (λ named. named ≡ map (named_row bricks.now) rows.now) }
{
    let mut named = Seq::new(alloc);
    for row in rows {
        named.push(named_row(bricks, row))?;
    }
    Ok(named)
}

fn named(alloc: Global, bricks: &[u8], made: &CopyRecord) -> Result<CopyRecord, AllocError>
    ensures { IfOk result (λ r. r ≡ named bricks.now made.now) }
{
    let rows = named_rows(alloc, bricks, made.rows.as_slice())?;
    Ok(CopyRecord {
        cell: made.cell,
        source: brick_of(bricks, made.source),
        sink: brick_of(bricks, made.sink),
        rows,
        last: made.last,
    })
}

/// The mount gets the records of a copy.
///
/// # Errors
/// Out of memory.
pub(crate) fn record_all(
    alloc: Global,
    cx: &mut Context,
    bricks: &[u8],
    records: &[CopyRecord],
) -> Result<(), AllocError>
    ensures { OnOk result (cx.new ≡ recorded bricks.now cx.old records.now) }
{
    for made in records {
        let record = named(alloc, bricks, made)?;
        cx.copies.push(record)?;
    }
    Ok(())
}
