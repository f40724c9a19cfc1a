//! The I/O errors of a report.
ghost use Rattle.std.specs.Prelude.{◌≡◌, ◌≤◌, map, min, IfOk};
ghost use Rattle.run_report.specs.Reports.{shown_brick, shown_row, shown_io, replicas_of};

use crate::names::Names;
use fop_types::{IoError, Seq, SplitRow};
use report_text::{ReportIo, ReportRow};
use std::alloc::{AllocError, Global};

fn lost_bricks(
    alloc: Global,
    names: &Names,
    lost: &[(u8, u32)],
) -> Result<Seq<(Seq<u8>, u32)>, AllocError>
    ensures { IfOk result (λ list. list ≡ map (shown_brick names.now) lost.now) }
{
    let mut shown = Seq::new(alloc);
    for (brick, connection) in lost {
        let name = names.brick(alloc, *brick)?;
        shown.push((name, *connection))?;
    }
    Ok(shown)
}

fn fault_bricks(
    alloc: Global,
    names: &Names,
    faults: &[(u8, u64)],
) -> Result<Seq<(Seq<u8>, u64)>, AllocError>
    ensures { IfOk result (λ list. list ≡ map (shown_brick names.now) faults.now) }
{
    let mut shown = Seq::new(alloc);
    for (brick, place) in faults {
        let name = names.brick(alloc, *brick)?;
        shown.push((name, *place))?;
    }
    Ok(shown)
}

fn row(
    alloc: Global,
    names: &Names,
    replicas: usize,
    row: &SplitRow,
) -> Result<ReportRow, AllocError>
    requires { replicas ≤ 5 }
    ensures { IfOk result (λ shown. shown ≡ shown_row names.now replicas row.now) }
{
    let pending = Vec::from_slice(alloc, &row.row.pending[..replicas])?;
    Ok(ReportRow {
        cell: row.cell,
        brick: names.brick(alloc, row.brick)?,
        present: row.row.present,
        dirty: row.row.dirty,
        pending: Seq::from_vec(pending),
        last: row.row.last,
    })
}

fn rows(
    alloc: Global,
    names: &Names,
    set: u8,
    split: &[SplitRow],
) -> Result<Seq<ReportRow>, AllocError>
    ensures { IfOk result (λ list. list ≡ map (shown_row names.now (min (replicas_of names.now set) 5)) split.now) }
{
    let replicas = names.replicas(set).min(5);
    let mut shown = Seq::new(alloc);
    for one in split {
        let line = row(alloc, names, replicas, one)?;
        shown.push(line)?;
    }
    Ok(shown)
}

/// An I/O error with names.
///
/// # Errors
/// Out of memory.
pub fn report_io(alloc: Global, names: &Names, error: &IoError) -> Result<ReportIo, AllocError>
    ensures { IfOk result (λ shown. shown ≡ shown_io names.now error.now) }
{
    match error {
        IoError::Quorum { set, lost } => {
            let lost = lost_bricks(alloc, names, lost.as_slice())?;
            let set = names.set(alloc, *set)?;
            Ok(ReportIo::Quorum { set, lost })
        }
        IoError::Split { set, rows: split } => {
            let rows = rows(alloc, names, *set, split.as_slice())?;
            let set = names.set(alloc, *set)?;
            Ok(ReportIo::Split { set, rows })
        }
        IoError::Fault { set, faults, lost } => {
            let faults = fault_bricks(alloc, names, faults.as_slice())?;
            let lost = lost_bricks(alloc, names, lost.as_slice())?;
            let set = names.set(alloc, *set)?;
            Ok(ReportIo::Fault { set, faults, lost })
        }
    }
}
