ghost use Rattle.std.specs.Prelude.{◌≡◌, ◌∷◌, [], IfOk};
ghost use Rattle.dht_fops.specs.Entries.{birth_job as birth_job_of};
ghost use Rattle.dht_fops.specs.Objects.{home as home_of, meta_job as meta_job_of, both_job as both_job_of};
ghost use Rattle.dht_fops.specs.Volumes.{entry};
ghost use Rattle.fop_types.specs.Cells.{names_cell as names_cell_of};
ghost use Rattle.fop_types.specs.Names.{is_directory as is_directory_of};
ghost use Rattle.fop_types.specs.StoreOps.{both_names as both_names_of};
ghost use Rattle.fop_types.specs.declared.jobs.Job.TheVariants as job;
ghost use Rattle.fop_types.specs.declared.store_ops.StoreOp.TheVariants as op;

use crate::volume::Volume;
use fop_types::{Aspect, Cell, Entry, Gfid, Job, Kind, Object, Seq, Span, StoreOp};
use std::alloc::{AllocError, Global};
use std::cmp::Ordering;

/// The greatest length of a name in bytes.
pub(crate) const NAME_LIMIT: usize = 255;

pub(crate) fn is_directory(kind: Kind) -> bool
    ensures { result ≡ is_directory_of kind }
{
    match kind {
        Kind::Dir => true,
        Kind::File => false,
        Kind::Link => false,
    }
}

/// The set of an object's metadata: the first for a directory, and a file's own.
pub(crate) fn home(object: Object) -> u8
    ensures { result ≡ home_of object }
{
    if is_directory(object.kind) {
        0
    } else {
        object.set
    }
}

pub(crate) fn cell(gfid: Gfid, aspect: Aspect) -> Cell
    ensures { result ≡ record { gfid = gfid; aspect = aspect } }
{
    Cell { gfid, aspect }
}

pub(crate) fn names_cell(gfid: Gfid) -> Cell
    ensures { result ≡ names_cell_of gfid }
{
    cell(gfid, Aspect::Entry)
}

/// These cells as a list.
///
/// # Errors
/// Out of memory.
pub(crate) fn listed(alloc: Global, cells: &[Cell]) -> Result<Seq<Cell>, AllocError>
    ensures { IfOk result (λ list. list ≡ cells.now) }
{
    Ok(Seq::from_vec(Vec::from_slice(alloc, cells)?))
}

/// The cell of a directory's names, alone.
///
/// # Errors
/// Out of memory.
pub(crate) fn one_dir(alloc: Global, dir: Gfid) -> Result<Seq<Cell>, AllocError>
    ensures { IfOk result (λ cells. cells ≡ names_cell_of dir ∷ []) }
{
    listed(alloc, &[names_cell(dir)])
}

/// The entry cells of two directories, by rising cell and without a repeat.
///
/// # Errors
/// Out of memory.
pub(crate) fn both_names(alloc: Global, a: Gfid, b: Gfid) -> Result<Seq<Cell>, AllocError>
    ensures { IfOk result (λ cells. cells ≡ both_names_of a b) }
{
    match a.cmp(&b) {
        Ordering::Less => listed(alloc, &[names_cell(a), names_cell(b)]),
        Ordering::Equal => one_dir(alloc, a),
        Ordering::Greater => listed(alloc, &[names_cell(b), names_cell(a)]),
    }
}

// ---- jobs

/// A change of the names of directories with an effect on the file system, which is a part of the call.
pub(crate) fn change_job(volume: Volume, part: u8, cells: Seq<Cell>, op: StoreOp) -> Job
    ensures { result ≡ job.Change cells 0 op (Some (entry volume part)) }
{
    Job::Change {
        cells,
        fd: 0,
        op,
        effect: Some(Entry {
            call: volume.call,
            part,
        }),
    }
}

/// The job by which a name of a directory is dropped, the first part of the call.
///
/// # Errors
/// Out of memory.
pub(crate) fn unlink_job(
    alloc: Global,
    volume: Volume,
    parent: Gfid,
    name: &Seq<u8>,
) -> Result<Job, AllocError>
    ensures { IfOk result (λ made. made ≡ job.Change (names_cell_of parent ∷ []) 0 (op.DropName parent name.now) (Some (entry volume 1))) }
{
    let cells = one_dir(alloc, parent)?;
    let op = StoreOp::DropName {
        parent,
        name: name.copy(alloc)?,
    };
    Ok(change_job(volume, 1, cells, op))
}

/// The job that reads an object's metadata.
///
/// # Errors
/// Out of memory.
pub(crate) fn meta_job(alloc: Global, object: Object) -> Result<Job, AllocError>
    ensures { IfOk result (λ job. job ≡ meta_job_of object) }
{
    Ok(Job::Read {
        cells: listed(alloc, &[cell(object.gfid, Aspect::Meta)])?,
        fd: 0,
        dir: is_directory(object.kind),
    })
}

/// The job that reads a file's bytes and metadata.
///
/// # Errors
/// Out of memory.
pub(crate) fn both_job(alloc: Global, gfid: Gfid) -> Result<Job, AllocError>
    ensures { IfOk result (λ job. job ≡ both_job_of gfid) }
{
    let both = [cell(gfid, Aspect::Data), cell(gfid, Aspect::Meta)];
    Ok(Job::Read {
        cells: listed(alloc, &both)?,
        fd: 0,
        dir: false,
    })
}

/// The job by which a directory's copy is born.
///
/// # Errors
/// Out of memory.
pub(crate) fn birth_job(alloc: Global, gfid: Gfid, span: Option<Span>) -> Result<Job, AllocError>
    ensures { IfOk result (λ job. job ≡ birth_job_of gfid span) }
{
    let both = [cell(gfid, Aspect::Meta), names_cell(gfid)];
    Ok(Job::Birth {
        cells: listed(alloc, &both)?,
        op: StoreOp::MakeCopy { gfid, span },
    })
}
