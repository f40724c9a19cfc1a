ghost use Rattle.std.specs.Prelude.{◌≡◌, IfOk, Some, None};
ghost use Rattle.dht_fops.specs.Courses.{after_any};
ghost use Rattle.dht_fops.specs.Courses.Course.{Asks};
ghost use Rattle.dht_fops.specs.Renames.{link_of, drops_old_link, adds_link, moves, bears, replaces, changes_names};
ghost use Rattle.dht_fops.specs.code.Waits.{course_of};
ghost use Rattle.dht_fops.specs.Volumes.{entry};
ghost use Rattle.dht_fops.specs.declared.volume.Volume.{Volume};
ghost use Rattle.fop_types.specs.StoreOps.{both_names as both_names_of};
ghost use Rattle.fop_types.specs.declared.jobs.Job.TheVariants as job;
ghost use Rattle.fop_types.specs.declared.store_ops.StoreOp.TheVariants as op;

use crate::cells::{birth_job, both_names, change_job, one_dir, unlink_job};
use crate::drops::{NameDrop, drop_link};
use crate::state::{OnNames, OnNumber, OnReply, State};
use crate::step::{Step, ask};
use crate::volume::Volume;
use dht_linkto::names_job;
use fop_types::{Cell, Gfid, Item, Job, Kind, Seq, StoreOp};
use std::alloc::{AllocError, Global};

/// A file that is renamed: its first name, the set to which that belongs, and whether that set showed a link of it; the
/// set that has the file, and the file's gfid.
#[derive(Drop)]
pub(crate) struct Source {
    pub parent: Gfid,
    pub name: Seq<u8>,
    pub hashed: u8,
    pub has_link: bool,
    pub set: u8,
    pub gfid: Gfid,
}

/// A rename of which both names were found: the file, the new parent and name, the set to which the new name belongs, and
/// the name of the set that has the file.
#[derive(Drop)]
pub(crate) struct Renaming {
    pub source: Source,
    pub target: Gfid,
    pub new_name: Seq<u8>,
    pub hashed: u8,
    pub set_name: Seq<u8>,
}

/// The link of the first name is dropped, if there was one.
///
/// # Errors
/// Out of memory.
pub(crate) fn drop_old_link(
    alloc: Global,
    volume: Volume,
    source: Source,
    number: Option<u32>,
) -> Result<Step, AllocError>
    ensures { IfOk result (λ step. course_of volume step ≡ drops_old_link source number) }
{
    let dropped = NameDrop {
        parent: source.parent,
        name: source.name,
        hashed: source.hashed,
        has_link: source.has_link,
    };
    drop_link(alloc, volume, dropped, number)
}

/// The move was made: a link is added where the new name belongs to another set.
///
/// # Errors
/// Out of memory.
pub(crate) fn add_link(
    alloc: Global,
    volume: Volume,
    renaming: Renaming,
    number: Option<u32>,
) -> Result<Step, AllocError>
    ensures { IfOk result (λ step. course_of volume step ≡ adds_link renaming number) }
{
    if renaming.hashed == renaming.source.set {
        return drop_old_link(alloc, volume, renaming.source, number);
    }
    match one_dir(alloc, renaming.target) {
        Ok(cells) => Ok(ask_link(volume, renaming, cells, number)),
        Err(error) => {
            drop(renaming);
            Err(error)
        }
    }
}

fn ask_link(volume: Volume, renaming: Renaming, cells: Seq<Cell>, number: Option<u32>) -> Step
    ensures { course_of volume result ≡ Asks renaming.hashed (job.Change cells 0 (op.AddName renaming.target (link_of renaming) 0 None) None) (after_any (drops_old_link renaming.source number)) }
{
    let item = Item {
        name: renaming.new_name,
        gfid: renaming.source.gfid,
        kind: Kind::Link,
        target: renaming.set_name,
    };
    let job = Job::Change {
        cells,
        fd: 0,
        op: StoreOp::AddName {
            parent: renaming.target,
            item,
            mode: 0,
            span: None,
        },
        effect: None,
    };
    ask(
        renaming.hashed,
        job,
        State::Reply(OnReply::NewLink(renaming.source, number)),
    )
}

/// The move on the file's set.
///
/// # Errors
/// Out of memory.
pub(crate) fn move_name(
    alloc: Global,
    volume: Volume,
    renaming: Renaming,
) -> Result<Step, AllocError>
    ensures { IfOk result (λ step. course_of volume step ≡ moves volume renaming) }
{
    match move_job(alloc, volume, &renaming) {
        Ok(job) => Ok(ask(
            renaming.source.set,
            job,
            State::Number(OnNumber::Move(renaming)),
        )),
        Err(error) => {
            drop(renaming);
            Err(error)
        }
    }
}

fn move_job(alloc: Global, volume: Volume, renaming: &Renaming) -> Result<Job, AllocError>
    ensures { IfOk result (λ made. made ≡ job.Change (both_names_of renaming.now.source.parent renaming.now.target) 0 (op.Move renaming.now.source.parent renaming.now.source.name renaming.now.target renaming.now.new_name) (Some (entry volume 2))) }
{
    let cells = both_names(alloc, renaming.source.parent, renaming.target)?;
    let name = renaming.source.name.copy(alloc)?;
    let op = StoreOp::Move {
        parent: renaming.source.parent,
        name,
        target: renaming.target,
        new_name: renaming.new_name.copy(alloc)?,
    };
    Ok(change_job(volume, 2, cells, op))
}

/// The new parent's copy is born on the file's set where that set lacks one; then the move is made.
///
/// # Errors
/// Out of memory.
pub(crate) fn bear(
    alloc: Global,
    volume: Volume,
    renaming: Renaming,
    has_copy: bool,
) -> Result<Step, AllocError>
    ensures { IfOk result (λ step. course_of volume step ≡ bears volume renaming has_copy) }
{
    if has_copy {
        return move_name(alloc, volume, renaming);
    }
    match birth_job(alloc, renaming.target, None) {
        Ok(job) => Ok(ask(
            renaming.source.set,
            job,
            State::Number(OnNumber::Bear(renaming)),
        )),
        Err(error) => {
            drop(renaming);
            Err(error)
        }
    }
}

/// A file of the new name on another set is unlinked; then the move follows.
///
/// # Errors
/// Out of memory.
pub(crate) fn replace(
    alloc: Global,
    volume: Volume,
    renaming: Renaming,
    replaced: Option<u8>,
    has_copy: bool,
) -> Result<Step, AllocError>
    ensures { IfOk result (λ step. course_of volume step ≡ replaces volume renaming replaced has_copy) }
{
    match replaced {
        None => bear(alloc, volume, renaming, has_copy),
        Some(set) => match unlink_job(alloc, volume, renaming.target, &renaming.new_name) {
            Ok(job) => Ok(ask(
                set,
                job,
                State::Number(OnNumber::Replace(renaming, has_copy)),
            )),
            Err(error) => {
                drop(renaming);
                Err(error)
            }
        },
    }
}

/// The changes begin; where the look did not reach the file's set, that set is read first.
///
/// # Errors
/// Out of memory.
pub(crate) fn change_names(
    alloc: Global,
    volume: Volume,
    renaming: Renaming,
    replaced: Option<u8>,
    copy: Option<bool>,
) -> Result<Step, AllocError>
    ensures { IfOk result (λ step. course_of volume step ≡ changes_names volume renaming replaced copy) }
{
    match copy {
        Some(has_copy) => replace(alloc, volume, renaming, replaced, has_copy),
        None => match names_job(alloc, renaming.target) {
            Ok(job) => Ok(ask(
                renaming.source.set,
                job,
                State::Names(OnNames::Copy(renaming, replaced)),
            )),
            Err(error) => {
                drop(renaming);
                Err(error)
            }
        },
    }
}
