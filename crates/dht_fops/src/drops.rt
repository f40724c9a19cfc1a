ghost use Rattle.std.specs.Prelude.{◌≡◌, IfOk};
ghost use Rattle.dht_fops.specs.Entries.{drops_link, unlinks, unlink_found, drops_dir, empties, rmdir_found};
ghost use Rattle.dht_fops.specs.Volumes.{sets_from};
ghost use Rattle.dht_fops.specs.code.Waits.{course_of, emptied};
ghost use Rattle.dht_fops.specs.declared.state.OnReply.TheVariants as on;
ghost use Rattle.dht_fops.specs.declared.state.State.TheVariants as state;
ghost use Rattle.dht_fops.specs.declared.step.Turn.TheVariants as turn;
ghost use Rattle.dht_fops.specs.declared.volume.Volume.{Volume};
ghost use Rattle.fop_types.specs.Names.{has_real_name as has_real_name_in};

use crate::cells::{both_names, change_job, is_directory, one_dir, unlink_job};
use crate::look::Seen;
use crate::state::{OnNames, OnNumber, OnReply, State};
use crate::step::{Step, Turn, answer, ask, fail, refuse};
use crate::volume::Volume;
use dht_linkto::{DirNames, Ended, Found, is_link, names_job};
use fop_types::{Answer, AppError, FopAnswer, Gfid, Item, Job, Seq, StoreOp};
use std::alloc::{AllocError, Global};

/// A name that is dropped, with the set to which it belongs, and whether that set showed a link of it.
#[derive(Drop)]
pub(crate) struct NameDrop {
    pub parent: Gfid,
    pub name: Seq<u8>,
    pub hashed: u8,
    pub has_link: bool,
}

/// A directory that is to be removed.
#[derive(Drop)]
pub(crate) struct DirDrop {
    pub parent: Gfid,
    pub name: Seq<u8>,
    pub gfid: Gfid,
}

// ---- unlink

/// A link that the look saw is dropped; then the fop is done, with the number of its entry.
///
/// # Errors
/// Out of memory.
pub(crate) fn drop_link(
    alloc: Global,
    volume: Volume,
    dropped: NameDrop,
    number: Option<u32>,
) -> Result<Step, AllocError>
    ensures { IfOk result (λ step. course_of volume step ≡ drops_link dropped.parent dropped.name dropped.hashed dropped.has_link number) }
{
    if !dropped.has_link {
        return Ok(answer(Answer::Done, number));
    }
    let cells = one_dir(alloc, dropped.parent)?;
    let job = Job::Change {
        cells,
        fd: 0,
        op: StoreOp::DropName {
            parent: dropped.parent,
            name: dropped.name,
        },
        effect: None,
    };
    Ok(ask(dropped.hashed, job, State::Reply(OnReply::LinkDrop(number))))
}

fn unlink_on(alloc: Global, volume: Volume, dropped: NameDrop, set: u8) -> Result<Step, AllocError>
    ensures { IfOk result (λ step. course_of volume step ≡ unlinks volume dropped.parent dropped.name dropped.hashed dropped.has_link set) }
{
    match unlink_job(alloc, volume, dropped.parent, &dropped.name) {
        Ok(job) => Ok(ask(set, job, State::Number(OnNumber::Unlink(dropped)))),
        Err(error) => {
            drop(dropped);
            Err(error)
        }
    }
}

pub(crate) fn unlink_found(
    alloc: Global,
    volume: Volume,
    ended: Ended,
    found: Found,
    seen: Seen,
) -> Result<Step, AllocError>
    ensures { IfOk result (λ step. course_of volume step ≡ unlink_found volume ended.parent ended.name ended.hashed found seen) }
{
    match found {
        Found::Item { set, gfid: _, kind } => {
            if is_directory(kind) {
                drop(ended);
                return Ok(refuse(AppError::Eisdir, Some(seen.place)));
            }
            let dropped = NameDrop {
                parent: ended.parent,
                name: ended.name,
                hashed: ended.hashed,
                has_link: seen.has_link,
            };
            unlink_on(alloc, volume, dropped, set)
        }
        Found::Absent => {
            drop(ended);
            Ok(refuse(AppError::Enoent, Some(seen.place)))
        }
        Found::Io(error) => {
            drop(ended);
            Ok(fail(error))
        }
    }
}

// ---- rmdir

// The call's hold is to be extended by the directory.
fn extend(dir: DirDrop) -> Step
    ensures { result ≡ record { state = state.Reply (on.Extend dir); turn = turn.Extend dir.gfid } }
{
    let gfid = dir.gfid;
    Step {
        state: State::Reply(OnReply::Extend(dir)),
        turn: Turn::Extend(gfid),
    }
}

/// A directory that was found is removed once the call's hold is extended by it.
pub(crate) fn rmdir_found(volume: Volume, ended: Ended, found: Found, seen: Seen) -> Step
    ensures { course_of volume result ≡ rmdir_found volume ended.parent ended.name found seen }
{
    match found {
        Found::Item { set: _, gfid, kind } => {
            if !is_directory(kind) {
                drop(ended);
                return refuse(AppError::Enotdir, Some(seen.place));
            }
            let dir = DirDrop {
                parent: ended.parent,
                name: ended.name,
                gfid,
            };
            extend(dir)
        }
        Found::Absent => {
            drop(ended);
            refuse(AppError::Enoent, Some(seen.place))
        }
        Found::Io(error) => {
            drop(ended);
            fail(error)
        }
    }
}

fn drop_dir(alloc: Global, volume: Volume, dir: DirDrop) -> Result<Step, AllocError>
    ensures { IfOk result (λ step. course_of volume step ≡ drops_dir volume dir.parent dir.name dir.gfid) }
{
    let cells = both_names(alloc, dir.parent, dir.gfid)?;
    let op = StoreOp::DropDir {
        parent: dir.parent,
        name: dir.name,
        gfid: dir.gfid,
    };
    let job = change_job(volume, 1, cells, op);
    Ok(ask(
        0,
        job,
        State::Number(OnNumber::Change(FopAnswer::Call(Answer::Done))),
    ))
}

/// The directory's names are read from this set on; where no set shows one, the directory is removed.
///
/// # Errors
/// Out of memory.
#[tactic(auto, using(crate::proofs::Sets::sets_step, crate::proofs::Sets::sets_end))]
pub(crate) fn empty_from(
    alloc: Global,
    volume: Volume,
    dir: DirDrop,
    set: u8,
) -> Result<Step, AllocError>
    ensures { IfOk result (λ step. course_of volume step ≡ empties volume dir.parent dir.name dir.gfid (sets_from volume set)) }
{
    if set < volume.sets {
        let job = names_job(alloc, dir.gfid)?;
        return Ok(ask(set, job, State::Names(OnNames::Empty(dir, set + 1))));
    }
    drop_dir(alloc, volume, dir)
}

fn has_real_name(items: &[Item]) -> bool
    ensures { result ≡ has_real_name_in items.now }
{
    for item in items {
        if !is_link(item.kind) {
            return true;
        }
    }
    false
}

pub(crate) fn names_shown(
    alloc: Global,
    volume: Volume,
    dir: DirDrop,
    next: u8,
    shown: DirNames,
) -> Result<Step, AllocError>
    ensures { IfOk result (λ step. course_of volume step ≡ emptied volume dir next shown) }
{
    if has_real_name(shown.items.as_slice()) {
        return Ok(refuse(AppError::Enotempty, Some(shown.place)));
    }
    empty_from(alloc, volume, dir, next)
}
