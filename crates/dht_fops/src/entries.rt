ghost use Rattle.std.specs.Prelude.{◌≡◌, ◌≤◌, IfOk};
ghost use Rattle.dht_fops.specs.Entries.{lookup_found, adds_dir, births_from, mkdir_found, adds_file, create_found};
ghost use Rattle.dht_fops.specs.Volumes.{sets_from};
ghost use Rattle.dht_fops.specs.code.Waits.{course_of};
ghost use Rattle.dht_fops.specs.declared.volume.Volume.{Volume};
ghost use Rattle.fop_types.specs.Flat.{item_of as item_with};

use crate::cells::{birth_job, change_job, one_dir};
use crate::look::Seen;
use crate::state::{OnNumber, State};
use crate::step::{Step, ask, done, fail, refuse};
use crate::volume::Volume;
use dht_layout::even_span;
use dht_linkto::{Ended, Found};
use fop_types::{Answer, AppError, FopAnswer, Gfid, Item, Kind, Seq, StoreOp};
use std::alloc::{AllocError, Global};

/// A new directory whose copies are being born; `next` is the set after the one that is asked.
#[derive(Drop)]
pub(crate) struct NewDir {
    pub parent: Gfid,
    pub name: Seq<u8>,
    pub mode: u16,
    pub drawn: Gfid,
    pub next: u8,
}

pub(crate) fn lookup_found(volume: Volume, found: Found, seen: Seen) -> Step
    ensures { course_of volume result ≡ lookup_found found seen }
{
    match found {
        Found::Item { set, gfid, kind } => {
            done(FopAnswer::Found { set, gfid, kind }, Some(seen.place))
        }
        Found::Absent => refuse(AppError::Enoent, Some(seen.place)),
        Found::Io(error) => fail(error),
    }
}

// ---- mkdir and create

fn new_item(alloc: Global, name: Seq<u8>, gfid: Gfid, kind: Kind) -> Item
    ensures { result ≡ item_with name gfid kind }
{
    Item {
        name,
        gfid,
        kind,
        target: Seq::new(alloc),
    }
}

// The name of a new directory is added on the first set.
fn add_dir(
    alloc: Global,
    volume: Volume,
    parent: Gfid,
    name: Seq<u8>,
    mode: u16,
    drawn: Gfid,
) -> Result<Step, AllocError>
    requires { 1 ≤ volume.sets }
    ensures { IfOk result (λ step. course_of volume step ≡ adds_dir volume parent name mode drawn) }
{
    let cells = one_dir(alloc, parent)?;
    let op = StoreOp::AddName {
        parent,
        item: new_item(alloc, name, drawn, Kind::Dir),
        mode,
        span: Some(even_span(volume.sets, 0)),
    };
    let job = change_job(volume, 1, cells, op);
    Ok(ask(
        0,
        job,
        State::Number(OnNumber::Change(FopAnswer::Call(Answer::Done))),
    ))
}

/// The copies of a new directory are born from this set on, and then its name is added.
///
/// # Errors
/// Out of memory.
#[tactic(auto, using(crate::proofs::Rests::births_at, crate::proofs::Sets::sets_end))]
pub(crate) fn bear_from(alloc: Global, volume: Volume, new: NewDir) -> Result<Step, AllocError>
    requires { 1 ≤ volume.sets }
    ensures { IfOk result (λ step. course_of volume step ≡ births_from volume new.parent new.name new.mode new.drawn (sets_from volume new.next)) }
{
    let set = new.next;
    if set < volume.sets {
        let job = birth_job(alloc, new.drawn, Some(even_span(volume.sets, set)))?;
        let born = NewDir {
            parent: new.parent,
            name: new.name,
            mode: new.mode,
            drawn: new.drawn,
            next: set + 1,
        };
        return Ok(ask(set, job, State::Number(OnNumber::Birth(born))));
    }
    add_dir(alloc, volume, new.parent, new.name, new.mode, new.drawn)
}

pub(crate) fn mkdir_found(
    alloc: Global,
    volume: Volume,
    ended: Ended,
    mode: u16,
    drawn: Gfid,
    found: Found,
    seen: Seen,
) -> Result<Step, AllocError>
    requires { 1 ≤ volume.sets }
    ensures { IfOk result (λ step. course_of volume step ≡ mkdir_found volume ended.parent ended.name mode drawn found seen) }
{
    match found {
        Found::Absent => {
            let new = NewDir {
                parent: ended.parent,
                name: ended.name,
                mode,
                drawn,
                next: 1,
            };
            bear_from(alloc, volume, new)
        }
        Found::Item {
            set: _,
            gfid: _,
            kind: _,
        } => {
            drop(ended);
            Ok(refuse(AppError::Eexist, Some(seen.place)))
        }
        Found::Io(error) => {
            drop(ended);
            Ok(fail(error))
        }
    }
}

// The file is made on the set to which its name belongs.
fn make_file(
    alloc: Global,
    volume: Volume,
    ended: Ended,
    mode: u16,
    drawn: Gfid,
) -> Result<Step, AllocError>
    ensures { IfOk result (λ step. course_of volume step ≡ adds_file volume ended.parent ended.name mode drawn ended.hashed) }
{
    let cells = one_dir(alloc, ended.parent)?;
    let op = StoreOp::AddName {
        parent: ended.parent,
        item: new_item(alloc, ended.name, drawn, Kind::File),
        mode,
        span: None,
    };
    let job = change_job(volume, 1, cells, op);
    let made = FopAnswer::Found {
        set: ended.hashed,
        gfid: drawn,
        kind: Kind::File,
    };
    Ok(ask(ended.hashed, job, State::Number(OnNumber::Change(made))))
}

pub(crate) fn create_found(
    alloc: Global,
    volume: Volume,
    ended: Ended,
    mode: u16,
    drawn: Gfid,
    found: Found,
    seen: Seen,
) -> Result<Step, AllocError>
    ensures { IfOk result (λ step. course_of volume step ≡ create_found volume ended.parent ended.name mode drawn ended.hashed found seen) }
{
    match found {
        Found::Absent => make_file(alloc, volume, ended, mode, drawn),
        Found::Item {
            set: _,
            gfid: _,
            kind: _,
        } => {
            drop(ended);
            Ok(refuse(AppError::Eexist, Some(seen.place)))
        }
        Found::Io(error) => {
            drop(ended);
            Ok(fail(error))
        }
    }
}
