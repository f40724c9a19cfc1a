ghost use Rattle.std.specs.Prelude.{◌≡◌, ◌+◌, false, length, nat_lt, IfOk};
ghost use Rattle.dht_fops.specs.Objects.{sets_mode, sets_attr, dels_attr, attr_seen, truncates, writes, writes_some, changes_cell, changes_meta};
ghost use Rattle.dht_fops.specs.code.Waits.{course_of};
ghost use Rattle.dht_fops.specs.declared.volume.Volume.{Volume};
ghost use Rattle.fop_types.specs.FileBytes.{file_limit};

use crate::cells::{cell, home, is_directory, listed, meta_job};
use crate::replies::{attrs_of, take_first};
use crate::state::{OnContents, OnNumber, State};
use crate::step::{Step, answer, ask, refuse};
use crate::volume::Volume;
use contents::find_attr;
use fop_types::{
    Answer, AppError, Aspect, Attr, Cell, Content, Data, Entry, FopAnswer, Job, Object, Seq,
    StoreOp,
};
use std::alloc::{AllocError, Global};

/// The greatest length of a file in bytes.
const FILE_LIMIT: u32 = 65536;

/// An attribute that is to be dropped, where it is there.
#[derive(Drop)]
pub(crate) struct AttrDrop {
    pub object: Object,
    pub name: Seq<u8>,
}

// One change of one cell, answered at its entry.
fn change_cell(
    alloc: Global,
    volume: Volume,
    set: u8,
    cell: Cell,
    fd: u32,
    op: StoreOp,
    answer: FopAnswer,
) -> Result<Step, AllocError>
    ensures { IfOk result (λ step. course_of volume step ≡ changes_cell volume set cell fd op answer) }
{
    match listed(alloc, &[cell]) {
        Ok(cells) => {
            let job = Job::Change {
                cells,
                fd,
                op,
                effect: Some(Entry {
                    call: volume.call,
                    part: 1,
                }),
            };
            Ok(ask(set, job, State::Number(OnNumber::Change(answer))))
        }
        Err(error) => {
            drop(op);
            drop(answer);
            Err(error)
        }
    }
}

fn change_meta(
    alloc: Global,
    volume: Volume,
    object: Object,
    op: StoreOp,
) -> Result<Step, AllocError>
    ensures { IfOk result (λ step. course_of volume step ≡ changes_meta volume object op) }
{
    let meta = cell(object.gfid, Aspect::Meta);
    change_cell(
        alloc,
        volume,
        home(object),
        meta,
        0,
        op,
        FopAnswer::Call(Answer::Done),
    )
}

pub(crate) fn set_mode(
    alloc: Global,
    volume: Volume,
    object: Object,
    mode: u16,
) -> Result<Step, AllocError>
    ensures { IfOk result (λ step. course_of volume step ≡ sets_mode volume object mode) }
{
    let op = StoreOp::SetMode {
        gfid: object.gfid,
        mode,
    };
    change_meta(alloc, volume, object, op)
}

pub(crate) fn set_attr(
    alloc: Global,
    volume: Volume,
    object: Object,
    attr: Attr,
) -> Result<Step, AllocError>
    ensures { IfOk result (λ step. course_of volume step ≡ sets_attr volume object attr) }
{
    let op = StoreOp::SetAttr {
        gfid: object.gfid,
        attr,
    };
    change_meta(alloc, volume, object, op)
}

pub(crate) fn del_attr(
    alloc: Global,
    volume: Volume,
    object: Object,
    name: Seq<u8>,
) -> Result<Step, AllocError>
    ensures { IfOk result (λ step. course_of volume step ≡ dels_attr volume object name) }
{
    let job = meta_job(alloc, object)?;
    let dropped = AttrDrop { object, name };
    Ok(ask(
        home(object),
        job,
        State::Contents(OnContents::DelAttr(dropped)),
    ))
}

pub(crate) fn attr_seen(
    alloc: Global,
    volume: Volume,
    dropped: AttrDrop,
    contents: Seq<Option<Content>>,
    place: u32,
) -> Result<Step, AllocError>
    ensures { IfOk result (λ step. course_of volume step ≡ attr_seen volume dropped.object dropped.name contents place) }
{
    let mut contents = contents;
    let attrs = attrs_of(alloc, take_first(&mut contents));
    match find_attr(attrs.as_slice(), dropped.name.as_slice()) {
        None => Ok(refuse(AppError::Enodata, Some(place))),
        Some(_) => {
            let op = StoreOp::DelAttr {
                gfid: dropped.object.gfid,
                name: dropped.name,
            };
            change_meta(alloc, volume, dropped.object, op)
        }
    }
}

pub(crate) fn truncate(
    alloc: Global,
    volume: Volume,
    object: Object,
    size: u32,
) -> Result<Step, AllocError>
    ensures { IfOk result (λ step. course_of volume step ≡ truncates volume object size) }
{
    if is_directory(object.kind) {
        return Ok(refuse(AppError::Eisdir, None));
    }
    if FILE_LIMIT < size {
        return Ok(refuse(AppError::Efbig, None));
    }
    let op = StoreOp::Truncate {
        gfid: object.gfid,
        size,
    };
    let data = cell(object.gfid, Aspect::Data);
    change_cell(
        alloc,
        volume,
        object.set,
        data,
        0,
        op,
        FopAnswer::Call(Answer::Done),
    )
}

// Whether so many bytes from an offset on go beyond the greatest length of a file.
#[tactic(auto, using(crate::proofs::Writing::beyond_start, crate::proofs::Writing::beyond_later))]
fn goes_beyond(offset: u32, count: usize) -> bool
    ensures { result ≡ nat_lt file_limit (offset + count) }
{
    if FILE_LIMIT < offset {
        return true;
    }
    ((FILE_LIMIT - offset) as usize) < count
}

#[tactic(auto, using(crate::proofs::Writing::none_written, crate::proofs::Writing::some_written))]
fn write_some(
    alloc: Global,
    volume: Volume,
    object: Object,
    fd: u32,
    offset: u32,
    bytes: Data,
) -> Result<Step, AllocError>
    requires { nat_lt file_limit (offset + length bytes) ≡ false }
    ensures { IfOk result (λ step. course_of volume step ≡ writes_some volume object fd offset bytes) }
{
    if bytes.is_empty() {
        return Ok(answer(Answer::Count(0), None));
    }
    let count = bytes.len() as u32;
    let op = StoreOp::Write {
        gfid: object.gfid,
        offset,
        bytes,
    };
    let data = cell(object.gfid, Aspect::Data);
    let written = FopAnswer::Call(Answer::Count(count));
    change_cell(alloc, volume, object.set, data, fd, op, written)
}

pub(crate) fn write(
    alloc: Global,
    volume: Volume,
    object: Object,
    fd: u32,
    offset: u32,
    bytes: Data,
) -> Result<Step, AllocError>
    ensures { IfOk result (λ step. course_of volume step ≡ writes volume object fd offset bytes) }
{
    if is_directory(object.kind) {
        return Ok(refuse(AppError::Eisdir, None));
    }
    if goes_beyond(offset, bytes.len()) {
        return Ok(refuse(AppError::Efbig, None));
    }
    write_some(alloc, volume, object, fd, offset, bytes)
}
