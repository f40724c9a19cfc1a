ghost use Rattle.std.specs.Prelude.{◌≡◌, ◌∷◌, [], IfOk};
ghost use Rattle.dht_fops.specs.Objects.{opens, stats, dir_stat, file_stat, gets_attr, attr_read, reads_bytes, bytes_read, size_of};
ghost use Rattle.dht_fops.specs.code.Waits.{course_of};
ghost use Rattle.dht_fops.specs.declared.volume.Volume.{Volume};
ghost use Rattle.fop_types.specs.FileBytes.{read_from};

use crate::cells::{both_job, cell, home, is_directory, listed, meta_job};
use crate::replies::{attrs_of, bytes_of, mode_of, take_first};
use crate::state::{OnContents, OnNumber, State};
use crate::step::{Step, answer, ask, refuse};
use crate::volume::Volume;
use contents::{find_attr, read as read_bytes};
use fop_types::{Answer, AppError, Aspect, Content, Data, Job, Kind, Object, Seq};
use std::alloc::{AllocError, Global};

/// A part of a file, in bytes.
#[derive(Clone, Copy)]
pub(crate) struct Range {
    pub offset: u32,
    pub count: u32,
}

pub(crate) fn open(volume: Volume, object: Object, fd: u32) -> Step
    ensures { course_of volume result ≡ opens object fd }
{
    if is_directory(object.kind) {
        return refuse(AppError::Eisdir, None);
    }
    let job = Job::Open {
        fd,
        gfid: object.gfid,
    };
    ask(object.set, job, State::Number(OnNumber::Open))
}

pub(crate) fn stat(alloc: Global, volume: Volume, object: Object) -> Result<Step, AllocError>
    ensures { IfOk result (λ step. course_of volume step ≡ stats object) }
{
    if is_directory(object.kind) {
        let job = meta_job(alloc, object)?;
        return Ok(ask(0, job, State::Contents(OnContents::DirStat)));
    }
    let job = both_job(alloc, object.gfid)?;
    Ok(ask(object.set, job, State::Contents(OnContents::FileStat)))
}

pub(crate) fn dir_stat(volume: Volume, contents: Seq<Option<Content>>, place: u32) -> Step
    ensures { course_of volume result ≡ dir_stat contents place }
{
    let mut contents = contents;
    let meta = take_first(&mut contents);
    let mode = mode_of(&meta);
    drop(meta);
    let stat = Answer::Stat {
        kind: Kind::Dir,
        mode,
        size: 0,
    };
    answer(stat, Some(place))
}

pub(crate) fn get_attr(
    alloc: Global,
    volume: Volume,
    object: Object,
    name: Seq<u8>,
) -> Result<Step, AllocError>
    ensures { IfOk result (λ step. course_of volume step ≡ gets_attr object name) }
{
    let job = meta_job(alloc, object)?;
    Ok(ask(
        home(object),
        job,
        State::Contents(OnContents::GetAttr(name)),
    ))
}

pub(crate) fn read(
    alloc: Global,
    volume: Volume,
    object: Object,
    fd: u32,
    range: Range,
) -> Result<Step, AllocError>
    ensures { IfOk result (λ step. course_of volume step ≡ reads_bytes object fd range.offset range.count) }
{
    if is_directory(object.kind) {
        return Ok(refuse(AppError::Eisdir, None));
    }
    let job = Job::Read {
        cells: listed(alloc, &[cell(object.gfid, Aspect::Data)])?,
        fd,
        dir: false,
    };
    Ok(ask(object.set, job, State::Contents(OnContents::Bytes(range))))
}

fn size_of(bytes: &[u8]) -> u32
    ensures { result ≡ size_of bytes.now }
{
    if bytes.len() < u32::MAX as usize {
        bytes.len() as u32
    } else {
        u32::MAX
    }
}

pub(crate) fn file_stat(
    alloc: Global,
    volume: Volume,
    contents: Seq<Option<Content>>,
    place: u32,
) -> Step
    ensures { course_of volume result ≡ file_stat contents place }
{
    let mut contents = contents;
    let bytes = bytes_of(alloc, take_first(&mut contents));
    let meta = take_first(&mut contents);
    let mode = mode_of(&meta);
    drop(meta);
    let stat = Answer::Stat {
        kind: Kind::File,
        mode,
        size: size_of(bytes.as_slice()),
    };
    answer(stat, Some(place))
}

pub(crate) fn attr_read(
    alloc: Global,
    volume: Volume,
    name: &[u8],
    contents: Seq<Option<Content>>,
    place: u32,
) -> Result<Step, AllocError>
    ensures { IfOk result (λ step. course_of volume step ≡ attr_read name.now contents place) }
{
    let mut contents = contents;
    let attrs = attrs_of(alloc, take_first(&mut contents));
    match find_attr(attrs.as_slice(), name) {
        None => Ok(refuse(AppError::Enodata, Some(place))),
        Some(attr) => {
            let value = attr.value.copy(alloc)?;
            Ok(answer(Answer::Bytes(value), Some(place)))
        }
    }
}

// The part of the bytes, which are cut and not copied where it begins at the start.
fn part_of(alloc: Global, bytes: Data, range: Range) -> Result<Seq<u8>, AllocError>
    ensures { IfOk result (λ part. part ≡ read_from bytes range.offset range.count) }
{
    let count = range.count as usize;
    if range.offset != 0 {
        return read_bytes(alloc, bytes.as_slice(), range.offset as usize, count);
    }
    let mut bytes = bytes;
    let mut part = bytes.take(alloc)?;
    part.truncate(count);
    Ok(Seq::from_vec(part))
}

pub(crate) fn bytes_read(
    alloc: Global,
    volume: Volume,
    range: Range,
    contents: Seq<Option<Content>>,
    place: u32,
) -> Result<Step, AllocError>
    ensures { IfOk result (λ step. course_of volume step ≡ bytes_read range.offset range.count contents place) }
{
    let mut contents = contents;
    let bytes = bytes_of(alloc, take_first(&mut contents));
    let part = part_of(alloc, bytes, range)?;
    Ok(answer(Answer::Bytes(part), Some(place)))
}
