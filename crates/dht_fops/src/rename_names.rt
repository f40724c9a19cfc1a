ghost use Rattle.std.specs.Prelude.{◌≡◌, ◌≤◌, ◌<◌, length, IfOk, IfSome};
ghost use Rattle.dht_fops.specs.Renames.{other_set as other_set_of, target_found, target_ending, renames_file, source_found};
ghost use Rattle.dht_fops.specs.code.Waits.{course_of};
ghost use Rattle.dht_fops.specs.declared.volume.Volume.{Volume};
ghost use Rattle.fop_types.specs.Names.{is_same_name as is_same_name_of};

use crate::cells::{NAME_LIMIT, is_directory};
use crate::look::Seen;
use crate::purpose::Purpose;
use crate::rename::{Renaming, Source, change_names};
use crate::spans::look_for;
use crate::step::{Step, answer, fail, refuse};
use crate::volume::Volume;
use dht_linkto::{Ended, Found, SetNames};
use fop_types::{Answer, AppError, Gfid, Object, Seq};
use std::alloc::{AllocError, Global};

/// The new name that is wanted, and the set to which it belongs, where that is known.
#[derive(Drop)]
pub(crate) struct Wanted {
    pub target: Object,
    pub new_name: Seq<u8>,
    pub second: Option<u8>,
}

// ---- the look at the new name

fn other_set(set: u8, source: u8) -> Option<u8>
    ensures { result ≡ other_set_of set source }
{
    if set == source { None } else { Some(set) }
}

fn target_by(
    alloc: Global,
    volume: Volume,
    renaming: Renaming,
    found: Found,
    seen: Seen,
) -> Result<Step, AllocError>
    ensures { IfOk result (λ step. course_of volume step ≡ target_found volume renaming found seen) }
{
    match found {
        Found::Item { set, gfid: _, kind } => {
            if is_directory(kind) {
                drop(renaming);
                return Ok(refuse(AppError::Eisdir, Some(seen.place)));
            }
            let replaced = other_set(set, renaming.source.set);
            change_names(alloc, volume, renaming, replaced, seen.copy)
        }
        Found::Absent => change_names(alloc, volume, renaming, None, seen.copy),
        Found::Io(error) => {
            drop(renaming);
            Ok(fail(error))
        }
    }
}

/// The look at the new name has ended.
///
/// # Errors
/// Out of memory.
pub(crate) fn target_found(
    alloc: Global,
    volume: Volume,
    source: Source,
    ended: Ended,
    found: Found,
    seen: Seen,
) -> Result<Step, AllocError>
    ensures { IfOk result (λ step. course_of volume step ≡ target_ending volume source ended.parent ended.name ended.names ended.hashed found seen) }
{
    match Seq::from_bytes(alloc, ended.names.name_of(source.set)) {
        Ok(set_name) => {
            let renaming = Renaming {
                source,
                target: ended.parent,
                new_name: ended.name,
                hashed: ended.hashed,
                set_name,
            };
            target_by(alloc, volume, renaming, found, seen)
        }
        Err(error) => {
            drop(source);
            drop(ended);
            drop(found);
            Err(error)
        }
    }
}

// ---- the look at the first name

fn is_same_name(parent: Gfid, name: &[u8], target: Gfid, new_name: &[u8]) -> bool
    ensures { result ≡ is_same_name_of parent name.now target new_name.now }
{
    parent.cmp(&target).is_eq() && name == new_name
}

fn discard(source: Source, wanted: Wanted, names: SetNames) {
    drop(source);
    drop(wanted);
    drop(names);
}

// The first name is a file's.
fn rename_file(
    alloc: Global,
    volume: Volume,
    source: Source,
    wanted: Wanted,
    names: SetNames,
    place: u32,
) -> Result<Step, AllocError>
    requires some { 1 ≤ length names }
    requires second { IfSome wanted.second (λ set. set < length names) }
    ensures { IfOk result (λ step. course_of volume step ≡ renames_file volume source wanted.target wanted.new_name names wanted.second place) }
{
    let target = wanted.target;
    if !is_directory(target.kind) {
        discard(source, wanted, names);
        return Ok(refuse(AppError::Enotdir, Some(place)));
    }
    if NAME_LIMIT < wanted.new_name.len() {
        discard(source, wanted, names);
        return Ok(refuse(AppError::Enametoolong, Some(place)));
    }
    let name = source.name.as_slice();
    if is_same_name(source.parent, name, target.gfid, wanted.new_name.as_slice()) {
        discard(source, wanted, names);
        return Ok(answer(Answer::Done, Some(place)));
    }
    look_for(
        alloc,
        volume,
        Purpose::RenameTo { source },
        target.gfid,
        wanted.new_name,
        names,
        wanted.second,
    )
}

/// The look at the first name has ended.
///
/// # Errors
/// Out of memory.
pub(crate) fn source_found(
    alloc: Global,
    volume: Volume,
    ended: Ended,
    wanted: Wanted,
    found: Found,
    seen: Seen,
) -> Result<Step, AllocError>
    requires some { 1 ≤ length ended.names }
    requires second { IfSome wanted.second (λ set. set < length ended.names) }
    ensures { IfOk result (λ step. course_of volume step ≡ source_found volume ended.parent ended.name ended.names wanted.target wanted.new_name wanted.second ended.hashed found seen) }
{
    match found {
        Found::Item { set, gfid, kind } => {
            if is_directory(kind) {
                drop(ended);
                drop(wanted);
                return Ok(refuse(AppError::Eopnotsupp, Some(seen.place)));
            }
            let source = Source {
                parent: ended.parent,
                name: ended.name,
                hashed: ended.hashed,
                has_link: seen.has_link,
                set,
                gfid,
            };
            rename_file(alloc, volume, source, wanted, ended.names, seen.place)
        }
        Found::Absent => {
            drop(ended);
            drop(wanted);
            Ok(refuse(AppError::Enoent, Some(seen.place)))
        }
        Found::Io(error) => {
            drop(ended);
            drop(wanted);
            Ok(fail(error))
        }
    }
}
