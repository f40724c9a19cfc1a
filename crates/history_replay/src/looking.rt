//! Lookups and lists of a call, each at its place.
use crate::asked::Asked;
use crate::ends::end_at;
use crate::lookups::next_lookup;
use crate::making::{find_gfid, list_of};
use flat_fs::FlatFs;
use fop_types::{Answer, Call, Gfid};
use std::alloc::{AllocError, Global};
use std::mem;

// Whether a call goes on at a place, if what is next has this place or none. It is `None` where that is made here.
fn goes_on(next: Option<u32>, place: u32) -> Option<bool> {
    match next {
        None => Some(true),
        Some(next) => {
            if next == place {
                None
            } else {
                Some(next < place)
            }
        }
    }
}

// What the next lookup of a call finds.
fn next_found(
    alloc: Global,
    files: &mut FlatFs,
    call: &Call,
    found: &[Gfid],
) -> Result<Option<Gfid>, AllocError> {
    let op = next_lookup(alloc, call, found)?;
    find_gfid(alloc, files, op)
}

// Makes the next lookup of a call. It is false where it finds nothing.
fn look_up(
    alloc: Global,
    files: &mut FlatFs,
    call: &Call,
    found: &mut Vec<Gfid>,
) -> Result<bool, AllocError> {
    match next_found(alloc, files, call, found.as_slice())? {
        None => Ok(false),
        Some(gfid) => {
            found.push(gfid)?;
            Ok(true)
        }
    }
}

// Makes the next lookup of a call, if it is at this place. It is `None` where it found something, and else says whether the
// call goes on.
fn look_once(
    alloc: Global,
    files: &mut FlatFs,
    asked: &Asked,
    found: &mut Vec<Gfid>,
    place: u32,
) -> Result<Option<bool>, AllocError> {
    match goes_on(asked.lookup_place(found.as_slice()), place) {
        Some(goes_on) => Ok(Some(goes_on)),
        None => match look_up(alloc, files, asked.call, found) {
            Ok(true) => Ok(None),
            Ok(false) => Ok(Some(true)),
            Err(_) => Err(AllocError),
        },
    }
}

/// Makes the lookups of a call that are at this place. It is false where the next one is at a later place.
///
/// # Errors
/// Out of memory.
pub(crate) fn look(
    alloc: Global,
    files: &mut FlatFs,
    asked: &Asked,
    found: &mut Vec<Gfid>,
    place: u32,
) -> Result<bool, AllocError> {
    for _ in 0..asked.places.len() {
        if let Some(goes_on) = look_once(alloc, files, asked, found, place)? {
            return Ok(goes_on);
        }
    }
    Ok(true)
}

// Keeps the list of a directory.
fn keep_list(
    alloc: Global,
    files: &mut FlatFs,
    gfid: Gfid,
    list: &mut Option<Answer>,
) -> Result<bool, AllocError> {
    match list_of(alloc, files, gfid) {
        Ok(found) => {
            drop(mem::replace(list, found));
            Ok(true)
        }
        Err(_) => Err(AllocError),
    }
}

/// Lists the directory that the lookups of a call found, if this is the place where it does. It is false where that is a later
/// place.
///
/// # Errors
/// Out of memory.
pub(crate) fn list(
    alloc: Global,
    files: &mut FlatFs,
    asked: &Asked,
    found: &[Gfid],
    list: &mut Option<Answer>,
    place: u32,
) -> Result<bool, AllocError> {
    match goes_on(asked.list_place(found), place) {
        Some(goes_on) => Ok(goes_on),
        None => keep_list(alloc, files, end_at(found, found.len()), list),
    }
}
