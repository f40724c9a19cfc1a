ghost use Rattle.std.specs.Prelude.{◌≡◌, IfOk};
ghost use Rattle.dht_fops.specs.Entries.{lists_from};
ghost use Rattle.dht_fops.specs.Fops.{lists};
ghost use Rattle.dht_fops.specs.Volumes.{sets_from};
ghost use Rattle.dht_fops.specs.code.Waits.{course_of, listed};
ghost use Rattle.dht_fops.specs.declared.volume.Volume.{Volume};

use crate::cells::is_directory;
use crate::merge::{merge, real_items};
use crate::state::{OnNames, State};
use crate::step::{Step, answer, ask, refuse};
use crate::volume::Volume;
use dht_linkto::{DirNames, names_job};
use fop_types::{Answer, AppError, Gfid, Item, Object, Seq};
use std::alloc::{AllocError, Global};

/// A directory that is listed: its names so far, and the set after the one that is asked.
#[derive(Drop)]
pub(crate) struct Listing {
    pub dir: Gfid,
    pub names: Seq<Item>,
    pub next: u8,
}

/// Lists a directory from this set on; `place` is that of the last read.
///
/// # Errors
/// Out of memory.
#[tactic(auto, using(crate::proofs::Sets::sets_step, crate::proofs::Sets::sets_end))]
fn list_from(
    alloc: Global,
    volume: Volume,
    dir: Gfid,
    names: Seq<Item>,
    set: u8,
    place: Option<u32>,
) -> Result<Step, AllocError>
    ensures { IfOk result (λ step. course_of volume step ≡ lists_from dir (sets_from volume set) names place) }
{
    if set < volume.sets {
        let job = names_job(alloc, dir)?;
        let listing = Listing {
            dir,
            names,
            next: set + 1,
        };
        return Ok(ask(set, job, State::Names(OnNames::List(listing))));
    }
    Ok(answer(Answer::List(names), place))
}

pub(crate) fn list(alloc: Global, volume: Volume, object: Object) -> Result<Step, AllocError>
    ensures { IfOk result (λ step. course_of volume step ≡ lists volume object) }
{
    if is_directory(object.kind) {
        return list_from(alloc, volume, object.gfid, Seq::new(alloc), 0, None);
    }
    Ok(refuse(AppError::Enotdir, None))
}

pub(crate) fn names_listed(
    alloc: Global,
    volume: Volume,
    listing: Listing,
    shown: DirNames,
) -> Result<Step, AllocError>
    ensures { IfOk result (λ step. course_of volume step ≡ listed volume listing shown) }
{
    if shown.removed {
        return Ok(refuse(AppError::Enoent, Some(shown.place)));
    }
    let items = real_items(alloc, shown.items)?;
    let names = merge(alloc, listing.names, items)?;
    list_from(
        alloc,
        volume,
        listing.dir,
        names,
        listing.next,
        Some(shown.place),
    )
}
