ghost use Rattle.std.specs.Prelude.{◌≡◌, ◌<◌, ◌≤◌, ◌==◌, false, length, IfOk, Some, if◌then◌else◌};
ghost use Rattle.dht_fops.specs.code.Purposes.{IsSecondSet};
ghost use Rattle.dht_fops.specs.code.Waits.{course_of, asks_names, looked, looked_at, seen_in, looks_of};
ghost use Rattle.dht_fops.specs.declared.volume.Volume.{Volume};

use crate::look_end::end_look;
use crate::purpose::Purpose;
use crate::state::{OnNames, State};
use crate::step::{Step, answer, ask, refuse};
use crate::volume::Volume;
use dht_linkto::{DirNames, Lookup, Next, SetNames, names_job};
use fop_types::{Answer, AppError, Gfid, Seq};
use std::alloc::{AllocError, Global};
use std::marker::Model;

/// A look at a name of a directory: the search, the place of the last read, whether the watched set has a copy of the
/// directory, once it was read, and what the name is looked for.
#[derive(Drop)]
pub(crate) struct Look {
    pub lookup: Lookup,
    pub place: u32,
    pub copy: Option<bool>,
    pub purpose: Purpose,
}

/// What a look has in hand.
#[derive(Clone, Copy)]
pub(crate) struct Seen {
    pub place: u32,
    pub has_link: bool,
    pub copy: Option<bool>,
}

/// A look that waits for the names of a set. Contracts see the look.
#[derive(Drop)]
pub(crate) struct PendingLook {
    look: Look,
}

impl Model for PendingLook {
    ghost use Rattle.std.specs.Prelude.{length};
    ghost use Rattle.dht_fops.specs.code.Purposes.{IsSecondSet};
    ghost use Rattle.dht_fops.specs.declared.look.Look.{Look};

    ghost Value = { Look };

    ghost view = { λ p. p.look };

    ghost invariant = { λ p. IsSecondSet p.look.purpose (length p.look.lookup.names) };
}

impl PendingLook {
    pub fn new(look: Look) -> PendingLook
        requires { IsSecondSet look.purpose (length look.lookup.names) }
        ensures { result ≡ look }
    {
        PendingLook { look }
    }

    pub fn look(self) -> Look
        ensures look { result ≡ self }
        ensures second { IsSecondSet result.purpose (length result.lookup.names) }
    {
        self.look
    }
}

// The directory's names are read on the set that the search asks.
#[tactic(auto, using(crate::proofs::LookSteps::look_waits))]
fn ask_names(alloc: Global, volume: Volume, look: Look, set: u8) -> Result<Step, AllocError>
    requires asked { look.lookup.asked ≡ Some set }
    requires second { IsSecondSet look.purpose (length look.lookup.names) }
    ensures { IfOk result (λ step. course_of volume step ≡ asks_names volume look set) }
{
    match names_job(alloc, look.lookup.parent()) {
        Ok(job) => {
            let pending = PendingLook::new(look);
            Ok(ask(set, job, State::Names(OnNames::Look(pending))))
        }
        Err(error) => {
            drop(look);
            Err(error)
        }
    }
}

/// Begins a look at a name that belongs to this set.
///
/// # Errors
/// Out of memory.
#[tactic(auto, using(crate::proofs::LookSteps::look_begun))]
pub(crate) fn look_in(
    alloc: Global,
    volume: Volume,
    purpose: Purpose,
    dir: Gfid,
    name: Seq<u8>,
    names: SetNames,
    hashed: u8,
) -> Result<Step, AllocError>
    requires hashed { hashed < length names }
    requires second { IsSecondSet purpose (length names) }
    ensures { IfOk result (λ step. course_of volume step ≡ looks_of volume purpose dir name names hashed) }
{
    let lookup = Lookup::over(dir, name, names, hashed);
    let look = Look {
        lookup,
        place: 0,
        copy: None,
        purpose,
    };
    let step = ask_names(alloc, volume, look, hashed)?;
    Ok(step)
}

// Whether the watched set has a copy, with what one more set showed.
fn copy_on(watched: u8, set: u8, seen: Option<bool>, has_copy: bool) -> Option<bool>
    ensures { result ≡ (if set == watched then Some has_copy else seen) }
{
    if set == watched { Some(has_copy) } else { seen }
}

// The set that was asked showed names of a directory that was not removed.
#[tactic(auto, using(crate::proofs::LookSteps::look_asked, crate::proofs::LookSteps::look_ends, crate::proofs::Sets::second_names))]
fn look_further(
    alloc: Global,
    volume: Volume,
    look: Look,
    set: u8,
    shown: DirNames,
) -> Result<Step, AllocError>
    requires some { 1 ≤ volume.sets }
    requires asked { look.lookup.asked ≡ Some set }
    requires kept { shown.removed ≡ false }
    requires second { IsSecondSet look.purpose (length look.lookup.names) }
    ensures { IfOk result (λ step. course_of volume step ≡ looked volume look.purpose look.lookup (seen_in look) set shown) }
{
    let copy = copy_on(look.purpose.watched(), set, look.copy, shown.has_copy);
    let place = shown.place;
    let purpose = look.purpose;
    let mut lookup = look.lookup;
    let next = match lookup.answer(set, Ok(shown.items)) {
        Ok(next) => next,
        Err(error) => {
            drop(lookup);
            drop(purpose);
            return Err(error);
        }
    };
    match next {
        Next::Ask(next) => {
            let look = Look {
                lookup,
                place,
                copy,
                purpose,
            };
            let step = ask_names(alloc, volume, look, next)?;
            Ok(step)
        }
        Next::Done(found) => {
            let ended = lookup.end();
            let seen = Seen {
                place,
                has_link: ended.has_link,
                copy,
            };
            let step = end_look(alloc, volume, purpose, ended, found, seen)?;
            Ok(step)
        }
    }
}

/// One more set showed the directory's names.
///
/// # Errors
/// Out of memory.
pub(crate) fn look_on(
    alloc: Global,
    volume: Volume,
    look: Look,
    shown: DirNames,
) -> Result<Step, AllocError>
    requires some { 1 ≤ volume.sets }
    requires second { IsSecondSet look.purpose (length look.lookup.names) }
    ensures { IfOk result (λ step. course_of volume step ≡ looked_at volume look shown) }
{
    match look.lookup.asked() {
        None => {
            drop(look);
            Ok(answer(Answer::Done, None))
        }
        Some(set) => {
            if shown.removed {
                drop(look);
                return Ok(refuse(AppError::Enoent, Some(shown.place)));
            }
            look_further(alloc, volume, look, set, shown)
        }
    }
}
