ghost use Rattle.std.specs.Prelude.{◌≡◌, ◌≤◌, ◌<◌, length, IfOk, IfSome};
ghost use Rattle.dht_fops.specs.Fops.{fop_course, renames};
ghost use Rattle.dht_fops.specs.Volumes.{known_set as known_set_of};
ghost use Rattle.dht_fops.specs.code.Waits.{course_of, looks_for};
ghost use Rattle.dht_fops.specs.code.Begins.{begins};
ghost use Rattle.dht_fops.specs.code.Purposes.{IsSecondSet};
ghost use Rattle.dht_fops.specs.declared.volume.Volume.{Volume};

use crate::cells::{NAME_LIMIT, is_directory};
use crate::changes::{del_attr, set_attr, set_mode, truncate, write};
use crate::internal::{index_from, open_from};
use crate::layouts::known_set;
use crate::list::list;
use crate::objects::{Range, get_attr, open, read, stat};
use crate::purpose::Purpose;
use crate::spans::look_for;
use crate::step::{Step, refuse};
use crate::volume::Volume;
use dht_linkto::SetNames;
use fop_types::{AppError, Fop, Gfid, Object, Seq, Span};
use std::alloc::{AllocError, Global};
use std::collections::BTreeMap;

// A name of a directory is looked for, by the set to which it belongs, where that is known.
#[tactic(auto, using(crate::proofs::Sets::some_same, crate::proofs::Sets::second_back))]
fn look_known(
    alloc: Global,
    volume: Volume,
    names: &[Seq<u8>],
    kept: &BTreeMap<Gfid, Seq<Option<Span>>>,
    dir: Gfid,
    name: Seq<u8>,
    purpose: Purpose,
) -> Result<Step, AllocError>
    requires root { 1 ≤ volume.root_sets }
    requires within { volume.root_sets ≤ volume.sets }
    requires names { length names.now ≡ volume.sets }
    requires second { IsSecondSet purpose volume.sets }
    ensures { IfOk result (λ step. course_of volume step ≡ looks_for volume purpose dir name names.now (known_set_of volume kept.now.entries dir name)) }
{
    match known_among(alloc, volume, names, kept, dir, name.as_slice()) {
        Ok((known, names)) => {
            let step = look_for(alloc, volume, purpose, dir, name, names, known)?;
            Ok(step)
        }
        Err(error) => {
            drop(name);
            drop(purpose);
            Err(error)
        }
    }
}

// The set to which a name belongs, where it is known, and the names of the sets.
fn known_among(
    alloc: Global,
    volume: Volume,
    names: &[Seq<u8>],
    kept: &BTreeMap<Gfid, Seq<Option<Span>>>,
    dir: Gfid,
    name: &[u8],
) -> Result<(Option<u8>, SetNames), AllocError>
    requires root { 1 ≤ volume.root_sets }
    requires within { volume.root_sets ≤ volume.sets }
    requires names { length names.now ≡ volume.sets }
    ensures set { IfOk result (λ both. both.0 ≡ known_set_of volume kept.now.entries dir name.now) }
    ensures within { IfOk result (λ both. IfSome both.0 (λ s. s < volume.sets)) }
    ensures names { IfOk result (λ both. both.1 ≡ names.now) }
{
    let known = known_set(alloc, volume, kept, dir, name)?;
    let names = SetNames::copied(alloc, names)?;
    Ok((known, names))
}

// A fop on a name of a directory looks for it.
fn on_name(
    alloc: Global,
    volume: Volume,
    names: &[Seq<u8>],
    kept: &BTreeMap<Gfid, Seq<Option<Span>>>,
    parent: Object,
    name: Seq<u8>,
    purpose: Purpose,
) -> Result<Step, AllocError>
    requires root { 1 ≤ volume.root_sets }
    requires within { volume.root_sets ≤ volume.sets }
    requires names { length names.now ≡ volume.sets }
    requires second { IsSecondSet purpose volume.sets }
    ensures { IfOk result (λ step. course_of volume step ≡ begins volume names.now kept.now.entries parent name purpose) }
{
    if !is_directory(parent.kind) {
        drop(purpose);
        return Ok(refuse(AppError::Enotdir, None));
    }
    if NAME_LIMIT < name.len() {
        drop(purpose);
        return Ok(refuse(AppError::Enametoolong, None));
    }
    look_known(alloc, volume, names, kept, parent.gfid, name, purpose)
}

// A rename looks for the first name. Where the set of the second is known, it is kept until then.
fn rename(
    alloc: Global,
    volume: Volume,
    names: &[Seq<u8>],
    kept: &BTreeMap<Gfid, Seq<Option<Span>>>,
    from: (Object, Seq<u8>),
    to: (Object, Seq<u8>),
) -> Result<Step, AllocError>
    requires root { 1 ≤ volume.root_sets }
    requires within { volume.root_sets ≤ volume.sets }
    requires names { length names.now ≡ volume.sets }
    ensures { IfOk result (λ step. course_of volume step ≡ renames volume names.now kept.now.entries from.0 from.1 to.0 to.1) }
{
    let (target, new_name) = to;
    let second = known_set(alloc, volume, kept, target.gfid, new_name.as_slice())?;
    let purpose = Purpose::RenameFrom {
        target,
        new_name,
        second,
    };
    let (parent, name) = from;
    let step = on_name(alloc, volume, names, kept, parent, name, purpose)?;
    Ok(step)
}

/// Begins a fop.
///
/// # Errors
/// Out of memory.
pub(crate) fn begin_fop(
    alloc: Global,
    volume: Volume,
    fop: Fop,
    names: &[Seq<u8>],
    kept: &BTreeMap<Gfid, Seq<Option<Span>>>,
) -> Result<Step, AllocError>
    requires root { 1 ≤ volume.root_sets }
    requires within { volume.root_sets ≤ volume.sets }
    requires names { length names.now ≡ volume.sets }
    ensures { IfOk result (λ step. course_of volume step ≡ fop_course volume names.now kept.now.entries fop) }
{
    match fop {
        Fop::Lookup { parent, name } => {
            on_name(alloc, volume, names, kept, parent, name, Purpose::Lookup)
        }
        Fop::Mkdir {
            parent,
            name,
            mode,
            drawn,
        } => {
            let purpose = Purpose::Mkdir { mode, drawn };
            on_name(alloc, volume, names, kept, parent, name, purpose)
        }
        Fop::Rmdir { parent, name } => {
            on_name(alloc, volume, names, kept, parent, name, Purpose::Rmdir)
        }
        Fop::Create {
            fd: _,
            parent,
            name,
            mode,
            drawn,
        } => {
            let purpose = Purpose::Create { mode, drawn };
            on_name(alloc, volume, names, kept, parent, name, purpose)
        }
        Fop::Unlink { parent, name } => {
            on_name(alloc, volume, names, kept, parent, name, Purpose::Unlink)
        }
        Fop::Rename {
            parent,
            name,
            target,
            new_name,
        } => rename(
            alloc,
            volume,
            names,
            kept,
            (parent, name),
            (target, new_name),
        ),
        Fop::Open { fd, object } => Ok(open(volume, object, fd)),
        Fop::Stat { object } => stat(alloc, volume, object),
        Fop::List { object } => list(alloc, volume, object),
        Fop::Chmod { object, mode } => set_mode(alloc, volume, object, mode),
        Fop::Truncate { object, size } => truncate(alloc, volume, object, size),
        Fop::SetAttr { object, attr } => set_attr(alloc, volume, object, attr),
        Fop::GetAttr { object, name } => get_attr(alloc, volume, object, name),
        Fop::DelAttr { object, name } => del_attr(alloc, volume, object, name),
        Fop::Read {
            fd,
            object,
            offset,
            count,
        } => read(alloc, volume, object, fd, Range { offset, count }),
        Fop::Write {
            fd,
            object,
            offset,
            bytes,
        } => write(alloc, volume, object, fd, offset, bytes),
        Fop::Migrate { fds } => open_from(alloc, volume, fds, 0),
        Fop::Heal { count } => index_from(alloc, volume, count, Seq::new(alloc), 0),
    }
}
