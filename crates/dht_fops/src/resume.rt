ghost use Rattle.std.specs.Prelude.{◌≡◌, ◌≤◌, IfOk};
ghost use Rattle.dht_fops.specs.code.Waits.{course_of, names_go, contents_go, number_goes, reply_goes, goes_on, goes_held, held_by as held_by_of, learnt_by, learnt_after};
ghost use Rattle.dht_fops.specs.declared.volume.Volume.{Volume};

use crate::changes::attr_seen;
use crate::drops::{drop_link, empty_from, names_shown};
use crate::entries::bear_from;
use crate::internal::{heal_from, index_on, open_from};
use crate::layouts::Layout;
use crate::list::names_listed;
use crate::look::look_on;
use crate::objects::{attr_read, bytes_read, dir_stat, file_stat};
use crate::rename::{add_link, bear, drop_old_link, move_name, replace};
use crate::replies::{cells_in, contents_in, number_in};
use crate::spans::span_shown;
use crate::state::{OnContents, OnNames, OnNumber, OnReply, State};
use crate::step::{Step, answer, done, fail};
use crate::volume::Volume;
use dht_linkto::{DirNames, names_in};
use fop_types::{Answer, Content, Seq, SetReply};
use std::alloc::{AllocError, Global};

fn on_names(
    alloc: Global,
    volume: Volume,
    state: OnNames,
    shown: DirNames,
) -> Result<Step, AllocError>
    requires { 1 ≤ volume.sets }
    ensures { IfOk result (λ step. course_of volume step ≡ names_go volume state shown) }
{
    match state {
        OnNames::Look(look) => look_on(alloc, volume, look.look(), shown),
        OnNames::List(listing) => names_listed(alloc, volume, listing, shown),
        OnNames::Empty(dir, next) => names_shown(alloc, volume, dir, next, shown),
        OnNames::Copy(renaming, replaced) => {
            replace(alloc, volume, renaming, replaced, shown.has_copy)
        }
    }
}

fn on_contents(
    alloc: Global,
    volume: Volume,
    learnt: &mut Seq<Layout>,
    state: OnContents,
    contents: Seq<Option<Content>>,
    place: u32,
) -> Result<Step, AllocError>
    ensures course { IfOk result (λ step. course_of volume step ≡ contents_go volume state contents place) }
    ensures learnt { IfOk result (λ step. learnt.new ≡ learnt_by volume state contents learnt.old) }
{
    match state {
        OnContents::Spans(read) => span_shown(alloc, volume, learnt, read.read(), contents),
        OnContents::DirStat => Ok(dir_stat(volume, contents, place)),
        OnContents::FileStat => Ok(file_stat(alloc, volume, contents, place)),
        OnContents::GetAttr(name) => attr_read(alloc, volume, name.as_slice(), contents, place),
        OnContents::DelAttr(dropped) => attr_seen(alloc, volume, dropped, contents, place),
        OnContents::Bytes(range) => bytes_read(alloc, volume, range, contents, place),
    }
}

fn on_number(
    alloc: Global,
    volume: Volume,
    state: OnNumber,
    number: Option<u32>,
) -> Result<Step, AllocError>
    requires { 1 ≤ volume.sets }
    ensures { IfOk result (λ step. course_of volume step ≡ number_goes volume state number) }
{
    match state {
        OnNumber::Open => Ok(answer(Answer::Done, None)),
        OnNumber::Change(answer) => Ok(done(answer, number)),
        OnNumber::Birth(new) => bear_from(alloc, volume, new),
        OnNumber::Unlink(dropped) => drop_link(alloc, volume, dropped, number),
        OnNumber::Replace(renaming, has_copy) => bear(alloc, volume, renaming, has_copy),
        OnNumber::Bear(renaming) => move_name(alloc, volume, renaming),
        OnNumber::Move(renaming) => add_link(alloc, volume, renaming, number),
    }
}

fn on_reply(
    alloc: Global,
    volume: Volume,
    state: OnReply,
    reply: SetReply,
) -> Result<Step, AllocError>
    ensures { IfOk result (λ step. course_of volume step ≡ reply_goes volume state reply) }
{
    let listed = cells_in(alloc, reply);
    match state {
        OnReply::End => Ok(answer(Answer::Done, None)),
        OnReply::LinkDrop(number) => Ok(answer(Answer::Done, number)),
        OnReply::Extend(dir) => {
            drop(dir);
            Ok(answer(Answer::Done, None))
        }
        OnReply::NewLink(source, number) => drop_old_link(alloc, volume, source, number),
        OnReply::Reopen(opening) => open_from(alloc, volume, opening.fds, opening.next),
        OnReply::Index(indexing) => index_on(alloc, volume, indexing, listed),
        OnReply::Heal(healing) => heal_from(alloc, volume, healing.cells, healing.next),
    }
}

/// Goes on with what the reply gave.
///
/// # Errors
/// Out of memory.
pub(crate) fn resume(
    alloc: Global,
    volume: Volume,
    learnt: &mut Seq<Layout>,
    state: State,
    reply: SetReply,
) -> Result<Step, AllocError>
    requires { 1 ≤ volume.sets }
    ensures course { IfOk result (λ step. course_of volume step ≡ goes_on volume state reply) }
    ensures learnt { IfOk result (λ step. learnt.new ≡ learnt_after volume state reply learnt.old) }
{
    match state {
        State::Names(state) => match names_in(alloc, reply) {
            Ok(shown) => on_names(alloc, volume, state, shown),
            Err(error) => {
                drop(state);
                Ok(fail(error))
            }
        },
        State::Contents(state) => match contents_in(alloc, reply) {
            Ok((contents, place)) => on_contents(alloc, volume, learnt, state, contents, place),
            Err(error) => {
                drop(state);
                Ok(fail(error))
            }
        },
        State::Number(state) => match number_in(reply) {
            Ok(number) => on_number(alloc, volume, state, number),
            Err(error) => {
                drop(state);
                Ok(fail(error))
            }
        },
        State::Reply(state) => on_reply(alloc, volume, state, reply),
    }
}

fn held_by(alloc: Global, volume: Volume, state: OnReply) -> Result<Step, AllocError>
    ensures { IfOk result (λ step. course_of volume step ≡ held_by_of volume state) }
{
    match state {
        OnReply::Extend(dir) => empty_from(alloc, volume, dir, 0),
        other => {
            drop(other);
            Ok(answer(Answer::Done, None))
        }
    }
}

/// Goes on once the hold is extended.
///
/// # Errors
/// Out of memory.
pub(crate) fn held(alloc: Global, volume: Volume, state: State) -> Result<Step, AllocError>
    ensures { IfOk result (λ step. course_of volume step ≡ goes_held volume state) }
{
    match state {
        State::Reply(state) => held_by(alloc, volume, state),
        other => {
            drop(other);
            Ok(answer(Answer::Done, None))
        }
    }
}
