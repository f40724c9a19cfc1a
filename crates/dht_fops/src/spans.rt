ghost use Rattle.std.specs.Prelude.{◌≡◌, ◌∷◌, ◌++◌, [], ◌+◌, ◌<◌, ◌≤◌, length, IfOk, OnOk, IfSome};
ghost use Rattle.dht_linkto.specs.DirNames.{first_content};
ghost use Rattle.dht_fops.specs.Looks.{span_job as span_job_of, span_of as span_of_content};
ghost use Rattle.dht_fops.specs.Renames.{second_set as second_set_of};
ghost use Rattle.dht_fops.specs.code.Purposes.{IsSecondSet};
ghost use Rattle.dht_fops.specs.code.Waits.{course_of, with_spans as with_spans_of, looks_after_spans, looks_for, reads_on, sets_left, spans_read, with_span, learnt_at};
ghost use Rattle.dht_fops.specs.declared.volume.Volume.{Volume};

use crate::cells::{cell, listed};
use crate::layouts::{Layout, span_of};
use crate::look::look_in;
use crate::purpose::Purpose;
use crate::replies::take_first;
use crate::spans_read::{PendingSpans, SpansRead};
use crate::state::{OnContents, State};
use crate::step::{Step, ask};
use crate::volume::Volume;
use dht_linkto::{SetNames, hashed_set};
use fop_types::{Aspect, Content, Gfid, Job, Seq, Span};
use std::alloc::{AllocError, Global};

fn span_job(alloc: Global, dir: Gfid) -> Result<Job, AllocError>
    ensures { IfOk result (λ job. job ≡ span_job_of dir) }
{
    Ok(Job::Read {
        cells: listed(alloc, &[cell(dir, Aspect::Meta)])?,
        fd: 0,
        dir: true,
    })
}

// The set of the second name, once the layout of the first name's directory was read.
fn second_set(
    dir: Gfid,
    target: Gfid,
    new_name: &[u8],
    second: Option<u8>,
    spans: &[Option<Span>],
) -> Option<u8>
    requires some { 1 ≤ length spans.now }
    requires few { length spans.now ≤ 255 }
    requires second { IfSome second (λ set. set < length spans.now) }
    ensures set { result ≡ second_set_of dir target new_name.now second spans.now }
    ensures within { IfSome result (λ set. set < length spans.now) }
{
    if dir.cmp(&target).is_eq() {
        Some(hashed_set(spans, new_name))
    } else {
        second
    }
}

// What the layout of the first name's directory says of the second name.
#[tactic(auto, using(crate::proofs::Sets::spans_rename))]
fn with_spans(dir: Gfid, spans: &[Option<Span>], purpose: Purpose) -> Purpose
    requires some { 1 ≤ length spans.now }
    requires few { length spans.now ≤ 255 }
    requires second { IsSecondSet purpose (length spans.now) }
    ensures purpose { result ≡ with_spans_of dir spans.now purpose }
    ensures second { IsSecondSet result (length spans.now) }
{
    match purpose {
        Purpose::RenameFrom {
            target,
            new_name,
            second,
        } => {
            let second = second_set(dir, target.gfid, new_name.as_slice(), second, spans);
            Purpose::RenameFrom {
                target,
                new_name,
                second,
            }
        }
        other => other,
    }
}

// The directory's range on the next set is read.
#[tactic(auto, using(crate::proofs::Sets::sets_step))]
fn ask_span(alloc: Global, volume: Volume, read: SpansRead) -> Result<Step, AllocError>
    requires sets { read.count ≡ length read.names }
    requires spans { length read.spans ≡ read.next }
    requires within { read.next < read.count }
    requires second { IsSecondSet read.purpose (length read.names) }
    ensures { IfOk result (λ step. course_of volume step ≡ reads_on volume read) }
{
    let set = read.next;
    match span_job(alloc, read.dir) {
        Ok(job) => {
            let mut read = read;
            read.next = set + 1;
            let pending = PendingSpans::new(read);
            Ok(ask(set, job, State::Contents(OnContents::Spans(pending))))
        }
        Err(error) => {
            drop(read);
            Err(error)
        }
    }
}

/// Looks for a name that belongs to this set, where it is known; else reads the directory's layout first.
///
/// # Errors
/// Out of memory.
pub(crate) fn look_for(
    alloc: Global,
    volume: Volume,
    purpose: Purpose,
    dir: Gfid,
    name: Seq<u8>,
    names: SetNames,
    known: Option<u8>,
) -> Result<Step, AllocError>
    requires some { 1 ≤ length names }
    requires known { IfSome known (λ set. set < length names) }
    requires second { IsSecondSet purpose (length names) }
    ensures { IfOk result (λ step. course_of volume step ≡ looks_for volume purpose dir name names known) }
{
    match known {
        Some(hashed) => look_in(alloc, volume, purpose, dir, name, names, hashed),
        None => {
            let count = names.count();
            let read = SpansRead {
                dir,
                name,
                names,
                purpose,
                spans: Seq::new(alloc),
                next: 0,
                count,
            };
            ask_span(alloc, volume, read)
        }
    }
}

// Each set was read: the layout is learnt, and the name is looked for.
#[tactic(auto, using(crate::proofs::LookSteps::look_by_spans, crate::proofs::Sets::sets_end, crate::proofs::Sets::second_same, crate::proofs::Sets::second_back))]
fn look_by(
    alloc: Global,
    volume: Volume,
    learnt: &mut Seq<Layout>,
    read: SpansRead,
) -> Result<Step, AllocError>
    requires some { 1 ≤ length read.spans }
    requires sets { read.count ≡ length read.names }
    requires whole { length read.spans ≡ read.count }
    requires next { read.next ≡ read.count }
    requires second { IsSecondSet read.purpose (length read.names) }
    ensures course { IfOk result (λ step. course_of volume step ≡ reads_on volume read) }
    ensures learnt { IfOk result (λ step. learnt.new ≡ learnt_at (sets_left read) read learnt.old) }
{
    let spans = read.spans;
    let hashed = hashed_set(spans.as_slice(), read.name.as_slice());
    let purpose = with_spans(read.dir, spans.as_slice(), read.purpose);
    match learn(learnt, read.dir, spans) {
        Ok(()) => {
            let step = look_in(
                alloc, volume, purpose, read.dir, read.name, read.names, hashed,
            )?;
            Ok(step)
        }
        Err(error) => {
            drop(purpose);
            drop(read.name);
            drop(read.names);
            Err(error)
        }
    }
}

fn learn(learnt: &mut Seq<Layout>, dir: Gfid, spans: Seq<Option<Span>>) -> Result<(), AllocError>
    ensures { OnOk result (learnt.new ≡ learnt.old ++ record { dir = dir; spans = spans } ∷ []) }
{
    learnt.push(Layout { dir, spans })?;
    Ok(())
}

// The range in the first of the contents.
fn first_span(contents: Seq<Option<Content>>) -> Option<Span>
    ensures { result ≡ span_of_content (first_content contents) }
{
    let mut contents = contents;
    let first = take_first(&mut contents);
    let span = span_of(&first);
    drop(first);
    span
}

fn add_span(read: &mut SpansRead, span: Option<Span>) -> Result<(), AllocError>
    ensures { OnOk result (read.new ≡ record read.old { spans = read.old.spans ++ span ∷ [] }) }
{
    read.spans.push(span)?;
    Ok(())
}

// The next set is asked; once each has shown its range, the layout is learnt and the name is looked for.
#[tactic(auto, using(crate::proofs::Sets::sets_step))]
fn read_on(
    alloc: Global,
    volume: Volume,
    learnt: &mut Seq<Layout>,
    read: SpansRead,
) -> Result<Step, AllocError>
    requires some { 1 ≤ length read.spans }
    requires sets { read.count ≡ length read.names }
    requires spans { length read.spans ≡ read.next }
    requires within { read.next ≤ read.count }
    requires second { IsSecondSet read.purpose (length read.names) }
    ensures course { IfOk result (λ step. course_of volume step ≡ reads_on volume read) }
    ensures learnt { IfOk result (λ step. learnt.new ≡ learnt_at (sets_left read) read learnt.old) }
{
    if read.next < read.count {
        ask_span(alloc, volume, read)
    } else {
        look_by(alloc, volume, learnt, read)
    }
}

/// One more set showed the directory's metadata. Once each has, the layout is learnt and the name is looked for.
///
/// # Errors
/// Out of memory.
pub(crate) fn span_shown(
    alloc: Global,
    volume: Volume,
    learnt: &mut Seq<Layout>,
    read: SpansRead,
    contents: Seq<Option<Content>>,
) -> Result<Step, AllocError>
    requires sets { read.count ≡ length read.names }
    requires spans { length read.spans + 1 ≡ read.next }
    requires within { read.next ≤ read.count }
    requires second { IsSecondSet read.purpose (length read.names) }
    ensures course { IfOk result (λ step. course_of volume step ≡ spans_read volume read contents) }
    ensures learnt { IfOk result (λ step. learnt.new ≡ learnt_at (sets_left read) (with_span read contents) learnt.old) }
{
    let mut read = read;
    match add_span(&mut read, first_span(contents)) {
        Ok(()) => read_on(alloc, volume, learnt, read),
        Err(error) => {
            drop(read);
            Err(error)
        }
    }
}
