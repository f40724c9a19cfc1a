//! A fop that is played against the replies of a row.

ghost use Rattle.std.specs.Prelude.{◌≡◌, ◌≤◌, length, IfOk};

use crate::answers::push_answer;
use crate::fops::fop;
use crate::jobs::push_job;
use crate::replies::reply;
use crate::text::{cut, digit, push_number};
use dht_fops::{DhtFop, DhtNext};
use fop_types::{Fop, Gfid, Job, Seq, Span};
use std::alloc::{AllocError, Global};
use std::collections::BTreeMap;
use std::mem;

/// Layouts by directory.
pub(crate) type Kept = BTreeMap<Gfid, Seq<Option<Span>>>;

// More turns than a row has.
const TURNS: usize = 16;

// A fop under way, and what it gave last.
#[derive(Drop)]
struct Play {
    fop: DhtFop,
    next: DhtNext,
}

// ---- the beginning

// The names of the sets.
fn names(alloc: Global, count: u8) -> Result<Vec<Seq<u8>>, AllocError>
    ensures { IfOk result (λ names. length names.items ≡ count) }
{
    let mut names = Vec::new(alloc);
    for set in 0..count {
        names.push(Seq::from_bytes(alloc, &[b's', b'0' | set])?)?;
    }
    Ok(names)
}

fn begun(
    alloc: Global,
    fop: Fop,
    sets: u8,
    names: &[Seq<u8>],
    root_sets: u8,
    kept: &Kept,
) -> Result<Play, AllocError>
    requires root { 1 ≤ root_sets }
    requires within { root_sets ≤ sets }
    requires names { length names.now ≡ sets }
{
    let (fop, next) = DhtFop::begin(alloc, 1, fop, sets, names, root_sets, kept)?;
    Ok(Play { fop, next })
}

// A fop by its words: the number of sets, behind `/` that of the first graph where it had fewer, and then the fop.
fn begin(alloc: Global, words: &[u8], kept: &Kept) -> Result<Play, AllocError> {
    let (counts, words) = cut(words, b' ');
    let (all, first) = cut(counts, b'/');
    let sets = digit(all);
    let root_sets = if first.is_empty() { sets } else { digit(first) };
    if root_sets < 1 || sets < root_sets {
        return Err(AllocError);
    }
    let names = names(alloc, sets)?;
    let fop = fop(alloc, words)?;
    begun(alloc, fop, sets, &names, root_sets, kept)
}

// ---- where a fop is

fn push_jobs(alloc: Global, text: &mut Vec<u8>, jobs: &[(u8, Job)]) -> Result<(), AllocError> {
    for (set, job) in jobs {
        push_number(alloc, text, *set as u64)?;
        text.push(b' ')?;
        push_job(alloc, text, job)?;
    }
    Ok(())
}

fn push_place(alloc: Global, text: &mut Vec<u8>, place: Option<u32>) -> Result<(), AllocError> {
    text.push(b' ')?;
    match place {
        None => text.extend_from_slice(b"-"),
        Some(place) => push_number(alloc, text, place as u64),
    }
}

// The set and its job, `hold` and the directory, or the answer and its place.
fn push_next(alloc: Global, text: &mut Vec<u8>, next: &DhtNext) -> Result<(), AllocError> {
    match next {
        DhtNext::Jobs(jobs) => push_jobs(alloc, text, jobs.as_slice()),
        DhtNext::Hold(dir) => {
            text.extend_from_slice(b"hold ")?;
            push_number(alloc, text, dir.lo)
        }
        DhtNext::Done(answer, place) => {
            push_answer(alloc, text, answer)?;
            push_place(alloc, text, *place)
        }
    }
}

// Whether a word of a row is this text, or the part of it before its brackets.
fn is_word_of(word: &[u8], text: &[u8]) -> bool {
    let (head, _) = cut(text, b'[');
    word == text || word == head
}

fn is_at(alloc: Global, next: &DhtNext, first: &[u8], second: &[u8]) -> Result<bool, AllocError> {
    let mut text = Vec::new(alloc);
    push_next(alloc, &mut text, next)?;
    let (one, two) = cut(text.as_slice(), b' ');
    Ok(is_word_of(first, one) && is_word_of(second, two))
}

// ---- turns

// The fop takes the reply of the set that it asks, or the extension of the hold.
fn next_of(alloc: Global, fop: &mut DhtFop, gives: &[u8]) -> Result<DhtNext, AllocError> {
    match fop.asked() {
        None => fop.held(alloc),
        Some(set) => {
            let reply = reply(alloc, set, gives)?;
            fop.answer(alloc, set, reply)
        }
    }
}

fn go_on(alloc: Global, play: &mut Play, gives: &[u8]) -> Result<(), AllocError> {
    let next = next_of(alloc, &mut play.fop, gives)?;
    drop(mem::replace(&mut play.next, next));
    Ok(())
}

// A turn of a row: the set, its job and what it gives, which is an I/O error where the turn fails; or the answer and its
// place. Gives whether the fop asks so.
fn turn(alloc: Global, play: &mut Play, words: &[u8], fails: bool) -> Result<bool, AllocError> {
    let (first, rest) = cut(words, b' ');
    let (second, gives) = cut(rest, b' ');
    if !is_at(alloc, &play.next, first, second)? {
        return Ok(false);
    }
    if !gives.is_empty() {
        go_on(alloc, play, if fails { b"io" } else { gives })?;
    }
    Ok(true)
}

// The end of a fop by an I/O error of a set.
const ERRORS: [(&[u8], &[u8]); 3] = [
    (b"0", b" quorum[0] -"),
    (b"1", b" quorum[1] -"),
    (b"2", b" quorum[2] -"),
];

fn error_of<'a>(set: &[u8], more: &'a [u8]) -> &'a [u8] {
    for (number, end) in &ERRORS {
        if set == *number {
            return *end;
        }
    }
    more
}

// What follows on a turn that fails: the answer is the error, but for a change of a link, which changes no answer.
fn after_error<'a>(words: &[u8], more: &'a [u8]) -> &'a [u8] {
    let (set, rest) = cut(words, b' ');
    let (job, gives) = cut(rest, b' ');
    if gives.is_empty() || job.starts_with(b"link") {
        more
    } else {
        error_of(set, more)
    }
}

// Whether the fop goes as the turns say.
fn goes(alloc: Global, play: &mut Play, turns: &[u8], failing: usize) -> Result<bool, AllocError> {
    let mut rest = turns;
    for place in 0..TURNS {
        let (_, from) = cut(rest, b' ');
        let (words, more) = cut(from, b';');
        if !turn(alloc, play, words, place == failing)? {
            return Ok(false);
        }
        rest = if place == failing {
            after_error(words, more)
        } else {
            more
        };
        if rest.is_empty() {
            return Ok(true);
        }
    }
    Ok(false)
}

fn learn(alloc: Global, play: &Play, kept: &mut Kept) -> Result<(), AllocError> {
    for layout in play.fop.learnt() {
        drop(kept.insert(layout.dir, layout.spans.copy(alloc)?)?);
    }
    Ok(())
}

// Whether a row goes as it says, where these layouts are kept; what it reads is kept with them.
fn runs(alloc: Global, row: &str, failing: usize, kept: &mut Kept) -> Result<bool, AllocError> {
    let (words, turns) = cut(row.as_bytes(), b':');
    let mut play = begin(alloc, words, kept)?;
    let did = ends(alloc, &mut play, turns, failing, kept);
    drop(play);
    did
}

// The same of a fop that has begun.
fn ends(
    alloc: Global,
    play: &mut Play,
    turns: &[u8],
    failing: usize,
    kept: &mut Kept,
) -> Result<bool, AllocError> {
    let did = goes(alloc, play, turns, failing);
    let learnt = learn(alloc, play, kept);
    both(did, learnt)
}

fn both(did: Result<bool, AllocError>, learnt: Result<(), AllocError>) -> Result<bool, AllocError> {
    learnt?;
    did
}

// ---- tables

// Whether a row goes as it says, and ends with the error where any one of its turns fails.
fn runs_and_fails(alloc: Global, row: &str) -> Result<bool, AllocError> {
    for failing in 0..TURNS + 1 {
        let mut kept = BTreeMap::new(alloc);
        if !runs(alloc, row, failing, &mut kept)? {
            return Ok(false);
        }
    }
    Ok(true)
}

fn or_memory(row: Result<&'static str, AllocError>) -> &'static str {
    match row {
        Ok(row) => row,
        Err(_) => "out of memory",
    }
}

fn first_wrong_of(alloc: Global, rows: &[&'static str]) -> Result<&'static str, AllocError> {
    for row in rows {
        if !runs_and_fails(alloc, row)? {
            return Ok(row);
        }
    }
    Ok("")
}

/// The first row that does not go as it says, or does not end with the error where a turn of it fails; empty where each
/// does.
pub(crate) fn first_wrong(alloc: Global, rows: &[&'static str]) -> &'static str {
    or_memory(first_wrong_of(alloc, rows))
}

// The first row that does not go as it says, where the layouts that earlier rows of its table read are kept; empty where
// each does.
fn first_wrong_in_table(alloc: Global, rows: &[&'static str]) -> Result<&'static str, AllocError> {
    let mut kept = BTreeMap::new(alloc);
    for row in rows {
        if !runs(alloc, row, TURNS, &mut kept)? {
            return Ok(row);
        }
    }
    Ok("")
}

/// The same of some tables.
pub(crate) fn first_wrong_in_order(
    alloc: Global,
    tables: &[&'static [&'static str]],
) -> &'static str {
    for rows in tables {
        let row = or_memory(first_wrong_in_table(alloc, rows));
        if !row.is_empty() {
            return row;
        }
    }
    ""
}
