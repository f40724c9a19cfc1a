ghost use Rattle.std.specs.Prelude.{◌≡◌, None, map, IfOk};
ghost use Rattle.script_lang.specs.code.Readings.{Leaves, reading_of};
ghost use Rattle.script_lang.specs.StatementText.{brick_added, brick_read, has_words, is_brick_used, phase_begun, said_in, said_in_phases, said_of_volfiles, start_read, started, statement as statement_read, volfile_begun, volfile_named};
ghost use Rattle.script_lang.specs.declared.drafts.Reading.TheVariants.{InScript};

use crate::drafts::{Draft, Inside, Part};
use crate::errors::ScriptKind;
use crate::phase_lines::{add_call, add_control, with_phase};
use crate::places::volfile_of;
use crate::words::is_word;
use fop_types::Seq;
use std::alloc::{AllocError, Global};
use std::mem;
use volfile::{BrickLine, VolfileReader, is_name, is_visible_word};

// Why a line is refused, if it is.
pub(crate) type Refused = Result<Option<ScriptKind>, AllocError>;

// A line of these words, outside a volfile.
pub(crate) fn statement(
    alloc: Global,
    draft: &mut Draft,
    inside: &mut Option<Inside>,
    number: u32,
    words: &[&[u8]],
) -> Refused
    requires { inside.old ≡ None }
    ensures { IfOk result (λ no. Leaves (statement_read draft.old number (map (λ w. w.now) words.now)) no (reading_of draft.new inside.new)) }
{
    match words {
        [] => Ok(None),
        [word, rest @ ..] => said(alloc, draft, inside, number, word, rest),
    }
}

// The statement that may be there by what was begun last.
fn said(
    alloc: Global,
    draft: &mut Draft,
    inside: &mut Option<Inside>,
    number: u32,
    word: &[u8],
    rest: &[&[u8]],
) -> Refused
    requires { inside.old ≡ None }
    ensures { IfOk result (λ no. Leaves (said_in draft.old.part draft.old number word.now (map (λ w. w.now) rest.now)) no (reading_of draft.new inside.new)) }
{
    match draft.part {
        Part::Bricks => {
            if is_word(word, b"brick") {
                brick(alloc, draft, rest)
            } else {
                definition(alloc, draft, inside, word, rest)
            }
        }
        Part::Volfiles => definition(alloc, draft, inside, word, rest),
        Part::Start => {
            if is_word(word, b"phase") {
                phase(alloc, draft, rest)
            } else {
                Ok(Some(ScriptKind::Unexpected))
            }
        }
        Part::Phases => in_phases(alloc, draft, number, word, rest),
    }
}

fn definition(
    alloc: Global,
    draft: &mut Draft,
    inside: &mut Option<Inside>,
    word: &[u8],
    rest: &[&[u8]],
) -> Refused
    requires { inside.old ≡ None }
    ensures { IfOk result (λ no. Leaves (said_of_volfiles draft.old word.now (map (λ w. w.now) rest.now)) no (reading_of draft.new inside.new)) }
{
    if is_word(word, b"volfile") {
        volfile(alloc, draft, inside, rest)
    } else if is_word(word, b"start") {
        Ok(start(draft, rest))
    } else {
        Ok(Some(ScriptKind::Unexpected))
    }
}

fn in_phases(alloc: Global, draft: &mut Draft, number: u32, word: &[u8], rest: &[&[u8]]) -> Refused
    ensures { IfOk result (λ no. Leaves (said_in_phases draft.old number word.now (map (λ w. w.now) rest.now)) no (InScript draft.new)) }
{
    if is_word(word, b"phase") {
        phase(alloc, draft, rest)
    } else if is_word(word, b"do") {
        add_call(alloc, draft, number, rest)
    } else if is_word(word, b"control") {
        add_control(draft, number, rest)
    } else {
        Ok(Some(ScriptKind::Unexpected))
    }
}

fn brick(alloc: Global, draft: &mut Draft, words: &[&[u8]]) -> Refused
    ensures { IfOk result (λ no. Leaves (brick_read draft.old (map (λ w. w.now) words.now)) no (InScript draft.new)) }
{
    match words {
        [] => Ok(Some(ScriptKind::WordCount)),
        [_name] => Ok(Some(ScriptKind::WordCount)),
        [_name, _host] => Ok(Some(ScriptKind::WordCount)),
        [name, host, path] => with_brick(alloc, draft, name, host, path),
        [_name, _host, _path, _more, _rest @ ..] => Ok(Some(ScriptKind::WordCount)),
    }
}

#[tactic(auto, unfolding(crate::specs::StatementText::brick_added))]
fn with_brick(alloc: Global, draft: &mut Draft, name: &[u8], host: &[u8], path: &[u8]) -> Refused
    ensures { IfOk result (λ no. Leaves (brick_added draft.old name.now host.now path.now) no (InScript draft.new)) }
{
    if !(is_name(name) && is_visible_word(host) && is_visible_word(path)) {
        return Ok(Some(ScriptKind::BadWord));
    }
    if is_used(draft.bricks.as_slice(), name, host, path) {
        return Ok(Some(ScriptKind::Repeated));
    }
    if draft.bricks.len() >= 60 {
        return Ok(Some(ScriptKind::TooMany));
    }
    let brick = brick_line(alloc, name, host, path)?;
    draft.bricks.push(brick)?;
    Ok(None)
}

fn brick_line(alloc: Global, name: &[u8], host: &[u8], path: &[u8]) -> Result<BrickLine, AllocError>
    ensures { IfOk result (λ brick. brick ≡ record { name = name.now; host = host.now; path = path.now }) }
{
    let name = Seq::from_bytes(alloc, name)?;
    let host = Seq::from_bytes(alloc, host)?;
    let path = Seq::from_bytes(alloc, path)?;
    Ok(BrickLine { name, host, path })
}

// Whether the name or the pair of host and path was used. There are at most 60 bricks to look at.
fn is_used(bricks: &[BrickLine], name: &[u8], host: &[u8], path: &[u8]) -> bool
    ensures { result ≡ is_brick_used bricks.now name.now host.now path.now }
{
    for brick in bricks {
        if is_brick(brick, name, host, path) {
            return true;
        }
    }
    false
}

fn is_brick(brick: &BrickLine, name: &[u8], host: &[u8], path: &[u8]) -> bool
    ensures { result ≡ has_words brick.now name.now host.now path.now }
{
    is_word(brick.name.as_slice(), name)
        || (is_word(brick.host.as_slice(), host) && is_word(brick.path.as_slice(), path))
}

fn volfile(
    alloc: Global,
    draft: &mut Draft,
    inside: &mut Option<Inside>,
    words: &[&[u8]],
) -> Refused
    requires { inside.old ≡ None }
    ensures { IfOk result (λ no. Leaves (volfile_begun draft.old (map (λ w. w.now) words.now)) no (reading_of draft.new inside.new)) }
{
    match words {
        [] => Ok(Some(ScriptKind::WordCount)),
        [name] => with_volfile(alloc, draft, inside, name),
        [_name, _more, _rest @ ..] => Ok(Some(ScriptKind::WordCount)),
    }
}

fn with_volfile(
    alloc: Global,
    draft: &mut Draft,
    inside: &mut Option<Inside>,
    name: &[u8],
) -> Refused
    requires { inside.old ≡ None }
    ensures { IfOk result (λ no. Leaves (volfile_named draft.old name.now) no (reading_of draft.new inside.new)) }
{
    if !is_name(name) {
        return Ok(Some(ScriptKind::BadWord));
    }
    if draft.volfiles.place(name).is_some() {
        return Ok(Some(ScriptKind::Repeated));
    }
    if draft.volfiles.len() >= 16 {
        return Ok(Some(ScriptKind::TooMany));
    }
    let name = Seq::from_bytes(alloc, name)?;
    let reader = VolfileReader::new(alloc);
    draft.part = Part::Volfiles;
    drop(mem::replace(inside, Some(Inside { name, reader })));
    Ok(None)
}

fn start(draft: &mut Draft, words: &[&[u8]]) -> Option<ScriptKind>
    ensures { Leaves (start_read draft.old (map (λ w. w.now) words.now)) result (InScript draft.new) }
{
    match words {
        [] => Some(ScriptKind::WordCount),
        [name] => {
            let volfile = volfile_of(&draft.volfiles, name);
            with_start(draft, volfile)
        }
        [_name, _more, _rest @ ..] => Some(ScriptKind::WordCount),
    }
}

fn with_start(draft: &mut Draft, volfile: Result<u8, ScriptKind>) -> Option<ScriptKind>
    ensures { Leaves (started draft.old volfile) result (InScript draft.new) }
{
    match volfile {
        Ok(volfile) => {
            draft.part = Part::Start;
            draft.start = volfile;
            None
        }
        Err(kind) => Some(kind),
    }
}

fn phase(alloc: Global, draft: &mut Draft, words: &[&[u8]]) -> Refused
    ensures { IfOk result (λ no. Leaves (phase_begun draft.old (map (λ w. w.now) words.now)) no (InScript draft.new)) }
{
    match words {
        [] => with_phase(alloc, draft),
        [_more, _rest @ ..] => Ok(Some(ScriptKind::WordCount)),
    }
}
