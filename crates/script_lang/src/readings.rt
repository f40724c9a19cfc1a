ghost use Rattle.std.specs.Prelude.{◌≡◌, ◌<◌, ◌∷◌, None, map, length, IfOk, IfSome};
ghost use Rattle.std.specs.List.{list_all};
ghost use Rattle.volfile.specs.TextLines.{is_blank as is_blank_byte, is_text_byte as is_byte_of_text, words_of};
ghost use Rattle.script_lang.specs.code.Readings.{HasCapacity, Leaves, reading_of};
ghost use Rattle.script_lang.specs.ScriptText.{end_read, inner_line_read, is_comment as is_comment_line, is_long as is_long_line, line_read, line_refusal, said_if_plain, script_line_read, volfile_ended, volfile_line_read};

use crate::drafts::{Draft, Inside};
use crate::errors::ScriptKind;
use crate::scripts::NamedVolfile;
use crate::statements::{Refused, statement};
use crate::words::is_word;
use std::alloc::{AllocError, Global};
use volfile::{VolError, is_text_byte, words};

// The line with this number.
pub(crate) fn with_line(
    alloc: Global,
    draft: &mut Draft,
    inside: &mut Option<Inside>,
    number: u32,
    line: &[u8],
) -> Refused
    requires { HasCapacity (reading_of draft.old inside.old) }
    ensures { IfOk result (λ no. Leaves (line_read (reading_of draft.old inside.old) number line.now) no (reading_of draft.new inside.new)) }
{
    match &*inside {
        None => script_line(alloc, draft, inside, number, line),
        Some(_) => volfile_line(alloc, draft, inside, number, line),
    }
}

fn script_line(
    alloc: Global,
    draft: &mut Draft,
    inside: &mut Option<Inside>,
    number: u32,
    line: &[u8],
) -> Refused
    requires { inside.old ≡ None }
    ensures { IfOk result (λ no. Leaves (script_line_read draft.old number line.now) no (reading_of draft.new inside.new)) }
{
    if is_comment(line) {
        if !is_long(line) {
            return Ok(None);
        }
        return Ok(Some(ScriptKind::LongLine));
    }
    match refusal_of(line) {
        Some(kind) => Ok(Some(kind)),
        None => {
            let words = words(alloc, line)?;
            statement(alloc, draft, inside, number, words.as_slice())
        }
    }
}

// A line of a volfile, or the one that ends it.
fn volfile_line(
    alloc: Global,
    draft: &mut Draft,
    inside: &mut Option<Inside>,
    number: u32,
    line: &[u8],
) -> Refused
    requires { length draft.old.volfiles < 16 }
    ensures { IfSome inside.old (λ it. IfOk result (λ no. Leaves (volfile_line_read draft.old it.name it.reader number line.now (words_of line.now)) no (reading_of draft.new inside.new))) }
{
    let words = words(alloc, line)?;
    words_in_volfile(alloc, draft, inside, number, line, words.as_slice())
}

// A line of these words inside a volfile.
fn words_in_volfile(
    alloc: Global,
    draft: &mut Draft,
    inside: &mut Option<Inside>,
    number: u32,
    line: &[u8],
    words: &[&[u8]],
) -> Refused
    requires { length draft.old.volfiles < 16 }
    ensures { IfSome inside.old (λ it. IfOk result (λ no. Leaves (volfile_line_read draft.old it.name it.reader number line.now (map (λ w. w.now) words.now)) no (reading_of draft.new inside.new))) }
{
    match words {
        [] => inner_line(alloc, draft, inside, number, line),
        [word, rest @ ..] => begun_in_volfile(alloc, draft, inside, number, line, word, rest),
    }
}

// A line that begins with this word inside a volfile, with the words behind it.
fn begun_in_volfile(
    alloc: Global,
    draft: &mut Draft,
    inside: &mut Option<Inside>,
    number: u32,
    line: &[u8],
    word: &[u8],
    rest: &[&[u8]],
) -> Refused
    requires { length draft.old.volfiles < 16 }
    ensures { IfSome inside.old (λ it. IfOk result (λ no. Leaves (volfile_line_read draft.old it.name it.reader number line.now (word.now ∷ map (λ w. w.now) rest.now)) no (reading_of draft.new inside.new))) }
{
    if is_word(word, b"end-volfile") {
        end_line(draft, inside, number, line, rest)
    } else {
        inner_line(alloc, draft, inside, number, line)
    }
}

// A line of a volfile, which leaves the draft as it is.
fn inner_line(
    alloc: Global,
    draft: &Draft,
    inside: &mut Option<Inside>,
    number: u32,
    line: &[u8],
) -> Refused
    ensures { IfSome inside.old (λ it. IfOk result (λ no. Leaves (inner_line_read draft.now it.name it.reader number line.now) no (reading_of draft.now inside.new))) }
{
    if is_long(line) {
        return Ok(Some(ScriptKind::LongLine));
    }
    match inside {
        None => Ok(Some(ScriptKind::Unexpected)),
        Some(it) => match it.reader.line(alloc, number, line) {
            Ok(()) => Ok(None),
            Err(VolError::At { line: _, kind }) => Ok(Some(ScriptKind::Vol(kind))),
            Err(VolError::Mem) => Err(AllocError),
        },
    }
}

// `end-volfile` and these words.
fn end_line(
    draft: &mut Draft,
    inside: &mut Option<Inside>,
    number: u32,
    line: &[u8],
    rest: &[&[u8]],
) -> Refused
    requires { length draft.old.volfiles < 16 }
    ensures { IfSome inside.old (λ it. IfOk result (λ no. Leaves (said_if_plain line.now (end_read draft.old it.name it.reader (map (λ w. w.now) rest.now))) no (reading_of draft.new inside.new))) }
{
    if let Some(kind) = refusal_of(line) {
        return Ok(Some(kind));
    }
    match rest {
        [] => end_volfile(draft, inside, number),
        [_more, _rest @ ..] => Ok(Some(ScriptKind::WordCount)),
    }
}

fn end_volfile(draft: &mut Draft, inside: &mut Option<Inside>, number: u32) -> Refused
    requires { length draft.old.volfiles < 16 }
    ensures { IfSome inside.old (λ it. IfOk result (λ no. Leaves (volfile_ended draft.old it.name it.reader.block it.reader.volumes) no (reading_of draft.new inside.new))) }
{
    match inside.take() {
        None => Ok(Some(ScriptKind::Unexpected)),
        Some(it) => match it.reader.end(number) {
            Ok(volfile) => {
                draft.volfiles.push(NamedVolfile {
                    name: it.name,
                    volfile,
                })?;
                Ok(None)
            }
            Err(VolError::At { line: _, kind }) => Ok(Some(ScriptKind::Vol(kind))),
            Err(VolError::Mem) => Err(AllocError),
        },
    }
}

// Whether the first byte that is no blank is `#`.
fn is_comment(line: &[u8]) -> bool
    ensures { result ≡ is_comment_line line.now }
{
    for byte in line {
        if !is_blank(*byte) {
            return *byte == b'#';
        }
    }
    false
}

fn is_blank(byte: u8) -> bool
    ensures { result ≡ is_blank_byte byte }
{
    byte == b' ' || byte == b'\t' || byte == b'\r'
}

// Why the line may say nothing: its bytes, or their number.
fn refusal_of(line: &[u8]) -> Option<ScriptKind>
    ensures { result ≡ line_refusal line.now }
{
    if !are_text_bytes(line) {
        Some(ScriptKind::BadByte)
    } else if !is_long(line) {
        None
    } else {
        Some(ScriptKind::LongLine)
    }
}

fn is_long(line: &[u8]) -> bool
    ensures { result ≡ is_long_line line.now }
{
    line.len() >= 140001
}

fn are_text_bytes(line: &[u8]) -> bool
    ensures { result ≡ list_all is_byte_of_text line.now }
{
    line.iter().all(|b| is_text_byte(*b))
}
