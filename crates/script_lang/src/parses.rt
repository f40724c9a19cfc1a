ghost use Rattle.std.specs.Prelude.{◌≡◌, [], IfOk, OnOk};
ghost use Rattle.script_lang.specs.Accepted.{IsAccepted};
ghost use Rattle.script_lang.specs.code.Readings.{HasRead, reading_of};
ghost use Rattle.script_lang.specs.ScriptText.{IsButForMemory, has_start as has_start_part, nothing_said, parsed, script_of, text_ended};
ghost use Rattle.script_lang.specs.StatementText.{phases_read};
ghost use Rattle.script_lang.specs.declared.drafts.Reading.TheVariants.{InScript};

use crate::drafts::{Draft, Inside, Part};
use crate::errors::{ScriptError, ScriptKind};
use crate::few::Few;
use crate::phase_lines::end_phase;
use crate::readings::with_line;
use crate::scripts::Script;
use crate::sharing::share_data;
use fop_types::Seq;
use std::alloc::{AllocError, Global};
use volfile::{first_line, line_after};

/// The script that a text is.
///
/// Each byte is looked at a few times, and words are copied once. A name is looked for among the at most
/// 60 bricks, 16 volfiles or 64 sessions that were read. The script keeps its limits: `IsAccepted` lists them.
///
/// # Errors
/// `At` with the first line that is refused, and of the kinds that hold of it the first, in the order of
/// [`ScriptKind`]; where the text ends too early the line is the number of lines. Lines beyond 4,294,967,295
/// all have that number. `Mem` where it runs out of memory.
pub fn parse(alloc: Global, text: &[u8]) -> Result<Script, ScriptError>
    ensures exact { IsButForMemory result (parsed text.now) }
    ensures keeps { IfOk result (λ script. IsAccepted script) }
{
    match lines_of(alloc, text) {
        Ok(script) => Ok(script),
        Err(e) => Err(e),
    }
}

fn lines_of(alloc: Global, text: &[u8]) -> Result<Script, ScriptError>
    ensures { IsButForMemory result (parsed text.now) }
{
    let mut draft = nothing_read(alloc);
    match read_text(alloc, &mut draft, text) {
        Ok(number) => finish(alloc, draft, number),
        Err(e) => {
            drop(draft);
            Err(e)
        }
    }
}

// Reads the lines of a text into an empty draft, leaves no volfile open, and gives the last one's number.
fn read_text(alloc: Global, draft: &mut Draft, text: &[u8]) -> Result<u32, ScriptError>
    requires { InScript draft.old ≡ nothing_said }
    ensures { HasRead result draft.new (parsed text.now) }
{
    let mut inside: Option<Inside> = None;
    let read = read_lines(alloc, draft, &mut inside, text);
    drop(inside);
    read
}

// The same, where `inside` is the volfile whose lines are read, if there is one.
fn read_lines(
    alloc: Global,
    draft: &mut Draft,
    inside: &mut Option<Inside>,
    text: &[u8],
) -> Result<u32, ScriptError>
    requires { reading_of draft.old inside.old ≡ nothing_said }
    ensures { HasRead result draft.new (parsed text.now) }
{
    let mut number: u32 = 0;
    let mut at = 0;
    while at < text.len() {
        let line = first_line(text, at);
        number = line_after(number);
        if let Some(kind) = with_line(alloc, draft, inside, number, line)? {
            return Err(ScriptError::At { line: number, kind });
        }
        at += line.len() + 1;
    }
    if inside.is_some() {
        return Err(ScriptError::At {
            line: number,
            kind: ScriptKind::Unclosed,
        });
    }
    Ok(number)
}

fn nothing_read(alloc: Global) -> Draft
    ensures { InScript result ≡ nothing_said }
{
    Draft {
        part: Part::Bricks,
        bricks: Few::new(alloc),
        volfiles: Few::new(alloc),
        start: 0,
        sessions: Few::new(alloc),
        phases: Seq::new(alloc),
        calls: Seq::new(alloc),
        controls: Seq::new(alloc),
        call_count: 0,
        is_great: false,
    }
}

// The text ends at the line with this number, outside a volfile.
fn finish(alloc: Global, draft: Draft, number: u32) -> Result<Script, ScriptError>
    ensures { IsButForMemory result (text_ended (InScript draft) number) }
{
    if !has_start(draft.part) {
        drop(draft);
        return Err(ScriptError::At {
            line: number,
            kind: ScriptKind::NoStart,
        });
    }
    let script = script(alloc, draft)?;
    Ok(script)
}

fn script(alloc: Global, draft: Draft) -> Result<Script, AllocError>
    ensures { IfOk result (λ script. script ≡ script_of draft) }
{
    let mut draft = draft;
    match end_last(alloc, &mut draft) {
        Ok(()) => Ok(into_script(draft)),
        Err(error) => {
            drop(draft);
            Err(error)
        }
    }
}

// Ends the last phase, and keeps the same data once.
fn end_last(alloc: Global, draft: &mut Draft) -> Result<(), AllocError>
    ensures { OnOk result (draft.new ≡ record draft.old { phases = phases_read draft.old; calls = []; controls = [] }) }
{
    end_phase(alloc, draft)?;
    share_data(alloc, &mut draft.phases)
}

// The script of a draft whose phases have ended.
fn into_script(draft: Draft) -> Script
    ensures { result ≡ record { bricks = draft.bricks; volfiles = draft.volfiles; start = draft.start; sessions = draft.sessions; phases = draft.phases } }
{
    Script {
        bricks: draft.bricks.into_seq(),
        volfiles: draft.volfiles.into_seq(),
        start: draft.start,
        sessions: draft.sessions.into_seq(),
        phases: draft.phases,
    }
}

fn has_start(part: Part) -> bool
    ensures { result ≡ has_start_part part }
{
    match part {
        Part::Bricks => false,
        Part::Volfiles => false,
        Part::Start => true,
        Part::Phases => true,
    }
}
