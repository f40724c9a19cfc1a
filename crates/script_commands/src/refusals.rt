ghost use Rattle.std.specs.Prelude.{◌≡◌, ◌++◌, IfOk, OnOk};
ghost use Rattle.script_commands.specs.Refusals.{fault_of, fault_text, plan_text, script_text, vol_text};

use graph_build::PlanKind;
use script_lang::ScriptKind;
use std::alloc::{AllocError, Global};
use volfile::VolKind;

/// Why a text is refused, with the line that is reported. `OfScript`: the grammar, a following or what a run
/// serves so far refuses the line; a text that is too long has the line 0. `OfPlan`: a volfile has no plan,
/// and the line is that of the volume.
#[derive(Clone, Copy)]
pub enum Refusal {
    OfScript { line: u32, kind: ScriptKind },
    OfPlan { line: u32, kind: PlanKind },
}

// The name of a volfile's kind in a script.
fn vol_name(kind: VolKind) -> &'static [u8]
    ensures { result.now ≡ vol_text kind }
{
    match kind {
        VolKind::BadByte => b"VolBadByte",
        VolKind::Backquote => b"VolBackquote",
        VolKind::OpenQuote => b"VolOpenQuote",
        VolKind::Unexpected => b"VolUnexpected",
        VolKind::WordCount => b"VolWordCount",
        VolKind::BadWord => b"VolBadWord",
        VolKind::Repeated => b"VolRepeated",
        VolKind::UnknownSubvolume => b"VolUnknownSubvolume",
        VolKind::MissingType => b"VolMissingType",
        VolKind::TooMany => b"VolTooMany",
        VolKind::Unclosed => b"VolUnclosed",
        VolKind::Empty => b"VolEmpty",
    }
}

// The name of a script's kind.
fn script_name(kind: ScriptKind) -> &'static [u8]
    ensures { result.now ≡ script_text kind }
{
    match kind {
        ScriptKind::BadByte => b"BadByte",
        ScriptKind::LongLine => b"LongLine",
        ScriptKind::Unexpected => b"Unexpected",
        ScriptKind::WordCount => b"WordCount",
        ScriptKind::BadWord => b"BadWord",
        ScriptKind::Repeated => b"Repeated",
        ScriptKind::Unknown => b"Unknown",
        ScriptKind::TooMany => b"TooMany",
        ScriptKind::TwoGreat => b"TwoGreat",
        ScriptKind::Unclosed => b"Unclosed",
        ScriptKind::NoStart => b"NoStart",
        ScriptKind::NotFollowing => b"NotFollowing",
        ScriptKind::TooLong => b"TooLong",
        ScriptKind::Vol(inner) => vol_name(inner),
        ScriptKind::Later => b"Later",
    }
}

// The name of a plan's kind.
fn plan_name(kind: PlanKind) -> &'static [u8]
    ensures { result.now ≡ plan_text kind }
{
    match kind {
        PlanKind::UnknownKind => b"PlanUnknownKind",
        PlanKind::SubvolumeCount => b"PlanSubvolumeCount",
        PlanKind::BadReplica => b"PlanBadReplica",
        PlanKind::NotAuto => b"PlanNotAuto",
        PlanKind::NoBrick => b"PlanNoBrick",
        PlanKind::BrickTwice => b"PlanBrickTwice",
        PlanKind::BadOption => b"PlanBadOption",
        PlanKind::UsedTwice => b"PlanUsedTwice",
        PlanKind::NestedCluster => b"PlanNestedCluster",
        PlanKind::TooDeep => b"PlanTooDeep",
        PlanKind::Unused => b"PlanUnused",
    }
}

// fault line L KIND
fn put_fault(alloc: Global, text: &mut Vec<u8>, line: u32, name: &[u8]) -> Result<(), AllocError>
    ensures { OnOk result (text.new.items ≡ text.old.items ++ fault_of line name.now) }
{
    text.extend_from_slice(b"fault line ")?;
    text.extend_from_slice(line.to_string(alloc)?.as_bytes())?;
    text.extend_from_slice(b" ")?;
    text.extend_from_slice(name)?;
    text.extend_from_slice(b"\n")?;
    Ok(())
}

fn fault(alloc: Global, line: u32, name: &[u8]) -> Result<Vec<u8>, AllocError>
    ensures { IfOk result (λ text. text.items ≡ fault_of line name.now) }
{
    let mut text = Vec::new(alloc);
    let done = put_fault(alloc, &mut text, line, name);
    done.and(Ok(text))
}

/// The line that is written where a text has no report, or a line that is in none.
///
/// # Errors
/// Out of memory.
pub fn report_fault(alloc: Global, line: u32, name: &[u8]) -> Result<Vec<u8>, AllocError>
    ensures { IfOk result (λ text. text.items ≡ fault_of line name.now) }
{
    fault(alloc, line, name)
}

/// The line that is written for a refusal.
///
/// # Errors
/// Out of memory.
pub fn fault_line(alloc: Global, refusal: Refusal) -> Result<Vec<u8>, AllocError>
    ensures { IfOk result (λ text. text.items ≡ fault_text refusal) }
{
    match refusal {
        Refusal::OfScript { line, kind } => fault(alloc, line, script_name(kind)),
        Refusal::OfPlan { line, kind } => fault(alloc, line, plan_name(kind)),
    }
}
