//! What a brick has answered Done, by what arrived.
ghost use Rattle.std.specs.Prelude.{◌≡◌, ◌≢◌, ◌↔◌, IsTrue, ℕ, true, IfOk, IfSome, IfNone};
ghost use Rattle.fop_types.specs.declared.messages.BrickRep.TheVariants.{Done};
ghost use Rattle.fop_types.specs.declared.messages.DoneArm.TheVariants.{Nothing};
ghost use Rattle.fop_types.specs.declared.messages.OutKind.TheVariants.{Reply};
ghost use Rattle.fop_types.specs.Bounds.{IsHyper};
ghost use Rattle.change_audit.specs.Served.{done_text, wind_answered, IsDoneOf, IsAnswered};

use crate::arrivals::{arrived, written_output};
use fop_types::{BrickRep, DoneArm, OutKind, Output};
use mount_log::Log;
use std::alloc::{AllocError, Global};

/// A request that a brick has answered Done: the count of the brick's inputs up to it, the place of the event in which the answer
/// arrived, and that of the opening of its wind among the wind lines, both from 0.
#[derive(Clone, Copy)]
pub struct Served {
    pub taken: u64,
    pub event: usize,
    pub opening: usize,
}

/// What an output answers: the count of the brick's inputs up to it, and its wind.
#[derive(Clone, Copy)]
pub struct Answering {
    pub taken: u64,
    pub wind: u64,
}

/// A brick that is said to bear a change, with its op and its post.
#[derive(Clone, Copy)]
pub struct Bearer {
    pub brick: u8,
    pub op: Served,
    pub post: Served,
}

fn is_nothing(arm: &DoneArm) -> bool
    ensures { IsTrue result ↔ (arm.now ≡ Nothing) }
{
    match arm {
        DoneArm::Nothing => true,
        _ => false,
    }
}

fn is_done(rep: &BrickRep) -> bool
    ensures { IsTrue result ↔ (rep.now ≡ Done Nothing) }
{
    match rep {
        BrickRep::Done(arm) => is_nothing(arm),
        _ => false,
    }
}

/// The wind of an output that is a reply.
pub(crate) fn reply_wind(kind: &OutKind) -> Option<u64>
    ensures { result ≡ wind_answered kind.now }
{
    match kind {
        OutKind::Reply { wind, rep: _ } => Some(*wind),
        _ => None,
    }
}

// The wind of an output that is a Done with nothing.
fn done_wind(kind: &OutKind) -> Option<u64>
    ensures found { IfSome result (λ wind. kind.now ≡ Reply wind (Done Nothing)) }
    ensures none { IfNone result ((wind : ℕ) → kind.now ≢ Reply wind (Done Nothing)) }
{
    match kind {
        OutKind::Reply { wind, rep } => { if is_done(rep) { Some(*wind) } else { None } }
        _ => None,
    }
}

fn done_of(output: &Output) -> Option<Answering>
    ensures found { IfSome result (λ done. IsDoneOf done.taken done.wind output.now) }
    ensures none { IfNone result ((taken wind : ℕ) → IsDoneOf taken wind output.now → ⊥) }
{
    let wind = done_wind(&output.kind)?;
    Some(Answering {
        taken: output.taken,
        wind,
    })
}

/// What the bytes answer, if they are a Done with nothing.
///
/// # Errors
/// Out of memory.
pub(crate) fn done_in(alloc: Global, bytes: &[u8]) -> Result<Option<Answering>, AllocError>
    ensures found { IfOk result (λ found. IfSome found (λ done. bytes.now ≡ done_text done.taken done.wind)) }
    ensures hypers { IfOk result (λ found. IfSome found (λ done. IsHyper done.taken × IsHyper done.wind)) }
    ensures none { IfOk result (λ found. IfNone found ((taken wind : ℕ) → IsHyper taken → IsHyper wind → bytes.now ≢ done_text taken wind)) }
{
    match written_output(alloc, bytes)? {
        Some(output) => {
            let found = done_of(&output);
            drop(output);
            Ok(found)
        }
        None => Ok(None),
    }
}

// Whether the bytes are the Done of a wind that answers the input of this count.
fn is_done_text(alloc: Global, bytes: &[u8], taken: u64, wind: u64) -> Result<bool, AllocError>
    ensures sound { IfOk result (λ yes. yes ≡ true → bytes.now ≡ done_text taken wind) }
    ensures complete { IfOk result (λ yes. IsHyper taken → IsHyper wind → bytes.now ≡ done_text taken wind → yes ≡ true) }
{
    match done_in(alloc, bytes)? {
        Some(done) => Ok(done.taken == taken && done.wind == wind),
        None => Ok(false),
    }
}

/// Whether the Done of a wind arrived from a brick, where and for which input it is said.
///
/// # Errors
/// Out of memory.
pub(crate) fn is_answered(
    alloc: Global,
    log: &Log,
    brick: u8,
    at: Served,
    wind: u64,
) -> Result<bool, AllocError>
    ensures sound { IfOk result (λ yes. yes ≡ true → IsAnswered log.now brick at wind) }
    ensures complete { IfOk result (λ yes. IsHyper at.taken → IsHyper wind → IsAnswered log.now brick at wind → yes ≡ true) }
{
    let Some(bytes) = arrived(log, at.event, brick) else {
        return Ok(false);
    };
    let yes = is_done_text(alloc, bytes, at.taken, wind)?;
    Ok(yes)
}
