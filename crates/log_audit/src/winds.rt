//! Whether the winds of a log are balanced.
ghost use Rattle.std.specs.Prelude.{◌≡◌, true, IfOk, IfSome, IfNone};
ghost use Rattle.mount_log.specs.Winds.{WindsAreOnce, WindsAreBalanced};
ghost use Rattle.log_audit.specs.Agreeing.{Agree};
ghost use Rattle.log_audit.specs.Following.{WindsFollow};

use crate::slots::Slots;
use mount_log::WindLine;
use std::alloc::{AllocError, Global};

// The last wind of each slot, `None` where a line cannot come.
fn slots_after(alloc: Global, lines: &[WindLine]) -> Result<Option<Slots>, AllocError>
    ensures sound { IfOk result (λ o. IfSome o (λ slots. Agree slots lines.now)) }
    ensures follow { IfOk result (λ o. IfSome o (λ _. WindsFollow lines.now)) }
    ensures complete { IfOk result (λ o. IfNone o (WindsAreOnce lines.now → WindsFollow lines.now → ⊥)) }
{
    let mut slots = Slots::new(alloc);
    for line in lines {
        if !slots.take(line)? {
            return Ok(None);
        }
    }
    Ok(Some(slots))
}

/// Whether the winds of a log are balanced: each was opened once and ended once, after its opening and in its graph and call.
/// It is false, too, where a slot's winds do not follow one another with rising turns, as a frame stack's do; where they do, true
/// and false say whether they are balanced.
///
/// # Errors
/// Out of memory.
#[tactic(auto, using(crate::proofs::Balanced::balanced, crate::proofs::Following::all_closed))]
pub fn winds_are_balanced(alloc: Global, lines: &[WindLine]) -> Result<bool, AllocError>
    ensures sound { IfOk result (λ yes. yes ≡ true → WindsAreBalanced lines.now) }
    ensures follow { IfOk result (λ yes. yes ≡ true → WindsFollow lines.now) }
    ensures complete { IfOk result (λ yes. WindsAreBalanced lines.now → WindsFollow lines.now → yes ≡ true) }
{
    match slots_after(alloc, lines)? {
        Some(slots) => Ok(slots.are_closed()),
        None => Ok(false),
    }
}

/// Whether each wind of a log was opened once and ended at most once, after its opening and in its graph and call, as far as
/// the log goes. It is false, too, where a slot's winds do not follow one another with rising turns.
///
/// # Errors
/// Out of memory.
#[tactic(auto, using(crate::proofs::Balanced::once))]
pub fn winds_are_once(alloc: Global, lines: &[WindLine]) -> Result<bool, AllocError>
    ensures sound { IfOk result (λ yes. yes ≡ true → WindsAreOnce lines.now) }
    ensures follow { IfOk result (λ yes. yes ≡ true → WindsFollow lines.now) }
    ensures complete { IfOk result (λ yes. WindsAreOnce lines.now → WindsFollow lines.now → yes ≡ true) }
{
    match slots_after(alloc, lines)? {
        Some(_) => Ok(true),
        None => Ok(false),
    }
}
