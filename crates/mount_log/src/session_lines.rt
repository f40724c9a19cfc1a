//! The lines of each session, in the order of the script.
ghost use Rattle.std.specs.Prelude.{◌≡◌, ◌≤◌, ◌<◌, ◌++◌, ℕ, [], map, length, IfOk, IfSome, IfNone, OnOk};
ghost use Rattle.std.specs.List.{AllByRecursion};
ghost use Rattle.script_lang.specs.Accepted.{IsAccepted};
ghost use Rattle.mount_log.specs.Lines.{SharesOut, TakesLine, queue_of, places_from};

use crate::places::LineAt;
use script_lang::{CallLine, Phase, Script};
use std::alloc::{AllocError, Global};
use std::collections::VecDeque;

// Gives each line of a phase to its session.
fn share_out(
    lines: &mut Vec<VecDeque<LineAt>>,
    phase: u32,
    calls: &[CallLine],
) -> Result<(), AllocError>
    requires sessions { AllByRecursion (λ line. line.session < length lines.old.items) calls.now }
    requires few { length calls.now ≤ 4294967295 }
    ensures sessions { OnOk result (length lines.new.items ≡ length lines.old.items) }
    ensures shared { OnOk result (SharesOut phase calls.now (map (λ q. q.items) lines.old.items) (map (λ q. q.items) lines.new.items)) }
{
    for index in 0..calls.len() {
        let session = calls[index].session as usize;
        let at = LineAt {
            phase,
            index: index as u32,
        };
        lines[session].push_back(at)?;
    }
    Ok(())
}

// Gives each line of these phases to its session.
fn share_all(lines: &mut Vec<VecDeque<LineAt>>, phases: &[Phase]) -> Result<(), AllocError>
    requires sessions { AllByRecursion (λ p. AllByRecursion (λ line. line.session < length lines.old.items) p.calls) phases.now }
    requires few { AllByRecursion (λ p. length p.calls ≤ 4294967295) phases.now }
    requires few_phases { length phases.now ≤ 4294967295 }
    ensures sessions { OnOk result (length lines.new.items ≡ length lines.old.items) }
    ensures shared { OnOk result ((session : ℕ) → queue_of (map (λ q. q.items) lines.new.items) session ≡ queue_of (map (λ q. q.items) lines.old.items) session ++ places_from session 0 phases.now) }
{
    for phase in 0..phases.len() {
        share_out(lines, phase as u32, phases[phase].calls.as_slice())?;
    }
    Ok(())
}

// A queue without lines for each of so many sessions.
#[tactic(auto, using(crate::proofs::Sessions::empty_more))]
fn empty_queues(alloc: Global, sessions: usize) -> Result<Vec<VecDeque<LineAt>>, AllocError>
    ensures sessions { IfOk result (λ lines. length lines.items ≡ sessions) }
    ensures empty { IfOk result (λ lines. (session : ℕ) → queue_of (map (λ q. q.items) lines.items) session ≡ []) }
{
    let mut lines = Vec::new(alloc);
    for _ in 0..sessions {
        lines.push(VecDeque::new(alloc))?;
    }
    Ok(lines)
}

/// The places of each session's lines, by the sessions' numbers.
///
/// # Errors
/// Out of memory.
#[tactic(auto, using(crate::proofs::Sessions::lines_are_below, crate::proofs::Sessions::few_lines))]
pub fn lines_of_sessions(
    alloc: Global,
    script: &Script,
) -> Result<Vec<VecDeque<LineAt>>, AllocError>
    requires { IsAccepted script.now }
    ensures { IfOk result (λ lines. (session : ℕ) → queue_of (map (λ q. q.items) lines.items) session ≡ places_from session 0 script.now.phases) }
{
    let mut lines = empty_queues(alloc, script.sessions.len())?;
    share_all(&mut lines, script.phases.as_slice())?;
    Ok(lines)
}

/// Takes the first line of a session; `None` where it has none, or there is no such session.
pub fn take_line(lines: &mut Vec<VecDeque<LineAt>>, session: u8) -> Option<LineAt>
    ensures taken { IfSome result (λ at. TakesLine (map (λ q. q.items) lines.old.items) session at (map (λ q. q.items) lines.new.items)) }
    ensures none { IfNone result (queue_of (map (λ q. q.items) lines.old.items) session ≡ []) }
    ensures unchanged { IfNone result (map (λ q. q.items) lines.new.items ≡ map (λ q. q.items) lines.old.items) }
{
    match lines.get_mut(session as usize) {
        Some(queue) => queue.pop_front(),
        None => None,
    }
}
