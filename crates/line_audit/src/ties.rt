//! Whether the lines of a log are tied to its events.
ghost use Rattle.std.specs.Prelude.{◌≡◌, true, IfOk};
ghost use Rattle.script_lang.specs.Accepted.{IsAccepted};
ghost use Rattle.mount_log.specs.Ties.{AreTied, NumbersRise};
ghost use Rattle.mount_log.specs.Heads.{heads_of};
ghost use Rattle.line_audit.specs.Slots.{AreSlotsLow};
ghost use Rattle.line_audit.specs.Ended.{AreEnded};
ghost use Rattle.line_audit.specs.Tied.{AreRepliesTied, AreWindsTied, AreRequestsTied, AreNotesRight, AreLinesTied};

use crate::in_time::all_numbers_rise;
use crate::tie_notes::{TieNotes, tie_notes_of};
use crate::tied_replies::replies_are_tied;
use crate::tied_sent::requests_are_tied;
use crate::tied_winds::winds_are_tied;
use log_audit::calls_made::{CallMade, calls_made};
use mount_log::Log;
use mount_log::heads::Head;
use script_lang::Script;
use std::alloc::{AllocError, Global};

// Whether the lines are tied to one another and to the calls, where the notes say.
fn notes_tie(
    alloc: Global,
    log: &Log,
    heads: &[Head],
    calls: &[CallMade],
    notes: &TieNotes,
) -> Result<bool, AllocError>
    requires numbers { NumbersRise log.now }
    requires heads { heads.now ≡ heads_of log.now.events }
    ensures sound { IfOk result (λ yes. yes ≡ true → AreLinesTied log.now calls.now) }
    ensures complete { IfOk result (λ yes. AreNotesRight log.now notes.now → AreSlotsLow log.now.winds → AreRepliesTied log.now calls.now → AreWindsTied log.now calls.now → AreRequestsTied log.now notes.now.sent_for.items → AreEnded log.now → yes ≡ true) }
{
    if !winds_are_tied(log, calls, notes.replied.as_slice()) {
        return Ok(false);
    }
    if !replies_are_tied(log, calls, notes.ends.as_slice()) {
        return Ok(false);
    }
    let openings = notes.openings.as_slice();
    let sent_for = notes.sent_for.as_slice();
    let yes = requests_are_tied(
        alloc,
        log,
        heads,
        openings,
        notes.ended.as_slice(),
        sent_for,
    )?;
    Ok(yes)
}

// Whether the lines are tied to one another and to the calls.
fn lines_tie(
    alloc: Global,
    log: &Log,
    heads: &[Head],
    calls: &[CallMade],
) -> Result<bool, AllocError>
    requires { heads.now ≡ heads_of log.now.events }
    ensures { IfOk result (λ yes. yes ≡ true → AreLinesTied log.now calls.now) }
{
    if !all_numbers_rise(log) {
        return Ok(false);
    }
    let notes = tie_notes_of(alloc, log)?;
    let yes = notes_tie(alloc, log, heads, calls, &notes);
    drop(notes);
    yes
}

/// Whether the lines of a log are tied to its events and to one another: numbers of events rise, replies are to their calls,
/// winds are of their calls' graphs, each request has its wind, and that its end. It is false, too, where a session submits more
/// lines than it has. `heads` are those of the log's events.
///
/// # Errors
/// Out of memory.
pub fn lines_are_tied(
    alloc: Global,
    script: &Script,
    log: &Log,
    heads: &[Head],
) -> Result<bool, AllocError>
    requires script { IsAccepted script.now }
    requires heads { heads.now ≡ heads_of log.now.events }
    ensures { IfOk result (λ yes. yes ≡ true → AreTied log.now) }
{
    let Some(calls) = calls_made(alloc, script, log)? else {
        return Ok(false);
    };
    let yes = lines_tie(alloc, log, heads, calls.as_slice())?;
    Ok(yes)
}
