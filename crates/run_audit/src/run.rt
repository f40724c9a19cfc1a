//! Whether a log is that of a run of its script.
ghost use Rattle.std.specs.Prelude.{◌≡◌, ◌≤◌, ◌↔◌, IsTrue, true, IfOk, IfSome, IsSome, length};
ghost use Rattle.script_lang.specs.Accepted.{IsAccepted};
ghost use Rattle.mount_log.specs.Controls.{AreAnswered};
ghost use Rattle.mount_log.specs.Follows.{AreInOrder, RunOf, FollowsScript};
ghost use Rattle.log_audit.specs.Armed.{AreAllArmed, AreAllAmong};
ghost use Rattle.mount_log.specs.Heads.{heads_of};
ghost use Rattle.run_audit.specs.CallPhases.{AreSingle, AreOneByOne, AreInPhases, AreAnsweredIn, HaveCalls};
ghost use Rattle.run_audit.specs.Controlled.{AreNoted, AreOfControls, ArePhasesCarried, AreCarriedOut, AreTables, AreWholeTables};
ghost use Rattle.run_audit.specs.Counting.{AreNumbers, DoAllRise, AreSettled};
ghost use Rattle.run_audit.specs.Noted.{AreRising};
ghost use Rattle.run_audit.specs.Numbered.{AreNth, AreInEvents};
ghost use Rattle.run_audit.specs.Shown.{AreCarriedByTables, CanBeCarried, IsShownBy};
ghost use Rattle.run_audit.specs.Timed.{AreRequestsNoted, AreAllTimely};

use crate::acts::acts_are_of_controls;
use crate::alone::{are_one_by_one, reply_places};
use crate::answered::acts_are_answered;
use crate::call_phases::{are_answered_in, are_in_phases};
use crate::carried::{SentTables, phases_are_carried};
use crate::moments::are_timely;
use crate::noting::notes_of;
use crate::nth_requests::nth_requests;
use crate::numbers::{Numbers, do_all_rise, numbers_of};
use crate::phase_ends::ends_rise;
use crate::run_notes::RunNotes;
use crate::sent_for::lines_are_sent_for;
use crate::settled::phases_are_settled;
use log_audit::armed_lines::{ArmedLines, all_armed};
use log_audit::calls_made::{CallMade, calls_made};
use log_audit::submits_are_in_order;
use mount_log::Log;
use mount_log::heads::Head;
use script_lang::Script;
use std::alloc::{AllocError, Global};

// ---- calls

fn phases_rise(log: &Log, notes: &RunNotes) -> bool
    ensures { IsTrue result ↔ AreRising notes.now.ended (length log.now.events) }
{
    ends_rise(notes.ended.as_slice(), log.events.len() as u64)
}

fn are_submitted(log: &Log, notes: &RunNotes, calls: &[CallMade]) -> bool
    ensures { IsTrue result ↔ AreInPhases notes.now.ended (length log.now.events) calls.now }
{
    are_in_phases(calls, notes.ended.as_slice(), log.events.len() as u64)
}

fn are_answered(log: &Log, notes: &RunNotes, calls: &[CallMade]) -> bool
    ensures { IsTrue result ↔ AreAnsweredIn calls.now notes.now.ended (length log.now.events) log.now.replies }
{
    let last = log.events.len() as u64;
    are_answered_in(calls, notes.ended.as_slice(), last, log.replies.as_slice())
}

fn are_alone(alloc: Global, log: &Log, calls: &[CallMade]) -> Result<bool, AllocError>
    ensures sound { IfOk result (λ yes. yes ≡ true → AreOneByOne log.now calls.now) }
    ensures complete { IfOk result (λ yes. AreSingle log.now.replies → AreOneByOne log.now calls.now → yes ≡ true) }
{
    let places = reply_places(alloc, calls.len(), log.replies.as_slice())?;
    let yes = are_one_by_one(log, calls, places.as_slice());
    drop(places);
    Ok(yes)
}

// Whether sessions submit one call at a time, and calls were submitted and answered within their phases, by the notes.
fn calls_are_in_phases(
    alloc: Global,
    script: &Script,
    log: &Log,
    notes: &RunNotes,
) -> Result<bool, AllocError>
    requires { IsAccepted script.now }
    ensures sound { IfOk result (λ yes. yes ≡ true → HaveCalls script.now log.now notes.now.ended (length log.now.events)) }
    ensures complete { IfOk result (λ yes. AreInOrder script.now log.now → AreSingle log.now.replies → HaveCalls script.now log.now notes.now.ended (length log.now.events) → yes ≡ true) }
{
    let Some(calls) = calls_made(alloc, script, log)? else {
        return Ok(false);
    };
    if !are_alone(alloc, log, calls.as_slice())? {
        drop(calls);
        return Ok(false);
    }
    if !are_submitted(log, notes, calls.as_slice()) {
        drop(calls);
        return Ok(false);
    }
    Ok(are_answered(log, notes, calls.as_slice()))
}

// ---- controls

fn nth_of(alloc: Global, log: &Log, notes: &RunNotes) -> Result<Option<Vec<u64>>, AllocError>
    requires { AreRising notes.now.ended (length log.now.events) }
    ensures nth { IfOk result (λ found. IfSome found (λ nth. AreNth notes.now.ended (length log.now.events) log.now.sent nth.items)) }
    ensures many { IfOk result (λ found. IfSome found (λ nth. length nth.items ≡ length log.now.sent)) }
    ensures complete { IfOk result (λ found. AreInEvents (length log.now.events) log.now.sent → IsSome found) }
{
    let last = log.events.len() as u64;
    let found = nth_requests(alloc, log.sent.as_slice(), notes.ended.as_slice(), last)?;
    Ok(found)
}

fn armed_of(alloc: Global, log: &Log) -> Result<Vec<ArmedLines>, AllocError>
    ensures sound { IfOk result (λ armed. AreAllArmed log.now.sent armed.items) }
    ensures complete { IfOk result (λ armed. AreAllAmong log.now.sent armed.items) }
{
    let armed = all_armed(alloc, log.sent.as_slice())?;
    Ok(armed)
}

// What the audit of controls looks up of what was sent.
fn sent_tables(alloc: Global, log: &Log, notes: &RunNotes) -> Result<Option<SentTables>, AllocError>
    requires { AreRising notes.now.ended (length log.now.events) }
    ensures sound { IfOk result (λ found. IfSome found (λ tables. AreTables notes.now.ended log.now tables)) }
    ensures whole { IfOk result (λ found. IfSome found (λ tables. AreWholeTables notes.now.ended log.now tables)) }
    ensures complete { IfOk result (λ found. AreInEvents (length log.now.events) log.now.sent → IsSome found) }
{
    let Some(nth) = nth_of(alloc, log, notes)? else {
        return Ok(None);
    };
    let armed = armed_of(alloc, log)?;
    Ok(Some(SentTables { armed, nth }))
}

// Whether there is no other action than those of controls, and each heal and switch was answered.
fn acts_are_right(script: &Script, log: &Log, numbers: &Numbers, notes: &RunNotes) -> bool
    requires { AreNumbers log.now numbers.now }
    ensures acts { result ≡ true → AreOfControls script.now notes.now log.now }
    ensures answered { result ≡ true → AreAnswered log.now }
    ensures complete { AreNoted script.now notes.now → length log.now.events ≤ length notes.now.by_event → AreOfControls script.now notes.now log.now → AreAnswered log.now → result ≡ true }
{
    if !acts_are_answered(numbers) {
        return false;
    }
    acts_are_of_controls(script, log, notes)
}

// Whether controls were carried out as the notes say, in their moments, by what is looked up of what was sent.
fn are_carried(
    alloc: Global,
    script: &Script,
    log: &Log,
    tables: &SentTables,
    numbers: &Numbers,
    notes: &RunNotes,
) -> Result<bool, AllocError>
    requires tables { AreTables notes.now.ended log.now tables.now }
    requires numbers { AreNumbers log.now numbers.now }
    requires rise { DoAllRise numbers.now }
    ensures timely { IfOk result (λ yes. yes ≡ true → AreAllTimely script.now log.now notes.now) }
    ensures phases { IfOk result (λ yes. yes ≡ true → ArePhasesCarried script.now log.now tables.now notes.now) }
    ensures complete { IfOk result (λ yes. AreRequestsNoted script.now log.now notes.now → AreAllTimely script.now log.now notes.now → ArePhasesCarried script.now log.now tables.now notes.now → yes ≡ true) }
{
    if !are_timely(script, log, tables, numbers, notes) {
        return Ok(false);
    }
    let yes = phases_are_carried(alloc, script, log, tables, notes)?;
    Ok(yes)
}

// Whether controls were carried out as the notes say, in their moments, and there are no other actions.
fn controls_are_carried(
    alloc: Global,
    script: &Script,
    log: &Log,
    numbers: &Numbers,
    notes: &RunNotes,
) -> Result<bool, AllocError>
    requires rising { AreRising notes.now.ended (length log.now.events) }
    requires numbers { AreNumbers log.now numbers.now }
    requires rise { DoAllRise numbers.now }
    ensures sound { IfOk result (λ yes. yes ≡ true → AreCarriedOut script.now log.now notes.now) }
    ensures complete { IfOk result (λ yes. CanBeCarried script.now log.now notes.now → AreCarriedByTables script.now log.now notes.now → yes ≡ true) }
{
    if !acts_are_right(script, log, numbers, notes) {
        return Ok(false);
    }
    if !lines_are_sent_for(alloc, script, log, notes)? {
        return Ok(false);
    }
    let Some(tables) = sent_tables(alloc, log, notes)? else {
        return Ok(false);
    };
    let yes = are_carried(alloc, script, log, &tables, numbers, notes)?;
    drop(tables);
    Ok(yes)
}

// ---- the run

fn phases_end(script: &Script, log: &Log, numbers: &Numbers, notes: &RunNotes) -> bool
    requires { DoAllRise numbers.now }
    ensures { IsTrue result ↔ AreSettled script.now numbers.now notes.now.ended (length log.now.events) }
{
    let last = log.events.len() as u64;
    phases_are_settled(script, numbers, notes.ended.as_slice(), last)
}

// Whether the notes show a run of the script, where the numbers of the log's events do not fall.
fn is_shown_by(
    alloc: Global,
    script: &Script,
    log: &Log,
    numbers: &Numbers,
    notes: &RunNotes,
) -> Result<bool, AllocError>
    requires accepted { IsAccepted script.now }
    requires numbers { AreNumbers log.now numbers.now }
    requires rise { DoAllRise numbers.now }
    ensures sound { IfOk result (λ yes. yes ≡ true → RunOf script.now log.now) }
    ensures complete { IfOk result (λ yes. AreInOrder script.now log.now → AreSingle log.now.replies → CanBeCarried script.now log.now notes.now → IsShownBy script.now log.now numbers.now notes.now → yes ≡ true) }
{
    if !phases_rise(log, notes) {
        return Ok(false);
    }
    if !phases_end(script, log, numbers, notes) {
        return Ok(false);
    }
    if !calls_are_in_phases(alloc, script, log, notes)? {
        return Ok(false);
    }
    let yes = controls_are_carried(alloc, script, log, numbers, notes)?;
    Ok(yes)
}

fn is_shown(
    alloc: Global,
    script: &Script,
    log: &Log,
    heads: &[Head],
    notes: &RunNotes,
) -> Result<bool, AllocError>
    requires accepted { IsAccepted script.now }
    requires heads { heads.now ≡ heads_of log.now.events }
    ensures { IfOk result (λ yes. yes ≡ true → RunOf script.now log.now) }
{
    let numbers = numbers_of(alloc, log, heads)?;
    if !do_all_rise(&numbers) {
        drop(numbers);
        return Ok(false);
    }
    let yes = is_shown_by(alloc, script, log, &numbers, notes);
    drop(numbers);
    yes
}

// Whether the log is that of a run of the script: what `follows_script` says, but for the order of each session's lines.
pub(crate) fn is_run_of(
    alloc: Global,
    script: &Script,
    log: &Log,
    heads: &[Head],
) -> Result<bool, AllocError>
    requires accepted { IsAccepted script.now }
    requires heads { heads.now ≡ heads_of log.now.events }
    ensures { IfOk result (λ yes. yes ≡ true → RunOf script.now log.now) }
{
    let notes = notes_of(alloc, script, log)?;
    let yes = is_shown(alloc, script, log, heads, &notes);
    drop(notes);
    yes
}

/// Whether the log follows the script: sessions submit their lines in order, each phase ends with nothing else left, each control
/// was carried out once, in its moment, as an event of its own or before its request, there is no other action, and calls are
/// submitted one at a time and answered within their phases. What arrived is known by its heads. It is false, too, where a reply
/// is to no call, or lines are not in the order of their events.
///
/// # Errors
/// Out of memory.
pub fn follows_script(
    alloc: Global,
    script: &Script,
    log: &Log,
    heads: &[Head],
) -> Result<bool, AllocError>
    requires accepted { IsAccepted script.now }
    requires heads { heads.now ≡ heads_of log.now.events }
    ensures { IfOk result (λ yes. yes ≡ true → FollowsScript script.now log.now) }
{
    if !submits_are_in_order(alloc, script, log)? {
        return Ok(false);
    }
    let yes = is_run_of(alloc, script, log, heads)?;
    Ok(yes)
}
