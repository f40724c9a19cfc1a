//! Whether what a run has left is as a run promises.
ghost use Rattle.std.specs.Prelude.{◌≡◌, true, length, IfOk, IfSome};
ghost use Rattle.mount_log.specs.Scripts.{IsScript};
ghost use Rattle.mount_log.specs.Causes.{AreCaused};
ghost use Rattle.mount_log.specs.Connects.{ConnectsAreCaused};
ghost use Rattle.mount_log.specs.Follows.{FollowsScript, IsFinished};
ghost use Rattle.mount_log.specs.Ties.{AreTied};
ghost use Rattle.mount_log.specs.Winds.{WindsAreBalanced};
ghost use Rattle.script_lang.specs.Accepted.{IsAccepted};
ghost use Rattle.mount_log.specs.Heads.{heads_of};
ghost use Rattle.log_audit.specs.Honest.{ArrivedFrom, HasHonestArrivals};
ghost use Rattle.log_replay.specs.Judged.{IsOneFileSystem};
ghost use Rattle.change_audit.specs.Copied.{CopiesAreMade};
ghost use Rattle.change_audit.specs.Listed.{SkipsAreListed};
ghost use Rattle.read_audit.specs.Errors.{ErrorsAreRead};
ghost use Rattle.read_audit.specs.Names.{NamesAreRead};
ghost use Rattle.read_audit.specs.Read.{AnswersAreRead};
ghost use Rattle.run_judge.specs.Headline.{AreBricksOf, HasFiles, IsLawfulRun};
ghost use Rattle.run_judge.specs.Stopped.{IsStopped};

use brick_machine::Brick;
use change_audit::{changes_are_borne, copies_are_made, skips_are_listed};
use error_audit::io_errors_are_caused;
use fop_types::FlatOp;
use graph_build::Plan;
use line_audit::{connects_are_caused, lines_are_tied};
use log_audit::{
    arrivals_are_honest, arrivals_are_outputs, is_finished, winds_are_balanced, winds_are_once,
};
use log_replay::one_file_system;
use mount_log::Log;
use mount_log::heads::{Head, heads_of};
use read_audit::{answers_are_read, names_are_read, sets_taken_from};
use run_audit::follows_script;
use run_report::opened_in;
use script_lang::Script;
use std::alloc::{AllocError, Global};

// Whether the log follows the script, and is finished.
fn follows(alloc: Global, script: &Script, log: &Log, heads: &[Head]) -> Result<bool, AllocError>
    requires accepted { IsAccepted script.now }
    requires heads { heads.now ≡ heads_of log.now.events }
    ensures follows { IfOk result (λ yes. yes ≡ true → FollowsScript script.now log.now) }
    ensures finished { IfOk result (λ yes. yes ≡ true → IsFinished script.now log.now) }
{
    if !follows_script(alloc, script, log, heads)? {
        return Ok(false);
    }
    is_finished(alloc, script, log)
}

// Whether there is a brick for each of the script's, each with what the log says of it.
fn are_bricks(script: &Script, log: &Log, bricks: &[Brick]) -> bool
    ensures bricks { result ≡ true → AreBricksOf script.now log.now bricks.now }
    ensures arrived { result ≡ true → ArrivedFrom bricks.now log.now.events }
{
    if bricks.len() != script.bricks.len() {
        return false;
    }
    arrivals_are_outputs(log, bricks)
}

// Whether each acknowledged change, of entries with these operations, rests on names that were read, and is on a quorum of bricks.
fn has_changes(
    alloc: Global,
    script: &Script,
    plans: &[Plan],
    log: &Log,
    bricks: &[Brick],
    heads: &[Head],
    ops: &[FlatOp],
) -> Result<bool, AllocError>
    requires accepted { IsAccepted script.now }
    requires files { IsOneFileSystem script.now log.now ops.now }
    ensures { IfOk result (λ yes. yes ≡ true → HasFiles script.now plans.now log.now bricks.now) }
{
    let taken = sets_taken_from(alloc, script, plans, log, bricks, heads, ops)?;
    let Some(from) = taken else {
        return Ok(false);
    };
    let sets = from.as_slice();
    let yes = changes_are_borne(alloc, script, plans, log, bricks, ops, sets)?;
    Ok(yes)
}

// Whether the replies are those of one plain file system, and each acknowledged change rests on names that were read, and is on a
// quorum of bricks.
fn has_files(
    alloc: Global,
    script: &Script,
    plans: &[Plan],
    log: &Log,
    bricks: &[Brick],
    heads: &[Head],
) -> Result<bool, AllocError>
    requires { IsAccepted script.now }
    ensures { IfOk result (λ yes. yes ≡ true → HasFiles script.now plans.now log.now bricks.now) }
{
    match one_file_system(alloc, script, log)? {
        None => Ok(false),
        Some(ops) => has_changes(alloc, script, plans, log, bricks, heads, ops.as_slice()),
    }
}

// Whether copies were made, and skips are of cells that bricks had listed.
fn has_heals(
    alloc: Global,
    script: &Script,
    plans: &[Plan],
    log: &Log,
    bricks: &[Brick],
) -> Result<bool, AllocError>
    ensures copies { IfOk result (λ yes. yes ≡ true → CopiesAreMade script.now plans.now log.now bricks.now) }
    ensures skips { IfOk result (λ yes. yes ≡ true → SkipsAreListed log.now bricks.now) }
{
    if !copies_are_made(alloc, script, plans, log, bricks)? {
        return Ok(false);
    }
    skips_are_listed(alloc, log, bricks)
}

// Whether winds, connections and I/O errors are as they should be.
fn has_causes(
    alloc: Global,
    script: &Script,
    plans: &[Plan],
    log: &Log,
    heads: &[Head],
) -> Result<bool, AllocError>
    requires { heads.now ≡ heads_of log.now.events }
    ensures winds { IfOk result (λ yes. yes ≡ true → WindsAreBalanced log.now.winds) }
    ensures connections { IfOk result (λ yes. yes ≡ true → ConnectsAreCaused script.now plans.now log.now) }
    ensures causes { IfOk result (λ yes. yes ≡ true → AreCaused script.now plans.now log.now) }
{
    if !winds_are_balanced(alloc, log.winds.as_slice())?
        || !connects_are_caused(alloc, script, plans, log, heads)?
    {
        return Ok(false);
    }
    io_errors_are_caused(alloc, script, plans, log)
}

// Whether the lines are tied to the events, and winds, connections and I/O errors are as they should be.
fn is_sound(
    alloc: Global,
    script: &Script,
    plans: &[Plan],
    log: &Log,
    heads: &[Head],
) -> Result<bool, AllocError>
    requires accepted { IsAccepted script.now }
    requires heads { heads.now ≡ heads_of log.now.events }
    ensures ties { IfOk result (λ yes. yes ≡ true → AreTied log.now) }
    ensures winds { IfOk result (λ yes. yes ≡ true → WindsAreBalanced log.now.winds) }
    ensures connections { IfOk result (λ yes. yes ≡ true → ConnectsAreCaused script.now plans.now log.now) }
    ensures causes { IfOk result (λ yes. yes ≡ true → AreCaused script.now plans.now log.now) }
{
    if !lines_are_tied(alloc, script, log, heads)? {
        return Ok(false);
    }
    has_causes(alloc, script, plans, log, heads)
}

// Whether what answers show was read from bricks, and so were the names that calls which were answered well have looked up, and what
// errors rest on.
fn are_read(
    alloc: Global,
    script: &Script,
    plans: &[Plan],
    log: &Log,
    bricks: &[Brick],
    heads: &[Head],
) -> Result<bool, AllocError>
    requires { IsAccepted script.now }
    ensures reads { IfOk result (λ yes. yes ≡ true → AnswersAreRead script.now plans.now log.now bricks.now) }
    ensures names { IfOk result (λ yes. yes ≡ true → NamesAreRead script.now plans.now log.now bricks.now) }
    ensures errors { IfOk result (λ yes. yes ≡ true → ErrorsAreRead script.now plans.now log.now bricks.now) }
{
    if !answers_are_read(alloc, script, plans, log, bricks, heads)? {
        return Ok(false);
    }
    let yes = names_are_read(alloc, script, plans, log, bricks, heads)?;
    Ok(yes)
}

// Whether what arrived from the bricks is what they make of what was sent; and whether what answers show, names, and what errors
// rest on were read from them.
fn is_from_bricks(
    alloc: Global,
    script: &Script,
    plans: &[Plan],
    log: &Log,
    bricks: &[Brick],
    heads: &[Head],
) -> Result<bool, AllocError>
    requires accepted { IsAccepted script.now }
    requires heads { heads.now ≡ heads_of log.now.events }
    requires bricks { AreBricksOf script.now log.now bricks.now }
    requires arrived { ArrivedFrom bricks.now log.now.events }
    ensures honest { IfOk result (λ yes. yes ≡ true → HasHonestArrivals log.now) }
    ensures reads { IfOk result (λ yes. yes ≡ true → AnswersAreRead script.now plans.now log.now bricks.now) }
    ensures names { IfOk result (λ yes. yes ≡ true → NamesAreRead script.now plans.now log.now bricks.now) }
    ensures errors { IfOk result (λ yes. yes ≡ true → ErrorsAreRead script.now plans.now log.now bricks.now) }
{
    if !arrivals_are_honest(log, heads, bricks) {
        return Ok(false);
    }
    are_read(alloc, script, plans, log, bricks, heads)
}

// Whether all but the files and the heals is as a run promises.
fn has_course(
    alloc: Global,
    script: &Script,
    plans: &[Plan],
    log: &Log,
    bricks: &[Brick],
    heads: &[Head],
) -> Result<bool, AllocError>
    requires accepted { IsAccepted script.now }
    requires heads { heads.now ≡ heads_of log.now.events }
    requires bricks { AreBricksOf script.now log.now bricks.now }
    requires arrived { ArrivedFrom bricks.now log.now.events }
    ensures follows { IfOk result (λ yes. yes ≡ true → FollowsScript script.now log.now) }
    ensures finished { IfOk result (λ yes. yes ≡ true → IsFinished script.now log.now) }
    ensures honest { IfOk result (λ yes. yes ≡ true → HasHonestArrivals log.now) }
    ensures reads { IfOk result (λ yes. yes ≡ true → AnswersAreRead script.now plans.now log.now bricks.now) }
    ensures names { IfOk result (λ yes. yes ≡ true → NamesAreRead script.now plans.now log.now bricks.now) }
    ensures errors { IfOk result (λ yes. yes ≡ true → ErrorsAreRead script.now plans.now log.now bricks.now) }
    ensures ties { IfOk result (λ yes. yes ≡ true → AreTied log.now) }
    ensures winds { IfOk result (λ yes. yes ≡ true → WindsAreBalanced log.now.winds) }
    ensures connections { IfOk result (λ yes. yes ≡ true → ConnectsAreCaused script.now plans.now log.now) }
    ensures causes { IfOk result (λ yes. yes ≡ true → AreCaused script.now plans.now log.now) }
{
    if !follows(alloc, script, log, heads)? {
        return Ok(false);
    }
    if !is_from_bricks(alloc, script, plans, log, bricks, heads)? {
        return Ok(false);
    }
    let yes = is_sound(alloc, script, plans, log, heads)?;
    Ok(yes)
}

/// Whether the log of a run, with its bricks, is as a run promises: sessions submit their lines in order, each control is carried
/// out, each call has its reply, what arrived is what the bricks make of what was sent, what reads, stats, getattrs and lists show
/// was read from bricks, and so were the names that calls which were answered well have looked up, and what errors rest on,
/// replies, winds and requests are of their calls, events and graphs, connections and I/O errors have their causes, the winds are
/// balanced, copies were made, skips were listed, the replies are those of one plain file system, and each acknowledged change
/// works on what its call's path leads to, takes a name from the set on which the call had read it, and is on a quorum of bricks.
/// How each output begins that arrived is read once for all of it.
///
/// # Errors
/// Out of memory.
pub fn is_lawful(
    alloc: Global,
    script: &Script,
    plans: &[Plan],
    log: &Log,
    bricks: &[Brick],
) -> Result<bool, AllocError>
    requires { IsScript script.now plans.now }
    ensures { IfOk result (λ yes. yes ≡ true → IsLawfulRun script.now plans.now log.now bricks.now) }
{
    if !are_bricks(script, log, bricks) {
        return Ok(false);
    }
    let heads = heads_of(alloc, log.events.as_slice())?;
    if !has_course(alloc, script, plans, log, bricks, heads.as_slice())? {
        return Ok(false);
    }
    if !has_heals(alloc, script, plans, log, bricks)? {
        return Ok(false);
    }
    let yes = has_files(alloc, script, plans, log, bricks, heads.as_slice())?;
    Ok(yes)
}

/// Whether a log bears out that its run needed a further wind where none was left.
///
/// # Errors
/// Out of memory.
pub fn has_stopped(
    alloc: Global,
    script: &Script,
    log: &Log,
    bricks: &[Brick],
) -> Result<bool, AllocError>
    ensures { IfOk result (λ yes. yes ≡ true → IsStopped script.now log.now bricks.now) }
{
    let winds = log.winds.as_slice();
    if opened_in(winds) != 4294967295 || !winds_are_once(alloc, winds)? {
        return Ok(false);
    }
    if !are_bricks(script, log, bricks) {
        return Ok(false);
    }
    let heads = heads_of(alloc, log.events.as_slice())?;
    Ok(arrivals_are_honest(log, heads.as_slice(), bricks))
}
