//! The operations with which the replies of a log are those of one plain file system.
ghost use Rattle.std.specs.Prelude.{IfOk, IfSome};
ghost use Rattle.script_lang.specs.Accepted.{IsAccepted};
ghost use Rattle.history_replay.specs.Traces.{IsLawfulWith};
ghost use Rattle.log_replay.specs.Judged.{IsOneFileSystem};
ghost use Rattle.log_replay.specs.Lengths.{trace_of, HasLengths};
ghost use Rattle.log_replay.specs.Events.{AreRising};

use crate::lengths::{are_rising, lengths_at};
use crate::replies::{replies_in, reply_events};
use fop_types::{FlatOp, Seq};
use history_replay::{Trace, lawful_ops};
use log_calls::calls_in;
use mount_log::Log;
use script_lang::Script;
use std::alloc::{AllocError, Global};
use submitted_calls::Submitted;

// The lengths of the history at the submission and at the reply of each call.
#[derive(Drop)]
struct Lengths {
    since: Vec<u32>,
    until: Vec<u32>,
}

// The lengths for so many calls, which these events submit; `None` where one fits no number.
fn lengths_of(
    alloc: Global,
    log: &Log,
    events: &[u64],
    count: usize,
) -> Result<Option<Lengths>, AllocError>
    requires { AreRising log.now.entered }
    ensures { IfOk result (λ o. IfSome o (λ l. HasLengths log.now events.now count l.since.items l.until.items)) }
{
    let entered = log.entered.as_slice();
    let answered = reply_events(alloc, count, log.replies.as_slice())?;
    let Some(since) = lengths_at(alloc, events, 0, entered)? else {
        return Ok(None);
    };
    let Some(until) = lengths_at(alloc, answered.as_slice(), 1, entered)? else {
        return Ok(None);
    };
    Ok(Some(Lengths { since, until }))
}

// The operations with which the replies to calls are those of one plain file system, with these lengths.
fn ops_of<'a>(
    alloc: Global,
    log: &'a Log,
    calls: &'a [Submitted<'a>],
    since: &'a [u32],
    until: &'a [u32],
) -> Result<Option<Seq<FlatOp>>, AllocError>
    ensures { IfOk result (λ o. IfSome o (λ ops. IsLawfulWith (trace_of log.now calls.now since.now until.now) ops)) }
{
    let replies = replies_in(alloc, log.replies.as_slice())?;
    let ops = lawful_ops(
        alloc,
        &Trace {
            calls,
            replies: replies.as_slice(),
            history: log.history.as_slice(),
            submitted: since,
            since,
            until,
        },
    )?;
    Ok(ops)
}

/// The operations of a log's entries, where the replies of its script are those of one plain file system at their places, after
/// these changes; `None` where they are not. It takes time of n log n for n calls, events, lookups and entries, and of the
/// bytes that are read and written.
///
/// # Errors
/// Out of memory.
#[tactic(auto, using(crate::proofs::Judged::one_if))]
pub fn one_file_system(
    alloc: Global,
    script: &Script,
    log: &Log,
) -> Result<Option<Seq<FlatOp>>, AllocError>
    requires { IsAccepted script.now }
    ensures { IfOk result (λ o. IfSome o (λ ops. IsOneFileSystem script.now log.now ops)) }
{
    if log.entered.len() != log.history.len() {
        return Ok(None);
    }
    if !are_rising(log.entered.as_slice()) {
        return Ok(None);
    }
    let Some(calls) = calls_in(alloc, script, log.events.as_slice())? else {
        return Ok(None);
    };
    let Some(lengths) = lengths_of(alloc, log, calls.events.as_slice(), calls.calls.len())? else {
        return Ok(None);
    };
    let ops = ops_of(
        alloc,
        log,
        calls.calls.as_slice(),
        lengths.since.as_slice(),
        lengths.until.as_slice(),
    )?;
    Ok(ops)
}
