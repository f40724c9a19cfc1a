//! Whether a trace is lawful.
ghost use Rattle.std.specs.Prelude.{◌≡◌, ◌≤◌, true, length, IfOk, IfSome};
ghost use Rattle.history_replay.specs.Traces.{IsLawfulWith, IsLawfulTrace};

use crate::finding::{Walked, find};
use crate::findings::Findings;
use crate::indices::are_indexed;
use crate::progress::claims_of;
use crate::steps::hold;
use crate::trace::Trace;
use fop_types::{FlatOp, Seq};
use std::alloc::{AllocError, Global};

// The operations with which a trace is lawful as far as the replies to its first `count` calls, by what is said to have been
// found; `None` where it is not.
fn borne_by(
    alloc: Global,
    trace: &Trace,
    f: &Findings,
    count: usize,
) -> Result<Option<Seq<FlatOp>>, AllocError>
    ensures { IfOk result (λ o. IfSome o (λ ops. length trace.now.calls ≤ count → IsLawfulWith trace.now ops)) }
{
    if !are_indexed(trace, f) {
        return Ok(None);
    }
    match claims_of(alloc, trace, f, count)? {
        None => Ok(None),
        Some(claims) => {
            let ops = hold(alloc, trace.replies, trace.history.len(), claims)?;
            Ok(ops)
        }
    }
}

/// Whether a trace is lawful as far as the replies to its first `count` calls, by what is said to have been found.
///
/// # Errors
/// Out of memory.
pub(crate) fn is_borne(
    alloc: Global,
    trace: &Trace,
    f: &Findings,
    count: usize,
) -> Result<bool, AllocError>
    ensures { IfOk result (λ lawful. lawful ≡ true → length trace.now.calls ≤ count → IsLawfulTrace trace.now) }
{
    match borne_by(alloc, trace, f, count)? {
        None => Ok(false),
        Some(_) => Ok(true),
    }
}

fn ops_by(
    alloc: Global,
    trace: &Trace,
    found: &Result<Walked, u32>,
) -> Result<Option<Seq<FlatOp>>, AllocError>
    ensures { IfOk result (λ o. IfSome o (λ ops. IsLawfulWith trace.now ops)) }
{
    match found {
        Err(_) => Ok(None),
        Ok(walked) => borne_by(alloc, trace, &walked.findings, trace.calls.len()),
    }
}

/// The operations of a trace's entries, where its replies are those of one plain file system at their places after these
/// changes; `None` where they are not. It takes time of n log n for n calls, lookups and entries, and of the bytes that are
/// read and written.
///
/// # Errors
/// Out of memory.
pub fn lawful_ops(alloc: Global, trace: &Trace) -> Result<Option<Seq<FlatOp>>, AllocError>
    ensures { IfOk result (λ o. IfSome o (λ ops. IsLawfulWith trace.now ops)) }
{
    let found = find(alloc, trace)?;
    let ops = ops_by(alloc, trace, &found);
    drop(found);
    ops
}
