ghost use Rattle.wire_xdr.specs.code.Parsers.{Gives, chain, between_at};
ghost use Rattle.wire_xdr.specs.code.MessageParsers.{done_arm_at, done_at, rep_arm_at, rep_at, out_arm_at, output_at};

use crate::decode::cells::cells;
use crate::decode::contents::content;
use crate::decode::faults::Fault;
use crate::decode::rows::rows;
use crate::decode::units::{hyper, unit, unit_between};
use crate::limits::MAX_INDEX;
use fop_types::{BrickRep, DoneArm, OutKind, Output};
use std::alloc::Global;

/// What comes with a Done, by its number.
fn done_arm(alloc: Global, bytes: &[u8], number: u32) -> Result<(DoneArm, &[u8]), Fault>
    ensures { Gives (λ x. (x.0, x.1.now)) result (done_arm_at number bytes.now) }
{
    match number {
        0 => Ok((DoneArm::Nothing, bytes)),
        1 => {
            let (rows, rest) = rows(alloc, bytes)?;
            Ok((DoneArm::Rows(rows), rest))
        }
        2 => {
            let (content, rest) = content(alloc, bytes, 0, 2)?;
            let (last, rest) = hyper(rest)?;
            Ok((DoneArm::Content(content, last), rest))
        }
        _ => {
            let (cells, rest) = cells(alloc, bytes, 0, MAX_INDEX)?;
            Ok((DoneArm::Cells(cells), rest))
        }
    }
}

fn done(alloc: Global, bytes: &[u8]) -> Result<(DoneArm, &[u8]), Fault>
    ensures { Gives (λ x. (x.0, x.1.now)) result (done_at bytes.now) }
{
    let (number, rest) = unit_between(bytes, 0, 3)?;
    let (arm, rest) = done_arm(alloc, rest, number)?;
    Ok((arm, rest))
}

/// A reply by its status.
fn rep_arm(alloc: Global, bytes: &[u8], status: u32) -> Result<(BrickRep, &[u8]), Fault>
    ensures { Gives (λ x. (x.0, x.1.now)) result (rep_arm_at status bytes.now) }
{
    match status {
        0 => {
            let (arm, rest) = done(alloc, bytes)?;
            Ok((BrickRep::Done(arm), rest))
        }
        1 => Ok((BrickRep::Gone, bytes)),
        2 => Ok((BrickRep::Fault, bytes)),
        3 => Ok((BrickRep::Unfit, bytes)),
        _ => Ok((BrickRep::BadFd, bytes)),
    }
}

fn rep(alloc: Global, bytes: &[u8]) -> Result<(BrickRep, &[u8]), Fault>
    ensures { Gives (λ x. (x.0, x.1.now)) result (rep_at bytes.now) }
{
    let (status, rest) = unit_between(bytes, 0, 4)?;
    let (rep, rest) = rep_arm(alloc, rest, status)?;
    Ok((rep, rest))
}

/// The fields of an output by its kind.
fn out_arm(alloc: Global, bytes: &[u8], kind: u32) -> Result<(OutKind, &[u8]), Fault>
    ensures { Gives (λ x. (x.0, x.1.now)) result (out_arm_at kind bytes.now) }
{
    match kind {
        0 => {
            let (wind, rest) = hyper(bytes)?;
            let (rep, rest) = rep(alloc, rest)?;
            Ok((OutKind::Reply { wind, rep }, rest))
        }
        1 => Ok((OutKind::Closed, bytes)),
        2 => Ok((OutKind::Opened, bytes)),
        3 => {
            let (graph, rest) = unit(bytes)?;
            let (version, rest) = unit(rest)?;
            Ok((OutKind::Connected { graph, version }, rest))
        }
        _ => {
            let (place, rest) = unit(bytes)?;
            Ok((OutKind::Malformed { place }, rest))
        }
    }
}

fn out_kind(alloc: Global, bytes: &[u8]) -> Result<(OutKind, &[u8]), Fault>
    ensures { Gives (λ x. (x.0, x.1.now)) result (chain (between_at 0 4) out_arm_at bytes.now) }
{
    let (kind, rest) = unit_between(bytes, 0, 4)?;
    let (kind, rest) = out_arm(alloc, rest, kind)?;
    Ok((kind, rest))
}

/// An output of a brick.
///
/// # Errors
/// A fault of the bytes, or out of memory.
pub fn output(alloc: Global, bytes: &[u8]) -> Result<(Output, &[u8]), Fault>
    ensures { Gives (λ x. (x.0, x.1.now)) result (output_at bytes.now) }
{
    let (taken, rest) = hyper(bytes)?;
    let (kind, rest) = out_kind(alloc, rest)?;
    Ok((Output { taken, kind }, rest))
}
