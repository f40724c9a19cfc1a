ghost use Rattle.std.specs.Prelude.{◌≡◌};
ghost use Rattle.wire_xdr.specs.code.Parsers.{Gives, one, two, three, between_at, hyper_at, unit_at, flag_at};
ghost use Rattle.wire_xdr.specs.code.PartParsers.{gfid_at, cell_at, content_at};
ghost use Rattle.wire_xdr.specs.code.MessageParsers.{few_at, mask_at, open_fd_at, op_at, req_arm_at, req_at, proc_of, proc_at, input_arm_at, input_at};
ghost use Rattle.fop_types.specs.Rank.{rank};
ghost use Rattle.fop_types.specs.declared.messages.BrickReq.TheVariants as req_case;
ghost use Rattle.fop_types.specs.declared.messages.Input.TheVariants as input_case;
ghost use Rattle.wire_xdr.specs.Limits.{max_unit};

use crate::decode::cells::{cell, cells, gfid};
use crate::decode::contents::content;
use crate::decode::faults::Fault;
use crate::decode::ops::op;
use crate::decode::units::{flag, hyper, procedure, unit, unit_between};
use crate::limits::{MAX_CELLS, MAX_MASK, MAX_UNIT};
use fop_types::{BrickReq, Cell, Input, Mask, Proc, Seq};
use std::alloc::Global;

/// One to four cells, which rise.
fn few(alloc: Global, bytes: &[u8]) -> Result<(Seq<Cell>, &[u8]), Fault>
    ensures { Gives (λ x. (x.0, x.1.now)) result (few_at bytes.now) }
{
    let (cells, rest) = cells(alloc, bytes, 1, MAX_CELLS)?;
    Ok((cells, rest))
}

fn mask(bytes: &[u8]) -> Result<(Mask, &[u8]), Fault>
    ensures { Gives (λ x. (x.0, x.1.now)) result (mask_at bytes.now) }
{
    let (bits, rest) = unit_between(bytes, 0, MAX_MASK)?;
    Ok((Mask(bits as u8), rest))
}

fn lock(alloc: Global, bytes: &[u8]) -> Result<(BrickReq, &[u8]), Fault>
    ensures { Gives (λ x. (x.0, x.1.now)) result (three req_case.Lock unit_at (λ call. flag_at) (λ call shared. few_at) bytes.now) }
{
    let (call, rest) = unit(bytes)?;
    let (shared, rest) = flag(rest)?;
    let (cells, rest) = few(alloc, rest)?;
    Ok((
        BrickReq::Lock {
            call,
            shared,
            cells,
        },
        rest,
    ))
}

fn unlock(bytes: &[u8]) -> Result<(BrickReq, &[u8]), Fault>
    ensures { Gives (λ x. (x.0, x.1.now)) result (one req_case.Unlock unit_at bytes.now) }
{
    let (call, rest) = unit(bytes)?;
    Ok((BrickReq::Unlock { call }, rest))
}

fn mark(alloc: Global, bytes: &[u8]) -> Result<(BrickReq, &[u8]), Fault>
    ensures { Gives (λ x. (x.0, x.1.now)) result (two req_case.Mark hyper_at (λ change. few_at) bytes.now) }
{
    let (change, rest) = hyper(bytes)?;
    let (cells, rest) = few(alloc, rest)?;
    Ok((BrickReq::Mark { change, cells }, rest))
}

fn op_req(alloc: Global, bytes: &[u8]) -> Result<(BrickReq, &[u8]), Fault>
    ensures { Gives (λ x. (x.0, x.1.now)) result (three req_case.Op hyper_at (λ change. unit_at) (λ change fd. op_at) bytes.now) }
{
    let (change, rest) = hyper(bytes)?;
    let (fd, rest) = unit(rest)?;
    let (op, rest) = op(alloc, rest)?;
    Ok((BrickReq::Op { change, fd, op }, rest))
}

fn post(alloc: Global, bytes: &[u8]) -> Result<(BrickReq, &[u8]), Fault>
    ensures { Gives (λ x. (x.0, x.1.now)) result (three req_case.Post hyper_at (λ change. few_at) (λ change cells. mask_at) bytes.now) }
{
    let (change, rest) = hyper(bytes)?;
    let (cells, rest) = few(alloc, rest)?;
    let (mask, rest) = mask(rest)?;
    Ok((
        BrickReq::Post {
            change,
            cells,
            mask,
        },
        rest,
    ))
}

fn fetch(bytes: &[u8]) -> Result<(BrickReq, &[u8]), Fault>
    ensures { Gives (λ x. (x.0, x.1.now)) result (two req_case.Fetch unit_at (λ fd. cell_at) bytes.now) }
{
    let (fd, rest) = unit(bytes)?;
    let (cell, rest) = cell(rest)?;
    Ok((BrickReq::Fetch { fd, cell }, rest))
}

fn replace(alloc: Global, bytes: &[u8]) -> Result<(BrickReq, &[u8]), Fault>
    ensures { Gives (λ x. (x.0, x.1.now)) result (three req_case.Replace cell_at (λ cell. hyper_at) (λ cell last. content_at (rank cell.aspect) (rank cell.aspect)) bytes.now) }
{
    let (cell, rest) = cell(bytes)?;
    let (last, rest) = hyper(rest)?;
    let kind = cell.aspect.rank() as u32;
    let (content, rest) = content(alloc, rest, kind, kind)?;
    Ok((
        BrickReq::Replace {
            cell,
            last,
            content,
        },
        rest,
    ))
}

fn clear(alloc: Global, bytes: &[u8]) -> Result<(BrickReq, &[u8]), Fault>
    ensures { Gives (λ x. (x.0, x.1.now)) result (two req_case.Clear few_at (λ cells. mask_at) bytes.now) }
{
    let (cells, rest) = few(alloc, bytes)?;
    let (mask, rest) = mask(rest)?;
    Ok((BrickReq::Clear { cells, mask }, rest))
}

fn settle(alloc: Global, bytes: &[u8]) -> Result<(BrickReq, &[u8]), Fault>
    ensures { Gives (λ x. (x.0, x.1.now)) result (two req_case.Settle few_at (λ cells. mask_at) bytes.now) }
{
    let (cells, rest) = few(alloc, bytes)?;
    let (mask, rest) = mask(rest)?;
    Ok((BrickReq::Settle { cells, mask }, rest))
}

/// The number of an open descriptor, which is not 0.
fn open_fd(bytes: &[u8]) -> Result<(u32, &[u8]), Fault>
    ensures { Gives (λ x. (x.0, x.1.now)) result (open_fd_at bytes.now) }
{
    unit_between(bytes, 1, MAX_UNIT)
}

fn open(bytes: &[u8]) -> Result<(BrickReq, &[u8]), Fault>
    ensures { Gives (λ x. (x.0, x.1.now)) result (two req_case.Open open_fd_at (λ fd. gfid_at) bytes.now) }
{
    let (fd, rest) = open_fd(bytes)?;
    let (gfid, rest) = gfid(rest)?;
    Ok((BrickReq::Open { fd, gfid }, rest))
}

fn release(bytes: &[u8]) -> Result<(BrickReq, &[u8]), Fault>
    ensures { Gives (λ x. (x.0, x.1.now)) result (one req_case.Release open_fd_at bytes.now) }
{
    let (fd, rest) = open_fd(bytes)?;
    Ok((BrickReq::Release { fd }, rest))
}

/// The fields of a request by the number of its procedure.
fn req_arm(alloc: Global, bytes: &[u8], procedure: u32) -> Result<(BrickReq, &[u8]), Fault>
    ensures { Gives (λ x. (x.0, x.1.now)) result (req_arm_at procedure bytes.now) }
{
    match procedure {
        1 => lock(alloc, bytes),
        2 => unlock(bytes),
        3 => mark(alloc, bytes),
        4 => op_req(alloc, bytes),
        5 => post(alloc, bytes),
        6 => fetch(bytes),
        7 => replace(alloc, bytes),
        8 => clear(alloc, bytes),
        9 => settle(alloc, bytes),
        10 => Ok((BrickReq::Index, bytes)),
        11 => open(bytes),
        _ => release(bytes),
    }
}

fn req(alloc: Global, bytes: &[u8]) -> Result<(BrickReq, &[u8]), Fault>
    ensures { Gives (λ x. (x.0, x.1.now)) result (req_at bytes.now) }
{
    let (procedure, rest) = unit_between(bytes, 1, 12)?;
    let (req, rest) = req_arm(alloc, rest, procedure)?;
    Ok((req, rest))
}

fn proc_of(number: u32) -> Proc
    ensures { result ≡ proc_of number }
{
    match number {
        1 => Proc::Lock,
        3 => Proc::Mark,
        4 => Proc::Op,
        5 => Proc::Post,
        6 => Proc::Fetch,
        7 => Proc::Replace,
        8 => Proc::Clear,
        9 => Proc::Settle,
        10 => Proc::Index,
        11 => Proc::Open,
        _ => Proc::Release,
    }
}

/// A procedure that may be made to fail: any but unlock.
fn proc(bytes: &[u8]) -> Result<(Proc, &[u8]), Fault>
    ensures { Gives (λ x. (x.0, x.1.now)) result (proc_at bytes.now) }
{
    let (number, rest) = procedure(bytes)?;
    let proc = proc_of(number);
    Ok((proc, rest))
}

fn request(alloc: Global, bytes: &[u8]) -> Result<(Input, &[u8]), Fault>
    ensures { Gives (λ x. (x.0, x.1.now)) result (three input_case.Request hyper_at (λ wind. unit_at) (λ wind graph. req_at) bytes.now) }
{
    let (wind, rest) = hyper(bytes)?;
    let (graph, rest) = unit(rest)?;
    let (req, rest) = req(alloc, rest)?;
    Ok((Input::Request { wind, graph, req }, rest))
}

fn down(bytes: &[u8]) -> Result<(Input, &[u8]), Fault>
    ensures { Gives (λ x. (x.0, x.1.now)) result (one input_case.Down unit_at bytes.now) }
{
    let (serve, rest) = unit(bytes)?;
    Ok((Input::Down { serve }, rest))
}

fn connect(bytes: &[u8]) -> Result<(Input, &[u8]), Fault>
    ensures { Gives (λ x. (x.0, x.1.now)) result (two input_case.Connect unit_at (λ graph. between_at 1 1) bytes.now) }
{
    let (graph, rest) = unit(bytes)?;
    let (version, rest) = unit_between(rest, 1, 1)?;
    Ok((Input::Connect { graph, version }, rest))
}

fn disconnect(bytes: &[u8]) -> Result<(Input, &[u8]), Fault>
    ensures { Gives (λ x. (x.0, x.1.now)) result (one input_case.Disconnect unit_at bytes.now) }
{
    let (graph, rest) = unit(bytes)?;
    Ok((Input::Disconnect { graph }, rest))
}

fn fault_at(bytes: &[u8]) -> Result<(Input, &[u8]), Fault>
    ensures { Gives (λ x. (x.0, x.1.now)) result (two input_case.FaultAt proc_at (λ proc. between_at 1 max_unit) bytes.now) }
{
    let (proc, rest) = proc(bytes)?;
    let (number, rest) = unit_between(rest, 1, MAX_UNIT)?;
    Ok((Input::FaultAt { proc, number }, rest))
}

/// The fields of an input by its kind.
fn input_arm(alloc: Global, bytes: &[u8], kind: u32) -> Result<(Input, &[u8]), Fault>
    ensures { Gives (λ x. (x.0, x.1.now)) result (input_arm_at kind bytes.now) }
{
    match kind {
        0 => request(alloc, bytes),
        1 => down(bytes),
        2 => Ok((Input::Up, bytes)),
        3 => connect(bytes),
        4 => disconnect(bytes),
        _ => fault_at(bytes),
    }
}

/// An input of a brick.
///
/// # Errors
/// A fault of the bytes, or out of memory.
pub fn input(alloc: Global, bytes: &[u8]) -> Result<(Input, &[u8]), Fault>
    ensures { Gives (λ x. (x.0, x.1.now)) result (input_at bytes.now) }
{
    let (kind, rest) = unit_between(bytes, 0, 5)?;
    let (input, rest) = input_arm(alloc, rest, kind)?;
    Ok((input, rest))
}
