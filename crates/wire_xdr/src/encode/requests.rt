ghost use Rattle.std.specs.Prelude.{◌≡◌, ◌++◌, OnOk};
ghost use Rattle.wire_xdr.specs.Xdr.{unit, hyper, flag, list};
ghost use Rattle.wire_xdr.specs.PartText.{gfid_text, cell_text, content_text};
ghost use Rattle.wire_xdr.specs.MessageText.{op_text, mask_text, req_text};
ghost use Rattle.wire_xdr.specs.WireText.{proc_number, input_text};

use crate::encode::ops::put_op;
use crate::encode::parts::{
    put_cell, put_cells, put_content, put_flag, put_gfid, put_hyper, put_unit, put_units,
};
use fop_types::{BrickReq, Cell, Content, Gfid, Input, Mask, Proc, StoreOp};
use std::alloc::AllocError;

/// Puts the number of a procedure and a change.
fn put_change(out: &mut Vec<u8>, number: u32, change: u64) -> Result<(), AllocError>
    ensures { OnOk result (out.new.items ≡ out.old.items ++ (unit number ++ hyper change)) }
{
    put_unit(out, number)?;
    put_hyper(out, change)?;
    Ok(())
}

/// Puts a list of cells and a mask.
fn put_masked(out: &mut Vec<u8>, cells: &[Cell], mask: Mask) -> Result<(), AllocError>
    ensures { OnOk result (out.new.items ≡ out.old.items ++ (list cell_text cells.now ++ mask_text mask)) }
{
    put_cells(out, cells)?;
    put_unit(out, mask.0 as u32)?;
    Ok(())
}

fn put_lock(out: &mut Vec<u8>, call: u32, shared: bool, cells: &[Cell]) -> Result<(), AllocError>
    ensures { OnOk result (out.new.items ≡ out.old.items ++ (unit 1 ++ (unit call ++ (flag shared ++ list cell_text cells.now)))) }
{
    put_units(out, 1, call)?;
    put_flag(out, shared)?;
    put_cells(out, cells)?;
    Ok(())
}

fn put_mark(out: &mut Vec<u8>, change: u64, cells: &[Cell]) -> Result<(), AllocError>
    ensures { OnOk result (out.new.items ≡ out.old.items ++ (unit 3 ++ (hyper change ++ list cell_text cells.now))) }
{
    put_change(out, 3, change)?;
    put_cells(out, cells)?;
    Ok(())
}

fn put_op_req(out: &mut Vec<u8>, change: u64, fd: u32, op: &StoreOp) -> Result<(), AllocError>
    ensures { OnOk result (out.new.items ≡ out.old.items ++ (unit 4 ++ (hyper change ++ (unit fd ++ op_text op.now)))) }
{
    put_change(out, 4, change)?;
    put_unit(out, fd)?;
    put_op(out, op)?;
    Ok(())
}

fn put_post(out: &mut Vec<u8>, change: u64, cells: &[Cell], mask: Mask) -> Result<(), AllocError>
    ensures { OnOk result (out.new.items ≡ out.old.items ++ (unit 5 ++ (hyper change ++ (list cell_text cells.now ++ mask_text mask)))) }
{
    put_change(out, 5, change)?;
    put_masked(out, cells, mask)?;
    Ok(())
}

fn put_fetch(out: &mut Vec<u8>, fd: u32, cell: Cell) -> Result<(), AllocError>
    ensures { OnOk result (out.new.items ≡ out.old.items ++ (unit 6 ++ (unit fd ++ cell_text cell))) }
{
    put_units(out, 6, fd)?;
    put_cell(out, cell)?;
    Ok(())
}

fn put_replace(
    out: &mut Vec<u8>,
    cell: Cell,
    last: u64,
    content: &Content,
) -> Result<(), AllocError>
    ensures { OnOk result (out.new.items ≡ out.old.items ++ (unit 7 ++ (cell_text cell ++ (hyper last ++ content_text content.now)))) }
{
    put_unit(out, 7)?;
    put_cell(out, cell)?;
    put_hyper(out, last)?;
    put_content(out, content)?;
    Ok(())
}

/// Puts a clear or a settle after the number of its procedure.
fn put_counted(out: &mut Vec<u8>, number: u32, cells: &[Cell], mask: Mask) -> Result<(), AllocError>
    ensures { OnOk result (out.new.items ≡ out.old.items ++ (unit number ++ (list cell_text cells.now ++ mask_text mask))) }
{
    put_unit(out, number)?;
    put_masked(out, cells, mask)?;
    Ok(())
}

fn put_open(out: &mut Vec<u8>, fd: u32, gfid: Gfid) -> Result<(), AllocError>
    ensures { OnOk result (out.new.items ≡ out.old.items ++ (unit 11 ++ (unit fd ++ gfid_text gfid))) }
{
    put_units(out, 11, fd)?;
    put_gfid(out, gfid)?;
    Ok(())
}

/// Puts a request after the number of its procedure.
fn put_req(out: &mut Vec<u8>, req: &BrickReq) -> Result<(), AllocError>
    ensures { OnOk result (out.new.items ≡ out.old.items ++ req_text req.now) }
{
    match req {
        BrickReq::Lock {
            call,
            shared,
            cells,
        } => put_lock(out, *call, *shared, cells.as_slice()),
        BrickReq::Unlock { call } => put_units(out, 2, *call),
        BrickReq::Mark { change, cells } => put_mark(out, *change, cells.as_slice()),
        BrickReq::Op { change, fd, op } => put_op_req(out, *change, *fd, op),
        BrickReq::Post {
            change,
            cells,
            mask,
        } => put_post(out, *change, cells.as_slice(), *mask),
        BrickReq::Fetch { fd, cell } => put_fetch(out, *fd, *cell),
        BrickReq::Replace {
            cell,
            last,
            content,
        } => put_replace(out, *cell, *last, content),
        BrickReq::Clear { cells, mask } => put_counted(out, 8, cells.as_slice(), *mask),
        BrickReq::Settle { cells, mask } => put_counted(out, 9, cells.as_slice(), *mask),
        BrickReq::Index => put_unit(out, 10),
        BrickReq::Open { fd, gfid } => put_open(out, *fd, *gfid),
        BrickReq::Release { fd } => put_units(out, 12, *fd),
    }
}

fn proc_number(proc: Proc) -> u32
    ensures { result ≡ proc_number proc }
{
    match proc {
        Proc::Lock => 1,
        Proc::Unlock => 2,
        Proc::Mark => 3,
        Proc::Op => 4,
        Proc::Post => 5,
        Proc::Fetch => 6,
        Proc::Replace => 7,
        Proc::Clear => 8,
        Proc::Settle => 9,
        Proc::Index => 10,
        Proc::Open => 11,
        Proc::Release => 12,
    }
}

fn put_request(out: &mut Vec<u8>, wind: u64, graph: u32, req: &BrickReq) -> Result<(), AllocError>
    ensures { OnOk result (out.new.items ≡ out.old.items ++ (unit 0 ++ (hyper wind ++ (unit graph ++ req_text req.now)))) }
{
    put_unit(out, 0)?;
    put_hyper(out, wind)?;
    put_unit(out, graph)?;
    put_req(out, req)?;
    Ok(())
}

fn put_connect(out: &mut Vec<u8>, graph: u32, version: u32) -> Result<(), AllocError>
    ensures { OnOk result (out.new.items ≡ out.old.items ++ (unit 3 ++ (unit graph ++ unit version))) }
{
    put_units(out, 3, graph)?;
    put_unit(out, version)?;
    Ok(())
}

fn put_fault_at(out: &mut Vec<u8>, proc: Proc, number: u32) -> Result<(), AllocError>
    ensures { OnOk result (out.new.items ≡ out.old.items ++ (unit 5 ++ (unit (proc_number proc) ++ unit number))) }
{
    put_units(out, 5, proc_number(proc))?;
    put_unit(out, number)?;
    Ok(())
}

/// Puts an input after its kind.
pub fn put_input(out: &mut Vec<u8>, input: &Input) -> Result<(), AllocError>
    ensures { OnOk result (out.new.items ≡ out.old.items ++ input_text input.now) }
{
    match input {
        Input::Request { wind, graph, req } => put_request(out, *wind, *graph, req),
        Input::Down { serve } => put_units(out, 1, *serve),
        Input::Up => put_unit(out, 2),
        Input::Connect { graph, version } => put_connect(out, *graph, *version),
        Input::Disconnect { graph } => put_units(out, 4, *graph),
        Input::FaultAt { proc, number } => put_fault_at(out, *proc, *number),
    }
}
