ghost use Rattle.std.specs.Prelude.{◌≡◌, ◌++◌, OnOk};
ghost use Rattle.wire_xdr.specs.Xdr.{unit, hyper};
ghost use Rattle.wire_xdr.specs.MessageText.{done_text, rep_text};
ghost use Rattle.wire_xdr.specs.WireText.{out_text, output_text};

use crate::encode::parts::{put_cells, put_content, put_hyper, put_rows, put_unit, put_units};
use fop_types::{BrickRep, DoneArm, OutKind, Output};
use std::alloc::AllocError;

/// Puts what comes with a Done after its number.
fn put_done(out: &mut Vec<u8>, arm: &DoneArm) -> Result<(), AllocError>
    ensures { OnOk result (out.new.items ≡ out.old.items ++ done_text arm.now) }
{
    match arm {
        DoneArm::Nothing => {
            put_unit(out, 0)?;
            Ok(())
        }
        DoneArm::Rows(rows) => {
            put_unit(out, 1)?;
            put_rows(out, rows.as_slice())?;
            Ok(())
        }
        DoneArm::Content(content, last) => {
            put_unit(out, 2)?;
            put_content(out, content)?;
            put_hyper(out, *last)?;
            Ok(())
        }
        DoneArm::Cells(cells) => {
            put_unit(out, 3)?;
            put_cells(out, cells.as_slice())?;
            Ok(())
        }
    }
}

/// Puts a reply after its status.
fn put_rep(out: &mut Vec<u8>, rep: &BrickRep) -> Result<(), AllocError>
    ensures { OnOk result (out.new.items ≡ out.old.items ++ rep_text rep.now) }
{
    match rep {
        BrickRep::Done(arm) => {
            put_unit(out, 0)?;
            put_done(out, arm)?;
            Ok(())
        }
        BrickRep::Gone => {
            put_unit(out, 1)?;
            Ok(())
        }
        BrickRep::Fault => {
            put_unit(out, 2)?;
            Ok(())
        }
        BrickRep::Unfit => {
            put_unit(out, 3)?;
            Ok(())
        }
        BrickRep::BadFd => {
            put_unit(out, 4)?;
            Ok(())
        }
    }
}

fn put_reply(out: &mut Vec<u8>, wind: u64, rep: &BrickRep) -> Result<(), AllocError>
    ensures { OnOk result (out.new.items ≡ out.old.items ++ (unit 0 ++ (hyper wind ++ rep_text rep.now))) }
{
    put_unit(out, 0)?;
    put_hyper(out, wind)?;
    put_rep(out, rep)?;
    Ok(())
}

fn put_connected(out: &mut Vec<u8>, graph: u32, version: u32) -> Result<(), AllocError>
    ensures { OnOk result (out.new.items ≡ out.old.items ++ (unit 3 ++ (unit graph ++ unit version))) }
{
    put_units(out, 3, graph)?;
    put_unit(out, version)?;
    Ok(())
}

fn put_out_kind(out: &mut Vec<u8>, kind: &OutKind) -> Result<(), AllocError>
    ensures { OnOk result (out.new.items ≡ out.old.items ++ out_text kind.now) }
{
    match kind {
        OutKind::Reply { wind, rep } => put_reply(out, *wind, rep),
        OutKind::Closed => put_unit(out, 1),
        OutKind::Opened => put_unit(out, 2),
        OutKind::Connected { graph, version } => put_connected(out, *graph, *version),
        OutKind::Malformed { place } => put_units(out, 4, *place),
    }
}

/// Puts an output after the number of inputs taken.
pub fn put_output(out: &mut Vec<u8>, output: &Output) -> Result<(), AllocError>
    ensures { OnOk result (out.new.items ≡ out.old.items ++ output_text output.now) }
{
    put_hyper(out, output.taken)?;
    put_out_kind(out, &output.kind)?;
    Ok(())
}
