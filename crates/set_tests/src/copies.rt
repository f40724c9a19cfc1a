use crate::copy_cases::{CASES, Case, Needs, Says};
use Needs::{Clear, Ends, Fetch, Replace, Wait};
use Says::{Bytes, Done, Fault, Gone, Names, Unfit};
use afr_phases::mask_of;
use fop_types::{
    Aspect, BrickRep, BrickReq, Cell, Content, CopyDone, CopyJob, Data, DoneArm, Gfid, Mask, Row,
    Seq, SplitRow,
};
use self_heal::{CopyNeed, CopyRun};
use std::alloc::{AllocError, Global};
use std::test::*;

fn data(file: u64) -> Cell {
    Cell {
        gfid: Gfid { hi: 0, lo: file },
        aspect: Aspect::Data,
    }
}

// A row of a cell, as some replica answered it.
fn row(file: u64) -> SplitRow {
    let row = Row {
        present: true,
        dirty: 0,
        pending: [0; 5],
        last: 4,
    };
    SplitRow {
        cell: data(file),
        brick: 0,
        row,
    }
}

fn start(alloc: Global, case: &Case) -> Result<(CopyRun, CopyNeed), AllocError> {
    let mut cells = Seq::new(alloc);
    let mut rows = Seq::new(alloc);
    for (earlier, file) in [(0, 2), (1, 3)] {
        if earlier < case.files {
            cells.push(data(file))?;
        }
        rows.push(row(file))?;
    }
    let job = CopyJob {
        cells,
        sources: Mask(case.sources),
        sinks: Mask(case.sinks),
        held: Mask(case.held),
    };
    CopyRun::begin(alloc, job, rows)
}

fn reply(alloc: Global, says: Says) -> BrickRep {
    match says {
        Bytes(last) => BrickRep::Done(DoneArm::Content(Content::Bytes(Data::new(alloc)), last)),
        Names(last) => BrickRep::Done(DoneArm::Content(no_names(alloc), last)),
        Done => BrickRep::Done(DoneArm::Nothing),
        Gone => BrickRep::Gone,
        Fault => BrickRep::Fault,
        Unfit => BrickRep::Unfit,
    }
}

fn no_names(alloc: Global) -> Content {
    Content::Names {
        removed: false,
        items: Seq::new(alloc),
    }
}

// The replicas of a list of requests.
fn asked(list: &[(u8, BrickReq)]) -> u8 {
    let mut to = [false; 5];
    for (k, _) in list {
        if *k < 5 {
            to[*k as usize] = true;
        }
    }
    mask_of(to).0
}

fn requests(list: &[(u8, BrickReq)]) -> Needs {
    let to = asked(list);
    match list.first() {
        Some((_, BrickReq::Fetch { cell, .. })) => Fetch(to, cell.gfid.lo),
        Some((_, BrickReq::Replace { cell, last, .. })) => Replace(to, cell.gfid.lo, *last),
        Some((_, BrickReq::Clear { mask, .. })) => Clear(to, mask.0),
        _ => Needs::Other,
    }
}

// The replicas that are out, by a fault or not, each with the mark that was handed in with its answer.
fn out(done: &CopyDone, fault: bool) -> u8 {
    let mut lost = [false; 5];
    for out in done.outs.as_slice() {
        if out.fault == fault && out.replica < 5 && out.mark == 10 + out.replica as u64 {
            lost[out.replica as usize] = true;
        }
    }
    mask_of(lost).0
}

fn summary(need: &CopyNeed) -> Needs {
    match need {
        CopyNeed::Send(list) => requests(list.as_slice()),
        CopyNeed::Wait => Wait,
        CopyNeed::Done(end) => Ends(end.held.0, end.current.0, out(end, false), out(end, true)),
    }
}

// Each record is of a cell with its own row alone.
fn has_records(done: &CopyDone, wanted: &[(u64, u8, u8, u64)]) -> bool {
    for (record, (file, source, sink, last)) in done.records.as_slice().iter().zip(wanted) {
        let from = (record.source, record.sink, record.last) == (*source, *sink, *last);
        if !from || record.cell.gfid.lo != *file || record.rows.len() != 1 {
            return false;
        }
    }
    done.records.len() == wanted.len()
}

fn is_as_wanted(need: &CopyNeed, wanted: Needs, records: &[(u64, u8, u8, u64)]) -> bool {
    match need {
        CopyNeed::Done(done) => summary(need) == wanted && has_records(done, records),
        _ => summary(need) == wanted,
    }
}

// The same of a need that ends here.
fn ends_as_wanted(need: CopyNeed, wanted: Needs, records: &[(u64, u8, u8, u64)]) -> bool {
    let as_wanted = is_as_wanted(&need, wanted, records);
    drop(need);
    as_wanted
}

// A turn: the replica, what it says, and what is needed next.
fn turn_goes(
    alloc: Global,
    run: &mut CopyRun,
    turn: (u8, Says, Needs),
    records: &[(u64, u8, u8, u64)],
) -> Result<bool, AllocError> {
    let (replica, says, wanted) = turn;
    if replica >= 5 {
        return Ok(false);
    }
    let need = run.answer(alloc, replica, reply(alloc, says), 10 + replica as u64)?;
    Ok(ends_as_wanted(need, wanted, records))
}

fn turns_go(alloc: Global, run: &mut CopyRun, case: &Case) -> Result<bool, AllocError> {
    for turn in case.turns {
        if !turn_goes(alloc, run, *turn, case.records)? {
            return Ok(false);
        }
    }
    Ok(true)
}

fn goes_as_wanted(alloc: Global, case: &Case) -> Result<bool, AllocError> {
    let (mut run, need) = start(alloc, case)?;
    let first = ends_as_wanted(need, case.first, case.records);
    let turns = turns_go(alloc, &mut run, case);
    drop(run);
    Ok(first && turns?)
}

#[test]
fn copies_turn_by_turn(rt: HostRuntime) -> Result<(), Fail> {
    for (number, case) in CASES.iter().enumerate() {
        assert!(rt; goes_as_wanted(rt.alloc(), case)?, "case {number}");
    }
    Ok(())
}
