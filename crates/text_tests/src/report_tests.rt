use fop_types::{AppError, Aspect, Cell, Gfid, Kind, Seq, SkipCause};
use report_text::{Report, ReportAnswer, ReportCall, ReportGraph, ReportIo, ReportRow, print};
use std::alloc::{AllocError, Global};

const CELL: Cell = Cell {
    gfid: Gfid {
        hi: 0x0123456789ABCDEF,
        lo: 0x00000000FEDCBA98,
    },
    aspect: Aspect::Meta,
};

fn name(alloc: Global) -> Result<Seq<u8>, AllocError> {
    Seq::from_bytes(alloc, b"b1")
}

fn split_brain(alloc: Global) -> Result<ReportAnswer, AllocError> {
    let row = ReportRow {
        cell: CELL,
        brick: name(alloc)?,
        present: true,
        dirty: 7,
        pending: Seq::from_vec(Vec::from_slice(alloc, &[0, 0, 1])?),
        last: 3,
    };
    Ok(ReportAnswer::Io(ReportIo::Split {
        set: name(alloc)?,
        rows: Seq::from_vec(vec![in alloc; row]?),
    }))
}

// A session, and two places.
fn call_parts(alloc: Global) -> Result<(Seq<u8>, Seq<u32>), AllocError> {
    let session = name(alloc)?;
    let places = Vec::from_slice(alloc, &[2, 10])?;
    Ok((session, Seq::from_vec(places)))
}

// One call with this answer.
fn calls(alloc: Global, answer: ReportAnswer) -> Result<Seq<ReportCall>, AllocError> {
    match call_parts(alloc) {
        Ok((session, places)) => {
            let call = ReportCall {
                call: 1,
                session,
                line: 11,
                places,
                answer,
            };
            Ok(Seq::from_vec(vec![in alloc; call]?))
        }
        Err(error) => {
            drop(answer);
            Err(error)
        }
    }
}

fn heals(alloc: Global) -> Result<Seq<(Cell, Seq<u8>, Seq<u8>)>, AllocError> {
    let heal = (CELL, name(alloc)?, Seq::from_bytes(alloc, b"b2")?);
    Ok(Seq::from_vec(vec![in alloc; heal]?))
}

fn graphs(alloc: Global) -> Result<Seq<ReportGraph>, AllocError> {
    let graph = ReportGraph {
        graph: 1,
        name: name(alloc)?,
        opened: 40,
        ended: 39,
    };
    Ok(Seq::from_vec(vec![in alloc; graph]?))
}

// What a report has lines of.
#[derive(Clone, Copy)]
enum Lines {
    Calls,
    History,
    Heals,
    Skips,
    Graphs,
}

// Puts lines of one kind into a report.
fn put(alloc: Global, report: &mut Report, lines: Lines) -> Result<(), AllocError> {
    match lines {
        Lines::Calls => report.calls = calls(alloc, split_brain(alloc)?)?,
        Lines::History => {
            report.history = Seq::from_vec(Vec::from_slice(alloc, &[(3, 1), (12, 2)])?);
        }
        Lines::Heals => report.heals = heals(alloc)?,
        Lines::Skips => {
            report.skips = Seq::from_vec(vec![in alloc; (CELL, SkipCause::Unsettled)]?);
        }
        Lines::Graphs => report.graphs = graphs(alloc)?,
    }
    Ok(())
}

fn report_with(alloc: Global, kinds: &[Lines]) -> Result<Report, AllocError> {
    let mut report = Report {
        calls: Seq::new(alloc),
        history: Seq::new(alloc),
        heals: Seq::new(alloc),
        skips: Seq::new(alloc),
        graphs: Seq::new(alloc),
    };
    for kind in kinds {
        put(alloc, &mut report, *kind)?;
    }
    Ok(report)
}

const REPORTS: [(&[Lines], &[u8]); 7] = [
    (&[], b"report 1\nhistory 0\nend\n"),
    (
        &[Lines::Calls],
        b"report 1\n\
        call 1 session b1 line 11 places 2,10 error 5 EIO split b1 row 0123456789abcdef00000000fedcba98/metadata b1 1 7 0,0,1 3\n\
        history 0\nend\n",
    ),
    (
        &[Lines::History],
        b"report 1\nhistory 2\n\
        entry 1 call 3 part 1\nentry 2 call 12 part 2\nend\n",
    ),
    (
        &[Lines::Heals],
        b"report 1\nhistory 0\n\
        heal 0123456789abcdef00000000fedcba98/metadata from b1 to b2\nend\n",
    ),
    (
        &[Lines::Skips],
        b"report 1\nhistory 0\n\
        skip 0123456789abcdef00000000fedcba98/metadata unsettled\nend\n",
    ),
    (
        &[Lines::Graphs],
        b"report 1\nhistory 0\n\
        graph 1 b1 winds 40 ended 39 open\nend\n",
    ),
    (
        &[
            Lines::Calls,
            Lines::History,
            Lines::Heals,
            Lines::Skips,
            Lines::Graphs,
        ],
        b"report 1\n\
        call 1 session b1 line 11 places 2,10 error 5 EIO split b1 row 0123456789abcdef00000000fedcba98/metadata b1 1 7 0,0,1 3\n\
        history 2\n\
        entry 1 call 3 part 1\n\
        entry 2 call 12 part 2\n\
        heal 0123456789abcdef00000000fedcba98/metadata from b1 to b2\n\
        skip 0123456789abcdef00000000fedcba98/metadata unsettled\n\
        graph 1 b1 winds 40 ended 39 open\n\
        end\n",
    ),
];

fn is_text(alloc: Global, report: &Report, want: &[u8]) -> Result<bool, AllocError> {
    let text = print(alloc, report)?;
    Ok(text.as_slice() == want)
}

fn is_printed(alloc: Global, kinds: &[Lines], want: &[u8]) -> Result<bool, AllocError> {
    let report = report_with(alloc, kinds)?;
    let printed = is_text(alloc, &report, want);
    drop(report);
    printed
}

#[test]
fn reports(rt: HostRuntime) {
    for (kinds, want) in &REPORTS {
        assert!(rt; matches!(is_printed(rt.alloc(), kinds, want), Ok(true)));
    }
}

// An answer of few words.
#[derive(Clone, Copy)]
enum Says {
    Count(u32),
    Stat(Kind, u16, u32),
    App(AppError),
}

fn answer(says: Says) -> ReportAnswer {
    match says {
        Says::Count(count) => ReportAnswer::Count(count),
        Says::Stat(kind, mode, size) => ReportAnswer::Stat { kind, mode, size },
        Says::App(error) => ReportAnswer::App(error),
    }
}

// Answers, and the report of one call with each.
const ANSWERS: [(Says, &[u8]); 5] = [
    (
        Says::Count(65536),
        b"report 1\ncall 1 session b1 line 11 places 2,10 ok 65536\nhistory 0\nend\n",
    ),
    (
        Says::Stat(Kind::Dir, 0o755, 0),
        b"report 1\ncall 1 session b1 line 11 places 2,10 ok dir 755 0\nhistory 0\nend\n",
    ),
    (
        Says::Stat(Kind::File, 0, 4294967295),
        b"report 1\ncall 1 session b1 line 11 places 2,10 ok file 0 4294967295\nhistory 0\nend\n",
    ),
    (
        Says::App(AppError::Enoent),
        b"report 1\ncall 1 session b1 line 11 places 2,10 error 2 ENOENT\nhistory 0\nend\n",
    ),
    (
        Says::App(AppError::Eopnotsupp),
        b"report 1\ncall 1 session b1 line 11 places 2,10 error 95 EOPNOTSUPP\nhistory 0\nend\n",
    ),
];

fn is_shown(alloc: Global, says: Says, want: &[u8]) -> Result<bool, AllocError> {
    let report = Report {
        calls: calls(alloc, answer(says))?,
        history: Seq::new(alloc),
        heals: Seq::new(alloc),
        skips: Seq::new(alloc),
        graphs: Seq::new(alloc),
    };
    let shown = is_text(alloc, &report, want);
    drop(report);
    shown
}

#[test]
fn answers(rt: HostRuntime) {
    for (says, want) in &ANSWERS {
        assert!(rt; matches!(is_shown(rt.alloc(), *says, want), Ok(true)));
    }
}
