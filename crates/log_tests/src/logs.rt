//! A log from rows of numbers.
use brick_machine::Brick;
use bytes::Bytes;
use fop_types::{Answer, Proc, Seq};
use mount_log::{HubEvent, Log, ReplyLine, SentLine, WindLine};
use script_lang::Action;
use std::alloc::{AllocError, Global};
use xlator_law::WindNo;

/// The rows of a log, and of a brick the inputs that it served.
///
/// ```text
///   events   0 session line · 1 brick units.. · 2 brick serve (down) · 3 brick (up) · 4 volfile (switch)
///            · 5 brick count (a Down is armed for an index) · 6 the same (a fault is armed)
///   sent     event brick units..
///   replies  event call
///   winds    graph call slot turn, 1 where it is opened
///   served   units..
/// ```
pub(crate) struct Rows {
    pub(crate) events: &'static [&'static [u32]],
    pub(crate) sent: &'static [&'static [u32]],
    pub(crate) replies: &'static [&'static [u32]],
    pub(crate) winds: &'static [&'static [u32]],
    pub(crate) served: &'static [&'static [u32]],
}

/// The lists of a log that a row may be in.
#[derive(Clone, Copy, PartialEq, Eq)]
pub(crate) enum Of {
    Events,
    Sent,
    Replies,
    Winds,
    Served,
}

/// A row in place of another, none where it is empty.
#[derive(Clone, Copy)]
pub(crate) struct Edit {
    pub(crate) of: Of,
    pub(crate) at: usize,
    pub(crate) row: &'static [u32],
}

fn number(row: &[u32], at: usize) -> u32 {
    match row.get(at) {
        Some(number) => *number,
        None => 0,
    }
}

fn small(row: &[u32], at: usize) -> u8 {
    number(row, at).to_be_bytes()[3]
}

fn bytes_from(alloc: Global, row: &[u32], from: usize) -> Result<Bytes, AllocError> {
    let mut bytes = Vec::new(alloc);
    for at in from..row.len() {
        bytes.extend_from_slice(&row[at].to_be_bytes())?;
    }
    Ok(Bytes::from_vec(bytes)?)
}

fn arrival(alloc: Global, row: &[u32]) -> Result<HubEvent, AllocError> {
    Ok(HubEvent::Arrive {
        brick: small(row, 1),
        bytes: bytes_from(alloc, row, 2)?,
    })
}

fn armed(row: &[u32], action: Action) -> HubEvent {
    HubEvent::Arm(small(row, 1), Proc::Index, number(row, 2), action)
}

fn event(alloc: Global, row: &[u32]) -> Result<HubEvent, AllocError> {
    match number(row, 0) {
        0 => Ok(HubEvent::Submit {
            session: small(row, 1),
            line: number(row, 2),
        }),
        1 => arrival(alloc, row),
        2 => Ok(HubEvent::Act(Action::Down(small(row, 1), number(row, 2)))),
        3 => Ok(HubEvent::Act(Action::Up(small(row, 1)))),
        4 => Ok(HubEvent::Act(Action::Switch(small(row, 1)))),
        5 => Ok(armed(row, Action::Down(small(row, 1), 0))),
        _ => Ok(armed(row, Action::Fault(small(row, 1), Proc::Index, 1))),
    }
}

fn sent(alloc: Global, row: &[u32]) -> Result<SentLine, AllocError> {
    Ok(SentLine {
        event: u64::from(number(row, 0)),
        brick: small(row, 1),
        bytes: bytes_from(alloc, row, 2)?,
    })
}

fn reply(alloc: Global, row: &[u32]) -> ReplyLine {
    ReplyLine {
        event: u64::from(number(row, 0)),
        call: number(row, 1),
        session: 0,
        line: 0,
        places: Seq::new(alloc),
        answer: Answer::Done,
    }
}

fn wind(row: &[u32]) -> WindLine {
    WindLine {
        event: 0,
        graph: number(row, 0),
        call: number(row, 1),
        wind: WindNo {
            slot: number(row, 2),
            turn: number(row, 3),
        },
        opened: number(row, 4) == 1,
    }
}

fn add_row(
    alloc: Global,
    log: &mut Log,
    brick: &mut Brick,
    of: Of,
    row: &[u32],
) -> Result<(), AllocError> {
    if row.is_empty() {
        return Ok(());
    }
    match of {
        Of::Events => log.add_event(event(alloc, row)?),
        Of::Sent => {
            log.sent.push(sent(alloc, row)?)?;
            Ok(())
        }
        Of::Replies => log.add_reply(reply(alloc, row)),
        Of::Winds => {
            log.winds.push(wind(row))?;
            Ok(())
        }
        Of::Served => brick.serve(alloc, bytes_from(alloc, row, 0)?),
    }
}

fn add_rows(
    alloc: Global,
    log: &mut Log,
    brick: &mut Brick,
    of: Of,
    rows: &[&'static [u32]],
    edit: Edit,
) -> Result<(), AllocError> {
    for at in 0..rows.len() {
        if edit.of == of && edit.at == at {
            add_row(alloc, log, brick, of, edit.row)?;
        } else {
            add_row(alloc, log, brick, of, rows[at])?;
        }
    }
    Ok(())
}

/// The log of these rows, with one edit, and the brick that served theirs.
pub(crate) fn made(
    alloc: Global,
    log: &mut Log,
    brick: &mut Brick,
    rows: &Rows,
    edit: Edit,
) -> Result<(), AllocError> {
    add_rows(alloc, log, brick, Of::Events, rows.events, edit)?;
    add_rows(alloc, log, brick, Of::Sent, rows.sent, edit)?;
    add_rows(alloc, log, brick, Of::Replies, rows.replies, edit)?;
    add_rows(alloc, log, brick, Of::Winds, rows.winds, edit)?;
    add_rows(alloc, log, brick, Of::Served, rows.served, edit)
}
