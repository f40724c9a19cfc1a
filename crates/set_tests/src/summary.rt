use afr_transaction::Need;
use fop_types::{Aspect, BrickReq, CopyJob, IoError, Seq, SetReply, SkipCause};

/// What a job needs next, in short: whom it asks for what, as a mask; whom a post or a settle accuses; sources and sinks
/// of a copy; or the reply, with the replicas whose bricks it names. A copy of names has its directories too: 1 the first, 2
/// the second.
#[derive(Clone, Copy, PartialEq, Eq)]
pub(crate) enum Want {
    Wait,
    Lock(u8),
    Shared(u8),
    Unlock(u8),
    Mark(u8),
    Op(u8),
    Post(u8, u8),
    Settle(u8, u8),
    Fetch(u8),
    Open(u8),
    Index(u8),
    Other(u8),
    Copy(u8, u8),
    Part(u8, u8, u8),
    Contents(usize, u32),
    Decided(Option<u32>),
    Opened,
    Listed(usize, u8, bool),
    Healed(usize),
    Skipped(SkipCause),
    Quorum(u8),
    Fault(u8, u8),
    Split(usize),
}

pub(crate) fn summary(need: &Need) -> Want {
    match need {
        Need::Send(list) => sent(list),
        Need::Copy(job, _) => copied(job),
        Need::Reply(reply) => replied(reply),
        Need::Wait => Want::Wait,
    }
}

fn copied(job: &CopyJob) -> Want {
    let mut directories = 0u8;
    for cell in job.cells.as_slice() {
        if cell.aspect == Aspect::Entry && cell.gfid.lo == 2 {
            directories |= 1;
        }
        if cell.aspect == Aspect::Entry && cell.gfid.lo == 3 {
            directories |= 2;
        }
    }
    if directories == 0 {
        return Want::Copy(job.sources.0, job.sinks.0);
    }
    Want::Part(directories, job.sources.0, job.sinks.0)
}

fn sent(list: &Seq<(u8, BrickReq)>) -> Want {
    let mut to = 0u8;
    for (k, _) in list.as_slice() {
        if *k < 8 {
            to |= 1 << *k;
        }
    }
    match list.as_slice().first() {
        Some((_, req)) => asked(to, req),
        None => Want::Other(to),
    }
}

fn asked(to: u8, req: &BrickReq) -> Want {
    match req {
        BrickReq::Lock { shared: true, .. } => Want::Shared(to),
        BrickReq::Lock { .. } => Want::Lock(to),
        BrickReq::Unlock { .. } => Want::Unlock(to),
        BrickReq::Mark { .. } => Want::Mark(to),
        BrickReq::Op { .. } => Want::Op(to),
        BrickReq::Post { mask, .. } => Want::Post(to, mask.0),
        BrickReq::Settle { mask, .. } => Want::Settle(to, mask.0),
        BrickReq::Fetch { .. } => Want::Fetch(to),
        BrickReq::Open { .. } => Want::Open(to),
        BrickReq::Index => Want::Index(to),
        _ => Want::Other(to),
    }
}

fn replied(reply: &SetReply) -> Want {
    match reply {
        SetReply::Contents(contents, place) => Want::Contents(contents.len(), *place),
        SetReply::Decided(entry) => Want::Decided(*entry),
        SetReply::Opened => Want::Opened,
        SetReply::Listed {
            cells,
            answered,
            short,
        } => Want::Listed(cells.len(), answered.0, short.is_some()),
        SetReply::Healed(records) => Want::Healed(records.len()),
        SetReply::Skipped(cause) => Want::Skipped(*cause),
        SetReply::Io(error) => failed(error),
    }
}

fn failed(error: &IoError) -> Want {
    match error {
        IoError::Quorum { lost, .. } => Want::Quorum(lost_in(lost)),
        IoError::Fault { faults, lost, .. } => Want::Fault(faults_in(faults), lost_in(lost)),
        IoError::Split { rows, .. } => Want::Split(rows.len()),
    }
}

fn lost_in(lost: &Seq<(u8, u32)>) -> u8 {
    let mut mask = 0;
    for (brick, _) in lost.as_slice() {
        mask |= replica_of(*brick);
    }
    mask
}

fn faults_in(faults: &Seq<(u8, u64)>) -> u8 {
    let mut mask = 0;
    for (brick, _) in faults.as_slice() {
        mask |= replica_of(*brick);
    }
    mask
}

// The mask of the replica of a brick; bricks are numbered from 10 on.
fn replica_of(brick: u8) -> u8 {
    match brick {
        10 => 1,
        11 => 2,
        12 => 4,
        13 => 8,
        14 => 16,
        _ => 128,
    }
}
