use crate::answers::SplitRow;
use crate::cells::Cell;
use crate::contents::Mask;
use crate::lists::Seq;

/// A copy of cells from one of the sources to the sinks, under the locks that `held` names. Sources and sinks are
/// replicas.
#[derive(Drop, PartialEq, Eq)]
pub struct CopyJob {
    pub cells: Seq<Cell>,
    pub sources: Mask,
    pub sinks: Mask,
    pub held: Mask,
}

/// A copy that was made: one cell from one source to one sink, with the rows of the cell that its lock phase
/// showed, and the number of the last change in the copy. Replicas in a set's own records, and bricks in the log.
#[derive(Drop, PartialEq, Eq)]
pub struct CopyRecord {
    pub cell: Cell,
    pub source: u8,
    pub sink: u8,
    pub rows: Seq<SplitRow>,
    pub last: u64,
}

/// A replica that is not used any more by a job. `mark` is the place in its journal, counted from 1, of the
/// request that it answered by a fault, where `fault` is true; else the number of its last connection when it was
/// found to be out, 0 if it had none.
#[derive(Clone, Copy, PartialEq, Eq)]
pub struct Out {
    pub replica: u8,
    pub fault: bool,
    pub mark: u64,
}

/// How a copy ended: the replicas whose lock is still held, the sinks whose replacement was confirmed on every cell
/// of the job, the replicas that went out meanwhile, and a record for each confirmed sink and cell.
#[derive(Drop, PartialEq, Eq)]
pub struct CopyDone {
    pub held: Mask,
    pub current: Mask,
    pub outs: Seq<Out>,
    pub records: Seq<CopyRecord>,
}
