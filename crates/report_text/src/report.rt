use crate::calls::ReportCall;
use crate::graphs::ReportGraph;
use fop_types::{Cell, Seq, SkipCause};

/// What a run did: its calls by rising number, the call and part of each entry of the history, each
/// copy of a cell with the brick it came from and the brick it went to, each cell that a heal
/// skipped, and the graphs by rising number. Sessions, bricks and sets have their names.
#[derive(Drop)]
pub struct Report {
    pub calls: Seq<ReportCall>,
    pub history: Seq<(u32, u8)>,
    pub heals: Seq<(Cell, Seq<u8>, Seq<u8>)>,
    pub skips: Seq<(Cell, SkipCause)>,
    pub graphs: Seq<ReportGraph>,
}
