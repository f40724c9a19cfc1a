use crate::faults::ReportIo;
use fop_types::{AppError, Kind, Seq};

/// The answer of a call. A list's item has its name and kind. A list without items is `Count(0)`: the
/// two have one text, so no report that is read has the other.
#[derive(Drop)]
pub enum ReportAnswer {
    Done,
    Count(u32),
    Bytes(Seq<u8>),
    Stat { kind: Kind, mode: u16, size: u32 },
    List(Seq<(Seq<u8>, Kind)>),
    App(AppError),
    Io(ReportIo),
}
