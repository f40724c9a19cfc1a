use crate::answers::ReportAnswer;
use fop_types::Seq;

/// One call: its number, its session, its line in the script, the places of its file operations in
/// the history and its answer. An operation that was not answered, or was answered by an I/O error,
/// has no place.
#[derive(Drop)]
pub struct ReportCall {
    pub call: u32,
    pub session: Seq<u8>,
    pub line: u32,
    pub places: Seq<u32>,
    pub answer: ReportAnswer,
}
