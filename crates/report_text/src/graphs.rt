use fop_types::Seq;

/// A graph: its number, the name of its volfile, and how many winds were opened and ended in it.
#[derive(Drop)]
pub struct ReportGraph {
    pub graph: u32,
    pub name: Seq<u8>,
    pub opened: u32,
    pub ended: u32,
}
