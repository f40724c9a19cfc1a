use fop_types::Gfid;

/// A page's file and its number there, counted from 0.
#[derive(Clone, Copy, PartialEq, Eq, Hash)]
pub struct PageKey {
    pub gfid: Gfid,
    pub page: u32,
}
