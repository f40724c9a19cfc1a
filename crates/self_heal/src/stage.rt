use fop_types::{BrickReq, CopyDone, Seq};

/// What a copy needs next: requests to replicas, nothing before the next answer, or nothing more.
#[derive(Drop)]
pub enum CopyNeed {
    Send(Seq<(u8, BrickReq)>),
    Done(CopyDone),
    Wait,
}

/// Where the copy of a cell came from: the source that answered the fetch, and the number of the last change in its
/// content.
#[derive(Clone, Copy)]
pub struct Origin {
    pub source: u8,
    pub last: u64,
}

/// What a copy waits for.
#[derive(Clone, Copy)]
pub enum Stage {
    /// A replica was asked for the content of the next cell.
    Fetching { from: u8 },
    /// The content was sent to the sinks.
    Replacing(Origin),
    /// The clear was sent; every cell was confirmed by these sinks.
    Clearing([bool; 5]),
    /// It is done.
    Over,
}
