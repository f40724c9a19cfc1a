use xlator_law::WindNo;

/// What a run has still to do.
#[derive(Drop)]
pub enum Task<F, R> {
    /// A fop of a call enters a node as a new frame: by this wind, or as the call's own fop where there is
    /// none.
    Enter {
        node: u16,
        call: u32,
        parent: Option<WindNo>,
        fop: F,
    },
    /// A frame's wind in this slot was answered and has ended, which resumes the frame.
    Resume {
        frame: u32,
        slot: u8,
        reply: R,
    },
    /// What a frame waited for, which is no wind, has come.
    Go {
        frame: u32,
    },
}

/// A wind to a child that is outside of the graph.
#[derive(Drop)]
pub struct Sent<F> {
    pub wind: WindNo,
    pub node: u16,
    pub child: u16,
    pub fop: F,
}

/// The answer of a call's own fop.
#[derive(Drop)]
pub struct Answered<R> {
    pub call: u32,
    pub reply: R,
}

/// A wind that is ended from outside, as by the end of its brick's connection, with the reply that its frame
/// gets.
#[derive(Drop)]
pub struct Bailed<R> {
    pub wind: WindNo,
    pub reply: R,
}
