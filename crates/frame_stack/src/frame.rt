use xlator_law::Place;

/// An open frame: where it is, and what its translator keeps in it while it waits. `local` is `None`
/// while it is taken out.
#[derive(Drop)]
pub struct Frame<L> {
    pub place: Place,
    pub local: Option<L>,
}

/// Who opened a wind: a frame, in one of its slots, and the graph and call of that frame. `number` counts
/// the winds that the stack had opened before, over all frames, so of two winds the older one has the
/// smaller number.
#[derive(Clone, Copy)]
pub struct Opener {
    pub frame: u32,
    pub slot: u8,
    pub graph: u32,
    pub call: u32,
    pub number: u32,
}
