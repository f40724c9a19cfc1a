/// What a fop knows of its volume: the number of its call, how many sets there are, and how many of them the first
/// graph had, over which the root's layout is the even split.
#[derive(Clone, Copy)]
pub(crate) struct Volume {
    pub call: u32,
    pub sets: u8,
    pub root_sets: u8,
}
