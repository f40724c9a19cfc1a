/// One accepted change in the history: the number of the call that made it, from 1, and its part.
/// A rename has up to two parts; every other change has part 1 alone.
#[derive(Clone, Copy, PartialEq, Eq)]
pub struct Entry {
    pub call: u32,
    pub part: u8,
}
