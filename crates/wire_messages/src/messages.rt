/// What bytes are as one message: the value whose encoding they are, or the place at which they stop being
/// the encoding of one.
#[derive(Debug, Drop, PartialEq, Eq)]
pub enum Message<T> {
    /// The bytes are the encoding of this value.
    Whole(T),
    /// They are no encoding. `place` is the offset of the first unit that continues no encoding, the number
    /// of bytes where they end first, or the length of the encoding that has bytes after it.
    Wrong { place: u32 },
}
