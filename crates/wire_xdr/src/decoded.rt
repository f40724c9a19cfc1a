/// Where bytes stop being a message: the offset of the first four-byte unit that continues no encoding of
/// the units before it, or the number of bytes where they end first.
#[derive(Clone, Copy)]
pub struct DecodeError {
    pub place: u32,
}

/// What begins some bytes: a value whose encoding the first `used` bytes are, or none.
#[derive(Drop)]
pub enum Decoded<T> {
    Front { value: T, used: u32 },
    Bad(DecodeError),
}
