/// The mode of a key whose thing its entry has for itself: it conflicts with every other entry that has the
/// thing exclusive or shared.
pub const EXCLUSIVE: u8 = 0;

/// The mode of a key whose thing its entry has beside others: it conflicts with the entries that have the
/// thing exclusive.
pub const SHARED: u8 = 1;

/// The mode of a key by which its entry is found, and that conflicts with none. So is every mode above it.
pub const NAME: u8 = 2;

/// What an entry of a queue can be found by: a thing, by three numbers which the owner of the queue
/// chooses, and how the entry has it. An entry may have any number of keys, and a key may be at any number
/// of entries.
#[derive(Clone, Copy, PartialEq, Eq, PartialOrd, Ord)]
pub struct Key {
    /// What sort of thing the key names, so that two sorts never meet.
    pub kind: u8,
    /// The thing's own number, higher half.
    pub hi: u64,
    /// The thing's own number, lower half.
    pub lo: u64,
    /// How the entry has the thing: [`EXCLUSIVE`], [`SHARED`], or by [`NAME`].
    pub mode: u8,
}
