use std::alloc::AllocError;

/// Why a line of a volfile is refused. Of the kinds that hold of one line the first in this order is
/// reported.
#[derive(Clone, Copy, PartialEq, Eq)]
pub enum VolKind {
    /// A byte outside 32 to 126, tab and carriage return is outside a comment.
    BadByte,
    /// A backquote is outside a comment.
    Backquote,
    /// A quoted text does not end in its line, or touches a word, or is not an option's value.
    OpenQuote,
    /// The first word is no statement that may be there; a second `type` or `subvolumes` is one.
    Unexpected,
    /// The number of words is wrong.
    WordCount,
    /// A volume's name is no name, or a type is not two parts with one `/`.
    BadWord,
    /// An earlier volume has the name.
    Repeated,
    /// A subvolume was not defined before.
    UnknownSubvolume,
    /// The block ends before its `type`.
    MissingType,
    /// A 257th volume begins.
    TooMany,
    /// The text ends in a block.
    Unclosed,
    /// The text has no volume.
    Empty,
}

/// Why a volfile is refused. `line` is the number of the first line that is refused, from 1; where the
/// text ends too early it is the number of lines. Numbers stay at 4294967295.
#[derive(Clone, Copy, PartialEq, Eq)]
pub enum VolError {
    At { line: u32, kind: VolKind },
    /// Out of memory.
    Mem,
}

impl From<AllocError> for VolError {
    ghost use Rattle.std.specs.Prelude.{◌≡◌};
    ghost use Rattle.volfile.specs.declared.errors.VolError.TheVariants.{Mem};

    ghost from_gives = { λ _ r. r ≡ Mem };

    fn from(_: AllocError) -> VolError {
        VolError::Mem
    }
}
