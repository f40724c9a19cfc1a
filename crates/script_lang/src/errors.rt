use std::alloc::AllocError;
use volfile::VolKind;

/// Why a line of a script is refused. Of the kinds that hold of one line the first in this order is reported;
/// inside a volfile `LongLine` comes first and then the volfile's own kinds. `TooLong`, `NotFollowing` and
/// `Later` are no answers of `parse`: the program's top call gives them.
#[derive(Clone, Copy, PartialEq, Eq)]
pub enum ScriptKind {
    /// A byte outside 32 to 126, tab and carriage return is outside a volfile or a comment.
    BadByte,
    /// The line has more than 140,000 bytes, its line feed not counted.
    LongLine,
    /// The first word may not be there.
    Unexpected,
    /// The number of words is wrong for the statement, the call or the action.
    WordCount,
    /// A word has not the form that its place asks for.
    BadWord,
    /// A brick's name, a pair of host and path, or a volfile's name was used.
    Repeated,
    /// A brick or a volfile of the name is not defined.
    Unknown,
    /// A 61st brick, 17th volfile, 65th session, 4,097th phase or 4,097th `do` line.
    TooMany,
    /// A second `heal` or `switch` in a phase.
    TwoGreat,
    /// The text ends in a volfile; the line is the number of lines.
    Unclosed,
    /// The text ends without `start`; the line is the number of lines.
    NoStart,
    /// A `switch` names a volfile that does not follow the ones before it.
    NotFollowing,
    /// The text is longer than 2,097,152 bytes.
    TooLong,
    /// The volfile refuses its line.
    Vol(VolKind),
    /// The line asks for what this stage of the program does not run.
    Later,
}

/// Why a script is refused. `line` is the number of the first line that is refused, from 1.
#[derive(Clone, Copy, PartialEq, Eq)]
pub enum ScriptError {
    At { line: u32, kind: ScriptKind },
    /// Out of memory.
    Mem,
}

impl From<AllocError> for ScriptError {
    ghost use Rattle.std.specs.Prelude.{◌≡◌};
    ghost use Rattle.script_lang.specs.declared.errors.ScriptError.TheVariants.{Mem};

    ghost from_gives = { λ _ r. r ≡ Mem };

    fn from(_: AllocError) -> ScriptError {
        ScriptError::Mem
    }
}
