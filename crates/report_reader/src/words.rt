//! The words of a line, and the parts of a word.
ghost use Rattle.std.specs.Prelude.{◌≡◌, [], ◌∷◌, true, false, MatchOption, MatchResult};
ghost use Rattle.report_reader.specs.code.Readers.{Gives, is_end, left, parts_at, text_at};
ghost use Rattle.report_reader.specs.declared.bad.Bad.TheVariants.{Line};

use crate::bad::Bad;
use volfile::{is_same, len_to};

/// What was not read of some bytes, in parts between the bytes `stop`: the words of a line between spaces, or the numbers
/// of a word between commas. No byte is copied.
#[derive(Clone, Copy)]
pub(crate) struct Words<'a> {
    stop: u8,
    rest: Option<&'a [u8]>,
}

/// All parts of some bytes: one more than there are bytes `stop`.
pub(crate) fn parts(bytes: &[u8], stop: u8) -> Words
    ensures { left result ≡ parts_at stop bytes.now }
{
    Words {
        stop,
        rest: Some(bytes),
    }
}

/// The next word with those behind it, and `None` where no word is left.
pub(crate) fn next(words: Words) -> Option<(&[u8], Words)>
    ensures { MatchOption result (left words.entry ≡ []) (λ x. left words.entry ≡ x.0.now ∷ left x.1) }
{
    match words.rest {
        None => None,
        Some(rest) => Some(first_part(rest, words.stop)),
    }
}

// What is before the first `stop`, and the parts behind it.
fn first_part(rest: &[u8], stop: u8) -> (&[u8], Words)
    ensures { parts_at stop rest.now ≡ result.0.now ∷ left result.1 }
{
    let end = len_to(stop, rest);
    if end == rest.len() {
        return (rest, Words { stop, rest: None });
    }
    let behind = &rest[end + 1..];
    (
        &rest[..end],
        Words {
            stop,
            rest: Some(behind),
        },
    )
}

/// The next word with those behind it. A line without more words is in no report here.
pub(crate) fn word(words: Words) -> Result<(&[u8], Words), Bad>
    ensures { MatchResult result (λ x. left words.entry ≡ x.0.now ∷ left x.1) (λ e. (e ≡ Line) × (left words.entry ≡ [])) }
{
    match next(words) {
        Some((word, rest)) => Ok((word, rest)),
        None => Err(Bad::Line),
    }
}

/// The words behind the next one, which is this.
pub(crate) fn expect<'a>(words: Words<'a>, wanted: &[u8]) -> Result<Words<'a>, Bad>
    ensures { Gives (λ x. left x) result (text_at wanted.now (left words.entry)) }
{
    let (found, rest) = word(words)?;
    if is_same(found, wanted) {
        Ok(rest)
    } else {
        Err(Bad::Line)
    }
}

/// The line ends here.
pub(crate) fn end(words: Words) -> Result<(), Bad>
    ensures { MatchResult result (λ _. is_end (left words.entry) ≡ true) (λ e. (e ≡ Line) × (is_end (left words.entry) ≡ false)) }
{
    match next(words) {
        None => Ok(()),
        Some(_) => Err(Bad::Line),
    }
}
