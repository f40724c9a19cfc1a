ghost use Rattle.std.specs.Prelude.{◌≡◌, ◌≤◌, length, false};
ghost use Rattle.std.specs.List.{list_all};
ghost use Rattle.volfile.specs.TextLines.{is_text_byte as is_byte_of_text};
ghost use Rattle.volfile.specs.VolfileText.{before_comment as front_of, is_no_backquote};

use crate::forms::is_text_byte;

// A line without its comment.
pub(crate) fn before_comment(line: &[u8]) -> &[u8]
    ensures { result.now ≡ front_of false line.now }
{
    &line[..len_to_comment(line)]
}

// How many bytes are before the first comment sign outside a quoted text.
fn len_to_comment(line: &[u8]) -> usize
    ensures len { result ≡ length (front_of false line.now) }
    ensures within { result ≤ length line.now }
{
    let mut inside = false;
    let mut at = 0;
    while at < line.len() {
        let byte = line[at];
        if byte == b'#' && !inside {
            return at;
        }
        if byte == b'"' {
            inside = !inside;
        }
        at += 1;
    }
    at
}

pub(crate) fn are_text_bytes(line: &[u8]) -> bool
    ensures { result ≡ list_all is_byte_of_text line.now }
{
    line.iter().all(|b| is_text_byte(*b))
}

pub(crate) fn has_no_backquote(line: &[u8]) -> bool
    ensures { result ≡ list_all is_no_backquote line.now }
{
    line.iter().all(|b| *b != b'`')
}
