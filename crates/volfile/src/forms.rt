ghost use Rattle.std.specs.Prelude.{◌≡◌};
ghost use Rattle.std.specs.List.{list_all};
ghost use Rattle.volfile.specs.TextLines.{is_name as is_name_of, is_name_byte as is_byte_of_name, is_text, is_text_byte as is_byte_of_text, is_visible, is_visible_word as is_word_of};

/// Whether a word is a name: 1 to 64 letters, digits, `_`, `-` and `.`.
pub fn is_name(word: &[u8]) -> bool
    ensures { result ≡ is_name_of word.now }
{
    1 <= word.len() && word.len() <= 64 && are_name_bytes(word)
}

fn are_name_bytes(word: &[u8]) -> bool
    ensures { result ≡ list_all is_byte_of_name word.now }
{
    word.iter().all(|b| is_name_byte(*b))
}

fn is_name_byte(byte: u8) -> bool
    ensures { result ≡ is_byte_of_name byte }
{
    (b'a' <= byte && byte <= b'z')
        || (b'A' <= byte && byte <= b'Z')
        || (b'0' <= byte && byte <= b'9')
        || byte == b'_'
        || byte == b'-'
        || byte == b'.'
}

/// Whether a word is one or more of the bytes 33 to 126.
pub fn is_visible_word(word: &[u8]) -> bool
    ensures { result ≡ is_word_of word.now }
{
    1 <= word.len() && are_visible(word)
}

fn are_visible(word: &[u8]) -> bool
    ensures { result ≡ list_all is_visible word.now }
{
    word.iter().all(|b| 33 <= *b && *b <= 126)
}

/// Whether a byte may be in a text: 32 to 126, tab, carriage return.
pub fn is_text_byte(byte: u8) -> bool
    ensures { result ≡ is_byte_of_text byte }
{
    (32 <= byte && byte <= 126) || byte == b'\t' || byte == b'\r'
}

/// Whether a word is this text.
pub fn is_same(word: &[u8], text: &[u8]) -> bool
    ensures { result ≡ is_text word.now text.now }
{
    word == text
}
