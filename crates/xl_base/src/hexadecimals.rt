ghost use Rattle.std.specs.Prelude.{◌≡◌, ◌*◌, ◌+◌, ◌<◌, true, IfOk};
ghost use Rattle.std.specs.Option.{option_map};
ghost use Rattle.std.specs.List.{list_all};
ghost use Rattle.xl_base.specs.Words.{hex_of, hex_value, is_hex_digit};

use std::alloc::{AllocError, Global};

/// The bytes that a word writes in pairs of hexadecimal digits, the high four bits first. The empty
/// word writes no bytes.
///
/// `None` exactly where the word is not an even number of lower case hexadecimal digits.
///
/// # Errors
/// Out of memory.
pub fn hex(alloc: Global, word: &[u8]) -> Result<Option<Vec<u8>>, AllocError>
    ensures { IfOk result (λ found. option_map (λ bytes. bytes.items) found ≡ hex_of word.now) }
{
    if !are_hex_digits(word) || word.len() % 2 != 0 {
        return Ok(None);
    }
    let mut bytes = Vec::with_capacity(alloc, word.len() / 2)?;
    let mut at = 0;
    while at + 1 < word.len() {
        bytes.push(byte_of(word[at], word[at + 1]))?;
        at += 2;
    }
    Ok(Some(bytes))
}

fn are_hex_digits(word: &[u8]) -> bool
    ensures { result ≡ list_all is_hex_digit word.now }
{
    word.iter().all(|b| (b'0' <= *b && *b <= b'9') || (b'a' <= *b && *b <= b'f'))
}

fn byte_of(high: u8, low: u8) -> u8
    requires high { is_hex_digit high ≡ true }
    requires low { is_hex_digit low ≡ true }
    ensures { result ≡ hex_value high * 16 + hex_value low }
{
    digit_value(high) * 16 + digit_value(low)
}

fn digit_value(digit: u8) -> u8
    requires { is_hex_digit digit ≡ true }
    ensures value { result ≡ hex_value digit }
    ensures small { result < 16 }
{
    if digit <= b'9' {
        digit - b'0'
    } else {
        digit - b'a' + 10
    }
}
