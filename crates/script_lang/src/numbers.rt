ghost use Rattle.std.specs.Prelude.{◌≡◌};
ghost use Rattle.std.specs.List.{list_all};
ghost use Rattle.script_lang.specs.WordForms.{fd_at, is_octal, mode_at, nine_bits, number_at, octal_after};

use xl_base::decimal;

// The number that the word writes, where it is between these bounds.
pub(crate) fn number_of(low: u32, high: u32, word: &[u8]) -> Option<u32>
    ensures { result ≡ number_at low high word.now }
{
    match decimal(word) {
        Some(n) => {
            if low as u64 <= n && n <= high as u64 {
                Some(n as u32)
            } else {
                None
            }
        }
        None => None,
    }
}

// A session's own number of a descriptor.
pub(crate) fn fd_of(word: &[u8]) -> Option<u8>
    ensures { result ≡ fd_at word.now }
{
    match decimal(word) {
        Some(n) => { if n <= 255 { Some(n as u8) } else { None } }
        None => None,
    }
}

// The mode that one to four octal digits write, up to 777 octal.
pub(crate) fn mode_of(word: &[u8]) -> Option<u16>
    ensures { result ≡ mode_at word.now }
{
    if 1 <= word.len() && word.len() <= 4 && are_octal(word) {
        octal(word)
    } else {
        None
    }
}

fn are_octal(digits: &[u8]) -> bool
    ensures { result ≡ list_all is_octal digits.now }
{
    digits.iter().all(|b| b'0' <= *b && *b <= b'7')
}

// The number that the digits write, up to 777 octal.
fn octal(digits: &[u8]) -> Option<u16>
    ensures { result ≡ nine_bits (octal_after 0 digits.now) }
{
    let mut value: u16 = 0;
    for digit in digits {
        value = value * 8 + digit.saturating_sub(b'0') as u16;
        if value > 0o777 {
            return None;
        }
    }
    Some(value)
}
