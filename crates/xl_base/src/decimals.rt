ghost use Rattle.std.specs.Prelude.{◌≡◌, ◌*◌, ◌+◌, ◌-◌};
ghost use Rattle.std.specs.List.{list_all};
ghost use Rattle.xl_base.specs.Words.{decimal_of, fitting, has_decimal_form as has_form, is_digit as is_digit_byte, number_of};

/// The number that a word writes in decimal digits, as every text of the program writes numbers.
///
/// `None` exactly where the word is not 1 to 20 digits of a number below 2^64, or has a leading zero
/// and a second digit.
pub fn decimal(word: &[u8]) -> Option<u64>
    ensures { result ≡ decimal_of word.now }
{
    if has_decimal_form(word) {
        number(word)
    } else {
        None
    }
}

fn has_decimal_form(word: &[u8]) -> bool
    ensures { result ≡ has_form word.now }
{
    1 <= word.len() && word.len() <= 20 && are_digits(word) && (word.len() == 1 || word[0] != b'0')
}

fn are_digits(word: &[u8]) -> bool
    ensures { result ≡ list_all is_digit_byte word.now }
{
    word.iter().all(|b| b'0' <= *b && *b <= b'9')
}

// The number that the digits write, where it fits 64 bits.
fn number(digits: &[u8]) -> Option<u64>
    ensures { result ≡ fitting (number_of digits.now) }
{
    let mut value: u64 = 0;
    for digit in digits {
        match with_digit(value, *digit) {
            Some(next) => value = next,
            None => return None,
        }
    }
    Some(value)
}

// The number with one more digit after it, where it fits 64 bits.
fn with_digit(value: u64, digit: u8) -> Option<u64>
    ensures { result ≡ fitting (value * 10 + (digit - 48)) }
{
    let tens = value.checked_mul(10)?;
    tens.checked_add(digit.saturating_sub(b'0') as u64)
}
