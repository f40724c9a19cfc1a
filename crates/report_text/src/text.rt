ghost use Rattle.std.specs.Prelude.{◌≡◌, ◌++◌, ◌<◌, [], false, OnOk, flat_map};
ghost use Rattle.std.specs.Fmt.{decimal, digits, digit_glyph};
ghost use Rattle.report_text.specs.Words.{hex_of, bytes_hex, numbers_text, after_comma};

use itoa::Buffer;
use std::alloc::{AllocError, Global};
use std::marker::Model;

/// A text as it grows: one list of bytes, seen as its bytes.
#[derive(Drop)]
pub(crate) struct Text {
    bytes: Vec<u8>,
}

impl Model for Text {
    ghost use Rattle.std.specs.Prelude.{ℕ, List};

    ghost Value = { List ℕ };

    ghost view = { λ t. t.bytes.items };
}

impl Text {
    pub fn new(alloc: Global) -> Text
        ensures { result ≡ [] }
    {
        Text {
            bytes: Vec::new(alloc),
        }
    }

    pub fn into_bytes(self) -> Vec<u8>
        ensures { result.items ≡ self }
    {
        self.bytes
    }

    pub fn put(&mut self, word: &[u8]) -> Result<(), AllocError>
        ensures { OnOk result (self.new ≡ self.old ++ word.now) }
    {
        self.bytes.extend_from_slice(word)
    }

    /// A number in decimal.
    pub fn number(&mut self, number: u64) -> Result<(), AllocError>
        ensures { OnOk result (self.new ≡ self.old ++ decimal number) }
    {
        let mut buffer = Buffer::new();
        self.put(buffer.format(number).as_bytes())
    }

    /// A number in octal, without leading zeros.
    #[tactic(auto, using(crate::proofs::Octal::octal_digit))]
    pub fn octal(&mut self, number: u16) -> Result<(), AllocError>
        ensures { OnOk result (self.new ≡ self.old ++ digits 8 false number) }
    {
        if number < 8 {
            self.put(&[b'0' + number as u8])?;
            return Ok(());
        }
        self.octal(number / 8)?;
        self.put(&[b'0' + (number % 8) as u8])?;
        Ok(())
    }

    /// The last `count` hexadecimal digits of a number, with leading zeros.
    pub fn hex(&mut self, count: u8, number: u64) -> Result<(), AllocError>
        ensures { OnOk result (self.new ≡ self.old ++ hex_of count number) }
    {
        if count == 0 {
            return Ok(());
        }
        self.hex(count - 1, number / 16)?;
        self.put(&[hex_digit((number % 16) as u8)])?;
        Ok(())
    }

    /// Each byte as two hexadecimal digits.
    pub fn hex_bytes(&mut self, bytes: &[u8]) -> Result<(), AllocError>
        ensures { OnOk result (self.new ≡ self.old ++ bytes_hex bytes.now) }
    {
        for byte in bytes {
            self.put(&[hex_digit(*byte / 16), hex_digit(*byte % 16)])?;
        }
        Ok(())
    }

    /// Numbers in decimal, with a comma between each two.
    pub fn numbers(&mut self, numbers: &[u32]) -> Result<(), AllocError>
        ensures { OnOk result (self.new ≡ self.old ++ numbers_text numbers.now) }
    {
        match numbers {
            [] => Ok(()),
            [first, rest @ ..] => {
                self.number(*first as u64)?;
                self.later_numbers(rest)
            }
        }
    }

    fn later_numbers(&mut self, numbers: &[u32]) -> Result<(), AllocError>
        ensures { OnOk result (self.new ≡ self.old ++ flat_map after_comma numbers.now) }
    {
        for number in numbers {
            self.put(b",")?;
            self.number(*number as u64)?;
        }
        Ok(())
    }
}

fn hex_digit(value: u8) -> u8
    requires { value < 16 }
    ensures { result ≡ digit_glyph false value }
{
    if value < 10 {
        b'0' + value
    } else {
        b'a' - 10 + value
    }
}
