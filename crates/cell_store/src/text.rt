ghost use Rattle.std.specs.Prelude.{◌≡◌, ◌++◌, ◌<◌, [], false, OnOk};
ghost use Rattle.std.specs.Fmt.{digit_glyph};
ghost use Rattle.cell_store.specs.Dump.{hex as hex_of, gfid_text, attribute_line, words_line};

use fop_types::Gfid;
use std::alloc::{AllocError, Global};
use std::marker::Model;

/// A text as it grows: one list of bytes, seen as its bytes.
#[derive(Drop)]
pub(crate) struct Text {
    bytes: Vec<u8>,
}

impl Model for Text {
    ghost use Rattle.std.specs.Prelude.{ℕ, List};

    ghost Value = { List ℕ };

    ghost view = { λ t. t.bytes.items };
}

fn hex_digit(value: u8) -> u8
    requires { value < 16 }
    ensures { result ≡ digit_glyph false value }
{
    if value < 10 {
        b'0' + value
    } else {
        b'a' - 10 + value
    }
}

impl Text {
    pub fn new(alloc: Global) -> Text
        ensures { result ≡ [] }
    {
        Text {
            bytes: Vec::new(alloc),
        }
    }

    pub fn into_bytes(self) -> Vec<u8>
        ensures { result.items ≡ self }
    {
        self.bytes
    }

    pub fn put(&mut self, word: &[u8]) -> Result<(), AllocError>
        ensures { OnOk result (self.new ≡ self.old ++ word.now) }
    {
        self.bytes.extend_from_slice(word)
    }

    /// Each byte as two hexadecimal digits.
    #[tactic(auto, unfolding(crate::specs::Dump::hex))]
    pub fn hex(&mut self, bytes: &[u8]) -> Result<(), AllocError>
        ensures { OnOk result (self.new ≡ self.old ++ hex_of bytes.now) }
    {
        for byte in bytes {
            self.put(&[hex_digit(*byte / 16), hex_digit(*byte % 16)])?;
        }
        Ok(())
    }

    #[tactic(auto, unfolding(crate::specs::Dump::gfid_text))]
    pub fn gfid(&mut self, gfid: Gfid) -> Result<(), AllocError>
        ensures { OnOk result (self.new ≡ self.old ++ gfid_text gfid) }
    {
        self.hex(&gfid.hi.to_be_bytes())?;
        self.hex(&gfid.lo.to_be_bytes())
    }

    /// A line of an attribute: the object, the name of the attribute in two parts, and its value.
    #[tactic(auto, unfolding(crate::specs::Dump::attribute_line))]
    pub fn attribute(
        &mut self,
        gfid: Gfid,
        space: &[u8],
        name: &[u8],
        value: &[u8],
    ) -> Result<(), AllocError>
        ensures { OnOk result (self.new ≡ self.old ++ attribute_line gfid space.now name.now value.now) }
    {
        self.gfid(gfid)?;
        self.put(space)?;
        self.put(name)?;
        self.put(b" ")?;
        self.hex(value)?;
        self.put(b"\n")
    }

    /// A line of an object and words.
    #[tactic(auto, unfolding(crate::specs::Dump::words_line))]
    pub fn words(
        &mut self,
        gfid: Gfid,
        a: &[u8],
        b: &[u8],
        c: &[u8],
        d: &[u8],
    ) -> Result<(), AllocError>
        ensures { OnOk result (self.new ≡ self.old ++ words_line gfid a.now b.now c.now d.now) }
    {
        self.gfid(gfid)?;
        self.put(a)?;
        self.put(b)?;
        self.put(c)?;
        self.put(d)?;
        self.put(b"\n")
    }
}
