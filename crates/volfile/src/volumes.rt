ghost use Rattle.std.specs.Prelude.{◌≡◌};
ghost use Rattle.std.specs.Option.{option_copied};
ghost use Rattle.volfile.specs.Options.{last_value};

use crate::forms::is_same;
use fop_types::Seq;

/// An option of a volume.
#[derive(Drop)]
pub struct OptionLine {
    pub key: Seq<u8>,
    pub value: Seq<u8>,
}

/// A volume of a volfile: one translator of a graph. `line` is the number of its `volume` line, from 1;
/// `kind` its type, as `cluster/replicate`; `options` all of its option lines in order, of which the last
/// with a key counts; `subvolumes` the names of what is below it.
#[derive(Drop)]
pub struct Volume {
    pub line: u32,
    pub name: Seq<u8>,
    pub kind: Seq<u8>,
    pub options: Seq<OptionLine>,
    pub subvolumes: Seq<Seq<u8>>,
}

/// A volfile: its volumes in order, each above those that it names. The last one is the top.
#[derive(Drop)]
pub struct Volfile {
    pub volumes: Seq<Volume>,
}

/// The value that an option has: that of the last line with its key, and `None` where there is none.
pub fn option_value<'a>(volume: &'a Volume, key: &[u8]) -> Option<&'a Seq<u8>>
    ensures { option_copied result ≡ last_value volume.now.options key.now }
{
    let options = volume.options.as_slice();
    let mut at = options.len();
    while at > 0 {
        at -= 1;
        let option = &options[at];
        if is_same(option.key.as_slice(), key) {
            return Some(&option.value);
        }
    }
    None
}
