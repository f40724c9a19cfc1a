ghost use Rattle.std.specs.Prelude.{◌≡◌};
ghost use Rattle.dht_fops.specs.code.Waits.{watched};

use crate::rename::Source;
use fop_types::{Gfid, Object, Seq};

/// What a name is looked for. A rename looks for two: `second` is the set to which the new name belongs, where that is
/// known before the first was found.
#[derive(Drop)]
pub(crate) enum Purpose {
    Lookup,
    Mkdir {
        mode: u16,
        drawn: Gfid,
    },
    Create {
        mode: u16,
        drawn: Gfid,
    },
    Unlink,
    Rmdir,
    RenameFrom {
        target: Object,
        new_name: Seq<u8>,
        second: Option<u8>,
    },
    RenameTo {
        source: Source,
    },
}

impl Purpose {
    /// The set of which the look wants to know whether it has a copy of the directory.
    pub fn watched(&self) -> u8
        ensures { result ≡ watched self.now }
    {
        match self {
            Purpose::RenameTo { source } => source.set,
            Purpose::Lookup => 0,
            Purpose::Mkdir { mode: _, drawn: _ } => 0,
            Purpose::Create { mode: _, drawn: _ } => 0,
            Purpose::Unlink => 0,
            Purpose::Rmdir => 0,
            Purpose::RenameFrom {
                target: _,
                new_name: _,
                second: _,
            } => 0,
        }
    }
}
