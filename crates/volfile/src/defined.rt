ghost use Rattle.std.specs.Prelude.{◌≡◌, ◌++◌, [], ◌∷◌, length, None, OnOk, OnErr, IfErr};
ghost use Rattle.volfile.specs.VolumeNames.{place_of};
ghost use Rattle.volfile.specs.VolfileText.{is_defined};

use crate::names::VolumeNames;
use crate::volumes::Volume;
use std::alloc::{AllocError, AllocFailed, Global};
use std::marker::Model;

// The volumes whose blocks have ended, each with a name of its own, and where each name is. Contracts
// see it as the list of the volumes.
#[derive(Drop)]
pub(crate) struct Defined {
    volumes: Vec<Volume>,
    names: VolumeNames,
}

impl Model for Defined {
    ghost use Rattle.std.specs.Prelude.{◌≡◌, ℕ, List};
    ghost use Rattle.volfile.specs.VolumeNames.{place_in, place_of};
    ghost use Rattle.volfile.specs.declared.volumes.Volume.{Volume as VolumeOf};

    ghost Value = { List VolumeOf };

    ghost view = { λ d. d.volumes.items };

    ghost invariant = { λ d. (q : List ℕ) → place_in d.names q ≡ place_of q d.volumes.items };
}

impl Defined {
    pub(crate) fn new(alloc: Global) -> Defined
        ensures { result ≡ [] }
    {
        Defined {
            volumes: Vec::new(alloc),
            names: VolumeNames::new(alloc),
        }
    }

    // Whether a volume has the name.
    pub(crate) fn has(&self, name: &[u8]) -> bool
        ensures { result ≡ is_defined self.now name.now }
    {
        self.names.find(name).is_some()
    }

    pub(crate) fn len(&self) -> usize
        ensures { result ≡ length self.now }
    {
        self.volumes.len()
    }

    // Adds a volume. Where memory runs out it comes back in the error.
    pub(crate) fn push(&mut self, alloc: Global, volume: Volume) -> Result<(), AllocFailed<Volume>>
        requires fresh { place_of volume.name self.old ≡ None }
        ensures ok { OnOk result (self.new ≡ self.old ++ volume ∷ []) }
        ensures err { OnErr result (self.new ≡ self.old) }
        ensures value_returned { IfErr result (λ y. y.value ≡ volume) }
    {
        if self.volumes.reserve(1).is_err() {
            return Err(AllocFailed { value: volume });
        }
        let place = self.volumes.len();
        match self.names.add(alloc, volume.name.as_slice(), place) {
            Err(_) => Err(AllocFailed { value: volume }),
            Ok(()) => {
                self.volumes.push_reserved(volume);
                Ok(())
            }
        }
    }

    pub(crate) fn into_volumes(self) -> Vec<Volume>
        ensures { result.items ≡ self }
    {
        self.volumes
    }
}
