ghost use Rattle.std.specs.Prelude.{◌≡◌, ℕ, List, if◌then◌else◌, Some, OnOk, OnErr};
ghost use Rattle.volfile.specs.TextLines.{is_text};
ghost use Rattle.volfile.specs.VolumeNames.{place_in};

use std::alloc::{AllocError, Global};
use std::collections::BTreeMap;
use std::marker::Model;

/// Names with their numbers. Each call takes time of the order of log n for n names.
///
/// Contracts see it as the list of its names and numbers by rising name.
#[derive(Drop)]
pub struct VolumeNames {
    places: BTreeMap<Vec<u8>, usize>,
}

impl Model for VolumeNames {
    ghost use Rattle.std.specs.Prelude.{map};
    ghost use Rattle.volfile.specs.VolumeNames.{Places};

    ghost Value = { Places };

    ghost view = { λ n. map (λ e. (e.0.items, e.1)) n.places.entries };
}

impl VolumeNames {
    /// No names.
    pub fn new(alloc: Global) -> VolumeNames
        ensures { (name : List ℕ) → place_in result name ≡ None }
    {
        VolumeNames {
            places: BTreeMap::new(alloc),
        }
    }

    /// The number that a name has.
    pub fn find(&self, name: &[u8]) -> Option<usize>
        ensures { result ≡ place_in self.now name.now }
    {
        self.places.get(name).copied()
    }

    /// Gives a name this number, in place of the one that it had.
    ///
    /// # Errors
    /// Out of memory, and nothing is changed.
    pub fn add(&mut self, alloc: Global, name: &[u8], place: usize) -> Result<(), AllocError>
        ensures ok { OnOk result ((other : List ℕ) → place_in self.new other ≡ (if is_text other name.now then Some place else place_in self.old other)) }
        ensures err { OnErr result (self.new ≡ self.old) }
    {
        let key = Vec::from_slice(alloc, name)?;
        self.places.insert(key, place)?;
        Ok(())
    }
}
