ghost use Rattle.std.specs.Prelude.{◌≡◌, ℕ};

use std::cmp::Ordering;

/// The number of a file or directory: 128 bits, as two halves. The root's is 1, and each object that
/// is made has the next number from 2 on.
#[derive(Clone, Copy, PartialEq, Eq, PartialOrd, Ord, Hash)]
pub struct Gfid {
    pub hi: u64,
    pub lo: u64,
}

/// The part of an object that a cell names: a file has data and metadata, a directory has metadata
/// and entries.
#[derive(Clone, Copy)]
pub enum Aspect {
    Data,
    Meta,
    Entry,
}

impl Aspect {
    ghost use Rattle.fop_types.specs.Rank.{rank};

    /// The aspect's number on the wire: 0 data, 1 metadata, 2 entries.
    pub fn rank(self) -> u8
        ensures { result ≡ rank self }
    {
        self as u8
    }
}

impl PartialEq for Aspect {
    ghost use Rattle.std.specs.Prelude.{nat_eq};
    ghost use Rattle.std.specs.Ordering.{on};
    ghost use Rattle.std.specs.Cmp.Rules.{comparing};
    ghost use Rattle.std.proofs.Common.{rules};
    ghost use Rattle.fop_types.specs.Rank.{rank};

    ghost eq = { on rank nat_eq };

    ghost laws = { Prim.search (comparing, rules) };

    fn eq(&self, other: &Aspect) -> bool {
        self.rank() == other.rank()
    }
}

impl Eq for Aspect {
    ghost use Rattle.std.specs.Cmp.Rules.{comparing};
    ghost use Rattle.std.proofs.Common.{rules};

    ghost laws = { Prim.search (comparing, rules) };
}

impl PartialOrd for Aspect {
    ghost use Rattle.std.specs.Ordering.{on, nat_cmp, as_partial_cmp};
    ghost use Rattle.std.specs.Cmp.Rules.{comparing};
    ghost use Rattle.std.proofs.Common.{rules};
    ghost use Rattle.fop_types.specs.Rank.{rank};

    ghost partial_cmp = { as_partial_cmp (on rank nat_cmp) };

    ghost laws = { Prim.search (comparing, rules) };

    fn partial_cmp(&self, other: &Aspect) -> Option<Ordering> {
        Some(self.rank().cmp(&other.rank()))
    }
}

impl Ord for Aspect {
    ghost use Rattle.std.specs.Ordering.{on, nat_cmp};
    ghost use Rattle.std.specs.Cmp.Rules.{comparing};
    ghost use Rattle.std.proofs.Common.{rules};
    ghost use Rattle.fop_types.specs.Rank.{rank};

    ghost cmp = { on rank nat_cmp };

    ghost total = { Prim.search (comparing, rules) };

    ghost matches_partial_cmp = { Prim.search (comparing, rules) };

    ghost matches_eq = { Prim.search (comparing, rules) };

    fn cmp(&self, other: &Aspect) -> Ordering {
        self.rank().cmp(&other.rank())
    }
}

/// One part of one object, the unit of locks, changelog rows and copies. Cells are ordered by gfid and
/// then by aspect.
#[derive(Clone, Copy, PartialEq, Eq, PartialOrd, Ord)]
pub struct Cell {
    pub gfid: Gfid,
    pub aspect: Aspect,
}

/// What a name in a directory means: a file, a directory, or a link, by which distribute points
/// to the set that holds a file.
#[derive(Clone, Copy, PartialEq, Eq)]
pub enum Kind {
    File,
    Dir,
    Link,
}
