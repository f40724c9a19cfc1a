ghost use Rattle.std.specs.Prelude.{◌≡◌, ◌≤◌, ◌+◌, length};
ghost use Rattle.dht_fops.specs.code.Purposes.{IsSecondSet};

use crate::purpose::Purpose;
use dht_linkto::SetNames;
use fop_types::{Gfid, Seq, Span};
use std::marker::Model;

/// The reading of a directory's layout, for a look at a name: the ranges of the sets so far, the set that is read next, and
/// how many sets there are.
#[derive(Drop)]
pub(crate) struct SpansRead {
    pub dir: Gfid,
    pub name: Seq<u8>,
    pub names: SetNames,
    pub purpose: Purpose,
    pub spans: Seq<Option<Span>>,
    pub next: u8,
    pub count: u8,
}

/// The reading of a layout that waits for a set, the one before the next. Contracts see what it reads.
#[derive(Drop)]
pub(crate) struct PendingSpans {
    read: SpansRead,
}

impl Model for PendingSpans {
    ghost use Rattle.std.specs.Prelude.{◌≡◌, ◌≤◌, ◌+◌, length};
    ghost use Rattle.dht_fops.specs.code.Purposes.{IsSecondSet};
    ghost use Rattle.dht_fops.specs.declared.spans_read.SpansRead.{SpansRead};

    ghost Value = { SpansRead };

    ghost view = { λ p. p.read };

    ghost invariant = { λ p. record {
      sets : p.read.count ≡ length p.read.names;
      spans : length p.read.spans + 1 ≡ p.read.next;
      within : p.read.next ≤ p.read.count;
      second : IsSecondSet p.read.purpose (length p.read.names);
    } };
}

impl PendingSpans {
    pub fn new(read: SpansRead) -> PendingSpans
        requires sets { read.count ≡ length read.names }
        requires spans { length read.spans + 1 ≡ read.next }
        requires within { read.next ≤ read.count }
        requires second { IsSecondSet read.purpose (length read.names) }
        ensures { result ≡ read }
    {
        PendingSpans { read }
    }

    pub fn read(self) -> SpansRead
        ensures read { result ≡ self }
        ensures sets { result.count ≡ length result.names }
        ensures spans { length result.spans + 1 ≡ result.next }
        ensures within { result.next ≤ result.count }
        ensures second { IsSecondSet result.purpose (length result.names) }
    {
        self.read
    }
}
