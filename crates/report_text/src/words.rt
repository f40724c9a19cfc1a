ghost use Rattle.std.specs.Prelude.{◌≡◌, ◌++◌, OnOk};
ghost use Rattle.report_text.specs.Words.{cell_text, aspect_word, kind_word, cause_word, places_text};

use crate::text::Text;
use fop_types::{Aspect, Cell, Kind, SkipCause};
use std::alloc::AllocError;

impl Text {
    /// A cell: its gfid in 32 hexadecimal digits, and its aspect.
    pub fn cell(&mut self, cell: &Cell) -> Result<(), AllocError>
        ensures { OnOk result (self.new ≡ self.old ++ cell_text cell.now) }
    {
        self.hex(16, cell.gfid.hi)?;
        self.hex(16, cell.gfid.lo)?;
        self.put(b"/")?;
        self.put(aspect(cell.aspect).as_bytes())
    }

    /// A call's places, or a dash where it has none.
    pub fn places(&mut self, places: &[u32]) -> Result<(), AllocError>
        ensures { OnOk result (self.new ≡ self.old ++ places_text places.now) }
    {
        if places.is_empty() {
            self.put(b"-")
        } else {
            self.numbers(places)
        }
    }
}

fn aspect(aspect: Aspect) -> &'static str
    ensures { result.now ≡ aspect_word aspect }
{
    match aspect {
        Aspect::Data => "data",
        Aspect::Meta => "metadata",
        Aspect::Entry => "entry",
    }
}

pub(crate) fn kind_name(kind: Kind) -> &'static str
    ensures { result.now ≡ kind_word kind }
{
    match kind {
        Kind::File => "file",
        Kind::Dir => "dir",
        Kind::Link => "link",
    }
}

pub(crate) fn cause_name(cause: SkipCause) -> &'static str
    ensures { result.now ≡ cause_word cause }
{
    match cause {
        SkipCause::Majority => "majority",
        SkipCause::Unsettled => "unsettled",
        SkipCause::Split => "split",
    }
}
