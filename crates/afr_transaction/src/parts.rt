ghost use Rattle.std.specs.Prelude.{◌≡◌, IfOk, OnOk};
ghost use Rattle.afr_phases.specs.Flags.{both, but_for};
ghost use Rattle.afr_transaction.specs.Reads.{sound_on};
ghost use Rattle.afr_transaction.specs.Parts.{common_of, is_unsound, is_split, sources_for, same_flags, joined, place_of, with_copy, all_parts};

use crate::phase::Part;
use crate::txn::Txn;
use afr_phases::{Flags, both, but_for, lowest};
use fop_types::{Cell, Seq};
use std::alloc::{AllocError, Global};

impl Txn {
    /// The replicas that are sound on all cells.
    pub(crate) fn common(&self) -> Flags
        ensures { result ≡ common_of self.now }
    {
        let mut common = Common { flags: [true; 5] };
        let mut c = 0;
        for _cell in self.cells.as_slice() {
            common.narrow(self.sound_on(c));
            c += 1;
        }
        common.flags
    }

    /// Whether some cell has no sound replica.
    pub(crate) fn is_split(&self) -> bool
        ensures { result ≡ is_split self.now 0 self.now.cells }
    {
        let mut c = 0;
        for _cell in self.cells.as_slice() {
            if self.is_unsound(c) {
                return true;
            }
            c += 1;
        }
        false
    }

    #[tactic(auto, unfolding(crate::specs::Parts::is_unsound))]
    fn is_unsound(&self, c: usize) -> bool
        ensures { result ≡ is_unsound self.now c }
    {
        lowest(&self.sound_on(c)).is_none()
    }

    /// All copies of a lock phase.
    ///
    /// # Errors
    /// Out of memory.
    pub(crate) fn all_parts(&self, alloc: Global) -> Result<Seq<Part>, AllocError>
        ensures { IfOk result (λ parts. parts ≡ all_parts self.now) }
    {
        let common = self.common();
        let mut parts = Seq::new(alloc);
        let mut c = 0;
        for cell in self.cells.as_slice() {
            self.add_copy(alloc, &mut parts, *cell, c, common)?;
            c += 1;
        }
        Ok(parts)
    }

    // The copy of one cell.
    fn add_copy(
        &self,
        alloc: Global,
        parts: &mut Seq<Part>,
        cell: Cell,
        c: usize,
        common: Flags,
    ) -> Result<(), AllocError>
        ensures { OnOk result (parts.new ≡ with_copy parts.old cell (sources_for common (sound_on self.now c)) (but_for self.now.shown.reached (sound_on self.now c))) }
    {
        let sound = self.sound_on(c);
        let sinks = but_for(self.shown.reached, sound);
        if lowest(&sinks).is_none() {
            return Ok(());
        }
        let sources = sources_for(common, sound);
        join_copy(alloc, parts, cell, sources, sinks)
    }
}

// The replicas that are sound on all cells so far.
#[derive(Clone, Copy)]
struct Common {
    flags: [bool; 5],
}

impl Common {
    fn narrow(&mut self, sound: Flags)
        ensures { self.new.flags ≡ both self.old.flags sound }
    {
        self.flags = both(self.flags, sound);
    }
}

// The sources of a cell.
fn sources_for(common: Flags, sound: Flags) -> Flags
    ensures { result ≡ sources_for common sound }
{
    if lowest(&common).is_none() {
        sound
    } else {
        common
    }
}

// A cell joins the first part with its sources and sinks, or makes a part of its own.
fn join_copy(
    alloc: Global,
    parts: &mut Seq<Part>,
    cell: Cell,
    sources: Flags,
    sinks: Flags,
) -> Result<(), AllocError>
    ensures { OnOk result (parts.new ≡ joined parts.old cell sources sinks) }
{
    let place = place_of(parts.as_slice(), sources, sinks);
    if place < parts.len() {
        let mut part = parts.remove(place);
        part.cells.push(cell)?;
        parts.insert(place, part)?;
        return Ok(());
    }
    let mut cells = Seq::new(alloc);
    cells.push(cell)?;
    parts.push(Part {
        cells,
        sources,
        sinks,
    })?;
    Ok(())
}

// The first part with these sources and sinks, or the number of parts.
fn place_of(parts: &[Part], sources: Flags, sinks: Flags) -> usize
    ensures { result ≡ place_of parts.now sources sinks }
{
    let mut place = 0;
    for part in parts {
        if same_flags(part.sources, sources) && same_flags(part.sinks, sinks) {
            return place;
        }
        place += 1;
    }
    place
}

fn same_flags(one: Flags, other: Flags) -> bool
    ensures { result ≡ same_flags one other }
{
    let [a, b, c, d, e] = one;
    let [f, g, h, i, j] = other;
    a == f && b == g && c == h && d == i && e == j
}
