//! The cells that bricks have listed to internal calls.
ghost use Rattle.std.specs.Prelude.{◌≡◌, ◌≢◌, List, [], true, Some, slice_get, IfOk, IfSome, IfNone, OnOk};
ghost use Rattle.fop_types.specs.declared.cells.Cell.{Cell as Part};
ghost use Rattle.fop_types.specs.declared.messages.BrickRep.TheVariants.{Done};
ghost use Rattle.fop_types.specs.declared.messages.DoneArm.TheVariants.{Cells};
ghost use Rattle.fop_types.specs.declared.messages.OutKind.TheVariants.{Reply};
ghost use Rattle.mount_log.specs.declared.logs.HubEvent.TheVariants.{Arrive};
ghost use Rattle.wire_xdr.specs.WireText.{output_text};
ghost use Rattle.change_audit.specs.Listings.{event_of, AddsCell, AddsCells, AreListings};

use crate::answers::reply_wind;
use crate::arrivals::{arrived, written_output};
use crate::finding::{Opening, openings_of};
use crate::index_requests::is_asked;
use brick_machine::Brick;
use fop_types::{BrickRep, Cell, DoneArm, OutKind, Output};
use mount_log::by_place::event_at;
use mount_log::{HubEvent, Log};
use std::alloc::{AllocError, Global};
use std::collections::BTreeMap;
use std::marker::Model;

/// The place of the event in which each cell was listed first. Contracts see the places with their cells.
#[derive(Drop)]
pub struct Listings {
    events: BTreeMap<Cell, usize>,
}

impl Model for Listings {
    ghost use Rattle.std.specs.Prelude.{List, ℕ};
    ghost use Rattle.fop_types.specs.declared.cells.Cell.{Cell};

    ghost Value = { List (Cell × ℕ) };

    ghost view = { λ l. l.events.entries };
}

// ---- lists that arrived

fn cells_in(arm: &DoneArm) -> Option<&[Cell]>
    ensures found { IfSome result (λ cells. arm.now ≡ Cells cells.now) }
    ensures none { IfNone result ((cells : List Part) → arm.now ≢ Cells cells) }
{
    match arm {
        DoneArm::Cells(cells) => Some(cells.as_slice()),
        _ => None,
    }
}

fn cells_of(rep: &BrickRep) -> Option<&[Cell]>
    ensures found { IfSome result (λ cells. rep.now ≡ Done (Cells cells.now)) }
    ensures none { IfNone result ((cells : List Part) → rep.now ≢ Done (Cells cells)) }
{
    match rep {
        BrickRep::Done(arm) => cells_in(arm),
        _ => None,
    }
}

// The list of a reply on this wind.
fn list_on(kind: &OutKind, on: u64) -> Option<&[Cell]>
    ensures found { IfSome result (λ cells. kind.now ≡ Reply on (Done (Cells cells.now))) }
    ensures none { IfNone result ((cells : List Part) → kind.now ≢ Reply on (Done (Cells cells))) }
{
    match kind {
        OutKind::Reply { wind, rep } => { if *wind == on { cells_of(rep) } else { None } }
        _ => None,
    }
}

// ---- the cells of all lists

fn cell_at(cells: &[Cell], k: usize) -> Option<Cell>
    ensures { result ≡ slice_get cells.now k }
{
    cells.get(k).copied()
}

#[tactic(auto, using(crate::proofs::ListedCells::adds_none, crate::proofs::ListedCells::adds_one, crate::proofs::ListedCells::adds_so_far, crate::proofs::ListedCells::adds_next, crate::proofs::ListedCells::list_read))]
impl Listings {
    fn note(&mut self, cell: Cell, event: usize) -> Result<(), AllocError>
        ensures { OnOk result (AddsCell self.old self.new cell event) }
    {
        if self.events.contains_key(&cell) {
            return Ok(());
        }
        self.events.insert(cell, event)?;
        Ok(())
    }

    fn note_all(&mut self, cells: &[Cell], event: usize) -> Result<(), AllocError>
        ensures { OnOk result (AddsCells self.old self.new cells.now event) }
    {
        for k in 0..cells.len() {
            let Some(cell) = cell_at(cells, k) else {
                return Ok(());
            };
            self.note(cell, event)?;
        }
        Ok(())
    }

    // The cells of the list that an output is, if it answers the index of an internal call.
    fn read_output(
        &mut self,
        alloc: Global,
        log: &Log,
        bricks: &[Brick],
        openings: &BTreeMap<u64, Opening>,
        event: usize,
        brick: u8,
        bytes: &[u8],
        output: &Output,
    ) -> Result<(), AllocError>
        requires arrived { slice_get log.now.events event ≡ Some (Arrive brick bytes.now) }
        requires read { bytes.now ≡ output_text output.now }
        ensures { OnOk result (AreListings log.now bricks.now self.old → AreListings log.now bricks.now self.new) }
    {
        let _ = bytes;
        let Some(wind) = reply_wind(&output.kind) else {
            return Ok(());
        };
        let Some(cells) = list_on(&output.kind, wind) else {
            return Ok(());
        };
        if !is_asked(alloc, log, bricks, openings, brick, output.taken, wind)? {
            return Ok(());
        }
        self.note_all(cells, event)?;
        Ok(())
    }

    // The cells of the list that arrived from a brick in the event at a place, if one did.
    fn read_from(
        &mut self,
        alloc: Global,
        log: &Log,
        bricks: &[Brick],
        openings: &BTreeMap<u64, Opening>,
        event: usize,
        brick: u8,
    ) -> Result<(), AllocError>
        ensures { OnOk result (AreListings log.now bricks.now self.old → AreListings log.now bricks.now self.new) }
    {
        let Some(bytes) = arrived(log, event, brick) else {
            return Ok(());
        };
        match written_output(alloc, bytes)? {
            Some(output) => {
                let done = self.read_output(
                    alloc, log, bricks, openings, event, brick, bytes, &output,
                );
                drop(output);
                done
            }
            None => Ok(()),
        }
    }

    fn read(
        &mut self,
        alloc: Global,
        log: &Log,
        bricks: &[Brick],
        openings: &BTreeMap<u64, Opening>,
        event: usize,
    ) -> Result<(), AllocError>
        ensures { OnOk result (AreListings log.now bricks.now self.old → AreListings log.now bricks.now self.new) }
    {
        match event_at(log, event) {
            Some(HubEvent::Arrive { brick, .. }) => {
                self.read_from(alloc, log, bricks, openings, event, *brick)
            }
            _ => Ok(()),
        }
    }

    /// The place of the event in which a cell was listed.
    pub(crate) fn get(&self, cell: &Cell) -> Option<usize>
        ensures { result ≡ event_of self.now cell.now }
    {
        self.events.get(cell).copied()
    }
}

// The lists of all events are read.
fn read_all(
    alloc: Global,
    log: &Log,
    bricks: &[Brick],
    openings: &BTreeMap<u64, Opening>,
) -> Result<Listings, AllocError>
    ensures { IfOk result (λ listings. AreListings log.now bricks.now listings) }
{
    let mut listings = Listings {
        events: BTreeMap::new(alloc),
    };
    for event in 0..log.events.len() {
        listings.read(alloc, log, bricks, openings, event)?;
    }
    Ok(listings)
}

/// The cells that bricks have listed, if the log has skips.
///
/// # Errors
/// Out of memory.
pub(crate) fn listings_of(
    alloc: Global,
    log: &Log,
    bricks: &[Brick],
) -> Result<Listings, AllocError>
    ensures { IfOk result (λ listings. AreListings log.now bricks.now listings) }
{
    if log.skips.is_empty() {
        return Ok(Listings {
            events: BTreeMap::new(alloc),
        });
    }
    let openings = openings_of(alloc, log.winds.as_slice())?;
    let listings = read_all(alloc, log, bricks, &openings);
    drop(openings);
    listings
}
