//! The winds that a run has handed out of the graph and that are open at their bricks.
ghost use Rattle.std.specs.Prelude.{◌≡◌, ◌<◌, ◌∷◌, [], length, OnOk, IfSome, MatchOption};
ghost use Rattle.std.specs.BTreeMap.{values};
ghost use Rattle.graph_nodes.specs.OpenWinds.{no_winds, opened_with, waiting_at, without_wind, emptied};

use fop_types::Gfid;
use std::alloc::{AllocError, Global};
use std::collections::BTreeMap;
use std::marker::Model;
use std::mem;
use xlator_law::WindNo;

/// A wind that is open at a brick: the descriptor of an open that went before its request, and that of a request which is
/// an open itself.
#[derive(Clone, Copy)]
pub(crate) struct Waiting {
    pub wind: WindNo,
    pub before: Option<(u32, Gfid)>,
    pub own: Option<(u32, Gfid)>,
}

/// The winds that are open at a brick, in the order in which they were opened, and the place of each in that order by
/// its number. The numbers themselves don't rise with time: a wind may take a slot that was used before. Contracts see the
/// entries of both.
#[derive(Drop)]
pub(crate) struct AtBrick {
    opened: u64,
    winds: BTreeMap<u64, Waiting>,
    places: BTreeMap<u64, u64>,
}

impl Model for AtBrick {
    ghost use Rattle.graph_nodes.specs.OpenWinds.{WindsState};

    ghost Value = { WindsState };

    ghost view = { λ a. record { opened = a.opened; winds = a.winds.entries; places = a.places.entries } };
}

impl AtBrick {
    /// No winds, which takes no memory.
    pub fn new(alloc: Global) -> AtBrick
        ensures { result ≡ no_winds }
    {
        AtBrick {
            opened: 0,
            winds: BTreeMap::new(alloc),
            places: BTreeMap::new(alloc),
        }
    }

    /// A wind is opened.
    ///
    /// # Errors
    /// Out of memory. It would come too after 18,446,744,073,709,551,615 winds.
    pub fn open(&mut self, waiting: Waiting) -> Result<(), AllocError>
        ensures { OnOk result (self.new ≡ opened_with self.old waiting) }
    {
        let Some(opened) = self.opened.checked_add(1) else {
            return Err(AllocError);
        };
        self.opened = opened;
        self.places.insert(waiting.wind.number(), opened)?;
        self.winds.insert(opened, waiting)?;
        Ok(())
    }

    /// A wind that is open.
    pub fn get(&self, wind: WindNo) -> Option<Waiting>
        ensures { result ≡ waiting_at self.now wind }
    {
        match self.places.get(&wind.number()) {
            Some(place) => self.winds.get(place).copied(),
            None => None,
        }
    }

    /// A wind is open no more.
    pub fn close(&mut self, wind: WindNo)
        ensures { self.new ≡ without_wind self.old wind }
    {
        match self.places.remove(&wind.number()) {
            Some(place) => {
                self.winds.remove(&place);
            }
            None => {}
        }
    }

    /// Takes all winds, in the order in which they were opened.
    pub fn take_all(&mut self, alloc: Global) -> BTreeMap<u64, Waiting>
        ensures winds { result.entries ≡ self.old.winds }
        ensures rest { self.new ≡ emptied self.old }
    {
        self.places = BTreeMap::new(alloc);
        mem::replace(&mut self.winds, BTreeMap::new(alloc))
    }
}

/// Takes the wind that was opened first.
pub(crate) fn take_first(winds: &mut BTreeMap<u64, Waiting>) -> Option<Waiting>
    ensures first { MatchOption result (values winds.old ≡ []) (λ first. values winds.old ≡ first ∷ values winds.new) }
    ensures less { IfSome result (λ _. length winds.new.entries < length winds.old.entries) }
{
    match winds.pop_first() {
        Some((_, first)) => Some(first),
        None => None,
    }
}
