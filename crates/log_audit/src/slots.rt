//! The last wind of each slot, line by line.
ghost use Rattle.std.specs.Prelude.{◌≡◌, ◌<◌, ℕ, Some, None, [], true, false, IfOk, length, slice_set};
ghost use Rattle.log_audit.specs.Slots.{slot_at, step, is_closed, are_closed, Takes};

use mount_log::WindLine;
use std::alloc::{AllocError, Global};
use std::marker::Model;

/// The last wind of a slot: its turn, its graph and call, and whether it has not ended.
#[derive(Clone, Copy)]
pub struct Turn {
    pub turn: u32,
    pub graph: u32,
    pub call: u32,
    pub pending: bool,
}

/// The last wind of each slot, `None` where the slot had none. Contracts see the list by slot.
#[derive(Drop)]
pub struct Slots {
    turns: Vec<Option<Turn>>,
}

impl Model for Slots {
    ghost use Rattle.std.specs.Prelude.{List, Option};
    ghost use Rattle.log_audit.specs.declared.slots.Turn.{Turn as SlotTurn};

    ghost Value = { List (Option SlotTurn) };

    ghost view = { λ s. s.turns.items };
}

// The slot after a line of its own, `None` where the line cannot come.
fn after(last: Option<Turn>, line: &WindLine) -> Option<Turn>
    ensures { result ≡ step last line.now }
{
    match last {
        None => {
            if line.opened {
                Some(opened(line))
            } else {
                None
            }
        }
        Some(turn) => after_turn(turn, line),
    }
}

fn opened(line: &WindLine) -> Turn
    ensures { result ≡ record { turn = line.now.wind.turn; graph = line.now.graph; call = line.now.call; pending = true } }
{
    Turn {
        turn: line.wind.turn,
        graph: line.graph,
        call: line.call,
        pending: true,
    }
}

fn after_turn(last: Turn, line: &WindLine) -> Option<Turn>
    ensures { result ≡ step (Some last) line.now }
{
    if line.opened {
        if !last.pending && last.turn < line.wind.turn {
            return Some(opened(line));
        }
        return None;
    }
    if last.pending
        && last.turn == line.wind.turn
        && last.graph == line.graph
        && last.call == line.call
    {
        return Some(Turn {
            pending: false,
            ..last
        });
    }
    None
}

impl Slots {
    /// No slot had a wind.
    pub fn new(alloc: Global) -> Slots
        ensures { result ≡ [] }
    {
        Slots {
            turns: Vec::new(alloc),
        }
    }

    // The slot's last wind.
    fn last(&self, slot: u32) -> Option<Turn>
        ensures { result ≡ slot_at self.now slot }
    {
        match self.turns.get(slot as usize) {
            Some(last) => *last,
            None => None,
        }
    }

    // Makes room for a slot.
    fn grow(&mut self, slot: usize) -> Result<(), AllocError>
        ensures same { IfOk result (λ _. (n : ℕ) → slot_at self.new n ≡ slot_at self.old n) }
        ensures there { IfOk result (λ _. slot < length self.new) }
    {
        while self.turns.len() <= slot {
            self.turns.push(None)?;
        }
        Ok(())
    }

    /// The winds after a further line. It is false, with nothing changed, where the line cannot come: an opening while the
    /// slot's last wind is open, or of a turn that does not rise; an end of another wind than the slot's open one, or in
    /// another graph or call.
    ///
    /// # Errors
    /// Out of memory.
    pub fn take(&mut self, line: &WindLine) -> Result<bool, AllocError>
        ensures taken { IfOk result (λ did. did ≡ true → Takes self.old line.now self.new) }
        ensures refused { IfOk result (λ did. did ≡ false → step (slot_at self.old line.now.wind.slot) line.now ≡ None) }
        ensures unchanged { IfOk result (λ did. did ≡ false → self.new ≡ self.old) }
    {
        let slot = line.wind.slot;
        let Some(next) = after(self.last(slot), line) else {
            return Ok(false);
        };
        self.grow(slot as usize)?;
        self.set(slot as usize, next);
        Ok(true)
    }

    fn set(&mut self, slot: usize, next: Turn)
        requires { slot < length self.old }
        ensures { self.new ≡ slice_set self.old slot (Some next) }
    {
        self.turns[slot] = Some(next);
    }

    /// Whether each wind has ended.
    pub fn are_closed(&self) -> bool
        ensures { result ≡ are_closed self.now }
    {
        for last in &self.turns {
            if !is_closed(*last) {
                return false;
            }
        }
        true
    }
}

fn is_closed(last: Option<Turn>) -> bool
    ensures { result ≡ is_closed last }
{
    match last {
        Some(turn) => !turn.pending,
        None => true,
    }
}
