//! The frames that wait for what is no wind. Those of all graphs of a mount are parked in one set.
ghost use Rattle.std.specs.Prelude.{ℕ, ◌≡◌, ◌+◌, ◌↔◌, ◌&&◌, [], true, OnOk, IsSomeAnd, IsTrue};
ghost use Rattle.std.specs.BTreeMap.{is_at};
ghost use Rattle.std.specs.BTreeSet.{contains_by};
ghost use Rattle.std.specs.List.{list_any};
ghost use Rattle.std.specs.Ordering.{nat_cmp};
ghost use Rattle.frame_stack.specs.Stack.{frame_at};
ghost use Rattle.frame_driver.specs.Waits.{times};
ghost use Rattle.graph_nodes.specs.Calls.{is_home, woken};
ghost use Rattle.graph_nodes.specs.Live.{AreOnce, KeepsBoard};

use crate::locals::Local;
use frame_driver::{Board, Queue};
use graph_items::{Down, Up};
use std::alloc::{AllocError, Global};
use std::collections::BTreeSet;

/// Parks the frames that began to wait. None of them is parked.
///
/// # Errors
/// Out of memory.
#[tactic(auto, using(crate::proofs::Parking::parking_first))]
pub(crate) fn park(waiting: &mut Queue<u32>, parked: &mut BTreeSet<u32>) -> Result<(), AllocError>
    requires once { AreOnce waiting.old parked.old.keys }
    ensures waiting { OnOk result (waiting.new ≡ []) }
    ensures parked { OnOk result ((key : ℕ) → times key parked.new.keys ≡ times key waiting.old + times key parked.old.keys) }
{
    while let Some(frame) = waiting.pop() {
        parked.insert(frame)?;
    }
    Ok(())
}

// Whether a frame is open, and of the board's graph.
fn is_home(board: &Board<Down, Up, Local>, frame: u32) -> bool
    ensures home { IsTrue result ↔ IsSomeAnd (frame_at board.now.stack frame) (λ f. f.place.graph ≡ board.now.graph) }
    ensures is { result ≡ is_home board.now.graph (frame_at board.now.stack frame) }
{
    board.has_frame(frame)
}

// Whether a frame is of the board's graph, and parked.
fn may_go(board: &Board<Down, Up, Local>, parked: &BTreeSet<u32>, frame: u32) -> bool
    ensures is { result ≡ (is_home board.now.graph (frame_at board.now.stack frame) && list_any (is_at (nat_cmp frame)) parked.now.keys) }
    ensures there { result ≡ true → IsSomeAnd (frame_at board.now.stack frame) (λ f. f.place.graph ≡ board.now.graph) × (contains_by (nat_cmp frame) parked.now ≡ true) }
{
    is_home(board, frame) && parked.contains(&frame)
}

/// Has a frame go on by the next run, where there is one, and it is parked and of the board's graph. Else nothing changes.
///
/// # Errors
/// Out of memory.
pub(crate) fn wake(
    alloc: Global,
    board: &mut Board<Down, Up, Local>,
    parked: &mut BTreeSet<u32>,
    frame: Option<u32>,
) -> Result<(), AllocError>
    ensures works { OnOk result (KeepsBoard board.old parked.old.keys board.new parked.new.keys) }
    ensures woken { OnOk result (board.new ≡ woken parked.old.keys frame board.old) }
    ensures graph { board.new.graph ≡ board.old.graph }
    ensures stack { board.new.stack ≡ board.old.stack }
{
    let Some(frame) = frame else {
        return Ok(());
    };
    let ours = may_go(board, parked, frame);
    if ours {
        parked.remove(&frame);
        board.go_on(alloc, frame)?;
        return Ok(());
    }
    Ok(())
}
