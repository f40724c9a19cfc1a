//! Whose a wind is.
ghost use Rattle.std.specs.Prelude.{◌≡◌, ◌↔◌, IsTrue};
ghost use Rattle.frame_driver.specs.Tasks.{IsWindOurs};
ghost use Rattle.graph_nodes.specs.Calls.{is_ours};

use crate::locals::Local;
use frame_driver::Board;
use graph_items::{Down, Up};
use xlator_law::WindNo;

/// Whether a wind is one of the board's graph. One that is not open is of every graph.
pub(crate) fn is_ours(board: &Board<Down, Up, Local>, wind: WindNo) -> bool
    ensures ours { IsTrue result ↔ IsWindOurs board.now.stack board.now.graph wind }
    ensures is { result ≡ is_ours board.now wind }
{
    board.owns(wind)
}
