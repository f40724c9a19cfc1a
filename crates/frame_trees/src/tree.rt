ghost use Rattle.std.specs.Prelude.{◌≡◌, true, [], ◌∷◌, IfOk, OnOk};
ghost use Rattle.frame_driver.specs.Tasks.{IsWindOurs};
ghost use Rattle.frame_trees.specs.Trees.{KeepsTrees};

use crate::fitting::fits;
use crate::kinds::{Kept, Node};
use frame_driver::{Bailed, Board, Wiring};
use std::alloc::{AllocError, Global};
use std::marker::Model;
use xlator_law::{Stop, WindNo};

// Whether both winds are of the board's graph.
fn owns_both(board: &Board<u32, u8, Kept>, first: WindNo, second: WindNo) -> bool
    ensures { result ≡ true → IsWindOurs board.now.stack board.now.graph first × IsWindOurs board.now.stack board.now.graph second }
{
    board.owns(first) && board.owns(second)
}

fn both(alloc: Global, first: Bailed<u8>, second: Bailed<u8>) -> Result<Vec<Bailed<u8>>, AllocError>
    ensures { IfOk result (λ winds. winds.items ≡ first ∷ second ∷ []) }
{
    let mut winds = Vec::new(alloc);
    winds.push(first)?;
    winds.push(second)?;
    Ok(winds)
}

// Ends a wind that is of the board's graph, and gives whether it is.
fn reply_ours(
    board: &mut Board<u32, u8, Kept>,
    alloc: Global,
    wind: WindNo,
    reply: u8,
) -> Result<bool, AllocError>
    ensures { OnOk result (KeepsTrees board.old board.new) }
{
    let ours = board.owns(wind);
    if ours {
        board.reply(alloc, wind, reply)?;
        return Ok(true);
    }
    Ok(false)
}

// Ends two winds where both are of the board's graph, and gives whether they are.
fn bail_ours(
    board: &mut Board<u32, u8, Kept>,
    alloc: Global,
    first: Bailed<u8>,
    second: Bailed<u8>,
) -> Result<bool, AllocError>
    ensures { OnOk result (KeepsTrees board.old board.new) }
{
    let ours = owns_both(board, first.wind, second.wind);
    if ours {
        let winds = both(alloc, first, second)?;
        board.bail(alloc, winds)?;
        return Ok(true);
    }
    Ok(false)
}

// The frame that began to wait first goes on, and gives whether one waits.
fn wake(board: &mut Board<u32, u8, Kept>, alloc: Global) -> Result<bool, Stop>
    ensures { OnOk result (KeepsTrees board.old board.new) }
{
    let Some(frame) = board.waiting.pop() else {
        return Ok(false);
    };
    let open = board.has_frame(frame);
    if open {
        board.go_on(alloc, frame)?;
        return Ok(true);
    }
    Err(Stop::Mem)
}

/// The nodes of a tree, what is below each, and their frames. A call that ends in an error takes the tree
/// with it.
#[derive(Drop)]
pub struct Tree {
    nodes: Vec<Node>,
    wiring: Wiring,
    board: Board<u32, u8, Kept>,
}

impl Model for Tree {
    ghost use Rattle.std.specs.Prelude.{ℕ};
    ghost use Rattle.frame_driver.specs.declared.board.Board.{Board};
    ghost use Rattle.frame_trees.specs.declared.kinds.Kept.{Kept};
    ghost use Rattle.frame_trees.specs.Trees.{IsTree};

    ghost Value = { Board ℕ ℕ Kept };

    ghost view = { λ t. t.board };

    ghost invariant = { λ t. IsTree t.nodes.items t.wiring t.board };
}

#[tactic(auto, using(crate::proofs::Staying::new_tree, crate::proofs::Staying::next_tree, crate::proofs::Staying::root_there))]
impl Tree {
    /// A tree of these nodes, the first of which is the root, in graph 1. `None` comes where there is none, or
    /// one does not fit its place.
    pub fn new(alloc: Global, nodes: Vec<Node>, wiring: Wiring) -> Option<Tree> {
        if nodes.is_empty() || !fits(&nodes, &wiring) {
            return None;
        }
        let board = Board::new(alloc, 1);
        Some(Tree {
            nodes,
            wiring,
            board,
        })
    }

    /// A fop enters the root, and all that follows from it is done.
    ///
    /// # Errors
    /// As for [`Board::run`].
    pub fn submit(mut self, alloc: Global, call: u32, fop: u32) -> Result<Tree, Stop> {
        self.board.submit(alloc, call, 0, fop)?;
        self.run(alloc)
    }

    /// A wind is answered from outside, and all that follows from it is done.
    ///
    /// # Errors
    /// As for [`Board::run`].
    pub fn reply(mut self, alloc: Global, wind: WindNo, reply: u8) -> Result<Tree, Stop> {
        let changed = reply_ours(&mut self.board, alloc, wind, reply)?;
        self.run_if(alloc, changed)
    }

    /// The frame that began to wait first, of those that wait, goes on, and all that follows from it is done.
    /// Where none waits, nothing changes.
    ///
    /// # Errors
    /// As for [`Board::run`].
    pub fn go_on(mut self, alloc: Global) -> Result<Tree, Stop> {
        let changed = wake(&mut self.board, alloc)?;
        self.run_if(alloc, changed)
    }

    /// Two winds end from outside at once, and all that follows from it is done.
    ///
    /// # Errors
    /// As for [`Board::run`].
    pub fn bail(
        mut self,
        alloc: Global,
        first: Bailed<u8>,
        second: Bailed<u8>,
    ) -> Result<Tree, Stop> {
        let changed = bail_ours(&mut self.board, alloc, first, second)?;
        self.run_if(alloc, changed)
    }

    /// The next wind that went outside, with its fop.
    pub fn sent(&mut self) -> Option<(WindNo, u32)> {
        let sent = self.board.sent.pop()?;
        Some((sent.wind, sent.fop))
    }

    /// The next call that was answered, with its reply.
    pub fn answer(&mut self) -> Option<(u32, u8)> {
        let answered = self.board.answers.pop()?;
        Some((answered.call, answered.reply))
    }

    /// How many winds were opened and ended since the last count, together.
    pub fn lines(&mut self) -> usize {
        self.board.stack.lines().len()
    }

    // Does all that is left to do after a change.
    fn run_if(self, alloc: Global, changed: bool) -> Result<Tree, Stop> {
        if changed {
            return self.run(alloc);
        }
        Ok(self)
    }

    // Does all that is left to do.
    fn run(mut self, alloc: Global) -> Result<Tree, Stop> {
        self.board
            .run(alloc, &mut self.nodes, &mut (), &self.wiring)?;
        Ok(self)
    }
}
