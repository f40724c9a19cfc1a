ghost use Rattle.frame_driver.specs.Laws.{BoardsShareAStack, TracesAreBounded, OpenWindsAreWithin, RootsStay};

use xlator_law::Xlator;

/// The law of several boards on one stack, for contracts and proofs alone: where the board of one graph is
/// sound and has nothing to do, and the stack goes to the board of another graph that has nothing to do and
/// counts the frames of its graph, that one is sound. With [`crate::Board::run`]'s clause `leads`, by which the
/// counts of other graphs stay, each board is sound whenever its turn comes. `F` is the type of the fops, `R`
/// that of the replies, `L` that of the locals.
#[tactic(auto, using(crate::proofs::Sharing::boards_share))]
pub fn boards_share_a_stack<F, R, L>()
    ensures { BoardsShareAStack F R L }
{}

/// The law over the traces of frames, for contracts and proofs alone: the winds of a frame with a trace, each
/// counted as one and the cost of its fop at the child, are together at most the cost of the frame's own fop;
/// they go to children that there are; and each slot was wound as often as it was answered, and once more
/// where it is unanswered. `X` is the type of the nodes.
#[tactic(auto, using(crate::proofs::Sharing::traces_bounded))]
pub fn traces_are_bounded<F, R, C, X: Xlator<F, R, C>>()
    ensures { TracesAreBounded X.promise X.makes }
{}

/// The law over the open winds of a call, for contracts and proofs alone: at any moment with nothing to do, no more
/// of them are open than the nodes of the call's own frames, those that no wind opened, have as their breadth.
/// `X` is the type of the nodes.
#[tactic(auto, using(crate::proofs::Breadth::open_within))]
pub fn open_winds_are_within<F, R, C, X: Xlator<F, R, C>>()
    ensures { OpenWindsAreWithin X.promise X.makes }
{}

/// The law of roots, for contracts and proofs alone: a call of the board of one graph, as far as its clause
/// `leads` says, leaves the frames of another graph that no wind opened at that graph's root. `L` is the type of
/// the locals.
#[tactic(auto, using(crate::proofs::Rooting::roots_stay))]
pub fn roots_stay<L>()
    ensures { RootsStay L }
{}
