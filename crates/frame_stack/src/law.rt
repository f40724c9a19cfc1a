ghost use Rattle.frame_stack.specs.Following.{FramesFollow};
ghost use Rattle.frame_stack.specs.Reached.{WindsAreBalanced};

/// The law over all calls of a stack, for contracts and proofs alone: whatever calls a stack went
/// through, the lines that it handed over, and those that it still has, have each wind once at most as
/// opened, and once at most as resumed, after its opening and in the graph and call of the frame that
/// opened it. In a graph without an open frame as many winds were resumed as were opened. The frame that
/// opened a wind is open until the wind is resumed, and the wind that opened a frame, while it is open, is
/// of the frame's graph and call. A wind's number is its place among the openings. `L` is the type of the
/// locals.
#[tactic(auto, using(crate::proofs::Balanced::winds_balanced))]
pub fn winds_are_balanced<L>()
    ensures { WindsAreBalanced L }
{}

/// The law that joins a stack to its translators, for contracts and proofs alone: where a frame awaits
/// exactly the slots that are unanswered in its local, each wind of a step that meets the law of a
/// translator may be opened, and the frame then awaits the slots of the step's local; an answer takes its
/// slot away; and a frame that unwinds has no open wind, so it may be ended. `F` is the type of the fops,
/// `L` that of the locals.
#[tactic(auto, using(crate::proofs::Following::frames_follow))]
pub fn frames_follow_translators<F, L>()
    ensures { FramesFollow F L }
{}
