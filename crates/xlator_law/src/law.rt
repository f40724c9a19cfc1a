ghost use Rattle.xlator_law.specs.Frames.{FramesAreBounded};
ghost use Rattle.xlator_law.specs.Open.{OpenWindsAreBounded};

/// The law over a whole frame, for contracts and proofs alone: however a translator that meets the law
/// goes on with a frame, the winds that the frame opens, each counted as one and the cost of its fop at
/// the child, are together at most the cost of its own fop; they go to children that there are; and each
/// slot was wound as often as it was answered, and once more where it is unanswered, so no more winds of
/// the frame are open than it has slots. `F` is the type of the fops, `R` that of the replies, `L` that of
/// the locals.
#[tactic(auto, using(crate::proofs::Frames::frames))]
pub fn frames_are_bounded<F, R, L>()
    ensures { FramesAreBounded F R L }
{}

/// The law over the frames below a frame, for contracts and proofs alone: a frame and all frames below it
/// have at most as many winds open at once as the breadth of the frame's node, where each node below fits
/// its place. `F` is the type of the fops, `L` that of the locals.
#[tactic(auto, using(crate::proofs::Open::open_bounded))]
pub fn open_winds_are_bounded<F, L>()
    ensures { OpenWindsAreBounded F L }
{}
