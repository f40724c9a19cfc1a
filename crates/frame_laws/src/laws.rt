ghost use Rattle.frame_laws.specs.Laws.{FramesUnderAreOfTheCall, WindsAreOfTheCall, RestingBoardsAwait, RestingCallsHaveNoFrame, RestingBoardsHaveNoFrame};
ghost use Rattle.frame_laws.specs.Witness.{RestIsMet};

/// What is under a frame is of its graph and call: each frame to which its open winds lead, and each open wind of such
/// a frame. The call does nothing: its contract exports this. `L` is the type of the locals.
pub fn frames_under_are_of_the_call<L>()
    ensures frames { FramesUnderAreOfTheCall L }
    ensures winds { WindsAreOfTheCall L }
{}

/// What a board awaits that has nothing to do: at or under each open frame, of any graph, is a frame that waits for
/// something that is no wind, or one with an open wind that left the graph. The call does nothing: its contract exports
/// this. `F` is the type of the fops, `R` that of the replies, `L` that of the locals.
pub fn resting_boards_await<F, R, L>()
    ensures { RestingBoardsAwait F R L }
{}

/// Where a board has nothing to do, a call has no open frame in a graph if none of its frames there waits for something
/// that is no wind, and none of its open winds left the graph. Where that is so of each call, the graph of the board has no
/// open frame. The call does nothing: its contract exports this. `F` is the type of the fops, `R` that of the replies,
/// `L` that of the locals.
pub fn resting_boards_have_no_frame<F, R, L>()
    ensures calls { RestingCallsHaveNoFrame F R L }
    ensures boards { RestingBoardsHaveNoFrame F R L }
{}

/// The premises of these laws can be met: a board with nothing to do has an open frame, whose wind was sent. The call does
/// nothing: its contract exports this.
pub fn rest_is_met()
    ensures { RestIsMet }
{}
