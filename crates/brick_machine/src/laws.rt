ghost use Rattle.brick_machine.specs.Encoded.{OutputsAreEncoded, CellsAreKept};
ghost use Rattle.brick_machine.specs.Laws.{OutputsStay, TakenNeverFalls, OutputsByTaken, HeldApart, WrongBytesChangeNothing, UnlocksDoNotFail, StateOfOneMore, OutputsOfOneMore};
ghost use Rattle.brick_machine.specs.Answered.{EachAnsweredOnce, EachWaitsOnce, AnsweredInTurn, AnsweredAtOnce, OutputsAreFew};
ghost use Rattle.brick_machine.specs.Plain.{CalmStatesAnswerPlainly, PlainRunsAreAnswered};

/// The law of outputs: later inputs change no earlier output; the number of inputs up to an output never falls along
/// them; and the outputs of the first n inputs are exactly those with n inputs up to them at most.
#[tactic(auto, using(crate::proofs::Taken::outputs_stay, crate::proofs::Taken::taken_rises, crate::proofs::Taken::outputs_by_taken))]
pub fn outputs_are_in_order()
    ensures stay { OutputsStay }
    ensures taken { TakenNeverFalls }
    ensures first { OutputsByTaken }
{}

/// The law of one more input: what it makes of the state and of the outputs is what a brick that is in this state
/// makes of it.
#[tactic(auto, using(crate::proofs::Runs::state_of_push, crate::proofs::Runs::outputs_of_push))]
pub fn one_more_input_is_served()
    ensures state { StateOfOneMore }
    ensures outputs { OutputsOfOneMore }
{}

/// The law of locks: whatever was served, no two held locks conflict; no owner has two requests; and each request that
/// waits has one waiter, with its cells, and there are no other waiters.
#[tactic(auto, using(crate::proofs::Taken::locks_apart, crate::proofs::Orderly::each_waits_once))]
pub fn locks_are_orderly()
    ensures apart { HeldApart }
    ensures waiters { EachWaitsOnce }
{}

/// The law of bytes that are no input: whatever was served before them, they change nothing, and are answered
/// `Malformed` with the place at which they stop being one.
#[tactic(auto, using(crate::proofs::Taken::wrong_bytes))]
pub fn malformed_bytes_change_nothing()
    ensures { WrongBytesChangeNothing }
{}

/// The law of faults: whatever was served, no unlock is to fail.
#[tactic(auto, using(crate::proofs::Failing::unlocks_do_not_fail))]
pub fn unlocks_do_not_fail()
    ensures { UnlocksDoNotFail }
{}

/// The law of plain runs: in a journal that begins with a Connect and goes on with fetches, marks, ops and posts of
/// that graph, each request has one reply, in order, on its wind and with its number, and the reply is that of the
/// cells as the requests before it left them. The same holds, request by request, in each state in which the graph is
/// connected without descriptors, the brick is up and no request is to fail.
#[tactic(auto, using(crate::proofs::Plain::calm_answers))]
pub fn plain_runs_are_answered()
    ensures each { CalmStatesAnswerPlainly }
    ensures runs { PlainRunsAreAnswered }
{}

/// The law of encodings: each output has one, but for the count of inputs, which must be below 2^64; and so has all
/// that is kept of a cell, but for the lengths of its lists.
#[tactic(auto, using(crate::proofs::Legal::outputs_encoded, crate::proofs::Legal::cells_are_kept))]
pub fn outputs_are_encoded()
    ensures outputs { OutputsAreEncoded }
    ensures cells { CellsAreKept }
{}

/// The law of answers: of the requests among the first inputs, each was answered once by then, or is a lock that still
/// waits; none is answered before all earlier ones of its line were served or given up; what a request that is no lock
/// puts out begins with its reply, in every state; and there are no more outputs than inputs.
#[tactic(auto, using(crate::proofs::Once::at_once, crate::proofs::Once::outputs_are_few))]
pub fn requests_are_answered_once()
    ensures once { EachAnsweredOnce }
    ensures in_turn { AnsweredInTurn }
    ensures at_once { AnsweredAtOnce }
    ensures few { OutputsAreFew }
{}
