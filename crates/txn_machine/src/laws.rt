ghost use Rattle.txn_machine.specs.Copies.{CopiesBeginMeet, CopyAnswersMeet};
ghost use Rattle.txn_machine.specs.Ends.{JobsWithCopiesEnd};
ghost use Rattle.txn_machine.specs.Guards.{BeginsMeet, AnswersMeet, CopiesMeet};
ghost use Rattle.txn_machine.specs.Leaves.{BeginsAskFor, AnswersAskFor, CopiesAskFor, RunsBegin, RunsGoOn, RunsLeaveForLoss};
ghost use Rattle.txn_machine.specs.Runs.{RunsMeetGuards};
ghost use Rattle.txn_machine.specs.Witness.{PostIsMet};
ghost use Rattle.txn_machine.specs.Sent.{OneAfterAnother};

/// Each request that a turn sends meets its guard: whenever the state of the machine is that of the moment after the turn,
/// it may be asked there, or its lock was lost with its connection, and it is missed there. The begin, each answer and each
/// copy that is done keep what this rests on. The call does nothing: its contract exports this.
pub fn requests_meet_guards()
    ensures begin { BeginsMeet }
    ensures answers { AnswersMeet }
    ensures copies { CopiesMeet }
{}

/// Each request of a run of a transaction, from its begin on, meets its guard so at its turn, whatever the replicas that are asked
/// answer, and whatever others do to the ledger and the connections meanwhile. The call does nothing: its contract exports this.
pub fn runs_meet_guards()
    ensures { RunsMeetGuards }
{}

/// The premises of these laws can be met: in a set of one replica allowed steps lead to a state that is that of the moment after a
/// turn in which a change sends its post. The call does nothing: its contract exports this.
pub fn posts_are_met()
    ensures { PostIsMet }
{}

/// Requests to different replicas, each of which meets its guard, may be sent one after another: sending one, and missing one,
/// leaves the guards of the others. The call does nothing: its contract exports this.
pub fn requests_go_one_after_another()
    ensures { OneAfterAnother }
{}

/// Each request of a copy meets its guard: whenever the state of the machine is that of the moment after the turn, it may be
/// asked there of a replica whose lock is held still. The call does nothing: its contract exports this.
pub fn copies_meet_guards()
    ensures begin { CopiesBeginMeet }
    ensures answers { CopyAnswersMeet }
{}

/// Each copy that a turn of a transaction asks for has the job of that transaction: its sinks are those of the phase, each lock
/// that it has held is of a replica that the transaction uses, and one of these is a source. The call does nothing: its contract
/// exports this.
pub fn copies_are_asked_for()
    ensures begin { BeginsAskFor }
    ensures answers { AnswersAskFor }
    ensures copies { CopiesAskFor }
{}

/// A copy with such a job leaves a sink that is used still, and out of date, only where a replica that the transaction used went
/// out in the copy. The begin and each answer keep what this rests on, and at its end a copy meets the premise of
/// `txn_laws::rounds_are_paid`, whatever was handed in to it. The call does nothing: its contract exports this.
pub fn copies_leave_for_loss()
    ensures begin { RunsBegin }
    ensures answers { RunsGoOn }
    ensures ends { RunsLeaveForLoss }
{}

/// A job whose copies `self_heal` makes ends, whatever the replicas answer and others do: it takes at most as many answers and
/// finished copies as its weight at first, and 456 more for each change that becomes unsettled on its cells meanwhile. It is
/// `txn_laws::jobs_end` without its premise on what copies leave. The call does nothing: its contract exports this.
pub fn jobs_with_copies_end()
    ensures { JobsWithCopiesEnd }
{}
