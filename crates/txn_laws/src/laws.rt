ghost use Rattle.afr_transaction.specs.Causes.{BeginsHaveCauses, AnswersHaveCauses, CopiesHaveCauses};
ghost use Rattle.txn_laws.specs.Ends.{JobsEnd};
ghost use Rattle.txn_laws.specs.Free.{SplitsLackFree};
ghost use Rattle.txn_laws.specs.Granted.{BeginsGrant, AnswersGrant, CopiesGrant, BeginsShow, AnswersShow, CopiesShow, BeginsConfirm, AnswersConfirm, CopiesConfirm, AnswersTake, CopiesTake, BeginsFollow, AnswersFollow, CopiesFollow, AnswersBegin, CopiesBegin};
ghost use Rattle.txn_laws.specs.Laws.{PostsDecideInTurns, SettlesDecideInTurns, PostsStayDecided, SettlesStayDecided, AnswersDrawToMark, CopiesDrawToMark, DecidesAtQuorum};
ghost use Rattle.txn_laws.specs.Outs.{BeginsOut, AnswersOut, CopiesOut, BeginsLose, AnswersLose, CopiesLose};
ghost use Rattle.txn_laws.specs.Lists.{AnswersList, CopiesList};
ghost use Rattle.txn_laws.specs.Own.{BeginsStay, AnswersStay, CopiesStay};
ghost use Rattle.txn_laws.specs.Rounds.{BeginsHaveFewRounds, EachAnswerIsPaid, EachCopyIsPaid, DrawsRaiseNothing, DecisionsRaiseNothing, BeginsRaiseByTwo, BeginsElsewhereRaiseNothing};
ghost use Rattle.txn_laws.specs.RunEnds.{RunsEnd};
ghost use Rattle.txn_laws.specs.Runs.{RunsAreLawful};
ghost use Rattle.txn_laws.specs.Splits.{BeginsDoNotSplit, AnswersSplit, CopiesDoNotSplit, AnswersSkip, CopiesSkip};
ghost use Rattle.afr_transaction.specs.Moves.{AnswersMove, CopiesDraw};
ghost use Rattle.txn_laws.specs.Work.{EachAnswerLeavesLess, EachCopyLeavesLess};

/// A change is decided exactly with the q-th confirmation of its post or its settle, in the turn of that answer, if the history
/// has room: a post adopts it and notes its entry, a settle decides it as its group holds it. Where another has settled it
/// before, a post notes its entry in the history. What is decided stays so in the turns that follow. `parts` is the same of
/// what the turns decide by. The call does nothing: its contract exports this.
pub fn quorums_decide()
    ensures posts { PostsDecideInTurns }
    ensures settles { SettlesDecideInTurns }
    ensures posts_stay { PostsStayDecided }
    ensures settles_stay { SettlesStayDecided }
    ensures parts { DecidesAtQuorum }
{}

/// What a turn does to the ledger: it draws one number, makes its own change unsettled once the mark is confirmed, decides the
/// change of its post or its settle once a quorum has confirmed that, or leaves the ledger as it is. The number is the next one,
/// and the turn sends the mark of its change with it. The call does nothing: its contract exports this.
pub fn turns_move_the_ledger()
    ensures answers { AnswersMove }
    ensures copies { CopiesDraw }
    ensures draws { AnswersDrawToMark }
    ensures draws_after_copies { CopiesDrawToMark }
{}

/// An I/O error has its cause. One for lack of replicas is decided on only where so many are out that the others are no
/// quorum, no number is left for a change, or the history is full, and lists replicas that are out, with their marks; a split only
/// where the rows that the reached replicas showed leave a cell of a read or a change, or all cells of a settling together,
/// without a sound replica, and it lists these rows. What was decided on before the release of the locks is what is
/// answered after it. The call does nothing: its contract exports this.
pub fn failures_have_causes()
    ensures begin { BeginsHaveCauses }
    ensures answers { AnswersHaveCauses }
    ensures copies { CopiesHaveCauses }
{}

/// An I/O error for lack of replicas lists all that are out: of the job by which it is decided on each that was out before the turn,
/// and the replica that has answered, if not as asked, or each that went out in the copy, is out, with its mark. The call does
/// nothing: its contract exports this.
pub fn failures_list_all()
    ensures answers { AnswersList }
    ensures copies { CopiesList }
{}

/// A split is decided on only by an answer, for this job, and by the rows of a quorum: in the lock phase whose rows it lists at least
/// a quorum was reached, and each that was reached granted its lock and showed a row for each cell. The call does nothing: its
/// contract exports this.
pub fn splits_have_quorums()
    ensures begin { BeginsDoNotSplit }
    ensures answers { AnswersSplit }
    ensures copies { CopiesDoNotSplit }
{}

/// A heal skips its cell for the cause that it names: a cell without a sound replica by the rows of a quorum, a change on it that
/// is not settled, or what an I/O error for lack of replicas is answered for. The call does nothing: its contract exports this.
pub fn skips_have_causes()
    ensures answers { AnswersSkip }
    ensures copies { CopiesSkip }
{}

/// Where all replicas of the set granted their locks, a split has no cause as long as each cell of a read or a change, or all
/// cells of a settling together, have a replica whose copy is there, which does not accuse itself, and which fewer than a
/// quorum accuse; a cell that is read as absent needs none. The call does nothing: its contract exports this.
pub fn splits_lack_free()
    ensures { SplitsLackFree }
{}

/// Requests end: each answer and each finished copy leaves less work, unless the job begins again at its locks. So a lock phase
/// and what follows it take a bounded number of answers and copies. The call does nothing: its contract exports this.
pub fn requests_end()
    ensures answers { EachAnswerLeavesLess }
    ensures copies { EachCopyLeavesLess }
{}

/// How often a job begins again at its locks. It begins with one round at most for each replica of its set and each unsettled
/// change on its cells. Each answer and each finished copy leaves less work and no more rounds, or the job begins again and
/// fewer rounds are left. A copy is to leave a sink that is used still, and not up to date, only where a replica that was used
/// went out. The call does nothing: its contract exports this.
pub fn rounds_are_paid()
    ensures begin { BeginsHaveFewRounds }
    ensures answers { EachAnswerIsPaid }
    ensures copies { EachCopyIsPaid }
{}

/// What others do to the ledger between two turns of a job: a number that is drawn and a change that is decided leave it no
/// more rounds, and a change that becomes unsettled at most two more, and none where it touches other cells alone. The call
/// does nothing: its contract exports this.
pub fn others_add_few_rounds()
    ensures draws { DrawsRaiseNothing }
    ensures decisions { DecisionsRaiseNothing }
    ensures begins { BeginsRaiseByTwo }
    ensures elsewhere { BeginsElsewhereRaiseNothing }
{}

/// A job ends, whatever the replicas answer and others do, as long as its copies leave sinks only as said above: it takes at
/// most as many answers and finished copies as its weight at first, and 456 more for each change that becomes unsettled on its
/// cells meanwhile. The call does nothing: its contract exports this.
pub fn jobs_end()
    ensures { JobsEnd }
{}

/// A job stays what it is, whatever its turns do: where it works, for which call, and what it is to do. The call does nothing: its
/// contract exports this.
pub fn jobs_stay()
    ensures begin { BeginsStay }
    ensures answers { AnswersStay }
    ensures copies { CopiesStay }
{}

/// Each replica that is out after a turn was out before with the same mark, is out by the answer that was handed in, which was not
/// the one that its phase asks for, or went out in the copy that was handed in, with its mark; or it is out as lost, with the
/// number of its last connection. The call does nothing: its contract exports this.
pub fn outs_are_handed_in()
    ensures begin { BeginsOut }
    ensures answers { AnswersOut }
    ensures copies { CopiesOut }
{}

/// Who is out as lost was lost: it had no open connection when the turn was taken, or it had granted its lock on a connection that
/// was not its last any more. The call does nothing: its contract exports this.
pub fn losses_are_losses()
    ensures begin { BeginsLose }
    ensures answers { AnswersLose }
    ensures copies { CopiesLose }
{}

/// A grant that is noted after an answer was noted before, or the answer grants it in a lock phase, with a row for each cell, on
/// the last connection of its replica. The call does nothing: its contract exports this.
pub fn grants_are_handed_in()
    ensures begin { BeginsGrant }
    ensures answers { AnswersGrant }
    ensures copies { CopiesGrant }
{}

/// Rows that are kept after an answer were kept before, or this answer to a lock carries them, one for each cell, and it is of
/// their replica. The call does nothing: its contract exports this.
pub fn rows_are_handed_in()
    ensures begin { BeginsShow }
    ensures answers { AnswersShow }
    ensures copies { CopiesShow }
{}

/// A replica that has confirmed after an answer had confirmed before, or the answer is its own and the Done that the running phase
/// asks for; and where a turn sends requests, nobody has confirmed them yet. The call does nothing: its contract exports this.
pub fn confirmations_are_handed_in()
    ensures begin { BeginsConfirm }
    ensures answers { AnswersConfirm }
    ensures copies { CopiesConfirm }
    ensures takes { AnswersTake }
    ensures keeps { CopiesTake }
{}

/// Each turn keeps what these laws rest on: in a lock phase each replica before the one that is asked is out, or has granted its
/// lock; and each that has granted its lock has shown a row for each cell. A lock phase that begins after another phase has no
/// grants and no rows. The call does nothing: its contract exports this.
pub fn lock_phases_follow()
    ensures begin { BeginsFollow }
    ensures answers { AnswersFollow }
    ensures copies { CopiesFollow }
    ensures begins { AnswersBegin }
    ensures begins_after_copies { CopiesBegin }
{}

/// The laws of a turn hold of each turn of a run, from the begin of a job on, by whatever answers of replicas that are asked and
/// finished copies that were asked for, and whatever others do to the ledger and the connections meanwhile. A post accuses exactly
/// the replicas that have not answered the op with Done since it was sent, a settle those outside its group; a request under a lock
/// goes to a replica that granted it; at most one number is drawn in a turn; a change is decided in the turn of the q-th
/// confirmation; and who is out, each grant, each row and each split is by what was handed in. The call does nothing: its contract
/// exports this.
pub fn runs_are_lawful()
    ensures { RunsAreLawful }
{}

/// A run of a job ends, with no premise on the job but its bounds, as long as its copies leave sinks only as said above: it takes at
/// most 228 answers and finished copies for each replica of its set, for each change that is unsettled on its cells as it begins,
/// and once more, and 456 for each change that becomes unsettled on its cells meanwhile. The call does nothing: its contract exports
/// this.
pub fn runs_end()
    ensures { RunsEnd }
{}
