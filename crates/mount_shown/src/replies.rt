ghost use Rattle.mount_shown.specs.Replies.{EveryAnswerIsFlat, EveryEntryWasPossible, EveryFailedIsEnteredLater, EveryHistoryIsLegal, HistoryGoesOn};

/// The law of the history, of every state that allowed steps lead to. The operation of each entry is one that the flat file system
/// accepts, on the files that the entries before it leave; and the own operation of the entry's call was one at some length of the
/// history from the call's submission up to the entry. The call does nothing: its contract exports this.
pub fn every_history_is_legal()
    ensures legal { EveryHistoryIsLegal }
    ensures possible { EveryEntryWasPossible }
{}

/// The law of answers, of every state that allowed steps lead to. A fop is answered by an I/O error; or as the flat file system
/// answers it where the fop's entry stands in the history, at that entry's number; or, where the fop has changed nothing, as
/// the flat file system answers it now, and would have answered it at each length of the history from the answer's place on.
/// The call does nothing: its contract exports this.
pub fn every_answer_is_flat()
    ensures { EveryAnswerIsFlat }
{}

/// The law of changes that failed. A step leaves the history's entries, adds at most one at their end, and leaves what was
/// decided of a change. In every state that allowed steps lead to, the entry of a change that is not adopted is not in the
/// history, and no entry is there twice: so the change of a call that was answered by an I/O error is entered later, once, or
/// never, if it was not adopted before. The call does nothing: its contract exports this.
pub fn failed_changes_come_later()
    ensures goes_on { HistoryGoesOn }
    ensures later { EveryFailedIsEnteredLater }
{}
