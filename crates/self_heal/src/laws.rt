ghost use Rattle.self_heal.specs.Laws.{RequestsGoToTheJob, ClearsFollowReplacements, CurrentHaveEveryCell, EachAnswerLeavesLess, WaitsAreOpen};
ghost use Rattle.self_heal.specs.Turning.{CopiesBegin, CopiesGoOn, BeginsAreEncoded, AnswersAreEncoded};

/// To whom requests go: cells of the job are fetched from its sources and replaced on its sinks, and each of these
/// replicas was held when the copy began. The call does nothing: its contract exports this.
pub fn requests_go_to_the_job()
    ensures { RequestsGoToTheJob }
{}

/// What a clear takes back: each replica that it names is a source, or it has confirmed for each cell the replacement
/// by what a source answered to a fetch. The call does nothing: its contract exports this.
pub fn clears_follow_replacements()
    ensures { ClearsFollowReplacements }
{}

/// Who is current at the end: each such replica is a sink, and it has confirmed for each cell the replacement by what
/// a source answered to a fetch. The call does nothing: its contract exports this.
pub fn current_have_every_cell()
    ensures { CurrentHaveEveryCell }
{}

/// A copy ends: each answer leaves less work, so a copy takes at most so many answers. The call does nothing: its
/// contract exports this.
pub fn each_answer_leaves_less()
    ensures { EachAnswerLeavesLess }
{}

/// While a copy waits a replica is asked that has not answered, and after its end nobody is. The call does nothing: its
/// contract exports this.
pub fn waits_are_open()
    ensures { WaitsAreOpen }
{}

/// What a frame relies on that keeps the copy alone, and not what was handed in to it. A copy that has something to do
/// begins with requests. An answer of a replica that is asked either leaves others asked, or it is the last one: then the
/// copy sends its next requests, one to each of some replicas of the set, or it ends with nobody asked. The call does
/// nothing: its contract exports this.
pub fn copies_go_on()
    ensures begin { CopiesBegin }
    ensures answers { CopiesGoOn }
{}

/// Every request of a copy has an encoding, where its job has one to four cells, rising, and what the replicas answer has
/// one. The call does nothing: its contract exports this.
pub fn copies_are_encoded()
    ensures begin { BeginsAreEncoded }
    ensures answers { AnswersAreEncoded }
{}
