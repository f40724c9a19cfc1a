ghost use Rattle.afr_transaction.specs.Encodings.{BeginsBound, AnswersBound, CopiesBound, AnswersLeaveFew, CopiesLeaveFew, RequestsAreEncoded};
ghost use Rattle.afr_transaction.specs.Ops.{OpsFollowMarks};
ghost use Rattle.afr_transaction.specs.Replies.{BeginsReply, AnswersReply, CopiesReply};
ghost use Rattle.afr_transaction.specs.Requests.{BeginsSend, AnswersSend, CopiesSend, PostsFollowOps};
ghost use Rattle.afr_transaction.specs.Shapes.{BeginsGoOn, AnswersGoOn, CopiesGoOn};

/// What a frame relies on that keeps a transaction and hands it answers and copies, whatever they are. An answer of a
/// replica that is asked either leaves others asked, or it is the last one: then the transaction sends one request to each
/// of some replicas of the set, asks for a copy that has something to do, or replies, with nobody asked. So do the begin
/// and a copy that is done. The call does nothing: its contract exports this.
pub fn transactions_go_on()
    ensures begin { BeginsGoOn }
    ensures answers { AnswersGoOn }
    ensures copies { CopiesGoOn }
{}

/// What a turn sends. Each request is of the phase that begins, on the cells of the lock phase, and one under a lock goes
/// only to a replica that has granted its lock; a settle accuses exactly the replicas outside its group. An op follows the
/// mark, and goes only to replicas that have confirmed it. A post follows the op, and accuses exactly the replicas that have
/// not confirmed it. The call does nothing: its contract exports this.
pub fn requests_are_of_phases()
    ensures begin { BeginsSend }
    ensures answers { AnswersSend }
    ensures copies { CopiesSend }
    ensures ops { OpsFollowMarks }
    ensures posts { PostsFollowOps }
{}

/// Every request has an encoding, where the job's values are within their bounds and each unsettled change has one to four
/// cells: every turn keeps both, and by them a request of its phase has an encoding. A copy that is asked for has one to four
/// cells, rising; no source of it is a sink, and the lock of each sink is held. The call does nothing: its contract exports
/// this.
pub fn requests_are_encoded()
    ensures begin { BeginsBound }
    ensures answers { AnswersBound }
    ensures copies { CopiesBound }
    ensures answers_leave { AnswersLeaveFew }
    ensures copies_leave { CopiesLeaveFew }
    ensures requests { RequestsAreEncoded }
{}

/// Every reply is within its bounds, where the answers of the replicas are: each content is a content, and each listed cell a
/// cell. Every turn keeps that of what was answered so far. The call does nothing: its contract exports this.
pub fn replies_are_within_bounds()
    ensures begin { BeginsReply }
    ensures answers { AnswersReply }
    ensures copies { CopiesReply }
{}
