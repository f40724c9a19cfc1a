ghost use Rattle.std.specs.Prelude.{◌≡◌};
ghost use Rattle.call_fops.specs.Answered.{has_place as has_place_of, after, after_last as after_last_of, after_lookup as after_lookup_of, move_found as move_found_of, move_answered as move_answered_of};

use crate::replies::{After, CallReply, FdMove};
use crate::walk::Walk;
use fop_types::{Answer, Call, FopAnswer, Object};

fn after_lookup(answer: FopAnswer) -> After
    ensures { result ≡ after_lookup_of answer }
{
    match answer {
        FopAnswer::Found { set, gfid, kind } => After::GoesOn(Object { gfid, kind, set }),
        FopAnswer::Call(answer) => After::Replies(CallReply {
            answer,
            fd: FdMove::Stays,
        }),
    }
}

fn move_found(call: &Call, object: Object) -> FdMove
    ensures { result ≡ move_found_of call.now object }
{
    match call {
        Call::Create { fd, .. } => FdMove::Opens {
            fd: *fd,
            gfid: object.gfid,
            set: object.set,
        },
        _ => FdMove::Stays,
    }
}

fn move_answered(call: &Call, object: Object, answer: &Answer) -> FdMove
    ensures { result ≡ move_answered_of call.now object answer.now }
{
    match call {
        Call::Open { fd, .. } => match answer {
            Answer::Done => FdMove::Opens {
                fd: *fd,
                gfid: object.gfid,
                set: object.set,
            },
            _ => FdMove::Stays,
        },
        Call::Read { fd, .. } => match answer {
            Answer::Bytes(bytes) => FdMove::Advances {
                fd: *fd,
                by: bytes.len(),
            },
            _ => FdMove::Stays,
        },
        Call::Write { fd, .. } => match answer {
            Answer::Count(count) => FdMove::Advances {
                fd: *fd,
                by: *count as usize,
            },
            _ => FdMove::Stays,
        },
        _ => FdMove::Stays,
    }
}

fn after_last(call: &Call, object: Object, answer: FopAnswer) -> After
    ensures { result ≡ after_last_of call.now object answer }
{
    match answer {
        FopAnswer::Found { set, gfid, kind } => After::Replies(CallReply {
            answer: Answer::Done,
            fd: move_found(call, Object { gfid, kind, set }),
        }),
        FopAnswer::Call(answer) => {
            let fd = move_answered(call, object, &answer);
            After::Replies(CallReply { answer, fd })
        }
    }
}

/// What a call does at the answer of the fop that it sent last, before the walk takes a step: it goes on from the object
/// that its lookup found, or it has its answer, which is that of its last fop, or the error of a lookup.
pub fn after_answer(call: &Call, walk: &Walk, answer: FopAnswer) -> After
    ensures { result ≡ after call.now walk.now answer }
{
    match walk.component(call) {
        Some(_) => after_lookup(answer),
        None => after_last(call, walk.first(), answer),
    }
}

/// Whether the answer of a fop has a place in the history: all but an I/O error have.
pub fn has_place(answer: &FopAnswer) -> bool
    ensures { result ≡ has_place_of answer.now }
{
    match answer {
        FopAnswer::Found { .. } => true,
        FopAnswer::Call(Answer::Io(_)) => false,
        FopAnswer::Call(_) => true,
    }
}
