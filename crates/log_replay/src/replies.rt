//! The replies of a log, and their events.
ghost use Rattle.std.specs.Prelude.{◌≡◌, map, replicate, IfOk};
ghost use Rattle.mount_log.specs.Submissions.{reply_of};
ghost use Rattle.log_replay.specs.Events.{HasReplyEvents, set_event};

use history_replay::Replied;
use mount_log::ReplyLine;
use std::alloc::{AllocError, Global};

/// The replies of lines.
///
/// # Errors
/// Out of memory.
pub(crate) fn replies_in<'a>(
    alloc: Global,
    lines: &'a [ReplyLine],
) -> Result<Vec<Replied<'a>>, AllocError>
    ensures { IfOk result (λ v. v.items ≡ map reply_of lines.now) }
{
    let mut replies = Vec::new(alloc);
    for line in lines {
        replies.push(Replied {
            call: line.call,
            places: line.places.as_slice(),
            answer: &line.answer,
        })?;
    }
    Ok(replies)
}

fn no_events(alloc: Global, count: usize) -> Result<Vec<u64>, AllocError>
    ensures { IfOk result (λ v. v.items ≡ replicate count 0) }
{
    let mut events = Vec::new(alloc);
    for _ in 0..count {
        events.push(0)?;
    }
    Ok(events)
}

fn put_event(events: &mut Vec<u64>, call: u32, event: u64)
    ensures { events.new.items ≡ set_event events.old.items call event }
{
    let Some(at) = call.checked_sub(1) else {
        return;
    };
    let at = at as usize;
    if at < events.len() {
        events[at] = event;
    }
}

/// The event of the first reply to each of so many calls, 0 of a call without one.
///
/// # Errors
/// Out of memory.
#[tactic(auto, using(crate::proofs::Replying::none_replied))]
pub(crate) fn reply_events(
    alloc: Global,
    count: usize,
    lines: &[ReplyLine],
) -> Result<Vec<u64>, AllocError>
    ensures { IfOk result (λ v. HasReplyEvents count lines.now v.items) }
{
    let mut events = no_events(alloc, count)?;
    for back in 0..lines.len() {
        let line = &lines[lines.len() - 1 - back];
        put_event(&mut events, line.call, line.event);
    }
    Ok(events)
}
