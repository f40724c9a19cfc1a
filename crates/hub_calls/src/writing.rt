//! The lines of an event are written to the log: all of them, or none where memory does not suffice.
ghost use Rattle.std.specs.Prelude.{◌≡◌, ◌≤◌, ◌++◌, true, OnOk, OnErr, if◌then◌else◌};
ghost use Rattle.mount_log.specs.Logs.{with_lines};

use fop_types::Seq;
use mount_log::Log;
use std::alloc::{AllocError, Global};
use std::marker::Model;
use std::mem;

/// A list of the log, with what is to be added to it, and whether it has room for that.
#[derive(Drop)]
pub struct Growing<T> {
    list: Vec<T>,
    more: Vec<T>,
    fits: bool,
}

impl<T> Model for Growing<T> {
    ghost use Rattle.std.specs.Prelude.{◌≡◌, ◌+◌, ◌≤◌, true, vec_len, vec_capacity};
    ghost use Rattle.hub_calls.specs.Growing.{GrowingList};

    ghost Value = { GrowingList T };

    ghost view = { λ g. record { list = g.list.items; more = g.more.items; fits = g.fits } };

    ghost invariant = { λ g. g.fits ≡ true → vec_len g.list + vec_len g.more ≤ vec_capacity g.list };
}

impl<T: Drop> Growing<T> {
    // A list with what is to be added to it. Where it has no room for that, one more list is lacking.
    fn of(list: Seq<T>, more: Seq<T>, lacking: &mut u32) -> Growing<T>
        ensures list { result.list ≡ list }
        ensures more { result.more ≡ more }
        ensures fits { lacking.new ≡ 0 → result.fits ≡ true }
        ensures rises { lacking.old ≤ lacking.new }
    {
        let mut list = list.into_vec();
        let more = more.into_vec();
        match list.reserve(more.len()) {
            Ok(()) => Growing {
                list,
                more,
                fits: true,
            },
            Err(_) => {
                *lacking = lacking.saturating_add(1);
                Growing {
                    list,
                    more,
                    fits: false,
                }
            }
        }
    }

    // The list with what is to be added, or as it was.
    fn joined(self, all: bool) -> Seq<T>
        requires { all ≡ true → self.fits ≡ true }
        ensures { result ≡ (if all then self.list ++ self.more else self.list) }
    {
        let Growing { list, more, .. } = self;
        let mut list = list;
        let mut more = more;
        if all {
            match list.append(&mut more) {
                Ok(()) => {}
                Err(_) => {}
            }
        }
        drop(more);
        Seq::from_vec(list)
    }
}

/// Moves the lines of a whole event to the end of the log.
///
/// # Errors
/// Out of memory; the log is unchanged.
pub(crate) fn add_lines(alloc: Global, log: &mut Log, lines: Log) -> Result<(), AllocError>
    ensures ok { OnOk result (log.new ≡ with_lines log.old lines) }
    ensures err { OnErr result (log.new ≡ log.old) }
{
    let Log {
        events,
        sent,
        replies,
        history,
        entered,
        answered,
        winds,
        copies,
        copied,
        skips,
        skipped,
    } = mem::replace(log, Log::new(alloc));
    let mut lacking = 0;
    let events = Growing::of(events, lines.events, &mut lacking);
    let sent = Growing::of(sent, lines.sent, &mut lacking);
    let replies = Growing::of(replies, lines.replies, &mut lacking);
    let history = Growing::of(history, lines.history, &mut lacking);
    let entered = Growing::of(entered, lines.entered, &mut lacking);
    let answered = Growing::of(answered, lines.answered, &mut lacking);
    let winds = Growing::of(winds, lines.winds, &mut lacking);
    let copies = Growing::of(copies, lines.copies, &mut lacking);
    let copied = Growing::of(copied, lines.copied, &mut lacking);
    let skips = Growing::of(skips, lines.skips, &mut lacking);
    let skipped = Growing::of(skipped, lines.skipped, &mut lacking);
    let all = lacking == 0;
    *log = Log {
        events: events.joined(all),
        sent: sent.joined(all),
        replies: replies.joined(all),
        history: history.joined(all),
        entered: entered.joined(all),
        answered: answered.joined(all),
        winds: winds.joined(all),
        copies: copies.joined(all),
        copied: copied.joined(all),
        skips: skips.joined(all),
        skipped: skipped.joined(all),
    };
    if all { Ok(()) } else { Err(AllocError) }
}
