//! The event under way: its lines, and what is still to be done in it.
ghost use Rattle.std.specs.Prelude.{◌≡◌, ◌+◌, ◌-◌, ◌^◌, ◌∷◌, [], ◌++◌, map, min, length, OnOk, OnErr};
ghost use Rattle.mount_log.specs.Logs.{empty_log, with_answered, with_cut, with_lines, with_winds};
ghost use Rattle.hub_calls.specs.EventNumbers.{numbered, IsCutOff};
ghost use Rattle.hub_calls.specs.Noted.{answer_item, noted, noted_by};

use crate::numbering::{
    UNNUMBERED, next_number, number_all, number_each, number_replies, number_sent, number_winds,
};
use crate::writing::add_lines;
use fop_types::{Cell, CopyRecord, FopAnswer, Seq, SkipCause};
use frame_driver::Queue;
use graph_nodes::{HoldAsk, Moved};
use hub_tables::SmallSet;
use mount_log::{HubEvent, Log, SentLine, WindLine};
use std::alloc::{AllocError, Global};
use std::mem;
use xlator_law::{Stop, WindNo};

/// What a graph has given in a turn and the hub has not taken: the messages for bricks, and the calls that ask for a hold.
#[derive(Drop)]
pub struct Given {
    pub graph: u32,
    pub sends: Seq<(u8, Seq<u8>)>,
    pub holds: Seq<(u32, HoldAsk)>,
}

/// What is still to be done in an event: what a graph has given is taken; the answer of a call's fop is taken, with its
/// place; or a call is answered whose fop was refused.
#[derive(Drop)]
pub enum Todo {
    Take(Given),
    Answer(u32, FopAnswer, u32),
    Refuse(u32),
}

/// The event under way: how many replies and entries the log has before it, and its lines so far, which get its number, what is
/// armed for its requests, and the event itself as it is closed; what is still to be done in it; and the bricks whose last
/// Closed or Opened is a Closed.
#[derive(Drop)]
pub struct Turn {
    pub replies: usize,
    pub entries: usize,
    pub lines: Log,
    pub todo: Queue<Todo>,
    pub closed: SmallSet,
}

impl Turn {
    /// The turn before any event. It takes no memory.
    pub(crate) fn new(alloc: Global) -> Turn {
        Turn {
            replies: 0,
            entries: 0,
            lines: Log::new(alloc),
            todo: Queue::new(alloc),
            closed: SmallSet::new(),
        }
    }

    /// Begins an event behind those of the log. It has no lines.
    pub(crate) fn open(&mut self, alloc: Global, log: &Log)
        ensures lines { self.new.lines ≡ empty_log }
        ensures behind { self.new ≡ record self.old { lines = self.new.lines; replies = length log.now.replies; entries = length log.now.history } }
    {
        drop(mem::replace(&mut self.lines, Log::new(alloc)));
        self.replies = log.replies.len();
        self.entries = log.history.len();
    }

    /// The place in the log of the next reply.
    pub(crate) fn reply_place(&self) -> usize
        ensures { result ≡ min (self.now.replies + length self.now.lines.replies) (2 ^ 64 - 1) }
    {
        self.replies.saturating_add(self.lines.replies.len())
    }

    /// What the event has sent, of which nothing is left.
    pub(crate) fn take_sends(&mut self, alloc: Global) -> Vec<SentLine>
        ensures sends { result.items ≡ self.old.lines.sent }
        ensures none { self.new ≡ record self.old { lines = record (self.old.lines) { sent = [] } } }
    {
        mem::replace(&mut self.lines.sent, Seq::new(alloc)).into_vec()
    }

    /// What goes out in the event for what it has sent.
    pub(crate) fn put_sent(&mut self, sent: Seq<SentLine>)
        ensures { self.new ≡ record self.old { lines = record (self.old.lines) { sent = sent } } }
    {
        drop(mem::replace(&mut self.lines.sent, sent));
    }

    /// The lines so far get the number of their event, and so do the entries, the copies and the skips.
    ///
    /// # Errors
    /// Out of memory.
    #[tactic(auto, unfolding(crate::specs::EventNumbers::numbered))]
    pub(crate) fn number_lines(&mut self, alloc: Global, number: u64) -> Result<(), AllocError>
        ensures { OnOk result (self.new ≡ record self.old { lines = numbered number self.old.lines }) }
    {
        number_sent(alloc, &mut self.lines.sent, number);
        number_replies(alloc, &mut self.lines.replies, number);
        number_all(alloc, &mut self.lines.answered, number);
        number_winds(alloc, &mut self.lines.winds, number);
        let lines = &mut self.lines;
        number_each(alloc, &mut lines.entered, lines.history.as_slice(), number)?;
        number_each(alloc, &mut lines.copied, lines.copies.as_slice(), number)?;
        number_each(alloc, &mut lines.skipped, lines.skips.as_slice(), number)
    }

    /// The lines so far, which have no event; none are left.
    pub(crate) fn take_lines(&mut self, alloc: Global) -> Log
        ensures { result ≡ record (self.old.lines) { events = [] } }
    {
        let mut lines = mem::replace(&mut self.lines, Log::new(alloc));
        drop(mem::replace(&mut lines.events, Seq::new(alloc)));
        lines
    }

    /// Writes an event with its lines to the log.
    ///
    /// # Errors
    /// Out of memory; the log is unchanged.
    pub(crate) fn write(
        &mut self,
        alloc: Global,
        event: HubEvent,
        log: &mut Log,
    ) -> Result<(), AllocError>
        ensures ok { OnOk result (log.new ≡ with_lines log.old (record (self.old.lines) { events = event ∷ [] })) }
        ensures err { OnErr result (log.new ≡ log.old) }
    {
        let mut lines = self.take_lines(alloc);
        lines.add_event(event)?;
        add_lines(alloc, log, lines)?;
        Ok(())
    }

    // The winds of an event that was cut, with its number, go to the end of the log.
    #[tactic(auto, unfolding(crate::specs::EventNumbers::numbered))]
    fn add_cut(&mut self, alloc: Global, log: &mut Log) -> Result<(), AllocError>
        ensures ok { OnOk result (log.new ≡ with_cut log.old (numbered (length log.old.events + 1) self.old.lines)) }
        ensures err { OnErr result (log.new ≡ log.old) }
    {
        let number = next_number(log)?;
        number_winds(alloc, &mut self.lines.winds, number);
        log.add_winds(alloc, &mut self.lines)?;
        Ok(())
    }

    /// Of an event that was cut, as no wind was left, the winds are written to the log. It answers why the hub stops: where
    /// memory does not suffice for that, it has run out.
    pub(crate) fn write_cut(&mut self, alloc: Global, stop: Stop, log: &mut Log) -> Stop
        ensures cut { IsCutOff result self.old.lines log.old log.new }
        ensures winds { result ≡ Stop.Winds → stop ≡ Stop.Winds }
    {
        match stop {
            Stop::Mem => Stop::Mem,
            Stop::Winds => match self.add_cut(alloc, log) {
                Ok(()) => Stop::Winds,
                Err(_) => Stop::Mem,
            },
        }
    }

    /// The winds that a graph has opened and ended are written down.
    ///
    /// # Errors
    /// Out of memory.
    pub(crate) fn note_winds(
        &mut self,
        graph: u32,
        winds: &[(WindNo, u32, bool)],
    ) -> Result<(), AllocError>
        ensures winds { OnOk result (self.new ≡ record self.old { lines = with_winds self.old.lines 0 graph winds.now }) }
        ensures sent { self.new.lines.sent ≡ self.old.lines.sent }
    {
        for line in winds {
            let (wind, call, opened) = *line;
            self.lines.winds.push(WindLine {
                event: UNNUMBERED,
                graph,
                call,
                wind,
                opened,
            })?;
        }
        Ok(())
    }

    /// The internal call is answered.
    ///
    /// # Errors
    /// Out of memory.
    pub(crate) fn note_answered(&mut self) -> Result<(), AllocError>
        ensures { OnOk result (self.new ≡ record self.old { lines = with_answered self.old.lines 0 }) }
    {
        self.lines.answered.push(UNNUMBERED)?;
        Ok(())
    }

    fn note_copies(&mut self, copies: Seq<CopyRecord>) -> Result<(), AllocError>
        ensures copies { OnOk result (self.new ≡ record self.old { lines = record (self.old.lines) { copies = self.old.lines.copies ++ copies } }) }
        ensures sent { self.new.lines.sent ≡ self.old.lines.sent }
    {
        for copy in copies.into_vec() {
            self.lines.copies.push(copy)?;
        }
        Ok(())
    }

    fn note_skips(&mut self, skips: &[(Cell, SkipCause)]) -> Result<(), AllocError>
        ensures skips { OnOk result (self.new ≡ record self.old { lines = record (self.old.lines) { skips = self.old.lines.skips ++ skips.now } }) }
        ensures sent { self.new.lines.sent ≡ self.old.lines.sent }
    {
        for skip in skips {
            self.lines.skips.push(*skip)?;
        }
        Ok(())
    }

    /// What a graph has given is written down, and the rest of it left to be taken.
    ///
    /// # Errors
    /// Out of memory.
    pub(crate) fn note(&mut self, graph: u32, moved: Moved) -> Result<(), AllocError>
        ensures noted { OnOk result (self.new ≡ noted graph moved self.old) }
        ensures sent { self.new.lines.sent ≡ self.old.lines.sent }
    {
        let Moved {
            holds,
            sends,
            answers,
            copies,
            skips,
            winds,
        } = moved;
        let wound = self.note_winds(graph, winds.as_slice());
        drop(winds);
        let copied = self.note_copies(copies);
        let skipped = self.note_skips(skips.as_slice());
        drop(skips);
        let given = self.todo.push(Todo::Take(Given {
            graph,
            sends,
            holds,
        }));
        let answered = self.note_answers(answers);
        wound.and(copied).and(skipped).and(given).and(answered)
    }

    // The answers of fops are left to be taken in order, behind what the graph gave with them.
    fn note_answers(&mut self, answers: Seq<(u32, FopAnswer, u32)>) -> Result<(), AllocError>
        ensures items { OnOk result (self.new ≡ record self.old { todo = self.old.todo ++ map answer_item answers }) }
        ensures lines { self.new.lines ≡ self.old.lines }
    {
        for answered in answers.into_vec() {
            let (call, answer, place) = answered;
            self.todo.push(Todo::Answer(call, answer, place))?;
        }
        Ok(())
    }

    /// What a graph has given, if it is there, is written down.
    ///
    /// # Errors
    /// Out of memory.
    pub(crate) fn note_moved(&mut self, graph: u32, moved: Option<Moved>) -> Result<(), AllocError>
        ensures { OnOk result (self.new ≡ noted_by graph moved self.old) }
    {
        match moved {
            Some(moved) => self.note(graph, moved),
            None => Ok(()),
        }
    }
}
