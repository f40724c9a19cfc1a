//! What the hub writes down.
ghost use Rattle.std.specs.Prelude.{◌≡◌, ◌++◌, [], OnOk, OnErr};
ghost use Rattle.mount_log.specs.Logs.{empty_log, with_event, with_reply, with_lines, with_cut};

use bytes::Bytes;
use fop_types::{Answer, Cell, CopyRecord, Entry, Proc, Seq, SkipCause};
use script_lang::Action;
use std::alloc::{AllocError, Global};
use std::mem;
use xlator_law::WindNo;

/// One event of the hub: a session's next call is submitted, with the call's line in the script; the bytes of an output
/// of a brick have arrived; a task of a node is run; an action is carried out; or an action is armed, to be carried out
/// before a request. Events are numbered from 1.
#[derive(Drop)]
pub enum HubEvent {
    Submit { session: u8, line: u32 },
    Arrive { brick: u8, bytes: Bytes },
    Run { graph: u32, task: u32 },
    Act(Action),
    Arm(u8, Proc, u32, Action),
}

/// The bytes of one input that was sent to a brick, with the number of the event that sent it, 0 of the hub's making.
#[derive(Drop)]
pub struct SentLine {
    pub event: u64,
    pub brick: u8,
    pub bytes: Bytes,
}

/// The reply to a call, with the number of the event that gave it. `places` has a place in the history for each file
/// operation of the call that was answered by something else than an I/O error.
#[derive(Drop)]
pub struct ReplyLine {
    pub event: u64,
    pub call: u32,
    pub session: u8,
    pub line: u32,
    pub places: Seq<u32>,
    pub answer: Answer,
}

/// The opening of a wind, or its end, with its graph and call.
#[derive(Clone, Copy)]
pub struct WindLine {
    pub event: u64,
    pub graph: u32,
    pub call: u32,
    pub wind: WindNo,
    pub opened: bool,
}

/// What a run leaves: its events, what was sent, the replies, the history of accepted changes, the winds, the copies
/// and the skips. `entered`, `copied` and `skipped` have the number of the event of each entry, copy and skip, and
/// `answered` that of each answer of an internal call.
#[derive(Drop)]
pub struct Log {
    pub events: Seq<HubEvent>,
    pub sent: Seq<SentLine>,
    pub replies: Seq<ReplyLine>,
    pub history: Seq<Entry>,
    pub entered: Seq<u64>,
    pub answered: Seq<u64>,
    pub winds: Seq<WindLine>,
    pub copies: Seq<CopyRecord>,
    pub copied: Seq<u64>,
    pub skips: Seq<(Cell, SkipCause)>,
    pub skipped: Seq<u64>,
}

// Makes room for so many items more.
fn reserve<T: Drop>(alloc: Global, list: &mut Seq<T>, more: usize) -> Result<(), AllocError>
    ensures { list.new ≡ list.old }
{
    let mut items = mem::replace(list, Seq::new(alloc)).into_vec();
    let reserved = items.reserve(more);
    *list = Seq::from_vec(items);
    reserved?;
    Ok(())
}

// Moves the items of one list to the end of another.
fn append<T: Drop>(alloc: Global, list: &mut Seq<T>, more: &mut Seq<T>) -> Result<(), AllocError>
    ensures list { OnOk result (list.new ≡ list.old ++ more.old) }
    ensures more { OnOk result (more.new ≡ []) }
    ensures err { OnErr result (list.new ≡ list.old) }
{
    let mut items = mem::replace(list, Seq::new(alloc)).into_vec();
    let mut added = mem::replace(more, Seq::new(alloc)).into_vec();
    let appended = items.append(&mut added);
    *list = Seq::from_vec(items);
    appended?;
    Ok(())
}

impl Log {
    /// The empty log, which takes no memory.
    pub fn new(alloc: Global) -> Log
        ensures { result ≡ empty_log }
    {
        Log {
            events: Seq::new(alloc),
            sent: Seq::new(alloc),
            replies: Seq::new(alloc),
            history: Seq::new(alloc),
            entered: Seq::new(alloc),
            answered: Seq::new(alloc),
            winds: Seq::new(alloc),
            copies: Seq::new(alloc),
            copied: Seq::new(alloc),
            skips: Seq::new(alloc),
            skipped: Seq::new(alloc),
        }
    }

    /// Adds an event.
    ///
    /// # Errors
    /// Out of memory.
    pub fn add_event(&mut self, event: HubEvent) -> Result<(), AllocError>
        ensures ok { OnOk result (self.new ≡ with_event self.old event) }
        ensures err { OnErr result (self.new ≡ self.old) }
    {
        self.events.push(event)?;
        Ok(())
    }

    /// Adds a reply.
    ///
    /// # Errors
    /// Out of memory.
    pub fn add_reply(&mut self, reply: ReplyLine) -> Result<(), AllocError>
        ensures ok { OnOk result (self.new ≡ with_reply self.old reply) }
        ensures err { OnErr result (self.new ≡ self.old) }
    {
        self.replies.push(reply)?;
        Ok(())
    }

    // Makes room for all lines of an event.
    fn reserve_all(&mut self, alloc: Global, lines: &Log) -> Result<(), AllocError>
        ensures { self.new ≡ self.old }
    {
        reserve(alloc, &mut self.events, lines.events.len())?;
        reserve(alloc, &mut self.sent, lines.sent.len())?;
        reserve(alloc, &mut self.replies, lines.replies.len())?;
        reserve(alloc, &mut self.history, lines.history.len())?;
        reserve(alloc, &mut self.entered, lines.entered.len())?;
        reserve(alloc, &mut self.answered, lines.answered.len())?;
        reserve(alloc, &mut self.winds, lines.winds.len())?;
        reserve(alloc, &mut self.copies, lines.copies.len())?;
        reserve(alloc, &mut self.copied, lines.copied.len())?;
        reserve(alloc, &mut self.skips, lines.skips.len())?;
        reserve(alloc, &mut self.skipped, lines.skipped.len())?;
        Ok(())
    }

    /// Moves the lines of a whole event to the end of the log, and leaves none.
    ///
    /// # Errors
    /// Out of memory; the log is unchanged.
    pub fn add(&mut self, alloc: Global, lines: &mut Log) -> Result<(), AllocError>
        ensures ok { OnOk result (self.new ≡ with_lines self.old lines.old) }
        ensures lines { OnOk result (lines.new ≡ empty_log) }
    {
        self.reserve_all(alloc, lines)?;
        append(alloc, &mut self.events, &mut lines.events)?;
        append(alloc, &mut self.sent, &mut lines.sent)?;
        append(alloc, &mut self.replies, &mut lines.replies)?;
        append(alloc, &mut self.history, &mut lines.history)?;
        append(alloc, &mut self.entered, &mut lines.entered)?;
        append(alloc, &mut self.answered, &mut lines.answered)?;
        append(alloc, &mut self.winds, &mut lines.winds)?;
        append(alloc, &mut self.copies, &mut lines.copies)?;
        append(alloc, &mut self.copied, &mut lines.copied)?;
        append(alloc, &mut self.skips, &mut lines.skips)?;
        append(alloc, &mut self.skipped, &mut lines.skipped)?;
        Ok(())
    }

    /// Moves the wind lines of an event that was cut to the end of the log.
    ///
    /// # Errors
    /// Out of memory; the log is unchanged.
    pub fn add_winds(&mut self, alloc: Global, lines: &mut Log) -> Result<(), AllocError>
        ensures ok { OnOk result (self.new ≡ with_cut self.old lines.old) }
        ensures err { OnErr result (self.new ≡ self.old) }
    {
        reserve(alloc, &mut self.winds, lines.winds.len())?;
        append(alloc, &mut self.winds, &mut lines.winds)
    }
}
