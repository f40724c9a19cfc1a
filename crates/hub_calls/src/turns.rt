//! The turn of an event: what is to be done until nothing is left.
ghost use Rattle.std.specs.Prelude.{◌≡◌, ◌++◌, drop, OnOk};

use crate::parts::Parts;
use crate::planned::Planned;
use crate::turn::{Given, Todo};
use call_fops::{Walk, at_once};
use fop_types::{Entry, FopAnswer, Gfid, Seq};
use graph_nodes::HoldAsk;
use hub_tables::{CallState, Stage, makes};
use mount_log::LineAt;
use script_lang::CallLine;
use std::alloc::{AllocError, Global};
use xlator_law::Stop;

const NOTHING_DRAWN: Gfid = Gfid { hi: 0, lo: 0 };

// The items of an event, at most.
const ITEMS: u64 = 18446744073709551615;

impl Parts {
    /// The next call of a session, by the place of its line, is submitted: it is answered at once, or begins its walk.
    ///
    /// # Errors
    /// As for `Hub::submit`.
    pub(crate) fn submitted(
        &mut self,
        alloc: Global,
        on: &Planned,
        session: u8,
        at: LineAt,
    ) -> Result<(), Stop> {
        let Some(line) = on.line(at) else {
            return Ok(());
        };
        let call = self.opened_call(alloc, line, session, at)?;
        match at_once(&line.call, session, &self.fds) {
            Some(reply) => self.reply(alloc, on, call, reply),
            None => self.start(alloc, on, call, self.graphs.live.newest),
        }
    }

    // Numbers a call, draws its gfid, and keeps it until its reply.
    fn opened_call(
        &mut self,
        alloc: Global,
        line: &CallLine,
        session: u8,
        at: LineAt,
    ) -> Result<u32, AllocError> {
        let call = self.calls.number()?;
        let drawn = if makes(&line.call) {
            self.calls.draw()
        } else {
            NOTHING_DRAWN
        };
        let state = CallState {
            session,
            at,
            line: line.line,
            graph: self.graphs.live.newest,
            drawn,
            places: Seq::new(alloc),
            walk: Walk::begin(),
            stage: Stage::Asks,
        };
        self.calls.open(call, state)?;
        Ok(call)
    }

    // Does what is to be done, in order, until nothing is left. What an item leaves behind is taken after the others.
    fn settle(&mut self, alloc: Global, on: &Planned) -> Result<(), Stop> {
        for _ in 0..ITEMS {
            let Some(item) = self.turn.todo.pop() else {
                return Ok(());
            };
            self.take_one(alloc, on, item)?;
        }
        Ok(())
    }

    fn take_one(&mut self, alloc: Global, on: &Planned, item: Todo) -> Result<(), Stop> {
        match item {
            Todo::Take(given) => self.take(alloc, on, given),
            Todo::Answer(call, answer, place) => self.take_answer(alloc, on, call, answer, place),
            Todo::Refuse(call) => self.refuse(alloc, on, call),
        }
    }

    // Takes what a graph has given: what it sends, then the holds that it asks for.
    fn take(&mut self, alloc: Global, on: &Planned, given: Given) -> Result<(), Stop> {
        let Given {
            graph,
            sends,
            holds,
        } = given;
        let taken = match self.turn.send_all(sends) {
            Ok(()) => self.take_holds(alloc, on, graph, holds.as_slice()),
            Err(_) => Err(Stop::Mem),
        };
        drop(holds);
        taken
    }

    fn take_holds(
        &mut self,
        alloc: Global,
        on: &Planned,
        graph: u32,
        holds: &[(u32, HoldAsk)],
    ) -> Result<(), Stop> {
        for asked in holds {
            let (call, ask) = *asked;
            self.hold_asked(alloc, on, graph, call, ask)?;
        }
        Ok(())
    }

    fn take_answer(
        &mut self,
        alloc: Global,
        on: &Planned,
        call: u32,
        answer: FopAnswer,
        place: u32,
    ) -> Result<(), Stop> {
        if call == 0 {
            drop(answer);
            self.turn.note_answered()?;
            return Ok(());
        }
        self.fop_answered(alloc, on, call, answer, place)
    }

    // The entries that the ledger has made in this event.
    fn note_entries(&mut self) -> Result<(), AllocError>
        ensures { OnOk result (self.new ≡ record self.old { turn = record (self.old.turn) { lines = record (self.old.turn.lines) { history = self.old.turn.lines.history ++ drop self.old.turn.entries self.old.graphs.nodes.history } } }) }
    {
        push_behind(
            &mut self.turn.lines.history,
            self.graphs.nodes.history(),
            self.turn.entries,
        )
    }

    /// Finishes what was begun of an event: all that is left of it is done, and the graphs that are done with are
    /// disconnected.
    ///
    /// # Errors
    /// As for `Hub::submit`.
    pub(crate) fn finish_event(&mut self, alloc: Global, on: &Planned) -> Result<(), Stop> {
        self.settle(alloc, on)?;
        self.disconnect_drained(alloc, on)?;
        self.note_entries()?;
        Ok(())
    }
}

// The entries of a history behind the first ones are put at the end of an event's.
fn push_behind(entries: &mut Seq<Entry>, history: &[Entry], first: usize) -> Result<(), AllocError>
    ensures { OnOk result (entries.new ≡ entries.old ++ drop first history.now) }
{
    for at in first..history.len() {
        entries.push(history[at])?;
    }
    Ok(())
}
