//! Moves of answers: a fop is answered, and its call goes on or is replied to.
ghost use Rattle.std.specs.Prelude.{◌≡◌, ◌+◌, ◌-◌, ◌^◌, min, length, IfSome, OnOk};
ghost use Rattle.hub_tables.specs.OpenCalls.{call_at, with_reply as with_reply_at, without_call};
ghost use Rattle.mount_log.specs.Logs.{with_reply};

use crate::holding::hold_next;
use crate::numbering::UNNUMBERED;
use crate::parts::Parts;
use crate::planned::Planned;
use call_fops::{After, CallReply, FdMove, after_answer, has_place, move_fd};
use fd_table::FdTable;
use fop_types::{Answer, AppError, FopAnswer, Gfid, Kind, Object};
use hub_tables::{CallState, changes_bytes_next};
use mount_log::ReplyLine;
use std::alloc::{AllocError, Global};
use xlator_law::Stop;

// The greatest offset of a descriptor, in bytes.
const FILE_LIMIT: usize = 65536;

fn is_offset_by(fds: &FdTable, session: u8, fd: u8, by: usize) -> bool {
    match fds.get(session, fd) {
        Some(found) => {
            let offset = found.offset as usize;
            offset <= FILE_LIMIT && by <= FILE_LIMIT - offset
        }
        None => true,
    }
}

fn is_within(fds: &FdTable, session: u8, to: FdMove) -> bool {
    match to {
        FdMove::Stays => true,
        FdMove::Opens { .. } => true,
        FdMove::Advances { fd, by } => is_offset_by(fds, session, fd, by),
        FdMove::Seeks { fd: _, offset } => offset as usize <= FILE_LIMIT,
        FdMove::Closes { .. } => true,
    }
}

impl Parts {
    // A descriptor is opened, moved or closed as its call is answered; while it is open, its file's inode is in use. An
    // offset beyond the greatest length of a file is said to be out of memory: no graph reads or writes so far.
    fn fd_moved(&mut self, alloc: Global, session: u8, to: FdMove) -> Result<(), AllocError>
        ensures { self.new ≡ record self.old { fds = self.new.fds; graphs = self.new.graphs } }
    {
        if !is_within(&self.fds, session, to) {
            return Err(AllocError);
        }
        self.unlink_closed(session, to);
        move_fd(alloc, &mut self.fds, session, to)?;
        self.link_opened(alloc, to)
    }

    fn unlink_closed(&mut self, session: u8, to: FdMove)
        ensures { self.new ≡ record self.old { graphs = self.new.graphs } }
    {
        match to {
            FdMove::Closes { fd } => {
                if let Some(found) = self.fds.get(session, fd) {
                    self.graphs.nodes.release(found.gfid);
                }
            }
            _ => {}
        }
    }

    fn link_opened(&mut self, alloc: Global, to: FdMove) -> Result<(), AllocError>
        ensures { self.new ≡ record self.old { graphs = self.new.graphs } }
    {
        match to {
            FdMove::Opens { gfid, set, .. } => self.link(
                alloc,
                Object {
                    gfid,
                    kind: Kind::File,
                    set,
                },
            ),
            _ => Ok(()),
        }
    }

    /// A fop of a call is answered. Its holds are released, the calls that are let in go on, and then the call asks for
    /// its next fop's hold, or is replied to.
    ///
    /// # Errors
    /// As for `Hub::submit`.
    pub(crate) fn fop_answered(
        &mut self,
        alloc: Global,
        on: &Planned,
        call: u32,
        answer: FopAnswer,
        place: u32,
    ) -> Result<(), Stop> {
        let place = if has_place(&answer) {
            Some(place)
        } else {
            None
        };
        match self.fop_ended(alloc, on, call, place) {
            Ok(()) => self.after_fop(alloc, on, call, answer),
            Err(stop) => {
                drop(answer);
                Err(stop)
            }
        }
    }

    // The pages, the inodes and the holds of a fop are let go, and its place, if it has one, is kept.
    fn fop_ended(
        &mut self,
        alloc: Global,
        on: &Planned,
        call: u32,
        place: Option<u32>,
    ) -> Result<(), Stop> {
        if let Some(hold) = hold_next(&self.calls, &self.fds, on, call) {
            self.pages_ended(on, call, hold.first.gfid);
            self.unlink_all(hold);
        }
        self.release(alloc, on, call)?;
        if let Some(place) = place {
            self.calls.add_place(call, place)?;
        }
        Ok(())
    }

    // Where the fop of a call may have changed the bytes of a file, the pages of that go.
    fn pages_ended(&mut self, on: &Planned, call: u32, gfid: Gfid) {
        let Some(state) = self.calls.get(call) else {
            return;
        };
        let Some(line) = on.line(state.at) else {
            return;
        };
        if changes_bytes_next(&line.call, &state.walk) {
            self.graphs.drop_pages(gfid);
        }
    }

    fn after_fop(
        &mut self,
        alloc: Global,
        on: &Planned,
        call: u32,
        answer: FopAnswer,
    ) -> Result<(), Stop> {
        let Some(state) = self.calls.get(call) else {
            drop(answer);
            return Ok(());
        };
        let Some(line) = on.line(state.at) else {
            drop(answer);
            return Ok(());
        };
        match after_answer(&line.call, &state.walk, answer) {
            After::GoesOn(object) => self.go_on_from(alloc, on, call, object),
            After::Replies(reply) => self.reply(alloc, on, call, reply),
        }
    }

    // A lookup of a call has found this object: the call asks for its next fop's hold.
    fn go_on_from(
        &mut self,
        alloc: Global,
        on: &Planned,
        call: u32,
        object: Object,
    ) -> Result<(), Stop> {
        let Some(state) = self.calls.get(call) else {
            return Ok(());
        };
        let mut walk = state.walk;
        let Some(line) = on.line(state.at) else {
            return Ok(());
        };
        walk.step(&line.call, object);
        self.calls.go_on(call, walk);
        self.ask(alloc, on, call)
    }

    /// A call whose fop was refused is answered.
    ///
    /// # Errors
    /// As for `Hub::submit`.
    pub(crate) fn refuse(&mut self, alloc: Global, on: &Planned, call: u32) -> Result<(), Stop> {
        self.release(alloc, on, call)?;
        self.reply(
            alloc,
            on,
            call,
            CallReply {
                answer: Answer::App(AppError::Enoent),
                fd: FdMove::Stays,
            },
        )
    }

    /// A call, which holds nothing and has no fop in its graph, has its reply, and its descriptor is moved by it. Where it
    /// was the last of its graph, calls that waited for it go on.
    ///
    /// # Errors
    /// As for `Hub::submit`.
    pub(crate) fn reply(
        &mut self,
        alloc: Global,
        on: &Planned,
        call: u32,
        reply: CallReply,
    ) -> Result<(), Stop> {
        let last = self.finish(alloc, call, reply)?;
        if !last {
            return Ok(());
        }
        self.unpark(alloc, on)?;
        Ok(())
    }

    // A call has its reply, the next one of the log. It says whether it was the last of its graph.
    fn finish(&mut self, alloc: Global, call: u32, reply: CallReply) -> Result<bool, Stop>
        ensures { IfSome (call_at self.old.calls call) (λ state. OnOk result (self.new.calls ≡ with_reply_at (without_call self.old.calls call) call state.graph (min (self.old.turn.replies + length self.old.turn.lines.replies) (2 ^ 64 - 1)))) }
    {
        let Some(state) = self.calls.take(call) else {
            drop(reply);
            return Ok(false);
        };
        let graph = state.graph;
        let at = self.turn.reply_place();
        self.replied_with(alloc, call, state, reply)?;
        let last = self.calls.replied(call, graph, at);
        Ok(last)
    }

    // The reply of a call that was taken out is written down.
    fn replied_with(
        &mut self,
        alloc: Global,
        call: u32,
        state: CallState,
        reply: CallReply,
    ) -> Result<(), AllocError>
        ensures calls { self.new.calls ≡ self.old.calls }
        ensures line { OnOk result (self.new.turn.lines ≡ with_reply self.old.turn.lines (record { event = 0; call = call; session = state.session; line = state.line; places = state.places; answer = reply.answer })) }
    {
        let CallReply { answer, fd } = reply;
        let session = state.session;
        let line = ReplyLine {
            event: UNNUMBERED,
            call,
            session,
            line: state.line,
            places: state.places,
            answer,
        };
        match self.fd_moved(alloc, session, fd) {
            Ok(()) => { self.turn.lines.add_reply(line) }
            Err(error) => {
                drop(line);
                Err(error)
            }
        }
    }
}
