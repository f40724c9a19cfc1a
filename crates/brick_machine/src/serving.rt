//! Requests: what each makes of the state, and its answer.
ghost use Rattle.std.specs.Prelude.{◌≡◌, [], ◌∷◌, OnOk};
ghost use Rattle.fop_types.specs.declared.messages.OutKind.TheVariants.{Reply};
ghost use Rattle.fop_types.specs.declared.messages.BrickRep.TheVariants.{Done};
ghost use Rattle.fop_types.specs.declared.messages.DoneArm.TheVariants as done;
ghost use Rattle.brick_machine.specs.Connections.{with_fd};
ghost use Rattle.brick_machine.specs.State.{proc_of as proc_of_req};
ghost use Rattle.brick_machine.specs.Serving.{changed, served_now, served_late, request_down as request_while_down, request_up as request_while_up, request_served, is_late as is_late_in, with_one_less};
ghost use Rattle.brick_machine.specs.code.Outs.{put_out};

use crate::changes::change_cells;
use crate::outs::Outs;
use crate::state::State;
use brick_locks::Owner;
use fop_types::{BrickRep, BrickReq, Proc};
use std::alloc::{AllocError, Global};

fn proc_of(req: &BrickReq) -> Proc
    ensures { result ≡ proc_of_req req.now }
{
    match req {
        BrickReq::Lock { .. } => Proc::Lock,
        BrickReq::Unlock { .. } => Proc::Unlock,
        BrickReq::Mark { .. } => Proc::Mark,
        BrickReq::Op { .. } => Proc::Op,
        BrickReq::Post { .. } => Proc::Post,
        BrickReq::Fetch { .. } => Proc::Fetch,
        BrickReq::Replace { .. } => Proc::Replace,
        BrickReq::Clear { .. } => Proc::Clear,
        BrickReq::Settle { .. } => Proc::Settle,
        BrickReq::Index => Proc::Index,
        BrickReq::Open { .. } => Proc::Open,
        BrickReq::Release { .. } => Proc::Release,
    }
}

impl State {
    fn is_late(&self, graph: u32) -> bool
        ensures { result ≡ is_late_in self.now.down graph }
    {
        match &self.down {
            Some(late) => late.takes(graph),
            None => false,
        }
    }

    fn count_late(&mut self)
        ensures { self.new ≡ record self.old { down = with_one_less self.old.down } }
    {
        match &mut self.down {
            Some(late) => late.left = late.left.saturating_sub(1),
            None => {}
        }
    }

    // A change of cells, and whether it fits.
    fn change(
        &mut self,
        alloc: Global,
        outs: &mut Outs,
        wind: u64,
        req: BrickReq,
    ) -> Result<(), AllocError>
        ensures state { OnOk result (self.new ≡ (changed self.old wind req).state) }
        ensures outs { OnOk result (outs.new ≡ put_out outs.old (changed self.old wind req).outs) }
        ensures names { self.new.store.names ≡ self.old.store.names }
    {
        let fits = change_cells(&mut self.store, alloc, req)?;
        outs.changed(alloc, wind, fits)
    }

    fn open(
        &mut self,
        alloc: Global,
        outs: &mut Outs,
        wind: u64,
        graph: u32,
        fd: u32,
    ) -> Result<(), AllocError>
        ensures state { OnOk result (self.new ≡ record self.old { graphs = with_fd self.old.graphs graph fd }) }
        ensures outs { OnOk result (outs.new ≡ put_out outs.old (Reply wind (Done done.Nothing) ∷ [])) }
        ensures names { self.new.store.names ≡ self.old.store.names }
    {
        self.graphs.open(graph, fd)?;
        outs.done(alloc, wind)
    }

    fn serve_now(
        &mut self,
        alloc: Global,
        outs: &mut Outs,
        wind: u64,
        graph: u32,
        req: BrickReq,
    ) -> Result<(), AllocError>
        ensures state { OnOk result (self.new ≡ (served_now self.old wind graph req).state) }
        ensures outs { OnOk result (outs.new ≡ put_out outs.old (served_now self.old wind graph req).outs) }
        ensures names { self.new.store.names ≡ self.old.store.names }
    {
        match req {
            BrickReq::Lock {
                call,
                shared,
                cells,
            } => self.lock(alloc, outs, wind, Owner { graph, call }, shared, cells),
            BrickReq::Unlock { call } => self.unlock(alloc, outs, wind, Owner { graph, call }),
            BrickReq::Mark { change, cells } => {
                self.change(alloc, outs, wind, BrickReq::Mark { change, cells })
            }
            BrickReq::Op { change, fd, op } => {
                if !self.graphs.is_good(graph, fd) {
                    drop(op);
                    return outs.reply(alloc, wind, BrickRep::BadFd);
                }
                self.change(alloc, outs, wind, BrickReq::Op { change, fd, op })
            }
            BrickReq::Post {
                change,
                cells,
                mask,
            } => self.change(
                alloc,
                outs,
                wind,
                BrickReq::Post {
                    change,
                    cells,
                    mask,
                },
            ),
            BrickReq::Fetch { fd, cell } => {
                if !self.graphs.is_good(graph, fd) {
                    return outs.reply(alloc, wind, BrickRep::BadFd);
                }
                outs.fetch(alloc, &self.store, wind, &cell)
            }
            BrickReq::Replace {
                cell,
                last,
                content,
            } => self.change(
                alloc,
                outs,
                wind,
                BrickReq::Replace {
                    cell,
                    last,
                    content,
                },
            ),
            BrickReq::Clear { cells, mask } => {
                self.change(alloc, outs, wind, BrickReq::Clear { cells, mask })
            }
            BrickReq::Settle { cells, mask } => {
                self.change(alloc, outs, wind, BrickReq::Settle { cells, mask })
            }
            BrickReq::Index => outs.index(alloc, &self.store, wind),
            BrickReq::Open { fd, .. } => self.open(alloc, outs, wind, graph, fd),
            BrickReq::Release { fd } => {
                if !self.graphs.is_good(graph, fd) {
                    return outs.reply(alloc, wind, BrickRep::BadFd);
                }
                self.graphs.release(graph, fd);
                outs.done(alloc, wind)
            }
        }
    }

    fn serve_late(
        &mut self,
        alloc: Global,
        outs: &mut Outs,
        wind: u64,
        req: BrickReq,
    ) -> Result<(), AllocError>
        ensures state { OnOk result (self.new ≡ (served_late self.old wind req).state) }
        ensures outs { OnOk result (outs.new ≡ put_out outs.old (served_late self.old wind req).outs) }
        ensures names { self.new.store.names ≡ self.old.store.names }
    {
        let _fits = change_cells(&mut self.store, alloc, req)?;
        outs.reply(alloc, wind, BrickRep::Gone)
    }

    fn request_down(
        &mut self,
        alloc: Global,
        outs: &mut Outs,
        wind: u64,
        graph: u32,
        req: BrickReq,
    ) -> Result<(), AllocError>
        ensures state { OnOk result (self.new ≡ (request_while_down self.old wind graph req).state) }
        ensures outs { OnOk result (outs.new ≡ put_out outs.old (request_while_down self.old wind graph req).outs) }
        ensures names { self.new.store.names ≡ self.old.store.names }
    {
        if !self.is_late(graph) {
            drop(req);
            return outs.reply(alloc, wind, BrickRep::Gone);
        }
        self.count_late();
        if self.faults.take(proc_of(&req)) {
            drop(req);
            return outs.reply(alloc, wind, BrickRep::Fault);
        }
        self.serve_late(alloc, outs, wind, req)
    }

    fn request_up(
        &mut self,
        alloc: Global,
        outs: &mut Outs,
        wind: u64,
        graph: u32,
        req: BrickReq,
    ) -> Result<(), AllocError>
        ensures state { OnOk result (self.new ≡ (request_while_up self.old wind graph req).state) }
        ensures outs { OnOk result (outs.new ≡ put_out outs.old (request_while_up self.old wind graph req).outs) }
        ensures names { self.new.store.names ≡ self.old.store.names }
    {
        if !self.graphs.is_connected(graph) {
            drop(req);
            return outs.reply(alloc, wind, BrickRep::Gone);
        }
        if self.faults.take(proc_of(&req)) {
            drop(req);
            return outs.reply(alloc, wind, BrickRep::Fault);
        }
        self.serve_now(alloc, outs, wind, graph, req)
    }

    /// Serves a request, or gives it up.
    pub(crate) fn request(
        &mut self,
        alloc: Global,
        outs: &mut Outs,
        wind: u64,
        graph: u32,
        req: BrickReq,
    ) -> Result<(), AllocError>
        ensures state { OnOk result (self.new ≡ (request_served self.old wind graph req).state) }
        ensures outs { OnOk result (outs.new ≡ put_out outs.old (request_served self.old wind graph req).outs) }
        ensures names { self.new.store.names ≡ self.old.store.names }
    {
        if self.down.is_some() {
            return self.request_down(alloc, outs, wind, graph, req);
        }
        self.request_up(alloc, outs, wind, graph, req)
    }
}
